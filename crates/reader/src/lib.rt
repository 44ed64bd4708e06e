// Reads an encoding (document 01, "The sheet"; document 02, L1 and L2): its header, or the first rule that it breaks, with the record that is off its chain.
#![tactic(auto)]

ghost use Rattle.std.specs.Prelude.{ℕ, ◌+◌, ◌*◌, ◌<◌, ◌≤◌, ◌≡◌, true, false, not, ◌&&◌, List, map, eqb, leb, length, get_or, drop};
ghost use Rattle.lts.specs.Bounded.{list_below, lowest};
ghost use Rattle.lts.specs.Places.{among};
ghost use Rattle.lts.specs.Labels.{same_label};
ghost use Rattle.lts.specs.Rule.{First, broken};
ghost use Rattle.encoding.specs.Records.{state_record, transition_record};
ghost use Rattle.encoding.specs.Encoding.{state_fits, transition_fits, states_fit, transitions_fit, chain, reached, on_some_chain, named_twice};
ghost use Rattle.encoding.specs.Encoding.{successor, successors_fit, headed_rules, read_encoding};
ghost use Rattle.encoding.specs.Labels.{label_fits, labels_fit};
ghost use Rattle.encoding.specs.Checked.{Sized, Recorded, chains_fit};
ghost use Rattle.encoding.specs.Read.{reading_reply, ReadPromise};
ghost use Rattle.labels.specs.Index.{Indexed};
ghost use Rattle.reader.specs.Marks.{fresh, marked, ReachedBelow, Counted};

// Whether a label is a good one and not in the index.
fn fits_anew(index: &labels::Index, label: encoding::LabelRecord) -> bool
    ensures { (J : List (List ℕ)) → Indexed J index.now → result ≡ label_fits label.bytes && not (among same_label J label.bytes) }
{
    label.fits() & (labels::find_label(index, label) == 64)
}

// Rule 17, over all labels of a named sheet.
fn named_fit(s: &[u8], h: encoding::Header) -> bool
    requires { (Sized s.now h) × (h.named ≡ true) }
    ensures { result ≡ labels_fit s.now h }
{
    let mut index = [0u64; 512];
    for i in 0..h.actions {
        let label = encoding::label(s, h, i + 1);
        if !fits_anew(&index, label) {
            return false;
        }
        labels::add_label(&mut index, i, label);
    }
    true
}

// Rule 17, which a plain sheet keeps.
fn labels_fit(s: &[u8], h: encoding::Header) -> bool
    requires { Sized s.now h }
    ensures { result ≡ labels_fit s.now h }
{
    if !h.named {
        return true;
    }
    named_fit(s, h)
}

// Rule 3, of state p.
fn state_fits(s: &[u8], h: encoding::Header, p: usize) -> bool
    requires { (Sized s.now h) × (p < h.states) }
    ensures { result ≡ state_fits h (state_record s.now h p) }
{
    encoding::state_record(s, h, p).fits(h)
}

// Rule 4, of record j.
fn transition_fits(s: &[u8], h: encoding::Header, j: usize) -> bool
    requires { (Sized s.now h) × (1 ≤ j) × (j ≤ h.transitions) }
    ensures { result ≡ transition_fits h (transition_record s.now h j) }
{
    encoding::transition_record(s, h, j).fits(h)
}

// Rule 3, over all state records.
fn states_fit(s: &[u8], h: encoding::Header) -> bool
    requires { Sized s.now h }
    ensures { result ≡ states_fit s.now h }
{
    (0..h.states).all(|p| state_fits(s, h, p))
}

// Rule 4, over all transition records.
fn transitions_fit(s: &[u8], h: encoding::Header) -> bool
    requires { Sized s.now h }
    ensures { result ≡ transitions_fit s.now h }
{
    (0..h.transitions).all(|i| transition_fits(s, h, i + 1))
}

// Marks the records of state p's chain; false where one is marked already. The chain is followed for at most one record
// more than there are.
fn mark_chain(s: &[u8], h: encoding::Header, p: usize, seen: &mut [u8; 1025]) -> bool
    requires { (Recorded s.now h) × (p < h.states) }
    ensures value { result ≡ fresh 1 seen.old (chain s.now h p) }
    ensures seen_after { result ≡ true → seen.new ≡ marked 1 seen.old (chain s.now h p) }
{
    let mut j = encoding::first_of(s, h, p);
    for _ in 0..h.transitions + 1 {
        if j == 0 {
            return true;
        }
        if seen[j] == 1 {
            return false;
        }
        seen[j] = 1;
        j = encoding::known_transition(s, h, j).next;
    }
    true
}

// Marks the records of all chains; false where one is reached twice.
fn mark_chains(s: &[u8], h: encoding::Header, seen: &mut [u8; 1025]) -> bool
    requires { Recorded s.now h }
    ensures value { result ≡ fresh 1 seen.old (reached s.now h h.states) }
    ensures seen_after { result ≡ true → seen.new ≡ marked 1 seen.old (reached s.now h h.states) }
{
    for p in 0..h.states {
        if !mark_chain(s, h, p, seen) {
            return false;
        }
    }
    true
}

// The lowest i below k for which record i + 1 is not marked; k where each is.
fn lowest_unmarked(k: usize, seen: &[u8; 1025]) -> usize
    requires { k ≤ 1024 }
    ensures { result ≡ lowest k (λ i. not (eqb (get_or seen.now (i + 1) 0) 1)) }
{
    for i in 0..k {
        if seen[i + 1] != 1 {
            return i;
        }
    }
    k
}

// Rules 5 and 16: each record is on one chain, once.
fn chains_fit(s: &[u8], h: encoding::Header) -> bool
    requires { Recorded s.now h }
    ensures { result ≡ chains_fit s.now h }
{
    let mut seen = [0u8; 1025];
    if !mark_chains(s, h, &mut seen) {
        return false;
    }
    let k = h.transitions;
    lowest_unmarked(k, &seen) == k
}

// Marks the records of state p's chain, up to the first that is marked already.
fn reach_chain(s: &[u8], h: encoding::Header, p: usize, seen: &mut [u8; 1025])
    requires { (Recorded s.now h) × (p < h.states) × (ReachedBelow s.now h p seen.old) }
    ensures { ReachedBelow s.now h (p + 1) seen.new }
{
    let mut j = encoding::first_of(s, h, p);
    while j != 0 {
        if seen[j] == 1 {
            return;
        }
        seen[j] = 1;
        j = encoding::known_transition(s, h, j).next;
    }
}

// The lowest i below k for which record i + 1 is on no chain; k where each is on some.
fn lowest_unreached(s: &[u8], h: encoding::Header) -> usize
    requires { Recorded s.now h }
    ensures { result ≡ lowest h.transitions (λ i. not (on_some_chain s.now h (i + 1))) }
{
    let mut seen = [0u8; 1025];
    for p in 0..h.states {
        reach_chain(s, h, p, &mut seen);
    }
    lowest_unmarked(h.transitions, &seen)
}

// Counts the first indices by the records that they name.
fn count_firsts(s: &[u8], h: encoding::Header, named: &mut [u16; 1025])
    requires { (Recorded s.now h) × (length named.old ≡ 1025) × ((j : ℕ) → get_or named.old j 0 ≤ 256) }
    ensures { Counted (list_below h.states (λ p. (state_record s.now h p).first)) named.old named.new }
{
    for p in 0..h.states {
        named[encoding::first_of(s, h, p)] += 1;
    }
}

// Counts the next indices by the records that they name.
fn count_nexts(s: &[u8], h: encoding::Header, named: &mut [u16; 1025])
    requires { (Recorded s.now h) × (length named.old ≡ 1025) × ((j : ℕ) → get_or named.old j 0 ≤ 256) }
    ensures { Counted (list_below h.transitions (λ i. (transition_record s.now h (i + 1)).next)) named.old named.new }
{
    for i in 0..h.transitions {
        named[encoding::known_transition(s, h, i + 1).next] += 1;
    }
}

// The lowest i below k for which record i + 1 is counted twice; k where none is.
fn lowest_counted_twice(k: usize, named: &[u16; 1025]) -> usize
    requires { k ≤ 1024 }
    ensures { result ≡ lowest k (λ i. leb 2 (get_or named.now (i + 1) 0)) }
{
    for i in 0..k {
        if named[i + 1] >= 2 {
            return i;
        }
    }
    k
}

// The lowest i below k for which two indices name record i + 1; k where no record is so named.
fn lowest_named_twice(s: &[u8], h: encoding::Header) -> usize
    requires { Recorded s.now h }
    ensures { result ≡ lowest h.transitions (λ i. named_twice s.now h (i + 1)) }
{
    let mut named = [0u16; 1025];
    count_firsts(s, h, &mut named);
    count_nexts(s, h, &mut named);
    lowest_counted_twice(h.transitions, &named)
}

// The refusal of an encoding with a record on no chain or reached twice.
fn chain_refusal(s: &[u8], h: encoding::Header) -> lts::Refusal
    requires { (Recorded s.now h) × (chains_fit s.now h ≡ false) }
    ensures { broken (drop 6 (headed_rules s.now h)) ≡ First result }
{
    let k = h.transitions;
    let i = lowest_unreached(s, h);
    if i < k {
        return lts::Refusal::Unreached((i + 1) as u16);
    }
    let j = lowest_named_twice(s, h);
    lts::Refusal::ReachedTwice((j + 1) as u16)
}

// Stamps the actions and targets of state p's chain with p + 1; false where one is stamped so already.
fn stamp_chain(s: &[u8], h: encoding::Header, p: usize, stamps: &mut [u16]) -> bool
    requires { (Recorded s.now h) × (p < h.states) × (256 * (h.actions + 1) ≤ length stamps.old) }
    ensures value { result ≡ fresh (p + 1) stamps.old (map (successor s.now h) (chain s.now h p)) }
    ensures stamps_after { let l = map (successor s.now h) (chain s.now h p) in
        result ≡ true → stamps.new ≡ marked (p + 1) stamps.old l }
{
    let stamp = (p + 1) as u16;
    let mut j = encoding::first_of(s, h, p);
    for _ in 0..h.transitions + 1 {
        if j == 0 {
            return true;
        }
        let r = encoding::known_transition(s, h, j);
        let at = 256 * (r.action as usize) + r.target;
        if stamps[at] == stamp {
            return false;
        }
        stamps[at] = stamp;
        j = r.next;
    }
    true
}

// Rule 6, by stamps that are all 0.
fn successors_stamped(s: &[u8], h: encoding::Header, stamps: &mut [u16]) -> bool
    requires { (Recorded s.now h) × (256 * (h.actions + 1) ≤ length stamps.old) × ((i : ℕ) → get_or stamps.old i 0 ≡ 0) }
    ensures { result ≡ successors_fit s.now h }
{
    for p in 0..h.states {
        if !stamp_chain(s, h, p, stamps) {
            return false;
        }
    }
    true
}

// Rule 6, with an array of this size: a small one is cleared sooner.
fn successors_in<const SIZE: usize>(s: &[u8], h: encoding::Header) -> bool
    requires { (Recorded s.now h) × (256 * (h.actions + 1) ≤ SIZE) × (SIZE ≤ 16640) }
    ensures { result ≡ successors_fit s.now h }
{
    let mut stamps = [0u16; SIZE];
    successors_stamped(s, h, &mut stamps)
}

// Rule 6.
fn successors_fit(s: &[u8], h: encoding::Header) -> bool
    requires { Recorded s.now h }
    ensures { result ≡ successors_fit s.now h }
{
    if h.actions <= 4 {
        return successors_in::<1280>(s, h);
    }
    successors_in::<16640>(s, h)
}

// Reads an encoding: its header, or the first rule that it breaks.
pub fn read_encoding(s: &[u8]) -> Result<encoding::Header, lts::Refusal>
    ensures value { result ≡ read_encoding s.now }
    ensures read_promise { ReadPromise s.now (reading_reply result) }
{
    if s.len() < encoding::Header::BYTES {
        return Err(lts::Refusal::Length);
    }
    let h = encoding::Header::read(s);
    if !h.in_range() {
        return Err(lts::Refusal::Range);
    }
    if s.len() != h.length() {
        return Err(lts::Refusal::Length);
    }
    if !labels_fit(s, h) {
        return Err(lts::Refusal::Label);
    }
    if !states_fit(s, h) {
        return Err(lts::Refusal::StateRecord);
    }
    if !transitions_fit(s, h) {
        return Err(lts::Refusal::TransitionRecord);
    }
    if !chains_fit(s, h) {
        return Err(chain_refusal(s, h));
    }
    if !successors_fit(s, h) {
        return Err(lts::Refusal::Repeated);
    }
    Ok(h)
}
