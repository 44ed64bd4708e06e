// Labels (names) of two sheets matched (document 02, L2): an index of labels by their bytes, and the joined numbers of the second sheet's actions.
#![tactic(auto)]

ghost use Rattle.std.specs.Prelude.{ℕ, ◌+◌, ◌*◌, ◌<◌, ◌≤◌, max, ◌≡◌, cond, List, [], ◌∷◌, ◌++◌, length};
ghost use Rattle.std.proofs.lemmas.List.Edits.{sets};
ghost use Rattle.lts.specs.Places.{among, place_in};
ghost use Rattle.lts.specs.Labels.{same_label, joined_labels};
ghost use Rattle.encoding.specs.Labels.{labels_in, labels_bytes};
ghost use Rattle.encoding.specs.Checked.{Sized, ReadableAs};
ghost use Rattle.labels.specs.Index.{low_word, high_word, Indexed};
ghost use Rattle.labels.specs.Maps.{Matches, Joining, Begins};

// For each place of a label, and each low and each high half of a byte, the set of the labels that have it there: 32 words a place. (An index by
// whole bytes takes 32 KiB, which the cache feels in calls that have no names.)
pub type Index = [u64; 512];

// Which word has the labels with the low half of byte v at place d.
fn low_word(d: usize, v: u8) -> usize
    requires { d < 16 }
    ensures { (result ≡ low_word d v) × (result < 512) }
{
    32 * d + usize::from(v % 16)
}

// And with its high half.
fn high_word(d: usize, v: u8) -> usize
    requires { d < 16 }
    ensures { (result ≡ high_word d v) × (result < 512) }
{
    32 * d + 16 + usize::from(v / 16)
}

// Puts label number i, from 0, into the index of those before it.
pub fn add_label(index: &mut Index, i: usize, label: encoding::LabelRecord)
    requires { (i < 64) × ((J : List (List ℕ)) × Indexed J index.old × (i ≡ length J)) }
    ensures { (J : List (List ℕ)) → Indexed J index.old → i ≡ length J → Indexed (J ++ (label.bytes ∷ [])) index.new }
{
    for (d, &v) in label.bytes.iter().enumerate() {
        rows::insert(index, low_word(d, v) * 64 + i);
        rows::insert(index, high_word(d, v) * 64 + i);
    }
}

// The number, from 0, of the label in the index; 64 where it is not there.
pub fn find_label(index: &Index, label: encoding::LabelRecord) -> usize
    ensures { (J : List (List ℕ)) → Indexed J index.now
        → result ≡ cond (among same_label J label.bytes) (place_in same_label J label.bytes) 64 }
{
    let mut set = u64::MAX;
    for (at, &v) in label.bytes.iter().enumerate() {
        set &= index[low_word(at, v)] & index[high_word(at, v)];
    }
    // A word with no ones has 64 trailing zeros.
    set.trailing_zeros() as usize
}

// The index of a sheet's labels.
fn index_labels(s: &[u8], h: encoding::Header) -> Index
    requires { ReadableAs s.now h }
    ensures { Indexed (labels_in s.now h) result }
{
    let mut index = [0u64; 512];
    for i in 0..h.actions {
        add_label(&mut index, i, encoding::label(s, h, i + 1));
    }
    index
}

// Lets each action of the second sheet go to the number of its label, where m labels of the first are in the index; the number of joined labels.
fn match_labels(
    index: &Index,
    m: usize,
    s: &[u8],
    h: encoding::Header,
    to: &mut transitions::ActionMap,
) -> usize
    requires { ReadableAs s.now h × (length to.old ≡ 65) × ((A : List (List ℕ)) × Indexed A index.now × (m ≡ length A)) }
    ensures by_index { (A : List (List ℕ)) → Indexed A index.now → m ≡ length A → result ≡ length (joined_labels A (labels_in s.now h)) }
    ensures by_index_2 { (A : List (List ℕ)) → Indexed A index.now → m ≡ length A
        → Matches A (labels_in s.now h) h.actions to.new }
{
    let mut count = m;
    for i in 0..h.actions {
        let place = find_label(index, encoding::label(s, h, i + 1));
        if place < 64 {
            to[i + 1] = (place + 1) as u16;
        } else {
            count += 1;
            to[i + 1] = count as u16;
        }
    }
    count
}

// The joined labels of two sheets: how many they are, and in `to` the number of each action of the second.
pub fn join_labels(
    first: &[u8],
    h: encoding::Header,
    second: &[u8],
    g: encoding::Header,
    to: &mut transitions::ActionMap,
) -> usize
    requires { ReadableAs first.now h × ReadableAs second.now g × (length to.old ≡ 65) }
    ensures value { result ≡ length (joined_labels (labels_in first.now h) (labels_in second.now g)) }
    ensures cases { Matches (labels_in first.now h) (labels_in second.now g) g.actions to.new }
{
    if !(h.named | g.named) {
        transitions::keep_actions(to, g.actions);
        return h.actions.max(g.actions);
    }
    let index = index_labels(first, h);
    match_labels(&index, h.actions, second, g, to)
}

// Writes the labels of a sheet, one after the other, from `at` on.
pub fn put_labels(s: &[u8], h: encoding::Header, out: &mut [u8], at: usize)
    requires { Sized s.now h × (at + 16 * h.actions ≤ length out.old) }
    ensures { out.new ≡ sets out.old at (labels_bytes (labels_in s.now h)) }
{
    for i in 0..h.actions {
        let label = encoding::label(s, h, i + 1);
        label.put(out, at + encoding::LabelRecord::BYTES * i);
    }
}

// Writes those labels of the second sheet that go to numbers above m behind the first's m.
fn put_new(s: &[u8], h: encoding::Header, to: &transitions::ActionMap, m: usize, out: &mut [u8])
    requires { ReadableAs s.now h × ((A : List (List ℕ)) × Joining A (labels_in s.now h) m to.now out.old) }
    ensures { (A : List (List ℕ)) → Joining A (labels_in s.now h) m to.now out.old
        → Begins out.new (labels_bytes (joined_labels A (labels_in s.now h))) }
{
    for i in 0..h.actions {
        let a = rows::wide(to[i + 1]);
        if m < a {
            let label = encoding::label(s, h, i + 1);
            label.put(out, encoding::LabelRecord::BYTES * (a - 1));
        }
    }
}

// Writes the joined labels of two sheets, one after the other, at the start of the buffer.
pub fn put_joined(
    first: &[u8],
    h: encoding::Header,
    second: &[u8],
    g: encoding::Header,
    to: &transitions::ActionMap,
    out: &mut [u8],
)
    requires readable_as { ReadableAs first.now h × ReadableAs second.now g × (length out.old ≡ 1024) }
    requires cases { Matches (labels_in first.now h) (labels_in second.now g) g.actions to.now
        × (length (joined_labels (labels_in first.now h) (labels_in second.now g)) ≤ 64) }
    ensures { Begins out.new (labels_bytes (joined_labels (labels_in first.now h) (labels_in second.now g))) }
{
    put_labels(first, h, out, 0);
    put_new(second, g, to, h.actions, out);
}
