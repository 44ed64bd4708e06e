// The blocks of a relation as a list of sets (set p is the block of p), and the pending ones (document 01, "Turns"); blocks of a bit matrix counted and named.
// An array that a call gives is bound before it is stored, as in `let rest = f(left); left = rest;`: the check does not cover `left = f(left);`.
#![tactic(auto)]

ghost use Rattle.std.specs.Prelude.{◌≡◌, true, false, cond, ◌&&◌, ◌||◌, ℕ, ◌+◌, ◌*◌, ◌%◌, ◌<◌, ◌≤◌, eqb, length, get_or};
ghost use Rattle.std.specs.Bool.{xor};
ghost use Rattle.lts.specs.Bounded.{any_below, count_below, passing, list_below, lowest};
ghost use Rattle.lts.specs.System.{Set};
ghost use Rattle.lts.specs.Refinement.{block};
ghost use Rattle.rows.specs.Rows.{in_row, row_of};
ghost use Rattle.sets.specs.Sets.{set_at, sets_of};
ghost use Rattle.sets.specs.Parts.{Parted, Owned};
ghost use Rattle.relation.specs.Matrix.{relation_of, Matrix};
ghost use Rattle.partition.specs.Pending.{pending_in, Singles, Reflexive, Ordered, Grown};

// Puts the set `row` into the place of each member.
pub fn set_rows(list: &mut [u64], members: [u64; 4], row: [u64; 4])
    requires { length list.old ≡ 1024 }
    ensures { list.new ≡ sets_of 256 (λ p q. cond (in_row members p) (in_row row q) (set_at list.old p q)) }
{
    for c in 0..4 {
        for i in rows::ones(members[c]) {
            sets::put(list, 64 * c + i, row);
        }
    }
}

// The members whose sets in the two lists differ.
fn differing(a: &[u64], b: &[u64], members: [u64; 4]) -> [u64; 4]
    requires { (length a.now ≡ 1024) × (length b.now ≡ 1024) }
    ensures { result ≡ row_of 4 (λ p. in_row members p && any_below 256 (λ q. xor (set_at a.now p q) (set_at b.now p q))) }
{
    let mut out = [0u64; 4];
    for c in 0..4 {
        let mut word = 0;
        for i in rows::ones(members[c]) {
            let p = 64 * c + i;
            word |= u64::from(sets::differ(sets::at(a, p), sets::at(b, p))) << i;
        }
        out[c] = word;
    }
    out
}

// Puts the block's lowest state into the set of pending representatives, if its sets differ.
fn update_block(related: &[u64], viewed: &[u64], block: [u64; 4], pending: &mut [u64])
    requires { (length related.now ≡ 1024) × (length viewed.now ≡ 1024) × (length pending.old ≡ 4) × (lowest 256 (in_row block) < 256) }
    ensures { let low = lowest 256 (in_row block) in
        pending.new ≡ row_of 4 (λ x. (any_below 256 (λ q. xor (set_at viewed.now low q) (set_at related.now low q)) && eqb x low)
        || in_row pending.old x) }
{
    let low = rows::lowest_state(&block, 4);
    if sets::differ(sets::at(viewed, low), sets::at(related, low)) {
        rows::insert(pending, low);
    }
}

// Brings the set of pending representatives up to date, a block at a time: it is right at the states that are not members.
fn update_blocks(
    related: &[u64],
    viewed: &[u64],
    blocks: &[u64],
    members: [u64; 4],
    pending: &mut [u64],
)
    requires related_len { (length related.now ≡ 1024) × (length viewed.now ≡ 1024) × (length blocks.now ≡ 1024) × (length pending.old ≡ 4) }
    requires owned { ((S : Set) × Parted (set_at blocks.now) S) × Owned (set_at blocks.now) (in_row members) }
    requires by_index { (p : ℕ) → p < 256 → in_row members p ≡ false
        → in_row pending.old p ≡ pending_in 256 (set_at related.now) (set_at viewed.now) (set_at blocks.now) p }
    ensures { pending.new
        ≡ row_of 4 (pending_in 256 (set_at related.now) (set_at viewed.now) (set_at blocks.now)) }
{
    let mut left = members;
    let mut p = rows::next_state(&left, 4, 0);
    while p < 256 {
        let block = sets::at(blocks, p);
        rows::row_minus(pending, &block, 4);
        update_block(related, viewed, block, pending);
        let rest = sets::minus(left, block);
        left = rest;
        p = rows::next_state(&left, 4, p + 1);
    }
}

// Brings the set of pending representatives up to date: it is right at the states that are not in `touched`.
pub fn update_pending(
    related: &[u64],
    viewed: &[u64],
    blocks: &[u64],
    shared: [u64; 4],
    touched: [u64; 4],
    pending: &mut [u64],
)
    requires related_len { (length related.now ≡ 1024) × (length viewed.now ≡ 1024) × (length blocks.now ≡ 1024) × (length pending.old ≡ 4) }
    requires parted { Parted (set_at blocks.now) (in_row shared) × Owned (set_at blocks.now) (in_row touched) }
    requires by_index { (p : ℕ) → p < 256 → in_row touched p ≡ false
        → in_row pending.old p ≡ pending_in 256 (set_at related.now) (set_at viewed.now) (set_at blocks.now) p }
    ensures { pending.new
        ≡ row_of 4 (pending_in 256 (set_at related.now) (set_at viewed.now) (set_at blocks.now)) }
{
    let alone = sets::minus(touched, shared);
    let open = differing(viewed, related, alone);
    rows::row_minus(pending, &alone, 4);
    rows::row_union(pending, &open, 4);
    update_blocks(
        related,
        viewed,
        blocks,
        sets::meet(touched, shared),
        pending,
    );
}

// Whether g is the one member of the block.
fn is_single(block: [u64; 4], g: usize) -> bool
    requires { g < 256 }
    ensures { result ≡ true → (h : ℕ) → h < 256 → in_row block h ≡ true → h ≡ g }
{
    (rows::next_state(&block, 4, 0) == g) & (256 <= rows::next_state(&block, 4, g + 1))
}

// The members that are alone in their block, a block at a time.
pub fn single_rows(blocks: &[u64], members: [u64; 4]) -> [u64; 4]
    requires { length blocks.now ≡ 1024 }
    ensures { Singles (set_at blocks.now) (in_row result) }
{
    let mut out = [0u64; 4];
    let mut left = members;
    let mut g = rows::next_state(&left, 4, 0);
    while g < 256 {
        let block = sets::at(blocks, g);
        if is_single(block, g) {
            rows::insert(&mut out, g);
        }
        let rest = sets::minus(left, block);
        left = rest;
        g = rows::next_state(&left, 4, g + 1);
    }
    out
}

// Whether a block is pending. The set is read word by word, as it was written.
pub fn any_pending(pending: &[u64; 4]) -> bool
    ensures { result ≡ any_below 256 (in_row pending.now) }
{
    rows::lowest_state(pending, 4) < 256
}

// The pending representative that number `step` of the schedule chooses, or number 0 when the schedule is used up.
pub fn next_block(pending: &[u64; 4], schedule: &[u16], step: usize) -> usize
    requires { any_below 256 (in_row pending.now) ≡ true }
    ensures { let names = passing 256 (in_row pending.now) in
        result ≡ get_or names (get_or schedule.now step 0 % length names) 0 }
{
    if step < schedule.len() {
        let e = usize::from(schedule[step]);
        return sets::member_at(pending, e % rows::row_count(pending, 4));
    }
    rows::lowest_state(pending, 4)
}

// The block of p in a preorder. A q above p that is not below it takes all that q is related to out of the search.
fn block_of(related: &[u64], p: usize) -> [u64; 4]
    requires { (length related.now ≡ 1024) × (p < 256) × ((n : ℕ) × Ordered n (set_at related.now)) }
    ensures { result ≡ row_of 4 (block (set_at related.now) p) }
{
    let mut out = [0u64; 4];
    let mut left = sets::at(related, p);
    let mut q = rows::next_state(&left, 4, 0);
    while q < 256 {
        let above = sets::at(related, q);
        if rows::contains(&above, p) {
            rows::insert(&mut out, q);
        } else {
            let rest = sets::minus(left, above);
            left = rest;
        }
        q = rows::next_state(&left, 4, q + 1);
    }
    out
}

// Writes the block of p into the places of its members, if it is not written yet.
fn write_block(related: &[u64], p: usize, blocks: &mut [u64], written: &mut [u64])
    requires related_len { (length related.now ≡ 1024) × (p < 256) × ((n : ℕ) × Ordered n (set_at related.now) × (p < n)) × (length written.old ≡ 4) }
    requires blocks_value { blocks.old ≡ sets_of 256 (λ g h. in_row written.old g && block (set_at related.now) g h) }
    ensures blocks_after { blocks.new ≡ sets_of 256 (λ g h. in_row written.new g && block (set_at related.now) g h) }
    ensures grown { Grown p written.old written.new }
{
    if rows::contains(written, p) {
        return;
    }
    let members = block_of(related, p);
    set_rows(blocks, members, members);
    rows::row_union(written, &members, 4);
}

// Writes the block of each state below n into its place, a block at a time.
pub fn write_blocks(related: &[u64], n: usize, blocks: &mut [u64])
    requires { (n ≤ 256) × (length related.now ≡ 1024) × Ordered n (set_at related.now) × (blocks.old ≡ sets_of 256 (λ p q. false)) }
    ensures { blocks.new ≡ sets_of 256 (block (set_at related.now)) }
{
    let mut written = [0u64; 4];
    for p in 0..n {
        write_block(related, p, blocks, &mut written);
    }
}

// How many blocks there are: the states that are their block's lowest.
pub fn count_blocks(blocks: &[u64], n: usize) -> usize
    requires { (n ≤ 256) × Matrix n blocks.now }
    ensures { result ≡ count_below n (λ p. eqb (lowest n (relation_of n blocks.now p)) p) }
{
    let w = rows::row_words(n);
    let mut total = 0;
    for p in 0..n {
        if rows::lowest_state(relation::row_at(blocks, n, p), w) == p {
            total += 1;
        }
    }
    total
}

// Writes each state's representative, the lowest state of its block.
pub fn write_names(blocks: &[u64], n: usize, names: &mut [u16])
    requires { (n ≤ 256) × Matrix n blocks.now × Reflexive n (relation_of n blocks.now) × (length names.old ≡ n) }
    ensures { names.new ≡ list_below n (λ p. lowest n (relation_of n blocks.now p)) }
{
    let w = rows::row_words(n);
    for (p, name) in names.iter_mut().enumerate() {
        let low = rows::lowest_state(relation::row_at(blocks, n, p), w);
        *name = low as u16;
    }
}
