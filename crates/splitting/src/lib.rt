// One action of a refinement step on lists of sets (document 01, "Turns"): the split of the blocks by Rem, and the pairs that it refutes.
// An array that a call gives is bound before it is stored, as in `let next = f(out); out = next;`: the check does not cover `out = f(out);`.
#![tactic(auto)]

ghost use Rattle.std.specs.Prelude.{◌≡◌, cond, not, ◌&&◌, ◌||◌, ◌+◌, ◌*◌, ◌<◌, eqb, length};
ghost use Rattle.lts.specs.Bounded.{any_below};
ghost use Rattle.lts.specs.System.{Set};
ghost use Rattle.rows.specs.Rows.{in_row, row_of};
ghost use Rattle.sets.specs.Sets.{set_at, sets_of, updated};
ghost use Rattle.sets.specs.Parts.{Parted, Owned};
ghost use Rattle.splitting.specs.Split.{split_related, split_blocks, without, Unsplit, Meets, Pruned, Acted};

// The set with the block, if Rem splits the block.
fn with_split(out: [u64; 4], block: [u64; 4], rem: [u64; 4]) -> [u64; 4]
    ensures { result ≡ cond (any_below 256 (λ h. in_row block h && not (in_row rem h))) (row_of 4 (λ q. in_row out q || in_row block q)) out }
{
    if sets::any(sets::minus(block, rem)) {
        return sets::join(out, block);
    }
    out
}

// The states of the blocks that Rem splits, a block at a time. Only a state of `shared` is in a block with another.
fn sweep_split(blocks: &[u64], shared: [u64; 4], rem: [u64; 4]) -> [u64; 4]
    requires { (length blocks.now ≡ 1024) × Parted (set_at blocks.now) (in_row shared) }
    ensures { Unsplit (set_at blocks.now) (in_row rem) (in_row result) }
{
    let mut out = [0u64; 4];
    let mut left = sets::meet(rem, shared);
    let mut x = rows::next_state(&left, 4, 0);
    while x < 256 {
        let block = sets::at(blocks, x);
        let next = with_split(out, block, rem);
        out = next;
        let rest = sets::minus(left, block);
        left = rest;
        x = rows::next_state(&left, 4, x + 1);
    }
    out
}

// The states whose block has a member of the set. A state that is there is passed over: its block is there.
fn joined(blocks: &[u64], set: [u64; 4]) -> [u64; 4]
    requires { (length blocks.now ≡ 1024) × ((S : Set) × Parted (set_at blocks.now) S) }
    ensures { Meets (set_at blocks.now) (in_row set) (in_row result) }
{
    let mut out = [0u64; 4];
    for c in 0..4 {
        let mut left = set[c] & !out[c];
        // No `rows::ones` here: what is left also loses the states of each block that is added.
        while left != 0 {
            let block = sets::at(blocks, 64 * c + left.trailing_zeros() as usize);
            left = left & (left - 1) & !block[c];
            let next = sets::join(out, block);
            out = next;
        }
    }
    out
}

// The states of the blocks that Rem splits; none, if Rem's members in `shared` are whole blocks.
fn split_rows(blocks: &[u64], shared: [u64; 4], rem: [u64; 4]) -> [u64; 4]
    requires { (length blocks.now ≡ 1024) × Parted (set_at blocks.now) (in_row shared) }
    ensures { Unsplit (set_at blocks.now) (in_row rem) (in_row result) }
{
    let cut = sets::meet(rem, shared);
    if !sets::any(cut) {
        return [0u64; 4];
    }
    let whole = joined(blocks, cut);
    if sets::differ(whole, cut) {
        return sweep_split(blocks, shared, rem);
    }
    [0u64; 4]
}

// The states whose block has a member of the set. Only a state of `shared` is in a block with another.
fn meeting_rows(blocks: &[u64], shared: [u64; 4], set: [u64; 4]) -> [u64; 4]
    requires { (length blocks.now ≡ 1024) × Parted (set_at blocks.now) (in_row shared) × Owned (set_at blocks.now) (in_row set) }
    ensures { Meets (set_at blocks.now) (in_row set) (in_row result) }
{
    let cut = sets::meet(set, shared);
    sets::join(set, joined(blocks, cut))
}

// Cuts the block of g to g's side of Rem. A row of K outside Rem loses the other side.
fn split_at(related: &mut [u64], blocks: &mut [u64], rem: [u64; 4], g: usize)
    requires { (length related.old ≡ 1024) × (length blocks.old ≡ 1024) × (g < 256) }
    ensures related_after { let K = set_at related.old in
        related.new ≡ sets_of 256 (updated (λ t. eqb t g) (λ t _. split_related (in_row rem) K (set_at blocks.old) t) K) }
    ensures blocks_after { let P = set_at blocks.old in
        blocks.new ≡ sets_of 256 (updated (λ t. eqb t g) (λ t _. split_blocks (in_row rem) P t) P) }
{
    let block = sets::at(blocks, g);
    let inside = sets::meet(block, rem);
    if rows::contains(&rem, g) {
        sets::put(blocks, g, inside);
        return;
    }
    sets::put(related, g, sets::minus(sets::at(related, g), inside));
    sets::put(blocks, g, sets::minus(block, rem));
}

// In each block, drops from K each (g, h) with g outside Rem and h in Rem, and splits the block. The block of a state outside `rows` lies on one side.
fn split(related: &mut [u64], blocks: &mut [u64], rem: [u64; 4], rows: [u64; 4])
    requires { (length related.old ≡ 1024) × (length blocks.old ≡ 1024) × Unsplit (set_at blocks.old) (in_row rem) (in_row rows) }
    ensures related_after { related.new ≡ sets_of 256 (split_related (in_row rem) (set_at related.old) (set_at blocks.old)) }
    ensures blocks_after { blocks.new ≡ sets_of 256 (split_blocks (in_row rem) (set_at blocks.old)) }
{
    for c in 0..4 {
        for i in rows::ones(rows[c]) {
            split_at(related, blocks, rem, 64 * c + i);
        }
    }
}

// The same; nothing is done if `rows` is empty.
fn split_any(related: &mut [u64], blocks: &mut [u64], rem: [u64; 4], rows: [u64; 4])
    requires { (length related.old ≡ 1024) × (length blocks.old ≡ 1024) × Unsplit (set_at blocks.old) (in_row rem) (in_row rows) }
    ensures related_after { related.new ≡ sets_of 256 (split_related (in_row rem) (set_at related.old) (set_at blocks.old)) }
    ensures blocks_after { blocks.new ≡ sets_of 256 (split_blocks (in_row rem) (set_at blocks.old)) }
{
    if sets::any(rows) {
        split(related, blocks, rem, rows);
    }
}

// Takes Rem out of row g of K; whether the row had any of it.
fn prune_at(related: &mut [u64], rem: [u64; 4], g: usize) -> bool
    requires { (length related.old ≡ 1024) × (g < 256) }
    ensures related_after { let K = set_at related.old in
        related.new ≡ sets_of 256 (updated (λ t. eqb t g) (λ t _ h. K t h && not (in_row rem h)) K) }
    ensures value { result ≡ any_below 256 (λ h. set_at related.old g h && in_row rem h) }
{
    let row = sets::at(related, g);
    sets::put(related, g, sets::minus(row, rem));
    sets::any(sets::meet(row, rem))
}

// Takes Rem out of each row of `rows`; the rows that change.
fn prune(related: &mut [u64], rem: [u64; 4], rows: [u64; 4]) -> [u64; 4]
    requires { length related.old ≡ 1024 }
    ensures related_after { related.new ≡ sets_of 256 (without (in_row rows) (in_row rem) (set_at related.old)) }
    ensures value { result ≡ row_of 4 (λ g. in_row rows g && any_below 256 (λ h. set_at related.old g h && in_row rem h)) }
{
    let mut out = [0u64; 4];
    for c in 0..4 {
        let mut word = 0;
        for i in rows::ones(rows[c]) {
            word |= u64::from(prune_at(related, rem, 64 * c + i)) << i;
        }
        out[c] = word;
    }
    out
}

// Takes Rem out of each row whose block has a hit; the rows that change.
fn prune_hits(
    related: &mut [u64],
    blocks: &[u64],
    shared: [u64; 4],
    rem: [u64; 4],
    hits: [u64; 4],
) -> [u64; 4]
    requires { (length related.old ≡ 1024) × (length blocks.now ≡ 1024) × Parted (set_at blocks.now) (in_row shared)
        × Owned (set_at blocks.now) (in_row hits) }
    ensures { Pruned (in_row rem) (in_row hits) related.old blocks.now related.new result }
{
    if !sets::any(hits) {
        return [0u64; 4];
    }
    let hit = meeting_rows(blocks, shared, hits);
    prune(related, rem, hit)
}

// One action: the split by Rem, and the pairs that it refutes over the blocks with a hit. Gives the states whose rows can have changed.
pub fn refine_by(
    rem: [u64; 4],
    hits: [u64; 4],
    shared: [u64; 4],
    related: &mut [u64],
    blocks: &mut [u64],
) -> [u64; 4]
    requires { (length related.old ≡ 1024) × (length blocks.old ≡ 1024) × Parted (set_at blocks.old) (in_row shared)
        × Owned (set_at blocks.old) (in_row hits) }
    ensures acted { Acted (in_row rem) (in_row hits) related.old blocks.old related.new blocks.new result }
    ensures parted { Parted (set_at blocks.new) (in_row shared) }
{
    let rows = split_rows(blocks, shared, rem);
    split_any(related, blocks, rem, rows);
    let changed = prune_hits(related, blocks, shared, rem, hits);
    sets::join(rows, changed)
}
