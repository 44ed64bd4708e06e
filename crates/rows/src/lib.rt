// Sets of states as rows of 64-bit words (document 01, "Grids"): a set in the first words of a slice.
#![tactic(auto)]

ghost use Rattle.std.specs.Prelude.{◌≡◌, not, ◌&&◌, ◌||◌, ◌++◌, ◌*◌, ◌/◌, ◌<◌, ◌≤◌, eqb, ltb, length, drop};
ghost use Rattle.std.specs.Bool.{xor};
ghost use Rattle.std.specs.Iterator.{YieldsFirst, item_count};
ghost use Rattle.lts.specs.Bounded.{any_below, count_below, lowest, passing};
ghost use Rattle.rows.specs.Rows.{bit, TakesLowest, in_row, row_of, row_words, Next, included_below};

// A 16-bit number as an index.
pub fn wide(x: u16) -> usize
    ensures { (result ≡ x) × (result < 65536) }
{
    usize::from(x)
}

// w, the words of a row of n states.
pub fn row_words(n: usize) -> usize
    requires { n ≤ 1000 }
    ensures { result ≡ row_words n }
{
    n.div_ceil(64)
}

// Whether state q is in the row.
pub fn contains(row: &[u64], q: usize) -> bool
    requires { q / 64 < length row.now }
    ensures { result ≡ in_row row.now q }
{
    (row[q / 64] >> (q % 64)) % 2 == 1
}

// The lowest state in the row's first k words, or 64 * k where they have none.
pub fn lowest_state(row: &[u64], k: usize) -> usize
    requires { (k ≤ length row.now) × (k ≤ 1024) }
    ensures { result ≡ lowest (k * 64) (in_row row.now) }
{
    for (c, x) in row[..k].iter().enumerate() {
        if *x != 0 {
            return c * 64 + x.trailing_zeros() as usize;
        }
    }
    k * 64
}

// The lowest state at `from` or above in the row's first k words, or 64 * k where there is none.
pub fn next_state(row: &[u64], k: usize, from: usize) -> usize
    requires { (k ≤ length row.now) × (k ≤ 1024) × (from ≤ k * 64) }
    ensures { Next (in_row row.now) (k * 64) from result }
{
    let mut q = from;
    // A `while`, for no step is by 1: each goes to the first state of the next word.
    while q < k * 64 {
        let x = row[q / 64] >> (q % 64);
        if x != 0 {
            return q + x.trailing_zeros() as usize;
        }
        q = (q / 64 + 1) * 64;
    }
    q
}

// The places of the ones of a word that are still to come, ascending.
#[derive(Drop)]
pub struct WordOnes {
    left: u64,
}

impl Iterator for WordOnes {
    type Item = usize;

    ghost next_gives = { λ s r t. YieldsFirst (λ w. passing 64 (bit w.left)) s r t × TakesLowest s.left r t.left };

    ghost remaining = { item_count (λ w. passing 64 (bit w.left)) };

    fn next(&mut self) -> Option<usize> {
        if self.left == 0 {
            return None;
        }
        let i = self.left.trailing_zeros() as usize;
        self.left &= self.left - 1;
        Some(i)
    }
}

// The places of the ones of a word, ascending.
pub fn ones(word: u64) -> WordOnes
    ensures { result.left ≡ word }
{
    WordOnes { left: word }
}

// Puts state q into a row.
pub fn insert(row: &mut [u64], q: usize)
    requires { q / 64 < length row.old }
    ensures { row.new ≡ row_of (length row.old) (λ x. eqb x q || in_row row.old x) }
{
    let c = q / 64;
    row[c] |= 1 << (q % 64);
}

// The states below n.
pub fn states_below(n: usize) -> [u64; 4]
    requires { n ≤ 256 }
    ensures { result ≡ row_of 4 (λ q. ltb q n) }
{
    let mut out = [0u64; 4];
    for q in 0..n {
        insert(&mut out, q);
    }
    out
}

// How many states the row has in its first k words.
pub fn row_count(row: &[u64], k: usize) -> usize
    requires { (k ≤ length row.now) × (k ≤ 1024) }
    ensures { result ≡ count_below (k * 64) (in_row row.now) }
{
    row[..k].iter().map(|x| x.count_ones() as usize).sum()
}

// Four loops of one line: one function over the operation would need a contract on which bits it gives, longer than they are.

// Writes the states of the first k words of `from` into the row. An index loop and not `copy_from_slice`: that becomes a call of memmove,
// which the archive for C does not need from outside.
pub fn row_copy(row: &mut [u64], from: &[u64], k: usize)
    requires { (k ≤ length row.old) × (k ≤ length from.now) }
    ensures { row.new ≡ row_of k (in_row from.now) ++ drop k row.old }
{
    for c in 0..k {
        row[c] = from[c];
    }
}

// Keeps only the states of `mask` in the row's first k words.
pub fn row_intersect(row: &mut [u64], mask: &[u64], k: usize)
    requires { (k ≤ length row.old) × (k ≤ length mask.now) }
    ensures { row.new ≡ row_of k (λ q. in_row row.old q && in_row mask.now q) ++ drop k row.old }
{
    for c in 0..k {
        row[c] &= mask[c];
    }
}

// Takes the states of `mask` out of the row's first k words.
pub fn row_minus(row: &mut [u64], mask: &[u64], k: usize)
    requires { (k ≤ length row.old) × (k ≤ length mask.now) }
    ensures { row.new ≡ row_of k (λ q. in_row row.old q && not (in_row mask.now q)) ++ drop k row.old }
{
    for c in 0..k {
        row[c] &= !mask[c];
    }
}

// Adds the states of `mask` to the row's first k words.
pub fn row_union(row: &mut [u64], mask: &[u64], k: usize)
    requires { (k ≤ length row.old) × (k ≤ length mask.now) }
    ensures { row.new ≡ row_of k (λ q. in_row row.old q || in_row mask.now q) ++ drop k row.old }
{
    for c in 0..k {
        row[c] |= mask[c];
    }
}

// Whether the first k words of a and b hold different states.
pub fn row_differs(a: &[u64], b: &[u64], k: usize) -> bool
    requires { (k ≤ length a.now) × (k ≤ length b.now) }
    ensures { result ≡ any_below (k * 64) (λ q. xor (in_row a.now q) (in_row b.now q)) }
{
    a[..k] != b[..k]
}

// Whether every state in the first k words of a is in b.
pub fn row_within(a: &[u64], b: &[u64], k: usize) -> bool
    requires { (k ≤ length a.now) × (k ≤ length b.now) }
    ensures { result ≡ included_below (k * 64) (in_row a.now) (in_row b.now) }
{
    (0..k).all(|c| a[c] & !b[c] == 0)
}
