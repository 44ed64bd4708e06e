// Sets of 256 states as four words by value, and lists of such sets: set p of a list is in its words 4 * p to 4 * p + 3.
// The four words are written out: with array::from_fn, != and first_chunk rows of the benchmark were up to 1.8 times as slow.
#![tactic(auto)]

ghost use Rattle.std.specs.Prelude.{◌≡◌, Bool, true, false, cond, not, ◌&&◌, ◌||◌, ℕ, ◌+◌, ◌*◌, ◌/◌, ◌%◌, ◌<◌, ◌≤◌, eqb, length, get_or};
ghost use Rattle.std.specs.Bool.{xor};
ghost use Rattle.lts.specs.Bounded.{any_below, passing, restrict};
ghost use Rattle.rows.specs.Rows.{bit, in_row, row_of};
ghost use Rattle.relation.specs.Matrix.{relation_of, matrix_of, Matrix};
ghost use Rattle.sets.specs.Sets.{set_at, sets_of};

// The states that are in both.
pub fn meet(a: [u64; 4], b: [u64; 4]) -> [u64; 4]
    ensures { result ≡ row_of 4 (λ q. in_row a q && in_row b q) }
{
    [a[0] & b[0], a[1] & b[1], a[2] & b[2], a[3] & b[3]]
}

// The states of either.
pub fn join(a: [u64; 4], b: [u64; 4]) -> [u64; 4]
    ensures { result ≡ row_of 4 (λ q. in_row a q || in_row b q) }
{
    [a[0] | b[0], a[1] | b[1], a[2] | b[2], a[3] | b[3]]
}

// The states of a that are not in b.
pub fn minus(a: [u64; 4], b: [u64; 4]) -> [u64; 4]
    ensures { result ≡ row_of 4 (λ q. in_row a q && not (in_row b q)) }
{
    [a[0] & !b[0], a[1] & !b[1], a[2] & !b[2], a[3] & !b[3]]
}

// Whether there is a state.
pub fn any(a: [u64; 4]) -> bool
    ensures { result ≡ any_below 256 (in_row a) }
{
    (a[0] | a[1]) | (a[2] | a[3]) != 0
}

// Whether a state is in one and not in the other.
pub fn differ(a: [u64; 4], b: [u64; 4]) -> bool
    ensures { result ≡ any_below 256 (λ q. xor (in_row a q) (in_row b q)) }
{
    any([a[0] ^ b[0], a[1] ^ b[1], a[2] ^ b[2], a[3] ^ b[3]])
}

// The place of one number j, ascending, of a word: it has j ones below it.
fn one_at(word: u64, j: usize) -> usize
    requires { j < length (passing 64 (bit word)) }
    ensures { (result < 64) × (bit word result ≡ true) × (length (passing result (bit word)) ≡ j) }
{
    let mut left = word;
    for _ in 0..j {
        left &= left - 1;
    }
    left.trailing_zeros() as usize
}

// Number j, ascending, of the states of the set, which has more than j.
pub fn member_at(a: &[u64], j: usize) -> usize
    requires { (4 ≤ length a.now) × (j < length (passing 256 (in_row a.now))) }
    ensures { result ≡ get_or (passing 256 (in_row a.now)) j 0 }
{
    let mut left = j;
    for (c, word) in a[..4].iter().enumerate() {
        let ones = word.count_ones() as usize;
        if left < ones {
            return 64 * c + one_at(*word, left);
        }
        left -= ones;
    }
    256
}

// Set p of the list.
pub fn at(sets: &[u64], p: usize) -> [u64; 4]
    requires { p * 4 + 4 ≤ length sets.now }
    ensures { result ≡ row_of 4 (set_at sets.now p) }
{
    let i = 4 * p;
    [sets[i], sets[i + 1], sets[i + 2], sets[i + 3]]
}

// The place of the first word of set p.
fn first_word(p: usize) -> usize
    requires { p < 4611686018427387904 }
    ensures { result ≡ 4 * p }
{
    4 * p
}

// Puts the set into place p of the list.
pub fn put(sets: &mut [u64], p: usize, a: [u64; 4])
    requires { p * 4 + 4 ≤ length sets.old }
    ensures { let old = sets.old in
        sets.new ≡ row_of (length old) (λ x. cond (eqb (x / 256) p) (in_row a (x % 256)) (in_row old x)) }
{
    let i = first_word(p);
    sets[i] = a[0];
    sets[i + 1] = a[1];
    sets[i + 2] = a[2];
    sets[i + 3] = a[3];
}

// Writes the sets of a matrix on n states into an empty list.
pub fn from_matrix(grid: &[u64], n: usize, list: &mut [u64])
    requires { (n ≤ 256) × Matrix n grid.now × (list.old ≡ sets_of 256 (λ p q. false)) }
    ensures { list.new ≡ sets_of 256 (restrict n (relation_of n grid.now)) }
{
    for p in 0..n {
        put(list, p, relation::row_set(grid, n, p));
    }
}

// Writes the first n sets of a list, which have only states below n, into a matrix on n states.
pub fn to_matrix(list: &[u64], n: usize, grid: &mut [u64])
    requires n_bound { (n ≤ 256) × (length list.now ≡ 1024) × Matrix n grid.old }
    requires by_index { (p q : ℕ) → p < n → n ≤ q → q < 256 → set_at list.now p q ≡ false }
    ensures { grid.new ≡ matrix_of n (set_at list.now) }
{
    for p in 0..n {
        let row = at(list, p);
        relation::set_row(grid, n, p, &row);
    }
}
