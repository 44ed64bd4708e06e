// Relations on states as bit matrices over 64-bit words (document 01, "Grids").
#![tactic(auto)]

ghost use Rattle.std.specs.Prelude.{◌≡◌, true, false, cond, ◌&&◌, ℕ, ◌+◌, ◌*◌, ◌/◌, ◌<◌, ◌≤◌, length, drop};
ghost use Rattle.lts.specs.Bounded.{◌⇒◌};
ghost use Rattle.lts.specs.Rule.{check};
ghost use Rattle.rows.specs.Rows.{in_row, row_of, row_words, states_below, Row};
ghost use Rattle.relation.specs.Matrix.{in_matrix, matrix_of, relation_of, Matrix, pair_count, set_row};
ghost use Rattle.relation.specs.Check.{reflexive_below, transitive_pair, transitive_at, transitive_below, clear_at, is_matrix, start_rules};
ghost use Rattle.relation.specs.Tested.{Left};

// The words of a matrix on n states.
pub fn matrix_words(n: usize) -> usize
    requires { n ≤ 256 }
    ensures { (result ≡ n * row_words n) × (result ≤ 1024) }
{
    n * rows::row_words(n)
}

// Whether the pair (p, q) is in a matrix with rows of w words.
pub fn has(grid: &[u64], w: usize, p: usize, q: usize) -> bool
    requires { p * w + q / 64 < length grid.now }
    ensures { result ≡ in_matrix w grid.now p q }
{
    rows::contains(&grid[p * w..], q)
}

// Whether the pair (p, q) is in the matrix on n states.
pub fn relates(grid: &[u64], n: usize, p: usize, q: usize) -> bool
    requires { (length grid.now ≡ n * row_words n) × (n ≤ 256) × (p < n) × (q < n) }
    ensures { result ≡ relation_of n grid.now p q }
{
    has(grid, rows::row_words(n), p, q)
}

// The matrix from row p on.
pub fn row_at(grid: &[u64], n: usize, p: usize) -> &[u64]
    requires { (length grid.now ≡ n * row_words n) × (n ≤ 256) × (p < n) }
    ensures { result.now ≡ drop (p * row_words n) grid.now }
{
    let w = rows::row_words(n);
    let at = p * w;
    &grid[at..]
}

// Row p of a matrix, as a set.
pub fn row_set(grid: &[u64], n: usize, p: usize) -> [u64; 4]
    requires { (n ≤ 256) × Matrix n grid.now × (p < n) }
    ensures { result ≡ row_of 4 (states_below n (relation_of n grid.now p)) }
{
    let w = rows::row_words(n);
    let mut out = [0u64; 4];
    rows::row_copy(&mut out, row_at(grid, n, p), w);
    out
}

// How many pairs the matrix has: the ones of its words, summed.
pub fn count_pairs(grid: &[u64], n: usize) -> usize
    requires { Matrix n grid.now × (n ≤ 256) }
    ensures { result ≡ pair_count n (relation_of n grid.now) }
{
    grid.iter().map(|x| x.count_ones() as usize).sum()
}

// Copies a whole matrix. An index loop and not `copy_from_slice`, as in `rows::row_copy`.
pub fn copy_matrix(grid: &mut [u64], from: &[u64])
    requires { length from.now ≡ length grid.old }
    ensures { grid.new ≡ from.now }
{
    for j in 0..from.len() {
        grid[j] = from[j];
    }
}

// Puts the set that `row` holds in the place of row p.
pub fn set_row(grid: &mut [u64], n: usize, p: usize, row: &[u64])
    requires { Matrix n grid.old × (n ≤ 256) × (p < n) × Row n row.now }
    ensures { grid.new ≡ matrix_of n (set_row p (in_row row.now) (relation_of n grid.old)) }
{
    let w = rows::row_words(n);
    let at = p * w;
    rows::row_copy(&mut grid[at..], row, w);
}

// Puts the set that `row` holds in the place of each member's row.
pub fn set_rows(grid: &mut [u64], n: usize, members: &[u64; 4], row: &[u64; 4])
    requires n_bound { (n ≤ 256) × Matrix n grid.old }
    requires by_index { (q : ℕ) → n ≤ q → q < 256 → in_row row.now q ≡ false }
    ensures { let R = relation_of n grid.old in
        grid.new ≡ matrix_of n (λ p q. cond (in_row members.now p) (in_row row.now q) (R p q)) }
{
    let mut p = rows::next_state(members, 4, 0);
    while p < n {
        set_row(grid, n, p, row);
        p = rows::next_state(members, 4, p + 1);
    }
}

// Keeps only the states of `mask` in row p.
pub fn keep_states(grid: &mut [u64], n: usize, p: usize, mask: &[u64])
    requires { Matrix n grid.old × (n ≤ 256) × (p < n) × (row_words n ≤ length mask.now) }
    ensures { let R = relation_of n grid.old in
        grid.new ≡ matrix_of n (set_row p (λ q. R p q && in_row mask.now q) R) }
{
    let w = rows::row_words(n);
    let at = p * w;
    rows::row_intersect(&mut grid[at..], mask, w);
}

// Whether row p has no bit at q ≥ n.
fn row_formed(grid: &[u64], n: usize, p: usize) -> bool
    requires { (length grid.now ≡ n * row_words n) × (n ≤ 256) × (p < n) }
    ensures { result ≡ clear_at n grid.now p }
{
    let m = n % 64;
    if m == 0 {
        return true;
    }
    let row = row_at(grid, n, p);
    row[n / 64] >> m == 0
}

// Whether the matrix has n rows and no bit at q ≥ n.
pub fn is_matrix(grid: &[u64], n: usize) -> bool
    requires { n ≤ 256 }
    ensures { result ≡ is_matrix n grid.now }
{
    grid.len() == matrix_words(n) && (0..n).all(|p| row_formed(grid, n, p))
}

// Whether the pair (p, p) is in the matrix for each state p.
fn is_reflexive(grid: &[u64], n: usize) -> bool
    requires { Matrix n grid.now × (n ≤ 256) }
    ensures { result ≡ reflexive_below n (relation_of n grid.now) }
{
    (0..n).all(|p| relates(grid, n, p, p))
}

// Whether p, which is related to q, is related to each state that q is related to.
fn transitive_pair(grid: &[u64], n: usize, p: usize, q: usize) -> bool
    requires { Matrix n grid.now × (n ≤ 256) × (p < n) × (q < n) × (relation_of n grid.now p q ≡ true) }
    ensures { result ≡ transitive_pair n (relation_of n grid.now) p q }
{
    let w = rows::row_words(n);
    rows::row_within(row_at(grid, n, q), row_at(grid, n, p), w)
}

// The same for each q above p in `left`. A state that such a q is related to passes with it, and leaves `left`.
fn transitive_above(grid: &[u64], n: usize, p: usize, left: &mut [u64]) -> bool
    requires matrix { Matrix n grid.now × (n ≤ 256) × (p < n) × Left n (relation_of n grid.now) p left.old }
    requires by_index { (x : ℕ) → p < x → x < n → transitive_at n (relation_of n grid.now) x ≡ true }
    ensures { let R = relation_of n grid.now in
        (result ≡ false → transitive_at n R p ≡ false) × (result ≡ true → Left n R p left.new) }
{
    let w = rows::row_words(n);
    let mut q = rows::next_state(left, w, p + 1);
    while q < n {
        if !transitive_pair(grid, n, p, q) {
            return false;
        }
        rows::row_minus(left, row_at(grid, n, q), w);
        q = rows::next_state(left, w, q + 1);
    }
    true
}

// The same for each q in `left`. The others have passed.
fn transitive_rest(grid: &[u64], n: usize, p: usize, left: &[u64]) -> bool
    requires { Matrix n grid.now × (n ≤ 256) × (p < n) × Left n (relation_of n grid.now) p left.now }
    ensures { result ≡ transitive_at n (relation_of n grid.now) p }
{
    let w = rows::row_words(n);
    let mut q = rows::next_state(left, w, 0);
    while q < n {
        if !transitive_pair(grid, n, p, q) {
            return false;
        }
        q = rows::next_state(left, w, q + 1);
    }
    true
}

// The same for each q. Every state above p has passed.
fn transitive_at(grid: &[u64], n: usize, p: usize) -> bool
    requires matrix { Matrix n grid.now × (n ≤ 256) × (p < n) }
    requires by_index { (x : ℕ) → p < x → x < n → transitive_at n (relation_of n grid.now) x ≡ true }
    ensures { result ≡ transitive_at n (relation_of n grid.now) p }
{
    let mut left = row_set(grid, n, p);
    if !transitive_above(grid, n, p, &mut left) {
        return false;
    }
    transitive_rest(grid, n, p, &left)
}

// The same for each p and q, from the last state down.
fn is_transitive(grid: &[u64], n: usize) -> bool
    requires { Matrix n grid.now × (n ≤ 256) }
    ensures { result ≡ transitive_below n (relation_of n grid.now) }
{
    for p in (0..n).rev() {
        if !transitive_at(grid, n, p) {
            return false;
        }
    }
    true
}

// Whether the words are a matrix on n states, and a preorder: refusals 8, 9 and 10.
pub fn check_preorder(grid: &[u64], n: usize) -> Result<(), lts::Refusal>
    requires { n ≤ 256 }
    ensures { result ≡ check (start_rules n grid.now) }
{
    if !is_matrix(grid, n) {
        return Err(lts::Refusal::Grid);
    }
    if !is_reflexive(grid, n) {
        return Err(lts::Refusal::NotReflexive);
    }
    if !is_transitive(grid, n) {
        return Err(lts::Refusal::NotTransitive);
    }
    Ok(())
}

// Writes the relation of all pairs.
pub fn write_all_pairs(n: usize, grid: &mut [u64])
    requires { (n ≤ 256) × (length grid.old ≡ n * row_words n) }
    ensures { grid.new ≡ matrix_of n (λ p q. true) }
{
    let w = rows::row_words(n);
    let all = rows::states_below(n);
    for p in 0..n {
        let at = p * w;
        rows::row_copy(&mut grid[at..], &all, w);
    }
}

// Writes the termination preorder (the end start) of the terminating states: they are related to each other alone, the others to all.
pub fn write_termination(terminating: &[u64; 4], n: usize, grid: &mut [u64])
    requires n_bound { (n ≤ 256) × (length grid.old ≡ n * row_words n) }
    requires by_index { (q : ℕ) → n ≤ q → q < 256 → in_row terminating.now q ≡ false }
    ensures { grid.new ≡ matrix_of n (λ p q. in_row terminating.now p ⇒ in_row terminating.now q) }
{
    write_all_pairs(n, grid);
    set_rows(grid, n, terminating, terminating);
}
