// The lines that the program flowcheck prints (document 01, "Flows on each side"), written into a lent buffer.
#![tactic(auto)]

ghost use Rattle.std.specs.Prelude.{◌≡◌, ◌++◌, ◌+◌, ◌*◌, ◌<◌, ◌≤◌, length};
ghost use Rattle.lts.specs.Bounded.{concat_below};
ghost use Rattle.report.specs.Decimal.{decimal, written};
ghost use Rattle.rows.specs.Rows.{row_words};
ghost use Rattle.relation.specs.Matrix.{relation_of};
ghost use Rattle.lines.specs.Lines.{head_line, related_text, state_line, states_text, refused_line};

// Writes text and then x in decimal from `at` on, and returns the place after them.
fn put_number(out: &mut [u8], at: usize, text: &[u8], x: usize) -> usize
    requires { (x < 100000) × (at + length text.now + 5 ≤ length out.old) }
    ensures value { result ≡ at + length (text.now ++ decimal x) }
    ensures out_after { out.new ≡ written at (text.now ++ decimal x) out.old }
    ensures upper_bound { result ≤ at + length text.now + 5 }
{
    let next = report::put_text(out, at, text);
    report::put_decimal(out, next, x)
}

// Writes the first line, and returns its length.
pub fn put_head(out: &mut [u8], n: usize, steps: usize, pairs: usize, blocks: usize) -> usize
    requires { (n < 100000) × (steps < 100000) × (pairs < 100000) × (blocks < 100000) × (64 ≤ length out.old) }
    ensures value { result ≡ length (head_line n steps pairs blocks) }
    ensures out_after { out.new ≡ written 0 (head_line n steps pairs blocks) out.old }
    ensures upper_bound { result ≤ 64 }
{
    let a = put_number(out, 0, b"pages ", n);
    let b = put_number(out, a, b" turns ", steps);
    let c = put_number(out, b, b" kept ", pairs);
    let d = put_number(out, c, b" classes ", blocks);
    report::put_text(out, d, b"\n")
}

// Writes the line of a refusal, and returns its length.
pub fn put_refused(out: &mut [u8], number: usize) -> usize
    requires { (number < 100000) × (64 ≤ length out.old) }
    ensures value { result ≡ length (refused_line number) }
    ensures out_after { out.new ≡ written 0 (refused_line number) out.old }
{
    let a = put_number(out, 0, b"refused ", number);
    report::put_text(out, a, b"\n")
}

// Writes a blank and q, where p is related to q.
fn put_related(out: &mut [u8], at: usize, grid: &[u64], n: usize, p: usize, q: usize) -> usize
    requires { (length grid.now ≡ n * row_words n) × (n ≤ 256) × (p < n) × (q < n) × (at + 6 ≤ length out.old) }
    ensures value { result ≡ at + length (related_text (relation_of n grid.now) p q) }
    ensures out_after { out.new ≡ written at (related_text (relation_of n grid.now) p q) out.old }
    ensures upper_bound { result ≤ at + 4 }
{
    if !relation::relates(grid, n, p, q) {
        return at;
    }
    put_number(out, at, b" ", q)
}

// Writes the states that p is related to, ascending.
fn put_row(out: &mut [u8], from: usize, grid: &[u64], n: usize, p: usize) -> usize
    requires { (length grid.now ≡ n * row_words n) × (n ≤ 256) × (p < n) × (from + 4 * n + 2 ≤ length out.old) }
    ensures value { result ≡ from + length (concat_below n (related_text (relation_of n grid.now) p)) }
    ensures out_after { out.new ≡ written from (concat_below n (related_text (relation_of n grid.now) p)) out.old }
    ensures upper_bound { result ≤ from + 4 * n }
{
    let mut at = from;
    for q in 0..n {
        at = put_related(out, at, grid, n, p, q);
    }
    at
}

// Writes the line of state p from `at` on, and returns the place after it.
fn put_state(out: &mut [u8], at: usize, grid: &[u64], n: usize, name: usize, p: usize) -> usize
    requires { (length grid.now ≡ n * row_words n) × (n ≤ 256) × (p < n) × (name < 100000) × (at + 1040 ≤ length out.old) }
    ensures value { result ≡ at + length (state_line n (relation_of n grid.now) name p) }
    ensures out_after { out.new ≡ written at (state_line n (relation_of n grid.now) name p) out.old }
    ensures upper_bound { result ≤ at + 1040 }
{
    let a = report::put_decimal(out, at, p);
    let b = put_number(out, a, b" ", name);
    let c = put_row(out, b, grid, n, p);
    report::put_text(out, c, b"\n")
}

// Writes the lines of all states from `from` on, and returns the place after them.
pub fn put_states(
    out: &mut [u8],
    from: usize,
    grid: &[u64],
    representatives: &[u16],
    n: usize,
) -> usize
    requires { (length grid.now ≡ n * row_words n) × (length representatives.now ≡ n) × (n ≤ 256) × (from + 1040 * n ≤ length out.old) }
    ensures value { result ≡ from + length (states_text n (relation_of n grid.now) representatives.now) }
    ensures out_after { out.new ≡ written from (states_text n (relation_of n grid.now) representatives.now) out.old }
{
    let mut at = from;
    for (p, name) in representatives.iter().enumerate() {
        at = put_state(out, at, grid, n, usize::from(*name), p);
    }
    at
}
