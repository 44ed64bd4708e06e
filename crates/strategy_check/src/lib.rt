// The check of a strategy (document 01, "Check plan") on a transition table: entries in a slice of 16-bit numbers, four an entry.
// A mark of 0, and not an `Option`, says that there is none: `Marking` and `strategy_mark` of specs/ are of marks as numbers.
#![tactic(auto)]

ghost use Rattle.std.specs.Prelude.{◌≡◌, ◌+◌, ◌*◌, ◌<◌, ◌≤◌, length, T};
ghost use Rattle.lts.specs.System.{reflexive};
ghost use Rattle.lts.specs.Strategy.{entries_of};
ghost use Rattle.transitions.specs.Table.{states_of, table_lts, Formed};
ghost use Rattle.relation.specs.Matrix.{relation_of, Matrix};
ghost use Rattle.strategy_check.specs.Entries.{entry_of, holds_pair, replies_held, outside, sound_over, strategy_mark, Marking};

// Whether entry j holds the pair (t, r).
fn holds_pair(numbers: &[u16], j: usize, t: usize, r: usize) -> bool
    requires { 4 * j + 4 ≤ length numbers.now }
    ensures { result ≡ holds_pair numbers.now t r j }
{
    (usize::from(numbers[4 * j]) == t) & (usize::from(numbers[4 * j + 1]) == r)
}

// Whether each transition q, a, r has its pair (t, r) in an entry before number e. The search for a reply stops at the first that holds it.
fn replies_held(
    table: &transitions::Table,
    numbers: &[u16],
    e: usize,
    q: usize,
    a: usize,
    t: usize,
) -> bool
    requires { Formed table.now × (q < states_of table.now) × (4 * e + 4 ≤ length numbers.now) }
    ensures { result ≡ replies_held (table_lts table.now) numbers.now e q a t }
{
    let first = transitions::offset(table, q);
    let end = transitions::offset(table, q + 1);
    'replies: for i in first..end {
        if transitions::action(table, i) == a {
            let r = transitions::target(table, i);
            'entries: for j in 0..e {
                if holds_pair(numbers, j, t, r) {
                    continue 'replies;
                }
            }
            return false;
        }
    }
    true
}

// Whether a = t = 0 and the pair (p, q) is outside the starting preorder.
pub fn is_outside(n: usize, start: &[u64], p: usize, q: usize, a: usize, t: usize) -> bool
    requires { Matrix n start.now × (n ≤ 256) × (p < n) × (q < n) }
    ensures { result ≡ outside (relation_of n start.now) p q a t }
{
    (a == 0) & (t == 0) & !relation::relates(start, n, p, q)
}

// Entry number e.
fn entry_at(numbers: &[u16], e: usize) -> lts::Entry
    requires { 4 * e + 4 ≤ length numbers.now }
    ensures { result ≡ entry_of numbers.now e }
{
    let i = 4 * e;
    lts::Entry {
        p: numbers[i],
        q: numbers[i + 1],
        a: numbers[i + 2],
        t: numbers[i + 3],
    }
}

// Whether the entry is sound over the entries before number e.
fn is_sound(
    table: &transitions::Table,
    start: &[u64],
    numbers: &[u16],
    e: usize,
    entry: lts::Entry,
) -> bool
    requires { Formed table.now × Matrix (states_of table.now) start.now × (4 * e + 4 ≤ length numbers.now) }
    ensures { let R = relation_of (states_of table.now) start.now in
        result ≡ sound_over (table_lts table.now) R numbers.now e entry.p entry.q entry.a entry.t }
{
    let n = transitions::states(table);
    let p = usize::from(entry.p);
    let q = usize::from(entry.q);
    let a = usize::from(entry.a);
    let t = usize::from(entry.t);
    if n <= p {
        return false;
    }
    if n <= q {
        return false;
    }
    if is_outside(n, start, p, q, a, t) {
        return true;
    }
    if n <= t {
        return false;
    }
    if !rows::contains(&transitions::successors(table, p, a), t) {
        return false;
    }
    replies_held(table, numbers, e, q, a, t)
}

// Checks entry e and marks its pair: 0 where it is unsound over the entries before it, else one more than its depth.
fn mark_at(
    table: &transitions::Table,
    start: &[u64],
    numbers: &[u16],
    e: usize,
    marks: &mut [u16],
) -> usize
    requires { Formed table.now × Matrix (states_of table.now) start.now × (4 * e + 4 ≤ length numbers.now) × (65536 ≤ length marks.old) }
    ensures { let R = relation_of (states_of table.now) start.now in
        Marking (table_lts table.now) R numbers.now e marks.old result marks.new }
{
    let entry = entry_at(numbers, e);
    if !is_sound(table, start, numbers, e, entry) {
        return 0;
    }
    let p = usize::from(entry.p);
    let q = usize::from(entry.q);
    let mark = strategy_depth::entry_mark(
        table,
        marks,
        q,
        usize::from(entry.a),
        usize::from(entry.t),
    );
    strategy_depth::lower(marks, p, q, mark);
    mark
}

// Checks that the numbers carry at least one entry, and that each is sound over those before it: 0 where not, else one more than the
// last entry's depth.
pub fn check_table(table: &transitions::Table, start: &[u64], numbers: &[u16]) -> usize
    requires { let R = relation_of (states_of table.now) start.now in
        Formed table.now × Matrix (states_of table.now) start.now × T (reflexive (table_lts table.now) R) }
    ensures { let R = relation_of (states_of table.now) start.now in
        result ≡ strategy_mark (table_lts table.now) R (entries_of numbers.now) }
{
    let count = numbers.len() / 4;
    let mut marks = [0u16; 65536];
    let mut last = 0;
    for e in 0..count {
        last = mark_at(table, start, numbers, e, &mut marks);
        if last == 0 {
            return 0;
        }
    }
    last
}
