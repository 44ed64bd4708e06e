// The depths of a strategy's entries (document 02, L8), by marks, one a pair: 0 where no entry so far has the pair, else one more than the
// least depth of those that have it. 0 and not an `Option`: `reply_depth` and `lowered` of specs/ are of marks as numbers.
#![tactic(auto)]

ghost use Rattle.std.specs.Prelude.{◌≡◌, ◌+◌, ◌*◌, ◌%◌, ◌<◌, ◌≤◌, length, set};
ghost use Rattle.transitions.specs.Table.{states_of, target_at, table_lts, Formed};
ghost use Rattle.strategy_depth.specs.Marks.{mark_of, lowered, reply_mark, reply_depth, entry_mark};

// The mark of the pair (p, q).
fn mark_of(marks: &[u16], p: usize, q: usize) -> usize
    requires { (65536 ≤ length marks.now) × (p < 256) × (q < 256) }
    ensures { (result ≡ mark_of marks.now p q) × (result < 65536) }
{
    usize::from(marks[256 * p + q])
}

// The mark of (t, r) where transition number i is by a, into r; 1 where it is by another action.
fn reply_mark(table: &transitions::Table, marks: &[u16], a: usize, t: usize, i: usize) -> usize
    requires { (65536 ≤ length marks.now) × (t < 256) × (i < 1024) × (target_at table.now i < 256) }
    ensures { (result ≡ reply_mark table.now (mark_of marks.now) a t i) × (result < 65536) }
{
    if transitions::action(table, i) != a {
        return 1;
    }
    mark_of(marks, t, transitions::target(table, i))
}

// The depth, by the marks, of an entry with the transition by a into t, against q: the largest mark of a reply, and at least 1. It is 0
// where a reply has no mark.
pub fn reply_depth(table: &transitions::Table, marks: &[u16], q: usize, a: usize, t: usize) -> usize
    requires { Formed table.now × (q < states_of table.now) × (65536 ≤ length marks.now) × (t < 256) }
    ensures { (result ≡ reply_depth (table_lts table.now) (mark_of marks.now) q a t) × (result < 65536) }
{
    let mut depth = 1;
    for i in transitions::offset(table, q)..transitions::offset(table, q + 1) {
        let mark = reply_mark(table, marks, a, t, i);
        if mark == 0 {
            return 0;
        }
        depth = depth.max(mark);
    }
    depth
}

// The mark of an entry by the marks: one more than its depth, so 1 for a = 0.
pub fn entry_mark(table: &transitions::Table, marks: &[u16], q: usize, a: usize, t: usize) -> usize
    requires { Formed table.now × (q < states_of table.now) × (65536 ≤ length marks.now) × (t < 256) }
    ensures { result ≡ entry_mark (table_lts table.now) (mark_of marks.now) q a t }
{
    if a == 0 {
        return 1;
    }
    reply_depth(table, marks, q, a, t) + 1
}

// Lowers the mark of the pair (p, q) to an entry's mark. A sound entry's is below 65,536.
pub fn lower(marks: &mut [u16], p: usize, q: usize, mark: usize)
    requires { (65536 ≤ length marks.old) × (p < 256) × (q < 256) }
    ensures { marks.new ≡ set marks.old (256 * p + q) (lowered (mark_of marks.old p q) mark % 65536) }
{
    let old = mark_of(marks, p, q);
    let low = if old == 0 { mark } else { old.min(mark) };
    marks[256 * p + q] = (low % 65536) as u16;
}
