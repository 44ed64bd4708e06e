// The check of a strategy (document 01, "Check plan") whose entries come one by one, for callers that have them in another form than
// numbers. A mark for each pair of the entries so far stands in for the search over them; 0 and not an `Option` says that there is none, since
// `mark_over` and `entry_mark` of specs/ are of marks as numbers. `check_each` judges what a function gives; `load`, `judge` and `conclude`
// are its parts, for callers that judge one by one.
#![tactic(auto)]

ghost use Rattle.std.specs.Prelude.{◌≡◌, ℕ, List, cond, ◌&&◌, ◌<◌, ◌≤◌, length};
ghost use Rattle.lts.specs.declared.Entry.{Entry};
ghost use Rattle.lts.specs.Game.{defender_loses};
ghost use Rattle.transitions.specs.Table.{states_of, table_lts, Formed};
ghost use Rattle.relation.specs.Matrix.{relation_of};
ghost use Rattle.strategy_depth.specs.Marks.{mark_of, marked, entry_mark};
ghost use Rattle.strategy.specs.Check.{check_reply, check_call};
ghost use Rattle.strategy_judge.specs.Judging.{mark_over, Judges, Judgeable, ReadBy, Loads, verdict_at, Concludes, Gives};

// What was judged: the mark of each pair (p, q) at 256 * p + q; whether an entry was unsound; the last entry's pair and its depth.
pub type Judged = [u16; 65540];

// Where 1 says that an entry was unsound.
const UNSOUND: usize = 65536;

// Where the last entry's pair and its depth stand.
const LAST_P: usize = 65537;

const LAST_Q: usize = 65538;

const DEPTH: usize = 65539;

// The table of a sheet that was read; one without states where it was refused.
pub fn load(s: &[u8], reading: Result<encoding::Header, lts::Refusal>) -> transitions::Table
    requires { ReadBy s.now reading }
    ensures { Loads s.now reading result }
{
    match reading {
        Err(_) => [0u16; 3588],
        Ok(h) => transitions::load(s, h),
    }
}

// The mark of an entry p, q, a, t with a transition, by the marks: one more than its depth. It is 0 where p does not lead to t by a, or
// where a reply has no mark.
fn refuted_mark(
    table: &transitions::Table,
    judged: &[u16],
    p: usize,
    q: usize,
    a: usize,
    t: usize,
) -> usize
    requires { let n = states_of table.now in Formed table.now × (p < n) × (q < n) × (t < n) × (65536 ≤ length judged.now) }
    ensures { let L = table_lts table.now in let marks = mark_of judged.now in
        (result ≡ cond (L.transition p a t && defender_loses L (marked marks) q a t) (entry_mark L marks q a t) 0) × (result ≤ 65536) }
{
    if !rows::contains(&transitions::successors(table, p, a), t) {
        return 0;
    }
    let depth = strategy_depth::reply_depth(table, judged, q, a, t);
    if depth == 0 {
        return 0;
    }
    depth + 1
}

// The mark of the entry over those that were judged: one more than its depth, and 0 where it is unsound.
fn mark_over(table: &transitions::Table, start: &[u64], judged: &[u16], e: lts::Entry) -> usize
    requires { Judgeable table.now start.now × (65536 ≤ length judged.now) }
    ensures { let T = table.now in
        (result ≡ mark_over (table_lts T) (relation_of (states_of T) start.now) (mark_of judged.now) e) × (result ≤ 65536) }
{
    let n = transitions::states(table);
    let p = usize::from(e.p);
    let q = usize::from(e.q);
    let a = usize::from(e.a);
    let t = usize::from(e.t);
    if n <= p {
        return 0;
    }
    if n <= q {
        return 0;
    }
    if strategy_check::is_outside(n, start, p, q, a, t) {
        return 1;
    }
    if n <= t {
        return 0;
    }
    refuted_mark(table, judged, p, q, a, t)
}

// Judges an entry: its pair gets its mark, and it becomes the last one; or the verdict falls.
pub fn judge(table: &transitions::Table, start: &[u64], judged: &mut Judged, e: lts::Entry)
    requires { Judgeable table.now start.now × (length judged.old ≡ 65540) }
    ensures { let T = table.now in (length judged.new ≡ 65540)
        × Judges (table_lts T) (relation_of (states_of T) start.now) judged.old e judged.new }
{
    let mark = mark_over(table, start, judged, e);
    if mark == 0 {
        judged[UNSOUND] = 1;
        return;
    }
    strategy_depth::lower(judged, usize::from(e.p), usize::from(e.q), mark);
    judged[LAST_P] = e.p;
    judged[LAST_Q] = e.q;
    judged[DEPTH] = (mark - 1) as u16;
}

// The answer for `count` entries that were judged.
fn answer(judged: &Judged, count: usize) -> Result<strategy::Accepted, lts::Refusal>
    requires { length judged.now ≡ 65540 }
    ensures { result ≡ verdict_at judged.now count }
{
    if (count == 0) | (judged[UNSOUND] == 1) {
        return Err(lts::Refusal::Unsound);
    }
    Ok(strategy::Accepted {
        p: usize::from(judged[LAST_P]),
        q: usize::from(judged[LAST_Q]),
        depth: usize::from(judged[DEPTH]),
    })
}

// Check plan, after `count` entries were judged on a sheet and a start with this reading.
pub fn conclude(
    reading: Result<encoding::Header, lts::Refusal>,
    judged: &Judged,
    count: usize,
) -> Result<strategy::Accepted, lts::Refusal>
    requires { length judged.now ≡ 65540 }
    ensures { Concludes reading judged.now count result }
{
    let _header = reading?;
    answer(judged, count)
}

// Check plan on `count` entries, of which entry(i) is number i: they are judged one by one, up to the first unsound one.
pub fn check_each<F: Fn(usize) -> lts::Entry>(
    s: &[u8],
    start: &[u64],
    count: usize,
    entry: F,
) -> Result<strategy::Accepted, lts::Refusal>
    requires { (i : ℕ) → i < count → F.pre entry i }
    ensures { (es : List Entry) → length es ≡ count → Gives (F.post entry) es → check_call s.now start.now es ≡ check_reply result }
{
    let h = inputs::read_inputs(s, start)?;
    let table = transitions::load(s, h);
    let mut judged = [0u16; 65540];
    for i in 0..count {
        judge(&table, start, &mut judged, entry(i));
        if judged[UNSOUND] == 1 {
            return Err(lts::Refusal::Unsound);
        }
    }
    answer(&judged, count)
}
