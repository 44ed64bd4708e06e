// The rounds W0, W1, .. (document 01, "Plans") on bit matrices, and the round at which a pair falls.
#![tactic(auto)]

ghost use Rattle.std.specs.Prelude.{◌≡◌, ◌&&◌, ◌+◌, ◌*◌, ◌<◌, ◌≤◌, length};
ghost use Rattle.lts.specs.Bounded.{restrict};
ghost use Rattle.lts.specs.System.{into};
ghost use Rattle.rows.specs.Rows.{in_row, row_of, states_below};
ghost use Rattle.transitions.specs.Table.{states_of, count_of, source_at, action_at, target_at, table_lts, Formed};
ghost use Rattle.relation.specs.Matrix.{relation_of, matrix_of, set_row, Matrix};
ghost use Rattle.strategy_rounds.specs.Rounds.{next_round, Settled, same_rows, RefutationOf};

// Leaves in row p of `next` the states that have an answer into `current` to transition i, where p is its source.
fn keep_answering(table: &transitions::Table, current: &[u64], next: &mut [u64], i: usize)
    requires { Formed table.now × Matrix (states_of table.now) current.now × Matrix (states_of table.now) next.old × (i < count_of table.now) }
    ensures { let t = table.now in
        let p = source_at t i in
        let R = relation_of (states_of t) next.old in
        let reached = relation_of (states_of t) current.now (target_at t i) in
        next.new ≡ matrix_of (states_of t) (set_row p (λ q. R p q && into (table_lts t) (action_at t i) reached q) R) }
{
    let n = transitions::states(table);
    let reached = relation::row_at(current, n, transitions::target(table, i));
    let mut set = [0u64; 4];
    transitions::add_into(table, transitions::action(table, i), reached, &mut set);
    relation::keep_states(next, n, transitions::source(table, i), &set);
}

// Writes the round after `current` into `next`. A transition into a `settled` state takes nothing out of it.
pub fn next_round(table: &transitions::Table, current: &[u64], next: &mut [u64], settled: &[u64; 4])
    requires formed { Formed table.now × Matrix (states_of table.now) current.now × (length current.now ≡ length next.old) }
    requires settled { Settled table.now (relation_of (states_of table.now) current.now) (in_row settled.now) }
    ensures { let t = table.now in
        let W = restrict (states_of t) (relation_of (states_of t) current.now) in
        next.new ≡ matrix_of (states_of t) (next_round (table_lts t) W) }
{
    let k = transitions::count(table);
    relation::copy_matrix(next, current);
    for i in 0..k {
        if !rows::contains(settled, transitions::target(table, i)) {
            keep_answering(table, current, next, i);
        }
    }
}

// The states whose rows are the same in both matrices.
pub fn same_rows(n: usize, before: &[u64], after: &[u64]) -> [u64; 4]
    requires { Matrix n before.now × Matrix n after.now × (n ≤ 256) }
    ensures { result ≡ row_of 4 (states_below n (same_rows n (relation_of n before.now) (relation_of n after.now))) }
{
    let w = rows::row_words(n);
    let mut out = [0u64; 4];
    for p in 0..n {
        if !rows::row_differs(
            relation::row_at(before, n, p),
            relation::row_at(after, n, p),
            w,
        ) {
            rows::insert(&mut out, p);
        }
    }
    out
}

// The round at which a pair falls, and the number of entries of its strategy.
#[derive(Clone, Copy)]
pub struct Refutation {
    pub round: usize,
    pub count: usize,
}

// The refutation of (p, q), from W0 in `current`. Each round but the last drops a pair, so there are at most n * n of them.
fn search_rounds(
    table: &transitions::Table,
    current: &mut [u64],
    next: &mut [u64],
    p: usize,
    q: usize,
) -> Option<Refutation>
    requires formed { Formed table.now × Matrix (states_of table.now) current.old × (length current.old ≡ length next.old) }
    requires p_bound { (p < states_of table.now) × (q < states_of table.now) }
    ensures { RefutationOf (table_lts table.now) (relation_of (states_of table.now) current.old) p q result }
{
    let n = transitions::states(table);
    let mut left = relation::count_pairs(current, n);
    if !relation::relates(current, n, p, q) {
        return Some(Refutation { round: 0, count: 1 });
    }
    let mut settled = [0u64; 4];
    for j in 0..n * n {
        next_round(table, current, next, &settled);
        if !relation::relates(next, n, p, q) {
            return Some(Refutation {
                round: j + 1,
                count: n * n - left + 1,
            });
        }
        let rest = relation::count_pairs(next, n);
        if rest == left {
            break;
        }
        settled = same_rows(n, current, next);
        relation::copy_matrix(current, next);
        left = rest;
    }
    None
}

// The refutation of (p, q), with two matrices to work in.
fn refute_in(
    table: &transitions::Table,
    start: &[u64],
    current: &mut [u64],
    next: &mut [u64],
    p: usize,
    q: usize,
) -> Option<Refutation>
    requires formed { Formed table.now × Matrix (states_of table.now) start.now × (p < states_of table.now) × (q < states_of table.now) }
    requires start_len { (length start.now ≡ length current.old) × (length start.now ≡ length next.old) }
    ensures { RefutationOf (table_lts table.now) (relation_of (states_of table.now) start.now) p q result }
{
    relation::copy_matrix(current, start);
    search_rounds(table, current, next, p, q)
}

// The round at which (p, q) falls, and the number of entries of its strategy; none where it falls at no round.
pub fn refute(table: &transitions::Table, start: &[u64], p: usize, q: usize) -> Option<Refutation>
    requires { Formed table.now × Matrix (states_of table.now) start.now × (p < states_of table.now) × (q < states_of table.now) }
    ensures { RefutationOf (table_lts table.now) (relation_of (states_of table.now) start.now) p q result }
{
    let size = start.len();
    let mut current = [0u64; 1024];
    let mut next = [0u64; 1024];
    refute_in(table, start, &mut current[..size], &mut next[..size], p, q)
}
