// The two conditions of a simulation on a pair of states (document 000, Definition 2.1), and a claim tested by them pair by pair, on a
// transition table (document 02, L5).
#![tactic(auto)]

ghost use Rattle.std.specs.Prelude.{◌≡◌, ◌↔◌, ◌+◌, ◌<◌, T};
ghost use Rattle.lts.specs.Bounded.{◌⇒◌, all_below};
ghost use Rattle.lts.specs.System.{within};
ghost use Rattle.rows.specs.Rows.{Next};
ghost use Rattle.transitions.specs.Table.{states_of, count_of, offset_at, table_lts, Formed};
ghost use Rattle.relation.specs.Matrix.{relation_of, Matrix};
ghost use Rattle.conditions.specs.Conditions.{Starting, Transfer, both_conditions, answered_by, unanswered_by};

// Whether state q has an answer to transition i, with the targets related in the grid.
fn has_answer(table: &transitions::Table, grid: &[u64], q: usize, i: usize) -> bool
    requires { Formed table.now × Matrix (states_of table.now) grid.now × (q < states_of table.now) × (i < count_of table.now) }
    ensures { result ≡ answered_by table.now (relation_of (states_of table.now) grid.now) q i }
{
    let n = transitions::states(table);
    let reached = relation::row_at(grid, n, transitions::target(table, i));
    transitions::has_into(table, q, transitions::action(table, i), reached)
}

// The first transition of p to which q has no answer, with the targets related in the grid; the end of p's row where each has one.
pub fn first_unanswered(table: &transitions::Table, grid: &[u64], p: usize, q: usize) -> usize
    requires { Formed table.now × Matrix (states_of table.now) grid.now × (p < states_of table.now) × (q < states_of table.now) }
    ensures { let t = table.now in
        Next (unanswered_by t (relation_of (states_of t) grid.now) q) (offset_at t (p + 1)) (offset_at t p) result }
{
    let first = transitions::offset(table, p);
    let end = transitions::offset(table, p + 1);
    // A loop and not `find` with `unwrap_or`: with these test simulation took up to 1.3 times as long.
    for i in first..end {
        if !has_answer(table, grid, q, i) {
            return i;
        }
    }
    end
}

// Condition 1, the starting condition: the pair (p, q) is in the start.
fn starting_condition(table: &transitions::Table, start: &[u64], p: usize, q: usize) -> bool
    requires { Formed table.now × Matrix (states_of table.now) start.now × (p < states_of table.now) × (q < states_of table.now) }
    ensures { T result ↔ Starting (relation_of (states_of table.now) start.now) p q }
{
    relation::relates(start, transitions::states(table), p, q)
}

// Condition 2, the transfer condition: each transition of p has an answer by q, with the targets in the claim. That the pair meets
// condition 1 is its premise, and the start is a parameter for that alone.
fn transfer_condition(
    table: &transitions::Table,
    start: &[u64],
    claim: &[u64],
    p: usize,
    q: usize,
) -> bool
    requires formed { Formed table.now × Matrix (states_of table.now) claim.now × (p < states_of table.now) × (q < states_of table.now) }
    requires starting { Starting (relation_of (states_of table.now) start.now) p q }
    ensures { T result ↔ Transfer (table_lts table.now) (relation_of (states_of table.now) claim.now) p q }
{
    first_unanswered(table, claim, p, q) == transitions::offset(table, p + 1)
}

// Whether the pair (p, q) meets both conditions; the second is tested where the first is met.
fn pair_passes(table: &transitions::Table, start: &[u64], claim: &[u64], p: usize, q: usize) -> bool
    requires formed { Formed table.now × Matrix (states_of table.now) start.now × Matrix (states_of table.now) claim.now }
    requires p_bound { (p < states_of table.now) × (q < states_of table.now) }
    ensures { let t = table.now in
        let n = states_of t in
        result ≡ both_conditions (table_lts t) (relation_of n start.now) (relation_of n claim.now) p q }
{
    if starting_condition(table, start, p, q) {
        return transfer_condition(table, start, claim, p, q);
    }
    false
}

// Whether each pair of row p of the claim does, in ascending order.
fn row_passes(table: &transitions::Table, start: &[u64], claim: &[u64], p: usize) -> bool
    requires formed { Formed table.now × Matrix (states_of table.now) start.now × Matrix (states_of table.now) claim.now }
    requires p_bound { p < states_of table.now }
    ensures { let t = table.now in
        let n = states_of t in
        let R = relation_of n claim.now in
        result ≡ all_below n (λ q. R p q ⇒ both_conditions (table_lts t) (relation_of n start.now) R p q) }
{
    let n = transitions::states(table);
    let w = rows::row_words(n);
    let row = relation::row_at(claim, n, p);
    let mut q = rows::next_state(row, w, 0);
    while q < n {
        if !pair_passes(table, start, claim, p, q) {
            return false;
        }
        q = rows::next_state(row, w, q + 1);
    }
    true
}

// Whether each pair of the claim does, in ascending order.
pub fn claim_passes(table: &transitions::Table, start: &[u64], claim: &[u64]) -> bool
    requires { Formed table.now × Matrix (states_of table.now) start.now × Matrix (states_of table.now) claim.now }
    ensures { let t = table.now in
        let R = relation_of (states_of t) claim.now in
        result ≡ within (table_lts t) R (both_conditions (table_lts t) (relation_of (states_of t) start.now) R) }
{
    (0..transitions::states(table)).all(|p| row_passes(table, start, claim, p))
}
