// Compare (document 01, "Hand play and comparison"): whether the second encoding's system simulates the first's, by the coarsest
// simulation of their disjoint union.
#![tactic(auto)]

ghost use Rattle.std.specs.Prelude.{◌≡◌, cond, [], ◌∷◌, ◌*◌, ◌<◌, ◌≤◌, length};
ghost use Rattle.lts.specs.System.{termination_preorder};
ghost use Rattle.lts.specs.Refinement.{coarsest};
ghost use Rattle.lts.specs.Ready.{ready_preorder};
ghost use Rattle.lts.specs.Rule.{given};
ghost use Rattle.rows.specs.Rows.{row_words};
ghost use Rattle.transitions.specs.Table.{states_of, table_lts, Formed};
ghost use Rattle.relation.specs.Matrix.{relation_of, matrix_of};
ghost use Rattle.starts.specs.Start.{written_start};
ghost use Rattle.refinement.specs.Engine.{Start};
ghost use Rattle.comparison.specs.Run.{pair_reply};
ghost use Rattle.comparison.specs.Call.{compare_reply, compare_call, Relates, ComparePromise, CompareReadyPromise};

// Whether the second system simulates the first, and the steps made.
#[derive(Clone, Copy)]
pub struct Comparison {
    pub related: bool,
    pub steps: usize,
}

// The run on a table from a start, with an empty schedule: the relation at its end, and its steps. The blocks are the caller's.
pub fn relate(
    table: &transitions::Table,
    start: &[u64],
    related: &mut [u64],
    blocks: &mut [u64],
) -> usize
    requires formed { Formed table.now × Start (states_of table.now) start.now }
    requires fact { let words = states_of table.now * row_words (states_of table.now) in
        (length related.old ≡ words) × (length blocks.old ≡ words) }
    ensures result_value { let t = table.now in result ≡ (coarsest (table_lts t) (relation_of (states_of t) start.now) []).steps }
    ensures related_after { let t = table.now in
        let run = coarsest (table_lts t) (relation_of (states_of t) start.now) [] in
        related.new ≡ matrix_of (states_of t) run.final.related }
{
    let schedule: [u16; 0] = [];
    refinement::refine_all(table, start, &schedule, related, blocks)
}

// Whether that run from the table's ready start, or from its end start, keeps the pair (0, q), and its steps.
fn compare_in(
    table: &transitions::Table,
    ready: bool,
    q: usize,
    start: &mut [u64],
    related: &mut [u64],
    blocks: &mut [u64],
) -> Comparison
    requires formed { Formed table.now × (q < states_of table.now) }
    requires fact { let words = states_of table.now * row_words (states_of table.now) in
        (length start.old ≡ words) × (length related.old ≡ words) × (length blocks.old ≡ words) }
    ensures { pair_reply (written_start ready) (table_lts table.now) q ≡ compare_reply (Ok result) }
{
    starts::write_start(table, ready, start);
    let steps = relate(table, start, related, blocks);
    let n = transitions::states(table);
    Comparison {
        related: relation::relates(related, n, 0, q),
        steps,
    }
}

// The same with room for matrices of at most WORDS words: small arrays are cleared sooner.
fn compare_sized<const WORDS: usize>(
    table: &transitions::Table,
    ready: bool,
    q: usize,
    size: usize,
) -> Comparison
    requires { let n = states_of table.now in Formed table.now × (q < n) × (size ≡ n * row_words n) × (size ≤ WORDS) × (WORDS ≤ 1024) }
    ensures { pair_reply (written_start ready) (table_lts table.now) q ≡ compare_reply (Ok result) }
{
    let mut start = [0u64; WORDS];
    let mut related = [0u64; WORDS];
    let mut blocks = [0u64; WORDS];
    compare_in(
        table,
        ready,
        q,
        &mut start[..size],
        &mut related[..size],
        &mut blocks[..size],
    )
}

// The same, whatever the table's size.
fn compare_started(table: &transitions::Table, ready: bool, q: usize) -> Comparison
    requires { Formed table.now × (q < states_of table.now) }
    ensures { pair_reply (written_start ready) (table_lts table.now) q ≡ compare_reply (Ok result) }
{
    let size = relation::matrix_words(transitions::states(table));
    if size <= 64 {
        return compare_sized::<64>(table, ready, q, size);
    }
    compare_sized::<1024>(table, ready, q, size)
}

// The same of two encodings' disjoint union, actions matched by name, for the two states 0.
fn compare_by(first: &[u8], second: &[u8], ready: bool) -> Result<Comparison, lts::Refusal>
    ensures { compare_call (written_start ready) first.now second.now ≡ compare_reply result }
{
    let mut to = [0u16; 65];
    let both = inputs::read_both(first, second, &mut to)?;
    let h = both.first;
    let mut table = transitions::empty();
    transitions::load_both(first, h, second, both.second, &to, both.labels, &mut table);
    Ok(compare_started(&table, ready, h.states))
}

// Compare: whether state 0 of the second encoding's system simulates state 0 of the first's, with the steps made.
pub fn compare(first: &[u8], second: &[u8]) -> Result<Comparison, lts::Refusal>
    ensures second_value { compare_call termination_preorder first.now second.now ≡ compare_reply result }
    ensures compare_promise { ComparePromise termination_preorder Relates first.now second.now (compare_reply result) }
{
    compare_by(first, second, false)
}

// Compare's ready form (document 02, L6): the same where only states with the same set of actions are related.
pub fn compare_ready(first: &[u8], second: &[u8]) -> Result<Comparison, lts::Refusal>
    ensures second_value { compare_call ready_preorder first.now second.now ≡ compare_reply result }
    ensures compare_ready_promise { CompareReadyPromise first.now second.now (compare_reply result) }
{
    compare_by(first, second, true)
}
