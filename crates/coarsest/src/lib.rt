// Coarsest (document 01, "Turns"): the coarsest simulation inside a preorder, with the steps, pairs and blocks of its run.
#![tactic(auto)]

ghost use Rattle.std.specs.Prelude.{◌≡◌, ◌*◌, ◌≤◌, length, Ok};
ghost use Rattle.encoding.specs.Denotation.{lts_of};
ghost use Rattle.rows.specs.Rows.{row_words};
ghost use Rattle.transitions.specs.Table.{states_of, table_lts, Formed};
ghost use Rattle.relation.specs.Matrix.{relation_of};
ghost use Rattle.inputs.specs.Inputs.{Ready};
ghost use Rattle.refinement.specs.Engine.{Start};
ghost use Rattle.coarsest.specs.Call.{coarsest_reply, refined, coarsest_call, CoarsestPromise};

// The steps made, the pairs kept and the blocks.
#[derive(Clone, Copy)]
pub struct Counts {
    pub steps: usize,
    pub pairs: usize,
    pub blocks: usize,
}

// The run on a table: K, the representatives and the counts. The blocks are the caller's.
fn refine_in(
    table: &transitions::Table,
    start: &[u64],
    schedule: &[u16],
    related: &mut [u64],
    representatives: &mut [u16],
    blocks: &mut [u64],
) -> Counts
    requires formed { Formed table.now × Start (states_of table.now) start.now × (length representatives.old ≡ states_of table.now) }
    requires fact { let words = states_of table.now * row_words (states_of table.now) in
        (length related.old ≡ words) × (length blocks.old ≡ words) }
    ensures { let t = table.now in
        refined (table_lts t) (relation_of (states_of t) start.now) schedule.now
        ≡ record { reply = coarsest_reply (Ok result); grid = related.new; representatives = representatives.new } }
{
    let steps = refinement::refine_all(table, start, schedule, related, blocks);
    let n = transitions::states(table);
    partition::write_names(blocks, n, representatives);
    Counts {
        steps,
        pairs: relation::count_pairs(related, n),
        blocks: partition::count_blocks(blocks, n),
    }
}

// The same with room for the blocks of a table whose matrices have at most WORDS words: a small array is cleared sooner.
fn refine_sized<const WORDS: usize>(
    table: &transitions::Table,
    start: &[u64],
    schedule: &[u16],
    related: &mut [u64],
    representatives: &mut [u16],
) -> Counts
    requires formed { Formed table.now × Start (states_of table.now) start.now × (length representatives.old ≡ states_of table.now)
        × (length related.old ≡ states_of table.now * row_words (states_of table.now)) }
    requires sizes { (length related.old ≤ WORDS) × (WORDS ≤ 1024) }
    ensures { let t = table.now in
        refined (table_lts t) (relation_of (states_of t) start.now) schedule.now
        ≡ record { reply = coarsest_reply (Ok result); grid = related.new; representatives = representatives.new } }
{
    let mut blocks = [0u64; WORDS];
    let size = related.len();
    refine_in(
        table,
        start,
        schedule,
        related,
        representatives,
        &mut blocks[..size],
    )
}

// The run on a table: K, the representatives and the counts.
pub fn refine_table(
    table: &transitions::Table,
    start: &[u64],
    schedule: &[u16],
    related: &mut [u64],
    representatives: &mut [u16],
) -> Counts
    requires { Formed table.now × Start (states_of table.now) start.now × (length representatives.old ≡ states_of table.now)
        × (length related.old ≡ states_of table.now * row_words (states_of table.now)) }
    ensures { let t = table.now in
        refined (table_lts t) (relation_of (states_of t) start.now) schedule.now
        ≡ record { reply = coarsest_reply (Ok result); grid = related.new; representatives = representatives.new } }
{
    if related.len() <= 64 {
        return refine_sized::<64>(table, start, schedule, related, representatives);
    }
    refine_sized::<1024>(table, start, schedule, related, representatives)
}

// The run on a readable encoding, from a preorder, with result buffers of the right lengths.
fn refine_encoding(
    s: &[u8],
    h: encoding::Header,
    start: &[u64],
    schedule: &[u16],
    grid: &mut [u64],
    representatives: &mut [u16],
) -> Counts
    requires ready { Ready s.now h start.now }
    requires grid_len { (length grid.old ≡ h.states * row_words h.states) × (length representatives.old ≡ h.states) }
    ensures { refined (lts_of s.now) (relation_of h.states start.now) schedule.now
        ≡ record { reply = coarsest_reply (Ok result); grid = grid.new; representatives = representatives.new } }
{
    let table = transitions::load(s, h);
    refine_table(&table, start, schedule, grid, representatives)
}

// Coarsest: writes the coarsest simulation inside the start, and each state's representative.
pub fn coarsest(
    s: &[u8],
    start: &[u64],
    schedule: &[u16],
    grid: &mut [u64],
    representatives: &mut [u16],
) -> Result<Counts, lts::Refusal>
    ensures representatives_value { coarsest_call s.now start.now schedule.now grid.old representatives.old
        ≡ record { reply = coarsest_reply result; grid = grid.new; representatives = representatives.new } }
    ensures coarsest_promise { CoarsestPromise s.now start.now schedule.now grid.old representatives.old
        (coarsest_reply result) grid.new representatives.new }
{
    let h = inputs::read_inputs(s, start)?;
    let n = h.states;
    if (grid.len() != relation::matrix_words(n)) | (representatives.len() != n) {
        return Err(lts::Refusal::Buffer);
    }
    Ok(refine_encoding(s, h, start, schedule, grid, representatives))
}
