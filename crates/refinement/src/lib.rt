// The refinement engine (document 01, "Turns") on a transition table: the relations K and V and the blocks of K are lists of 256 sets of four words, and a
// refinement step works on whole sets.
#![tactic(auto)]

ghost use Rattle.std.specs.Prelude.{◌≡◌, true, false, cond, not, ◌&&◌, ◌||◌, List, ℕ, ◌+◌, ◌*◌, ◌<◌, ◌≤◌, eqb, ltb, length, get_or};
ghost use Rattle.lts.specs.Bounded.{◌⇒◌, any_below, all_below};
ghost use Rattle.lts.specs.System.{into};
ghost use Rattle.lts.specs.Refinement.{block, initial, remove, coarsest};
ghost use Rattle.rows.specs.Rows.{in_row, row_of, row_words};
ghost use Rattle.relation.specs.Matrix.{relation_of, matrix_of};
ghost use Rattle.sets.specs.Sets.{set_at, sets_of};
ghost use Rattle.sets.specs.Parts.{Parted};
ghost use Rattle.transitions.specs.Table.{states_of, actions_of, count_of, source_at, action_at, table_lts, Formed};
ghost use Rattle.adjacency.specs.Adjacency.{Index, actions_entering};
ghost use Rattle.splitting.specs.Split.{Acted};
ghost use Rattle.refinement.specs.Engine.{Turning, Fixed, Owning, Done, Stepping, Made, State, Start};

// What a step fixes at its beginning: B, Y and N, the actions to go through (bit a - 1 for action a), and whether Y and N have every state and Y few.
#[derive(Clone, Copy)]
pub struct Turn {
    pub members: [u64; 4],
    pub inside: [u64; 4],
    pub outside: [u64; 4],
    pub actions: u64,
    pub whole: bool,
}

// One action of a step: Rem, and what it splits and refutes. Gives the states whose rows can have changed.
fn refine_action(
    places: &[u16],
    rows: &[u64],
    a: usize,
    turn: Turn,
    shared: [u64; 4],
    related: &mut [u64],
    blocks: &mut [u64],
) -> [u64; 4]
    requires { (length related.old ≡ 1024) × (length blocks.old ≡ 1024) × Parted (set_at blocks.old) (in_row shared)
        × ((t : List ℕ) × Index t places.now rows.now × (1 ≤ a) × (a ≤ actions_of t) × Owning t blocks.old) }
    ensures by_index { (t : List ℕ) → Index t places.now rows.now → a ≤ actions_of t
        → (turn.whole ≡ true → (q : ℕ) → q < states_of t → in_row turn.inside q || in_row turn.outside q ≡ true)
        → Acted (remove (table_lts t) a (in_row turn.inside) (in_row turn.outside)) (into (table_lts t) a (in_row turn.members))
        related.old blocks.old related.new blocks.new result }
    ensures parted { Parted (set_at blocks.new) (in_row shared) }
{
    let rem = adjacency::removed(places, rows, a, turn.inside, turn.outside, turn.whole);
    if !sets::any(rem) {
        return [0u64; 4];
    }
    let hits = adjacency::sources_into(places, rows, a, turn.members);
    splitting::refine_by(rem, hits, shared, related, blocks)
}

// All actions of a step that may change something, ascending. Gives the states whose rows can have changed.
fn refine_actions(
    places: &[u16],
    rows: &[u64],
    turn: Turn,
    shared: [u64; 4],
    related: &mut [u64],
    blocks: &mut [u64],
) -> [u64; 4]
    requires { (length related.old ≡ 1024) × (length blocks.old ≡ 1024) × Parted (set_at blocks.old) (in_row shared)
        × ((t : List ℕ) × Owning t blocks.old × Fixed t places.now rows.now turn.actions
        (in_row turn.members) (in_row turn.inside) (in_row turn.outside) (set_at blocks.old) turn.whole) }
    ensures by_index { (t : List ℕ) → Owning t blocks.old → Fixed t places.now rows.now turn.actions
        (in_row turn.members) (in_row turn.inside) (in_row turn.outside) (set_at blocks.old) turn.whole
        → Done t (in_row turn.members) (in_row turn.inside) (in_row turn.outside)
        related.old blocks.old related.new blocks.new result }
    ensures parted { Parted (set_at blocks.new) (in_row shared) }
{
    let mut touched = [0u64; 4];
    for i in rows::ones(turn.actions) {
        let changed = refine_action(places, rows, i + 1, turn, shared, related, blocks);
        // By a second name: `touched = sets::join(..)`, a call's array put into a live one, has no proof yet (tried).
        let next = sets::join(touched, changed);
        touched = next;
    }
    touched
}

// Whether V has every state and Y at most half of them.
fn is_whole(seen: [u64; 4], all: [u64; 4], inside: [u64; 4]) -> bool
    ensures { result ≡ true → (q : ℕ) → q < 256 → in_row seen q ≡ in_row all q }
{
    if sets::differ(seen, all) {
        return false;
    }
    2 * rows::row_count(&inside, 4) <= rows::row_count(&all, 4)
}

// Where states share blocks, an action with no transition into Y changes nothing, nor does one with none into N: Y is the set to ask about if `whole`.
fn watched(inside: [u64; 4], outside: [u64; 4], whole: bool) -> [u64; 4]
    ensures { result ≡ cond whole inside outside }
{
    if whole {
        return inside;
    }
    outside
}

// The actions to go through: those with a transition into the set or, where no two states share a block, into b.
fn actions_of(rows: &[u64], shared: [u64; 4], b: usize, set: [u64; 4]) -> u64
    requires { (b < 256) × (256 ≤ length rows.now) }
    ensures { let rows = rows.entry.now in
        result ≡ cond (any_below 256 (in_row shared)) (actions_entering rows (in_row set)) (get_or rows b 0) }
{
    if sets::any(shared) {
        return adjacency::actions_entering(rows, set);
    }
    adjacency::actions_into(rows, b)
}

// What the step of the block of b fixes.
fn turn_of(
    rows: &[u64],
    all: [u64; 4],
    shared: [u64; 4],
    b: usize,
    related: &[u64],
    viewed: &[u64],
    blocks: &[u64],
) -> Turn
    requires { (b < 256) × (256 ≤ length rows.now) × (length related.now ≡ 1024) × (length viewed.now ≡ 1024) × (length blocks.now ≡ 1024) }
    ensures { Turning rows.now all shared b related.now viewed.now blocks.now
        result.members result.inside result.outside result.actions result.whole }
{
    let inside = sets::at(related, b);
    let seen = sets::at(viewed, b);
    let members = sets::at(blocks, b);
    let outside = sets::minus(seen, inside);
    let whole = is_whole(seen, all, inside);
    let actions = actions_of(rows, shared, b, watched(inside, outside, whole));
    Turn {
        members,
        inside,
        outside,
        actions,
        whole,
    }
}

// The refinement step of the block of b. Gives the states at which a row of K, V or the blocks can have changed.
fn refine_step(
    places: &[u16],
    rows: &[u64],
    all: [u64; 4],
    shared: [u64; 4],
    b: usize,
    related: &mut [u64],
    viewed: &mut [u64],
    blocks: &mut [u64],
) -> [u64; 4]
    requires { (t : List ℕ) × Stepping t places.now rows.now all b related.old viewed.old blocks.old shared }
    ensures { (t : List ℕ)
        → Stepping t places.now rows.now all b related.old viewed.old blocks.old shared
        → Made t b shared related.old viewed.old blocks.old
        related.new viewed.new blocks.new result }
{
    let turn = turn_of(rows, all, shared, b, related, viewed, blocks);
    partition::set_rows(viewed, turn.members, turn.inside);
    let touched = refine_actions(places, rows, turn, shared, related, blocks);
    sets::meet(sets::join(turn.members, touched), all)
}

// The whole run, from K, V and the blocks at the beginning to those at its end; the number of steps made.
fn run(
    places: &[u16],
    rows: &[u64],
    all: [u64; 4],
    schedule: &[u16],
    related: &mut [u64],
    viewed: &mut [u64],
    blocks: &mut [u64],
) -> usize
    requires { (t start : List ℕ) × Index t places.now rows.now × Start (states_of t) start × (all ≡ row_of 4 (λ q. ltb q (states_of t)))
        × State (table_lts t) (relation_of (states_of t) start) schedule.now 0 related.old viewed.old blocks.old }
    ensures { (t start : List ℕ) → Index t places.now rows.now → Start (states_of t) start
        → all ≡ row_of 4 (λ q. ltb q (states_of t))
        → State (table_lts t) (relation_of (states_of t) start) schedule.now 0 related.old viewed.old blocks.old
        → (let run = coarsest (table_lts t) (relation_of (states_of t) start) schedule.now in
        (result ≡ run.steps) × (related.new ≡ sets_of 256 run.final.related) × (blocks.new ≡ sets_of 256 (block run.final.related))) }
{
    let alone = partition::single_rows(blocks, all);
    let mut shared = sets::minus(all, alone);
    let mut pending = [0u64; 4];
    partition::update_pending(related, viewed, blocks, shared, all, &mut pending);
    let mut steps = 0;
    while partition::any_pending(&pending) {
        let b = partition::next_block(&pending, schedule, steps);
        let touched = refine_step(places, rows, all, shared, b, related, viewed, blocks);
        let single = partition::single_rows(blocks, sets::meet(touched, shared));
        // By a second name, as in `refine_actions`.
        let rest = sets::minus(shared, single);
        shared = rest;
        partition::update_pending(related, viewed, blocks, shared, touched, &mut pending);
        steps += 1;
    }
    steps
}

// Takes out of each state's row what lacks a transition by an action that the state has one by.
fn keep_enabled(table: &transitions::Table, rows: &[u64], related: &mut [u64])
    requires { (length related.old ≡ 1024) × ((places : List ℕ) × Index table.now places rows.now) }
    ensures { let t = table.now in
        related.new ≡ sets_of 256 (λ p q. set_at related.old p q
        && all_below (count_of t) (λ i. eqb (source_at t i) p ⇒ set_at rows.now (63 + 2 * action_at t i) q)) }
{
    for i in 0..transitions::count(table) {
        let p = transitions::source(table, i);
        let able = adjacency::enabled(rows, transitions::action(table, i));
        sets::put(related, p, sets::meet(sets::at(related, p), able));
    }
}

// Writes K, V and the blocks of K at the beginning into empty lists.
fn begin(
    table: &transitions::Table,
    rows: &[u64],
    all: [u64; 4],
    start: &[u64],
    related: &mut [u64],
    viewed: &mut [u64],
    blocks: &mut [u64],
)
    requires start { Start (states_of table.now) start.now × (all ≡ row_of 4 (λ q. ltb q (states_of table.now)))
        × ((places : List ℕ) × Index table.now places rows.now) }
    requires related_value { (related.old ≡ sets_of 256 (λ p q. false)) × (viewed.old ≡ sets_of 256 (λ p q. false))
        × (blocks.old ≡ sets_of 256 (λ p q. false)) }
    ensures { (schedule : List ℕ) → let t = table.now in
        State (table_lts t) (relation_of (states_of t) start.now) schedule 0 related.new viewed.new blocks.new }
{
    let n = transitions::states(table);
    sets::from_matrix(start, n, related);
    keep_enabled(table, rows, related);
    partition::set_rows(viewed, all, all);
    partition::write_blocks(related, n, blocks);
}

// The whole run on a table: K and the blocks at its end as matrices, and the number of steps made. `places` and `rows` are empty.
fn refine_in(
    table: &transitions::Table,
    start: &[u64],
    schedule: &[u16],
    related: &mut [u64],
    blocks: &mut [u64],
    places: &mut [u16],
    rows: &mut [u64],
) -> usize
    requires formed { Formed table.now × Start (states_of table.now) start.now }
    requires fact { let words = states_of table.now * row_words (states_of table.now) in
        (length related.old ≡ words) × (length blocks.old ≡ words) }
    requires table_in_bounds { (512 * (actions_of table.now + 1) ≤ length places.old)
        × ((65 + 2 * actions_of table.now + 2 * count_of table.now) * 4 ≤ length rows.old) }
    requires by_index { ((x : ℕ) → get_or places.old x 0 ≡ 0) × ((x : ℕ) → get_or rows.old x 0 ≡ 0) }
    ensures { let t = table.now in
        let run = coarsest (table_lts t) (relation_of (states_of t) start.now) schedule.now in
        (result ≡ run.steps) × (related.new ≡ matrix_of (states_of t) run.final.related)
        × (blocks.new ≡ matrix_of (states_of t) (block run.final.related)) }
{
    let n = transitions::states(table);
    let all = rows::states_below(n);
    let mut kept = [0u64; 1024];
    let mut viewed = [0u64; 1024];
    let mut parts = [0u64; 1024];
    adjacency::index_transitions(table, places, rows);
    begin(table, rows, all, start, &mut kept, &mut viewed, &mut parts);
    let steps = run(
        places,
        rows,
        all,
        schedule,
        &mut kept,
        &mut viewed,
        &mut parts,
    );
    relation::copy_matrix(related, start);
    sets::to_matrix(&kept, n, related);
    relation::copy_matrix(blocks, start);
    sets::to_matrix(&parts, n, blocks);
    steps
}

// The run on a table that the arrays have room for: small arrays are cleared sooner.
fn refine_sized<const PLACES: usize, const ROWS: usize>(
    table: &transitions::Table,
    start: &[u64],
    schedule: &[u16],
    related: &mut [u64],
    blocks: &mut [u64],
) -> usize
    requires formed { Formed table.now × Start (states_of table.now) start.now }
    requires fact { let words = states_of table.now * row_words (states_of table.now) in
        (length related.old ≡ words) × (length blocks.old ≡ words) }
    requires table_in_bounds { (512 * (actions_of table.now + 1) ≤ PLACES)
        × ((65 + 2 * actions_of table.now + 2 * count_of table.now) * 4 ≤ ROWS) }
    requires sizes { (PLACES ≤ 33280) × (ROWS ≤ 8964) }
    ensures { let t = table.now in
        let run = coarsest (table_lts t) (relation_of (states_of t) start.now) schedule.now in
        (result ≡ run.steps) × (related.new ≡ matrix_of (states_of t) run.final.related)
        × (blocks.new ≡ matrix_of (states_of t) (block run.final.related)) }
{
    let mut places = [0u16; PLACES];
    let mut rows = [0u64; ROWS];
    refine_in(
        table,
        start,
        schedule,
        related,
        blocks,
        &mut places,
        &mut rows,
    )
}

// The whole run: K and the blocks at its end, and the number of steps made.
pub fn refine_all(
    table: &transitions::Table,
    start: &[u64],
    schedule: &[u16],
    related: &mut [u64],
    blocks: &mut [u64],
) -> usize
    requires formed { Formed table.now × Start (states_of table.now) start.now }
    requires fact { let words = states_of table.now * row_words (states_of table.now) in
        (length related.old ≡ words) × (length blocks.old ≡ words) }
    ensures result_value { let t = table.now in
        result ≡ (coarsest (table_lts t) (relation_of (states_of t) start.now) schedule.now).steps }
    ensures related_after { let t = table.now in
        let run = coarsest (table_lts t) (relation_of (states_of t) start.now) schedule.now in
        related.new ≡ matrix_of (states_of t) run.final.related }
    ensures blocks_after { let t = table.now in
        let run = coarsest (table_lts t) (relation_of (states_of t) start.now) schedule.now in
        blocks.new ≡ matrix_of (states_of t) (block run.final.related) }
{
    let m = transitions::actions(table);
    let k = transitions::count(table);
    if (m <= 2) & (k <= 16) {
        return refine_sized::<1536, 404>(table, start, schedule, related, blocks);
    }
    if (m <= 8) & (k <= 128) {
        return refine_sized::<4608, 1348>(table, start, schedule, related, blocks);
    }
    refine_sized::<33280, 8964>(table, start, schedule, related, blocks)
}
