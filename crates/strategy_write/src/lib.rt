// The strategy of a refuted pair (document 01, "Write plan") on a transition table, written into a slice of 16-bit numbers, four an entry.
#![tactic(auto)]

ghost use Rattle.std.specs.Prelude.{◌≡◌, true, false, ◌∷◌, [], ◌++◌, ◌+◌, ◌*◌, ◌<◌, ◌≤◌, length, drop};
ghost use Rattle.std.proofs.lemmas.List.Edits.{sets};
ghost use Rattle.lts.specs.System.{answered};
ghost use Rattle.lts.specs.Rounds.{refutation_round};
ghost use Rattle.lts.specs.Strategy.{entry_numbers, entries_before, strategy, strategy_length};
ghost use Rattle.transitions.specs.Table.{states_of, table_lts, Formed};
ghost use Rattle.relation.specs.Matrix.{relation_of, matrix_of, Matrix};
ghost use Rattle.strategy_write.specs.Writing.{pairs_of, Consecutive, entry_from, cell_entries, row_entries, round_entries, WrittenBefore};

// Writes one entry.
fn put_entry(numbers: &mut [u16], at: usize, entry: lts::Entry)
    requires { 4 * (at + 1) ≤ length numbers.old }
    ensures { numbers.new ≡ sets numbers.old (4 * at) (entry_numbers (entry ∷ [])) }
{
    let i = 4 * at;
    numbers[i] = entry.p;
    numbers[i + 1] = entry.q;
    numbers[i + 2] = entry.a;
    numbers[i + 3] = entry.t;
}

// The entry of (p, q), which leaves `before`; at round 0 with a = t = 0.
fn entry_from(
    table: &transitions::Table,
    before: &[u64],
    initial: bool,
    p: usize,
    q: usize,
) -> lts::Entry
    requires fact { let n = states_of table.now in
        Formed table.now × Matrix n before.now × (p < n) × (q < n) }
    requires q_value { initial ≡ false → answered (table_lts table.now) (pairs_of table.now before.now) p q ≡ false }
    ensures { result ≡ entry_from (table_lts table.now) initial (pairs_of table.now before.now) p q }
{
    if initial {
        return lts::Entry {
            p: p as u16,
            q: q as u16,
            a: 0,
            t: 0,
        };
    }
    let i = conditions::first_unanswered(table, before, p, q);
    lts::Entry {
        p: p as u16,
        q: q as u16,
        a: transitions::action(table, i) as u16,
        t: transitions::target(table, i) as u16,
    }
}

// Two rounds, the one after the other. `initial`, a flag as in `Consecutive` of specs/, says that the first is that of all pairs.
#[derive(Clone, Copy)]
struct Step<'a> {
    table: &'a transitions::Table,
    before: &'a [u64],
    after: &'a [u64],
    initial: bool,
}

// Writes the entry of (p, q) if it is in `before` and not in `after`. Gives the place of the next entry.
fn write_cell(step: &Step, p: usize, q: usize, numbers: &mut [u16], at: usize) -> usize
    requires consecutive { let t = step.now.table.now in
        Consecutive t step.now.initial step.now.before.now step.now.after.now × (p < states_of t) × (q < states_of t) }
    requires es_in_bounds { let t = step.now.table.now in
        let es = cell_entries (table_lts t) step.now.initial (pairs_of t step.now.before.now) (pairs_of t step.now.after.now) p q in
        4 * (at + length es) ≤ length numbers.old }
    ensures result_value { let t = step.now.table.now in
        result ≡ at + length (cell_entries (table_lts t) step.now.initial (pairs_of t step.now.before.now) (pairs_of t step.now.after.now) p q) }
    ensures numbers_after { let t = step.now.table.now in
        let es = cell_entries (table_lts t) step.now.initial (pairs_of t step.now.before.now) (pairs_of t step.now.after.now) p q in
        numbers.new ≡ sets numbers.old (4 * at) (entry_numbers es) }
{
    let n = transitions::states(step.table);
    if relation::relates(step.before, n, p, q) & !relation::relates(step.after, n, p, q) {
        put_entry(
            numbers,
            at,
            entry_from(step.table, step.before, step.initial, p, q),
        );
        return at + 1;
    }
    at
}

// The same for row p, which is often as it was.
fn write_row(step: &Step, p: usize, numbers: &mut [u16], first: usize) -> usize
    requires consecutive { let t = step.now.table.now in
        Consecutive t step.now.initial step.now.before.now step.now.after.now × (p < states_of t) }
    requires es_in_bounds { let t = step.now.table.now in
        let es = row_entries (table_lts t) step.now.initial (pairs_of t step.now.before.now) (pairs_of t step.now.after.now) p in
        4 * (first + length es) ≤ length numbers.old }
    ensures result_value { let t = step.now.table.now in
        result ≡ first + length (row_entries (table_lts t) step.now.initial (pairs_of t step.now.before.now) (pairs_of t step.now.after.now) p) }
    ensures numbers_after { let t = step.now.table.now in
        let es = row_entries (table_lts t) step.now.initial (pairs_of t step.now.before.now) (pairs_of t step.now.after.now) p in
        numbers.new ≡ sets numbers.old (4 * first) (entry_numbers es) }
{
    let n = transitions::states(step.table);
    if !rows::row_differs(
        relation::row_at(step.before, n, p),
        relation::row_at(step.after, n, p),
        rows::row_words(n),
    ) {
        return first;
    }
    let mut at = first;
    for q in 0..n {
        at = write_cell(step, p, q, numbers, at);
    }
    at
}

// The same for all rows.
fn write_round(step: &Step, numbers: &mut [u16], first: usize) -> usize
    requires consecutive { Consecutive step.now.table.now step.now.initial step.now.before.now step.now.after.now }
    requires es_in_bounds { let t = step.now.table.now in
        let es = round_entries (table_lts t) step.now.initial (pairs_of t step.now.before.now) (pairs_of t step.now.after.now) in
        4 * (first + length es) ≤ length numbers.old }
    ensures result_value { let t = step.now.table.now in
        result ≡ first + length (round_entries (table_lts t) step.now.initial (pairs_of t step.now.before.now) (pairs_of t step.now.after.now)) }
    ensures numbers_after { let t = step.now.table.now in
        let es = round_entries (table_lts t) step.now.initial (pairs_of t step.now.before.now) (pairs_of t step.now.after.now) in
        numbers.new ≡ sets numbers.old (4 * first) (entry_numbers es) }
{
    let n = transitions::states(step.table);
    let mut at = first;
    for p in 0..n {
        at = write_row(step, p, numbers, at);
    }
    at
}

// Writes the entries of the pairs that fall before round `rounds`, from all pairs in `current` and W0 in `next`. Leaves in `current` the
// round before that.
fn write_rounds(
    table: &transitions::Table,
    current: &mut [u64],
    next: &mut [u64],
    rounds: usize,
    numbers: &mut [u16],
) -> usize
    requires formed { Formed table.now × Matrix (states_of table.now) next.old × (current.old ≡ matrix_of (states_of table.now) (λ p q. true)) }
    requires rounds_in_bounds { let W = relation_of (states_of table.now) next.old in
        4 * length (entries_before (table_lts table.now) W rounds) ≤ length numbers.old }
    ensures { WrittenBefore table.now next.old numbers.old rounds result current.new numbers.new }
{
    let n = transitions::states(table);
    let mut settled = [0u64; 4];
    let mut at = 0;
    for i in 0..rounds {
        let step = Step {
            table,
            before: current,
            after: next,
            initial: i == 0,
        };
        at = write_round(&step, numbers, at);
        relation::copy_matrix(current, next);
        strategy_rounds::next_round(table, current, next, &settled);
        settled = strategy_rounds::same_rows(n, current, next);
    }
    at
}

// Writes the strategy of (p, q), which falls at round `round`, with two matrices to work in.
fn write_from(
    table: &transitions::Table,
    start: &[u64],
    current: &mut [u64],
    next: &mut [u64],
    p: usize,
    q: usize,
    round: usize,
    numbers: &mut [u16],
)
    requires fact { let L = table_lts table.now in
        let n = states_of table.now in
        let R = relation_of n start.now in
        Formed table.now × Matrix n start.now × (p < n) × (q < n) × (round ≡ refutation_round L R p q) × (round ≤ n * n)
        × (4 * strategy_length L R p q ≤ length numbers.old) }
    requires current_len { (length current.old ≡ length start.now) × (length start.now ≡ length next.old) }
    ensures { let L = table_lts table.now in
        let R = relation_of (states_of table.now) start.now in
        numbers.new ≡ entry_numbers (strategy L R p q) ++ drop (4 * strategy_length L R p q) numbers.old }
{
    relation::write_all_pairs(transitions::states(table), current);
    relation::copy_matrix(next, start);
    let at = write_rounds(table, current, next, round, numbers);
    put_entry(numbers, at, entry_from(table, current, round == 0, p, q));
}

// Writes the strategy of (p, q), which falls at round `round`.
pub fn write_table(
    table: &transitions::Table,
    start: &[u64],
    p: usize,
    q: usize,
    round: usize,
    numbers: &mut [u16],
)
    requires { let L = table_lts table.now in
        let n = states_of table.now in
        let R = relation_of n start.now in
        Formed table.now × Matrix n start.now × (p < n) × (q < n) × (round ≡ refutation_round L R p q) × (round ≤ n * n)
        × (4 * strategy_length L R p q ≤ length numbers.old) }
    ensures { let L = table_lts table.now in
        let R = relation_of (states_of table.now) start.now in
        numbers.new ≡ entry_numbers (strategy L R p q) ++ drop (4 * strategy_length L R p q) numbers.old }
{
    let size = start.len();
    let mut current = [0u64; 1024];
    let mut next = [0u64; 1024];
    write_from(
        table,
        start,
        &mut current[..size],
        &mut next[..size],
        p,
        q,
        round,
        numbers,
    );
}
