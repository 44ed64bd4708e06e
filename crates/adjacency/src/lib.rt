// The transitions of a table as rows of sets by action and state (crate `sets`), and the sets that one action of a refinement step needs. `places`
// says which row has the targets, or the sources, of the transitions by an action at a state (`Index`).
// An array that a call gives is bound before it is stored, as in `let next = f(out); out = next;`: the check does not cover `out = f(out);`.
#![tactic(auto)]

ghost use Rattle.std.specs.Prelude.{◌≡◌, true, not, ◌&&◌, ◌||◌, List, ℕ, ◌+◌, ◌*◌, ◌<◌, ◌≤◌, eqb, length, get_or};
ghost use Rattle.lts.specs.System.{into};
ghost use Rattle.lts.specs.Refinement.{remove};
ghost use Rattle.rows.specs.Rows.{in_row, row_of};
ghost use Rattle.sets.specs.Sets.{set_at};
ghost use Rattle.transitions.specs.Table.{states_of, actions_of, count_of, table_lts, Formed};
ghost use Rattle.adjacency.specs.Adjacency.{Index, actions_entering};
ghost use Rattle.adjacency.specs.Building.{claimed, hit, placed};

// The row of the place x.
fn row_of(places: &[u16], rows: &[u64], x: usize) -> [u64; 4]
    requires { (x < length places.now) × ((64 + get_or places.now x 0) * 4 + 4 ≤ length rows.now) }
    ensures { result ≡ row_of 4 (set_at rows.now (64 + get_or places.now x 0)) }
{
    sets::at(rows, 64 + usize::from(places[x]))
}

// The states with a transition by action a.
pub fn enabled(rows: &[u64], a: usize) -> [u64; 4]
    requires { (a ≤ 64) × ((64 + 2 * a) * 4 ≤ length rows.now) }
    ensures { result ≡ row_of 4 (set_at rows.now (63 + 2 * a)) }
{
    sets::at(rows, 63 + 2 * a)
}

// The states with a transition by action a into them.
fn entered(rows: &[u64], a: usize) -> [u64; 4]
    requires { (a ≤ 64) × ((65 + 2 * a) * 4 ≤ length rows.now) }
    ensures { result ≡ row_of 4 (set_at rows.now (64 + 2 * a)) }
{
    sets::at(rows, 64 + 2 * a)
}

// The actions with a transition into state b: bit a - 1 for action a.
pub fn actions_into(rows: &[u64], b: usize) -> u64
    requires { (b < 256) × (256 ≤ length rows.now) }
    ensures { result ≡ get_or rows.now b 0 }
{
    rows[b]
}

// The actions with a transition into the set: bit a - 1 for action a.
pub fn actions_entering(rows: &[u64], set: [u64; 4]) -> u64
    requires { 256 ≤ length rows.now }
    ensures { result ≡ actions_entering rows.now (in_row set) }
{
    let mut out = 0;
    for c in 0..4 {
        for i in rows::ones(set[c]) {
            out |= rows[64 * c + i];
        }
    }
    out
}

// Gives place x the row `fresh` if it has none.
fn claim(places: &mut [u16], x: usize, fresh: usize)
    requires { (x < length places.old) × (fresh < 65536) }
    ensures { places.new ≡ claimed places.old x fresh }
{
    if places[x] == 0 {
        places[x] = fresh as u16;
    }
}

// Puts state q into the row of place x, which is `fresh` if it had none.
fn add_to_row(places: &mut [u16], rows: &mut [u64], x: usize, fresh: usize, q: usize)
    requires { (x < length places.old) × (fresh < 65536) × (q < 256)
        × ((64 + fresh) * 4 + 4 ≤ length rows.old) × ((64 + get_or places.old x 0) * 4 + 4 ≤ length rows.old) }
    ensures { let to = claimed places.old x fresh in let old = rows.old in
        (places.new ≡ to) × (rows.new ≡ row_of (length old) (λ y. eqb y (256 * (64 + get_or to x 0) + q) || in_row old y)) }
{
    claim(places, x, fresh);
    rows::insert(rows, 256 * (64 + usize::from(places[x])) + q);
}

// Adds the transition from p by a to t; `fresh` and the row behind it are free.
fn add_transition(places: &mut [u16], rows: &mut [u64], fresh: usize, p: usize, a: usize, t: usize)
    requires le_a { (1 ≤ a) × (a ≤ 64) × (p < 256) × (t < 256) × (512 * (a + 1) ≤ length places.old) × (1 ≤ fresh) × (fresh + 1 < 65536)
        × ((66 + fresh) * 4 ≤ length rows.old) × ((65 + 2 * a) * 4 ≤ length rows.old) }
    requires by_index { (x : ℕ) → (64 + get_or places.old x 0) * 4 + 4 ≤ length rows.old }
    ensures { let to = placed places.old fresh p a t in let old = rows.old in
        (places.new ≡ to) × (rows.new ≡ row_of (length old) (λ y. hit to p a t y || in_row old y)) }
{
    add_to_row(places, rows, 512 * a + p, fresh, t);
    add_to_row(places, rows, 512 * a + 256 + t, fresh + 1, p);
    rows::insert(rows, 256 * (63 + 2 * a) + p);
    rows::insert(rows, 256 * (64 + 2 * a) + t);
    rows::insert(rows, 64 * t + (a - 1));
}

// Writes the index of a table into empty places and rows.
pub fn index_transitions(table: &transitions::Table, places: &mut [u16], rows: &mut [u64])
    requires formed { Formed table.now × (512 * (actions_of table.now + 1) ≤ length places.old)
        × ((65 + 2 * actions_of table.now + 2 * count_of table.now) * 4 ≤ length rows.old) }
    requires by_index { ((x : ℕ) → get_or places.old x 0 ≡ 0) × ((x : ℕ) → get_or rows.old x 0 ≡ 0) }
    ensures { Index table.now places.new rows.new }
{
    let m = transitions::actions(table);
    for i in 0..transitions::count(table) {
        add_transition(
            places,
            rows,
            2 * m + 1 + 2 * i,
            transitions::source(table, i),
            transitions::action(table, i),
            transitions::target(table, i),
        );
    }
}

// The states with a transition by a into the set.
pub fn sources_into(places: &[u16], rows: &[u64], a: usize, set: [u64; 4]) -> [u64; 4]
    requires { (t : List ℕ) × Index t places.now rows.now × (1 ≤ a) × (a ≤ actions_of t) }
    ensures { (t : List ℕ) → Index t places.now rows.now → a ≤ actions_of t
        → result ≡ row_of 4 (into (table_lts t) a (in_row set)) }
{
    let into = sets::meet(set, entered(rows, a));
    let mut out = [0u64; 4];
    for c in 0..4 {
        for i in rows::ones(into[c]) {
            let next = sets::join(out, row_of(places, rows, 512 * a + 256 + (64 * c + i)));
            out = next;
        }
    }
    out
}

// The states of the set with no transition by a into `inside`.
fn lacking(places: &[u16], rows: &[u64], a: usize, set: [u64; 4], inside: [u64; 4]) -> [u64; 4]
    requires { (t : List ℕ) × Index t places.now rows.now × (1 ≤ a) × (a ≤ actions_of t) }
    ensures { (t : List ℕ) → Index t places.now rows.now → a ≤ actions_of t
        → result ≡ row_of 4 (λ q. in_row set q && not (into (table_lts t) a (in_row inside) q)) }
{
    let mut out = [0u64; 4];
    for c in 0..4 {
        let mut word = 0;
        for i in rows::ones(set[c]) {
            let targets = row_of(places, rows, 512 * a + (64 * c + i));
            word |= u64::from(!sets::any(sets::meet(targets, inside))) << i;
        }
        out[c] = word;
    }
    out
}

// Rem of action a: the states with a transition by it into `outside` and none into `inside`. `whole` says that the two have every state.
pub fn removed(
    places: &[u16],
    rows: &[u64],
    a: usize,
    inside: [u64; 4],
    outside: [u64; 4],
    whole: bool,
) -> [u64; 4]
    requires { (t : List ℕ) × Index t places.now rows.now × (1 ≤ a) × (a ≤ actions_of t) }
    ensures { (t : List ℕ) → Index t places.now rows.now → a ≤ actions_of t
        → (whole ≡ true → (q : ℕ) → q < states_of t → in_row inside q || in_row outside q ≡ true)
        → result ≡ row_of 4 (remove (table_lts t) a (in_row inside) (in_row outside)) }
{
    if whole {
        return sets::minus(enabled(rows, a), sources_into(places, rows, a, inside));
    }
    lacking(
        places,
        rows,
        a,
        sources_into(places, rows, a, outside),
        inside,
    )
}
