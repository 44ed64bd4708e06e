// Transition tables: a system in one array, filled from a sheet, and the lookups in it. The crates above work on tables and on no sheet.
#![tactic(auto)]

ghost use Rattle.std.specs.Prelude.{◌≡◌, false, cond, ◌||◌, List, ℕ, ◌+◌, ◌*◌, ◌<◌, ◌≤◌, length, get_or, drop, replicate};
ghost use Rattle.lts.specs.Bounded.{passing};
ghost use Rattle.lts.specs.System.{Lts, into};
ghost use Rattle.lts.specs.Union.{disjoint_union};
ghost use Rattle.lts.specs.Mapped.{mapped, Sends};
ghost use Rattle.lts.specs.Transitions.{transitions_to};
ghost use Rattle.rows.specs.Rows.{in_row, row_of, row_words};
ghost use Rattle.encoding.specs.Checked.{Recorded, ReadableAs};
ghost use Rattle.encoding.specs.Denotation.{lts_of};
ghost use Rattle.transitions.specs.Table.{states_of, actions_of, count_of, mark_at, offset_at, source_at, action_at, target_at};
ghost use Rattle.transitions.specs.Table.{enters, table_lts, Formed, Holds};
ghost use Rattle.transitions.specs.Maps.{state_to, action_to, Raises, Within, Linked, first_to, next_to};
ghost use Rattle.transitions.specs.Filling.{action_set, row_transitions, with_transition, with_state, with_counts, Covers, Extends};
ghost use Rattle.transitions.specs.Loading.{chain_image, row_image, mark_image, Image, Images, Loading};

pub type Table = [u16; 3588];

// Where the states and actions of a sheet go: state p to number p of it, action a to number 256 + a.
pub type Maps = [u16; 321];

// Where the actions of a sheet go: action a to number a of it.
pub type ActionMap = [u16; 65];

// The states that go to each state: the first that goes to state i is number i, the next after state p number 256 + p; 256 where there is none.
type Links = [u16; 512];

// Where its parts start.
const MARKS: usize = 3;

const OFFSETS: usize = 259;

const SOURCES: usize = 516;

const ACTIONS: usize = 1540;

const TARGETS: usize = 2564;

// The number of states.
pub fn states(table: &Table) -> usize
    ensures { (result ≡ states_of table.now) × (result < 65536) }
{
    rows::wide(table[0])
}

// The number of actions.
pub fn actions(table: &Table) -> usize
    ensures { (result ≡ actions_of table.now) × (result < 65536) }
{
    rows::wide(table[1])
}

// The number of transitions.
pub fn count(table: &Table) -> usize
    ensures { (result ≡ count_of table.now) × (result < 65536) }
{
    rows::wide(table[2])
}

// The next five look-ups differ in a constant and a bound; through a shared `number_at(table, MARKS + p)` none would be shorter.

// The end mark of state p.
pub fn mark(table: &Table, p: usize) -> usize
    requires { p < 256 }
    ensures { (result ≡ mark_at table.now p) × (result < 65536) }
{
    rows::wide(table[MARKS + p])
}

// The number of the first transition of state p, the end of the row before.
pub fn offset(table: &Table, p: usize) -> usize
    requires { p < 257 }
    ensures { (result ≡ offset_at table.now p) × (result < 65536) }
{
    rows::wide(table[OFFSETS + p])
}

// The state that transition i leaves.
pub fn source(table: &Table, i: usize) -> usize
    requires { i < 1024 }
    ensures { (result ≡ source_at table.now i) × (result < 65536) }
{
    rows::wide(table[SOURCES + i])
}

// Its action.
pub fn action(table: &Table, i: usize) -> usize
    requires { i < 1024 }
    ensures { (result ≡ action_at table.now i) × (result < 65536) }
{
    rows::wide(table[ACTIONS + i])
}

// Its target.
pub fn target(table: &Table, i: usize) -> usize
    requires { i < 1024 }
    ensures { (result ≡ target_at table.now i) × (result < 65536) }
{
    rows::wide(table[TARGETS + i])
}

// Writes transition i.
fn put_transition(table: &mut Table, i: usize, p: usize, a: usize, t: usize)
    requires { (i < 1024) × (p < 65536) × (a < 65536) × (t < 65536) }
    ensures { table.new ≡ with_transition table.old i p a t }
{
    table[SOURCES + i] = p as u16;
    table[ACTIONS + i] = a as u16;
    table[TARGETS + i] = t as u16;
}

// Writes the mark of state p, and the end of its row.
fn put_state(table: &mut Table, p: usize, mark: u8, end: usize)
    requires { (p < 256) × (end < 65536) }
    ensures { table.new ≡ with_state table.old p mark end }
{
    table[MARKS + p] = u16::from(mark);
    table[OFFSETS + (p + 1)] = end as u16;
}

// Writes the counts.
fn put_counts(table: &mut Table, n: usize, m: usize, k: usize)
    requires { (n < 65536) × (m < 65536) × (k < 65536) }
    ensures { table.new ≡ with_counts table.old n m k }
{
    table[0] = n as u16;
    table[1] = m as u16;
    table[2] = k as u16;
}

// The sets from action a's on, in a row that holds a set of 256 states for each action from 0 to 64.
pub fn action_part(sets: &[u64], a: usize) -> &[u64]
    requires { (length sets.now ≡ 260) × (a ≤ 64) }
    ensures { result.now ≡ drop (4 * a) sets.now }
{
    let at = 4 * a;
    &sets[at..]
}

// Writes the transitions of state p by action a, which the sets hold, from number `from` on; the number after them.
fn put_action(table: &mut Table, p: usize, a: usize, sets: &[u64; 260], from: usize) -> usize
    requires p_bound { (p < 256) × (a ≤ 64) × (length table.old ≡ 3588) }
    requires a_bound { from + length (passing 256 (action_set sets.now a)) ≤ 1024 }
    ensures value { result ≡ from + length (passing 256 (action_set sets.now a)) }
    ensures extends { Extends (transitions_to p a (passing 256 (action_set sets.now a))) from table.old table.new }
{
    let row = action_part(sets, a);
    let mut at = from;
    let mut t = rows::next_state(row, 4, 0);
    while t < 256 {
        put_transition(table, at, p, a, t);
        at += 1;
        t = rows::next_state(row, 4, t + 1);
    }
    at
}

// Writes the transitions of state p, which the sets hold, from number `from` on, and empties the sets; the number after them. `used` has bit a - 1 for
// each action a with a transition.
fn put_row(table: &mut Table, p: usize, used: u64, held: &mut [u64; 260], from: usize) -> usize
    requires p_bound { (p < 256) × (length table.old ≡ 3588) × (held.old ≡ row_of 260 (in_row held.old)) × Covers used (in_row held.old) }
    requires p_bound_2 { from + length (row_transitions held.old p 64) ≤ 1024 }
    ensures value { result ≡ from + length (row_transitions held.old p 64) }
    ensures extends { Extends (row_transitions held.old p 64) from table.old table.new }
    ensures held_after { held.new ≡ row_of 260 (λ x. false) }
{
    let mut at = from;
    for i in rows::ones(used) {
        let a = i + 1;
        at = put_action(table, p, a, held, at);
        sets::put(held, a, [0u64; 4]);
    }
    at
}

// The state that p goes to.
fn state_to(maps: &Maps, p: usize) -> usize
    requires { p < 256 }
    ensures { (result ≡ state_to maps.now p) × (result < 65536) }
{
    rows::wide(maps[p])
}

// The action that a goes to.
fn action_to(maps: &Maps, a: usize) -> usize
    requires { a ≤ 64 }
    ensures { (result ≡ action_to maps.now a) × (result < 65536) }
{
    rows::wide(maps[256 + a])
}

// Lets n states go to the states from `shift` on.
fn raise_states(maps: &mut Maps, n: usize, shift: usize)
    requires { (length maps.old ≡ 321) × (shift + n ≤ 256) }
    ensures { (to : List ℕ) → Raises n 0 shift to maps.new }
{
    for (p, to) in maps[..n].iter_mut().enumerate() {
        *to = (shift + p) as u16;
    }
}

// Lets the actions 1 to m be as they are.
pub fn keep_actions(to: &mut ActionMap, m: usize)
    requires { (length to.old ≡ 65) × (m ≤ 64) }
    ensures { (length to.new ≡ 65) × ((a : ℕ) → 1 ≤ a → a ≤ m → get_or to.new a 0 ≡ a) }
{
    for a in 1..=m {
        to[a] = a as u16;
    }
}

// The map under which the actions 1 to m are as they are.
fn same_actions(m: usize) -> ActionMap
    requires { m ≤ 64 }
    ensures { (a : ℕ) → 1 ≤ a → a ≤ m → get_or result a 0 ≡ a }
{
    let mut to = [0u16; 65];
    keep_actions(&mut to, m);
    to
}

// Lets the actions 1 to m go where `to` says.
fn put_actions(maps: &mut Maps, to: &ActionMap, m: usize)
    requires { (length maps.old ≡ 321) × (m ≤ 64) }
    ensures { (n shift : ℕ) → n ≤ 256 → Raises n 0 shift to.now maps.old
        → Raises n m shift to.now maps.new }
{
    maps[257..257 + m].copy_from_slice(&to[1..=m]);
}

// The maps by which the states of a sheet go to those from `shift` on, and its actions where `to` says.
fn raised(h: encoding::Header, shift: usize, to: &ActionMap) -> Maps
    requires { (shift + h.states ≤ 256) × (h.actions ≤ 64) }
    ensures { Raises h.states h.actions shift to.now result }
{
    let mut maps = [0u16; 321];
    raise_states(&mut maps, h.states, shift);
    put_actions(&mut maps, to, h.actions);
    maps
}

// Links the states below n that go to the same state.
fn link(maps: &Maps, n: usize) -> Links
    requires { (n ≤ 256) × ((p : ℕ) → p < n → state_to maps.now p < 256) }
    ensures { Linked n maps.now result }
{
    let mut links = [256u16; 512];
    for p in (0..n).rev() {
        let i = state_to(maps, p);
        links[256 + p] = links[i];
        links[i] = p as u16;
    }
    links
}

// The first state that goes to state i, or 256.
fn first_to(links: &Links, i: usize) -> usize
    requires { i < 256 }
    ensures { result ≡ first_to links.now i }
{
    rows::wide(links[i])
}

// The next state after p that goes where p goes, or 256.
fn next_to(links: &Links, p: usize) -> usize
    requires { p < 256 }
    ensures { result ≡ next_to links.now p }
{
    rows::wide(links[256 + p])
}

// Puts the actions and targets of state p's chain, each where it goes, into the sets as the members 256 * a + t. The result has bit a - 1
// for each such action a.
fn add_chain(s: &[u8], h: encoding::Header, p: usize, maps: &Maps, sets: &mut [u64; 260]) -> u64
    requires { (Recorded s.now h) × (p < h.states) × Within h maps.now × (sets.old ≡ row_of 260 (in_row sets.old)) }
    ensures sets_after { let old = sets.old in
        sets.new ≡ row_of 260 (λ x. chain_image maps.now s.now h p x || in_row old x) }
    ensures covers { Covers result (chain_image maps.now s.now h p) }
{
    let mut j = encoding::first_of(s, h, p);
    let mut used: u64 = 0;
    for _ in 0..h.transitions + 1 {
        if j == 0 {
            return used;
        }
        let r = encoding::known_transition(s, h, j);
        let a = action_to(maps, usize::from(r.action));
        rows::insert(sets, 256 * a + state_to(maps, r.target));
        used |= 1 << (a - 1);
        j = r.next;
    }
    used
}

// Puts the actions and targets of the chains of all states that go to state i, each where it goes, into empty sets. The result has bit a - 1
// for each such action a.
fn row_sets(
    s: &[u8],
    h: encoding::Header,
    maps: &Maps,
    links: &Links,
    i: usize,
    sets: &mut [u64; 260],
) -> u64
    requires recorded { (Recorded s.now h) × Within h maps.now × Linked h.states maps.now links.now × (i < 256) }
    requires sets_value { sets.old ≡ row_of 260 (λ x. false) }
    ensures sets_after { sets.new ≡ row_of 260 (row_image maps.now s.now h i) }
    ensures covers { Covers result (in_row sets.new) }
{
    let mut used: u64 = 0;
    let mut p = first_to(links, i);
    while p < 256 {
        used |= add_chain(s, h, p, maps, sets);
        p = next_to(links, p);
    }
    used
}

// The end mark of state i: 1 if a state that goes there has it.
fn row_mark(s: &[u8], h: encoding::Header, links: &Links, i: usize) -> u8
    requires { (Recorded s.now h) × (i < 256) × ((maps : List ℕ) × Linked h.states maps links.now) }
    ensures { (maps : List ℕ) → Linked h.states maps links.now → result ≡ cond (mark_image maps s.now h i) 1 0 }
{
    let mut p = first_to(links, i);
    while p < 256 {
        let record = encoding::state_record(s, h, p);
        if record.mark == 1 {
            return 1;
        }
        p = next_to(links, p);
    }
    0
}

// Writes state i of a sheet under the maps, behind the states below it. The sets are empty before and after.
fn load_row(
    s: &[u8],
    h: encoding::Header,
    maps: &Maps,
    links: &Links,
    i: usize,
    table: &mut Table,
    sets: &mut [u64; 260],
)
    requires linked { Linked h.states maps.now links.now
        × ((m : ℕ) × (L : Lts) × Loading L s.now h maps.now m i table.old × Image L s.now maps.now i) }
    requires sets_value { sets.old ≡ row_of 260 (λ x. false) }
    ensures loading { let sheet = s.now in let to = maps.now in (m : ℕ) (L : Lts)
        → Loading L sheet h to m i table.old → Image L sheet to i → Loading L sheet h to m (i + 1) table.new }
    ensures sets_after { sets.new ≡ row_of 260 (λ x. false) }
{
    let used = row_sets(s, h, maps, links, i, sets);
    let from = offset(table, i);
    let end = put_row(table, i, used, sets, from);
    put_state(table, i, row_mark(s, h, links, i), end);
}

// Writes the states from `low` up to `high` of a sheet under the maps, behind those below `low`.
fn load_rows(s: &[u8], h: encoding::Header, maps: &Maps, low: usize, high: usize, table: &mut Table)
    requires { (low ≤ high) × ((m : ℕ) × (L : Lts) × Loading L s.now h maps.now m low table.old × Images L s.now maps.now low high) }
    ensures { let sheet = s.now in let to = maps.now in (m : ℕ) (L : Lts)
        → Loading L sheet h to m low table.old → Images L sheet to low high → Loading L sheet h to m high table.new }
{
    let links = link(maps, h.states);
    let mut sets = [0u64; 260];
    for i in low..high {
        load_row(s, h, maps, &links, i, table, &mut sets);
    }
}

// The table of a readable sheet under the maps, with n states and m actions.
pub fn load_mapped(s: &[u8], h: encoding::Header, maps: &Maps, n: usize, m: usize) -> Table
    requires { ReadableAs s.now h × Sends n m (state_to maps.now) (action_to maps.now) (lts_of s.now) × (n ≤ 256) × (m ≤ 64) }
    ensures { Holds (mapped n m (state_to maps.now) (action_to maps.now) (lts_of s.now)) result }
{
    let mut table = [0u16; 3588];
    load_rows(s, h, maps, 0, n, &mut table);
    let k = offset(&table, n);
    put_counts(&mut table, n, m, k);
    table
}

// The table of a readable sheet.
pub fn load(s: &[u8], h: encoding::Header) -> Table
    requires { ReadableAs s.now h }
    ensures { Holds (lts_of s.now) result }
{
    let same = same_actions(h.actions);
    let maps = raised(h, 0, &same);
    load_mapped(s, h, &maps, h.states, h.actions)
}

// A table that is all zeros.
pub fn empty() -> Table
    ensures { result ≡ replicate {A = ℕ} 3588 0 }
{
    [0u16; 3588]
}

// Loads two readable sheets side by side into an empty table, with m actions: the states of the second follow those of the first, and its actions go
// where `to` says.
pub fn load_both(
    first: &[u8],
    h: encoding::Header,
    second: &[u8],
    g: encoding::Header,
    to: &ActionMap,
    m: usize,
    table: &mut Table,
)
    requires readable_as { ReadableAs first.now h × ReadableAs second.now g × (table.old ≡ replicate {A = ℕ} 3588 0) }
    requires states_bound { (h.states + g.states ≤ 256) × (h.transitions + g.transitions ≤ 1024) }
    requires actions_le_m { (h.actions ≤ m) × (m ≤ 64) × ((b : ℕ) → 1 ≤ b → b ≤ g.actions → (1 ≤ get_or to.now b 0) × (get_or to.now b 0 ≤ m)) }
    ensures { let M = mapped g.states m (λ p. p) (λ b. get_or to.now b 0) (lts_of second.now) in
        Holds (disjoint_union (lts_of first.now) M) table.new }
{
    let n = h.states + g.states;
    let same = &same_actions(m);
    let own = raised(h, 0, same);
    load_rows(first, h, &own, 0, h.states, table);
    let behind = raised(g, h.states, to);
    load_rows(second, g, &behind, h.states, n, table);
    let k = offset(table, n);
    put_counts(table, n, m, k);
}

// The states with the end mark.
pub fn terminating(table: &Table) -> [u64; 4]
    requires { Formed table.now }
    ensures { result ≡ row_of 4 (table_lts table.now).terminating }
{
    let mut set = [0u64; 4];
    for p in 0..states(table) {
        if mark(table, p) == 1 {
            rows::insert(&mut set, p);
        }
    }
    set
}

// The states that p has a transition into by action a.
pub fn successors(table: &Table, p: usize, a: usize) -> [u64; 4]
    requires { Formed table.now × (p < states_of table.now) }
    ensures { result ≡ row_of 4 ((table_lts table.now).transition p a) }
{
    let mut set = [0u64; 4];
    for i in offset(table, p)..offset(table, p + 1) {
        if action(table, i) == a {
            rows::insert(&mut set, target(table, i));
        }
    }
    set
}

// Whether transition i is by action a into the set x.
fn enters_at(table: &Table, a: usize, x: &[u64], i: usize) -> bool
    requires { Formed table.now × (row_words (states_of table.now) ≤ length x.now) × (i < count_of table.now) }
    ensures { result ≡ enters table.now a (in_row x.now) i }
{
    (action(table, i) == a) & rows::contains(x, target(table, i))
}

// Whether state p has a transition by action a into the set x. Each of p's is looked at, without a branch.
pub fn has_into(table: &Table, p: usize, a: usize, x: &[u64]) -> bool
    requires { Formed table.now × (p < states_of table.now) × (row_words (states_of table.now) ≤ length x.now) }
    ensures { result ≡ into (table_lts table.now) a (in_row x.now) p }
{
    let mut found = false;
    for i in offset(table, p)..offset(table, p + 1) {
        found |= enters_at(table, a, x, i);
    }
    found
}

// Puts the states that have a transition by action a into the set x into `set`.
pub fn add_into(table: &Table, a: usize, x: &[u64], set: &mut [u64])
    requires { Formed table.now × (row_words (states_of table.now) ≤ length x.now) × (row_words (states_of table.now) ≤ length set.old) }
    ensures { set.new ≡ row_of (length set.old)
        (λ q. in_row set.old q || into (table_lts table.now) a (in_row x.now) q) }
{
    for i in 0..count(table) {
        if enters_at(table, a, x, i) {
            rows::insert(set, source(table, i));
        }
    }
}
