// The bounded game (document 01, "Hand play"): the challenger's and the defender's turns call each other, the rounds left falling.
#![tactic(auto)]

ghost use Rattle.std.specs.Prelude.{◌≡◌, ◌<◌, ◌≤◌, ◌-◌};
ghost use Rattle.lts.specs.Game.{challenger_wins, defender_loses};
ghost use Rattle.encoding.specs.Checked.{ReadableAs};
ghost use Rattle.encoding.specs.Denotation.{lts_of};
ghost use Rattle.transitions.specs.Table.{states_of, table_lts};
ghost use Rattle.relation.specs.Matrix.{Matrix, relation_of};
ghost use Rattle.game.specs.Memo.{wins, Playable, Right};
ghost use Rattle.game.specs.Play.{play_reply, play_call, PlayPromise};

// What is known of the challenger at a pair, with a number of rounds left.
#[derive(Clone, Copy, PartialEq, Eq)]
enum Known {
    Open,
    Lost,
    Won,
}

// Whether the challenger wins from the pair (p, q) with `rounds` rounds left. `memo` has the results already known.
#[cycle(challenger_defender)]
fn challenger(
    table: &transitions::Table,
    start: &[u64],
    memo: &mut [Known],
    p: usize,
    q: usize,
    rounds: usize,
) -> bool
    requires playable { Playable table.now start.now × Right table.now start.now memo.old }
    requires p_bound { (p < states_of table.now) × (q < states_of table.now) × (rounds ≤ 6) }
    ensures value { result ≡ wins table.now start.now rounds p q }
    ensures right { Right table.now start.now memo.new }
{
    let n = transitions::states(table);
    if !relation::relates(start, n, p, q) {
        return true;
    }
    if rounds == 0 {
        return false;
    }
    let cell = ((rounds - 1) * n + p) * n + q;
    match memo[cell] {
        Known::Open => {}
        Known::Lost => return false,
        Known::Won => return true,
    }
    let first = transitions::offset(table, p);
    let end = transitions::offset(table, p + 1);
    for i in first..end {
        let a = transitions::action(table, i);
        let t = transitions::target(table, i);
        if defender(table, start, memo, a, t, q, rounds) {
            memo[cell] = Known::Won;
            return true;
        }
    }
    memo[cell] = Known::Lost;
    false
}

// Whether the defender, at q, loses after a transition by action a into t: whether each reply, which uses up one of the `rounds` rounds,
// leaves a pair from which the challenger wins.
#[cycle(challenger_defender)]
fn defender(
    table: &transitions::Table,
    start: &[u64],
    memo: &mut [Known],
    a: usize,
    t: usize,
    q: usize,
    rounds: usize,
) -> bool
    requires playable { Playable table.now start.now × Right table.now start.now memo.old }
    requires t_bound { (t < states_of table.now) × (q < states_of table.now) × (0 < rounds) × (rounds ≤ 6) }
    ensures value { result ≡ defender_loses (table_lts table.now) (wins table.now start.now (rounds - 1)) q a t }
    ensures right { Right table.now start.now memo.new }
{
    let first = transitions::offset(table, q);
    let end = transitions::offset(table, q + 1);
    for j in first..end {
        if transitions::action(table, j) == a {
            let r = transitions::target(table, j);
            if !challenger(table, start, memo, t, r, rounds - 1) {
                return false;
            }
        }
    }
    true
}

// Whether the challenger wins, on a transition table.
fn wins_table(table: &transitions::Table, start: &[u64], p: usize, q: usize, rounds: usize) -> bool
    requires playable { Playable table.now start.now }
    requires p_bound { (p < states_of table.now) × (q < states_of table.now) × (rounds ≤ 6) }
    ensures { result ≡ wins table.now start.now rounds p q }
{
    let mut memo = [Known::Open; 393216];
    let n = transitions::states(table);
    let cells = 6 * n * n;
    challenger(table, start, &mut memo[..cells], p, q, rounds)
}

// Whether the challenger wins, on a readable encoding.
fn wins_readable(
    s: &[u8],
    h: encoding::Header,
    start: &[u64],
    p: usize,
    q: usize,
    rounds: usize,
) -> bool
    requires { ReadableAs s.now h × Matrix h.states start.now × (p < h.states) × (q < h.states) × (rounds ≤ 6) }
    ensures { result ≡ challenger_wins (lts_of s.now) (relation_of h.states start.now) rounds p q }
{
    let table = transitions::load(s, h);
    wins_table(&table, start, p, q, rounds)
}

// Hand play: whether the challenger wins from the pair (p, q) with `rounds` rounds.
pub fn hand_play(
    s: &[u8],
    start: &[u64],
    p: usize,
    q: usize,
    rounds: usize,
) -> Result<bool, lts::Refusal>
    ensures rounds_value { play_call s.now start.now p q rounds ≡ play_reply result }
    ensures play_promise { PlayPromise s.now start.now p q rounds (play_reply result) }
{
    let h = inputs::read_pair(s, start, p, q)?;
    if rounds > 6 {
        return Err(lts::Refusal::TooManyRounds);
    }
    Ok(wins_readable(s, h, start, p, q, rounds))
}
