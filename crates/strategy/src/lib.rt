// Strategies of the challenger (document 01, "Plans") as calls on a sheet, a start and a slice of 16-bit numbers.
#![tactic(auto)]

ghost use Rattle.std.specs.Prelude.{◌≡◌, ◌≤◌, ◌<◌, length};
ghost use Rattle.lts.specs.Strategy.{last_of, entries_of, entry_numbers};
ghost use Rattle.encoding.specs.Denotation.{lts_of};
ghost use Rattle.transitions.specs.Table.{states_of, table_lts, Formed};
ghost use Rattle.relation.specs.Matrix.{relation_of, Matrix};
ghost use Rattle.inputs.specs.Inputs.{Ready};
ghost use Rattle.strategy_check.specs.Entries.{strategy_mark};
ghost use Rattle.strategy.specs.Check.{check_reply, check_call, CheckPromise};
ghost use Rattle.strategy.specs.Write.{write_reply, write_call, WritePromise};
ghost use Rattle.strategy.specs.Steps.{write_on};
ghost use Rattle.strategy.specs.Within.{entry_count, number_count, WrittenWithin};

// What the check of a strategy answers: the last entry's pair and its depth.
#[derive(Clone, Copy)]
pub struct Accepted {
    pub p: usize,
    pub q: usize,
    pub depth: usize,
}

// The answer for numbers that carry at least one entry: the last one's pair, with the depth.
fn accept(numbers: &[u16], depth: usize) -> Accepted
    requires { 4 ≤ length numbers.now }
    ensures { let last = last_of (entries_of numbers.now) in result ≡ record { p = last.p; q = last.q; depth = depth } }
{
    let at = 4 * (numbers.len() / 4 - 1);
    Accepted {
        p: usize::from(numbers[at]),
        q: usize::from(numbers[at + 1]),
        depth,
    }
}

// One more than the strategy's depth, on a sheet and a start that were read; 0 where it is not accepted.
fn check_readable(s: &[u8], h: encoding::Header, start: &[u64], numbers: &[u16]) -> usize
    requires { Ready s.now h start.now }
    ensures { result ≡ strategy_mark (lts_of s.now) (relation_of h.states start.now) (entries_of numbers.now) }
{
    let table = transitions::load(s, h);
    strategy_check::check_table(&table, start, numbers)
}

// Check plan: accepts a non-empty list of sound entries, and answers the last pair and its depth.
pub fn check_strategy(s: &[u8], start: &[u64], numbers: &[u16]) -> Result<Accepted, lts::Refusal>
    ensures numbers_value { check_call s.now start.now (entries_of numbers.now) ≡ check_reply result }
    ensures check_promise { CheckPromise s.now start.now (entries_of numbers.now) (check_reply result) }
{
    let h = inputs::read_inputs(s, start)?;
    let mark = check_readable(s, h, start, numbers);
    if mark == 0 {
        return Err(lts::Refusal::Unsound);
    }
    Ok(accept(numbers, mark - 1))
}

// Writes the strategy of (p, q) on a transition table; the number of its entries. Refusals 13 and 15.
fn write_on_table(
    table: &transitions::Table,
    start: &[u64],
    p: usize,
    q: usize,
    numbers: &mut [u16],
) -> Result<usize, lts::Refusal>
    requires { let n = states_of table.now in Formed table.now × Matrix n start.now × (p < n) × (q < n) }
    ensures { let T = table.now in
        write_on (table_lts T) (relation_of (states_of T) start.now) p q numbers.old
        ≡ record { reply = write_reply result; plan = numbers.new } }
{
    let Some(found) = strategy_rounds::refute(table, start, p, q) else {
        return Err(lts::Refusal::StillRelated);
    };
    if numbers.len() / 4 < found.count {
        return Err(lts::Refusal::Buffer);
    }
    strategy_write::write_table(table, start, p, q, found.round, numbers);
    Ok(found.count)
}

// The same on a sheet and a start that were read.
fn write_loaded(
    s: &[u8],
    h: encoding::Header,
    start: &[u64],
    p: usize,
    q: usize,
    numbers: &mut [u16],
) -> Result<usize, lts::Refusal>
    requires { Ready s.now h start.now × (p < h.states) × (q < h.states) }
    ensures { write_on (lts_of s.now) (relation_of h.states start.now) p q numbers.old
        ≡ record { reply = write_reply result; plan = numbers.new } }
{
    let table = transitions::load(s, h);
    write_on_table(&table, start, p, q, numbers)
}

// Write plan: the strategy of the refuted pair (p, q). Numbers past its entries stay as they are.
pub fn write_strategy(
    s: &[u8],
    start: &[u64],
    p: usize,
    q: usize,
    numbers: &mut [u16],
) -> Result<usize, lts::Refusal>
    ensures numbers_value { write_call entry_numbers 4 s.now start.now p q numbers.old
        ≡ record { reply = write_reply result; plan = numbers.new } }
    ensures write_promise { WritePromise entries_of 4 s.now start.now p q numbers.old
        (write_reply result) numbers.new }
{
    let h = inputs::read_pair(s, start, p, q)?;
    write_loaded(s, h, start, p, q, numbers)
}

// How many entries an answer counts: none where it is a refusal.
pub fn entry_count(answer: Result<usize, lts::Refusal>) -> usize
    ensures { result ≡ entry_count answer }
{
    answer.unwrap_or(0)
}

// How many numbers carry so many entries, and at most those of the longest strategy, 4 * 256 * 256.
fn number_count(room: usize) -> usize
    ensures { result ≡ number_count room }
{
    4 * room.min(65536)
}

// Writes into the first numbers what a list with room for `room` entries is to hold.
pub fn write_within(
    s: &[u8],
    start: &[u64],
    p: usize,
    q: usize,
    room: usize,
    numbers: &mut [u16],
) -> Result<usize, lts::Refusal>
    requires { 262144 ≤ length numbers.old }
    ensures { WrittenWithin s.now start.now p q room result numbers.new }
{
    let size = number_count(room);
    write_strategy(s, start, p, q, &mut numbers[..size])
}
