// Strategies in a lent slice of entries (document 01, "Plans"): few, thin functions that read or write one entry and call the others.
#![tactic(auto)]

ghost use Rattle.std.specs.Prelude.{◌≡◌, ◌≤◌, ◌+◌, ◌*◌, ◌++◌, length, get_or, take, drop};
ghost use Rattle.lts.specs.Strategy.{entries_of, blank};
ghost use Rattle.strategy.specs.Check.{check_reply, check_call, CheckPromise};
ghost use Rattle.strategy.specs.Write.{write_reply, write_call, WritePromise};
ghost use Rattle.strategy_entries.specs.Entries.{itself};

// The entry of the four numbers from 4i.
fn entry_of(numbers: &[u16], i: usize) -> lts::Entry
    requires { 4 * i + 4 ≤ length numbers.now }
    ensures { result ≡ get_or (entries_of numbers.now) i blank }
{
    let k = 4 * i;
    lts::Entry {
        p: numbers[k],
        q: numbers[k + 1],
        a: numbers[k + 2],
        t: numbers[k + 3],
    }
}

// Writes the first c entries of the numbers, and leaves the others.
fn copy_in(plan: &mut [lts::Entry], c: usize, numbers: &[u16])
    requires { (c ≤ length plan.old) × (4 * c ≤ length numbers.now) }
    ensures { plan.new ≡ take c (entries_of numbers.now) ++ drop c plan.old }
{
    for i in 0..c {
        plan[i] = entry_of(numbers, i);
    }
}

// Write plan: the strategy of the refuted pair (p, q). Entries past the strategy's stay as they are.
pub fn write_entries(
    s: &[u8],
    start: &[u64],
    p: usize,
    q: usize,
    plan: &mut [lts::Entry],
) -> Result<usize, lts::Refusal>
    ensures plan_value { write_call itself 1 s.now start.now p q plan.old
        ≡ record { reply = write_reply result; plan = plan.new } }
    ensures write_promise { WritePromise itself 1 s.now start.now p q plan.old (write_reply result) plan.new }
{
    let mut numbers = [0u16; 262144];
    let answer = strategy::write_within(s, start, p, q, plan.len(), &mut numbers);
    let count = strategy::entry_count(answer);
    copy_in(plan, count, &numbers);
    answer
}

// Check plan on a lent slice of entries, of any length: they are judged one by one.
pub fn check_entries(
    s: &[u8],
    start: &[u64],
    plan: &[lts::Entry],
) -> Result<strategy::Accepted, lts::Refusal>
    ensures plan_value { check_call s.now start.now plan.now ≡ check_reply result }
    ensures check_promise { CheckPromise s.now start.now plan.now (check_reply result) }
{
    strategy_judge::check_each(s, start, plan.len(), |i| plan[i])
}
