// Strategies carried as bytes (document 01, "Plans"): four 16-bit numbers an entry, low byte first.
#![tactic(auto)]

ghost use Rattle.std.specs.Prelude.{◌≡◌, ◌≤◌, ◌+◌, ◌*◌, length, get_or};
ghost use Rattle.strategy.specs.Check.{check_reply, check_call, CheckPromise};
ghost use Rattle.strategy.specs.Write.{write_reply, write_call, WritePromise};
ghost use Rattle.lts.specs.Strategy.{blank};
ghost use Rattle.strategy_bytes.specs.Bytes.{entry_bytes, entries_of_bytes};

// Entry i of those that the bytes carry.
fn entry_at(bytes: &[u8], i: usize) -> lts::Entry
    requires { 8 * i + 8 ≤ length bytes.now }
    ensures { result ≡ get_or (entries_of_bytes bytes.now) i blank }
{
    let k = 8 * i;
    lts::Entry {
        p: carry::read_number(bytes, k, 2) as u16,
        q: carry::read_number(bytes, k + 2, 2) as u16,
        a: carry::read_number(bytes, k + 4, 2) as u16,
        t: carry::read_number(bytes, k + 6, 2) as u16,
    }
}

// Check plan on bytes, of any length: the entries are judged one by one. Bytes past the last whole entry are ignored.
pub fn check_bytes(s: &[u8], start: &[u64], plan: &[u8]) -> Result<strategy::Accepted, lts::Refusal>
    ensures plan_value { check_call s.now start.now (entries_of_bytes plan.now) ≡ check_reply result }
    ensures check_promise { CheckPromise s.now start.now (entries_of_bytes plan.now) (check_reply result) }
{
    strategy_judge::check_each(s, start, plan.len() / 8, |i| entry_at(plan, i))
}

// Write plan on bytes: the strategy of the refuted pair (p, q). Bytes past it stay as they are.
pub fn write_bytes(
    s: &[u8],
    start: &[u64],
    p: usize,
    q: usize,
    plan: &mut [u8],
) -> Result<usize, lts::Refusal>
    ensures plan_value { write_call entry_bytes 8 s.now start.now p q plan.old
        ≡ record { reply = write_reply result; plan = plan.new } }
    ensures write_promise { WritePromise entries_of_bytes 8 s.now start.now p q plan.old
        (write_reply result) plan.new }
{
    let mut numbers = [0u16; 262144];
    let answer = strategy::write_within(s, start, p, q, plan.len() / 8, &mut numbers);
    let count = strategy::entry_count(answer);
    let size = 4 * count;
    carry::store(&numbers[..size], plan);
    answer
}
