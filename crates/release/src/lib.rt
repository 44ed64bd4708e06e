// The exported calls (document 01, "Hand play and comparison"): the release tool calls coarsest and compare, tests and bindings the others.
// Grids and 16-bit lists are carried as bytes, low byte first. The result is one number that carries the reply, as specs/Packed.antt says.
#![tactic(auto)]

ghost use Rattle.std.specs.Prelude.{ℕ, ◌+◌, ◌*◌, ◌≤◌, ◌≡◌, Ok};
ghost use Rattle.lts.specs.System.{termination_preorder};
ghost use Rattle.lts.specs.Ready.{ready_preorder};
ghost use Rattle.lts.specs.Refusal.{refusal_number, refusal_record};
ghost use Rattle.lts.specs.Rule.{checked_reply};
ghost use Rattle.carry.specs.Bytes.{words_of};
ghost use Rattle.normal_form.specs.Normalise.{normalise_call, NormalisePromise};
ghost use Rattle.conversion.specs.Conversion.{to_named_call, to_plain_call, ToNamedPromise, ToPlainPromise};
ghost use Rattle.starts.specs.Start.{written_start};
ghost use Rattle.simulation.specs.Calls.{EndStart, ReadyStart, simulation_reply, simulation_call, SimulationPromise};
ghost use Rattle.game.specs.Play.{play_reply, play_call, PlayPromise};
ghost use Rattle.coarsest.specs.Call.{coarsest_reply};
ghost use Rattle.coarsest_bytes.specs.Call.{coarsest_on_bytes, CoarsestBytesPromise};
ghost use Rattle.coarsest_bytes.specs.Carried.{Small};
ghost use Rattle.comparison.specs.Call.{compare_reply, compare_call, Relates, ComparePromise, CompareReadyPromise};
ghost use Rattle.disjoint_union.specs.Join.{join_reply, join_call, JoinPromise};
ghost use Rattle.strategy.specs.Check.{check_call, CheckPromise};
ghost use Rattle.strategy.specs.Write.{write_reply, write_call, WritePromise};
ghost use Rattle.strategy_bytes.specs.Bytes.{entry_bytes, entries_of_bytes};
ghost use Rattle.release.specs.Packed.{packed, unpacked, coarsest_places, compare_places, check_places, one_place, no_place};
ghost use Rattle.release.specs.Starts.{start_on_bytes, StartBytesPromise};
ghost use Rattle.release.specs.Turns.{FewTurns};

// A refusal and its record, as one number: `packed` of it at any places.
fn pack_refused(r: lts::Refusal) -> u64
    ensures { result ≡ refusal_number r + 256 * refusal_record r }
{
    r.number() + 256 * u64::from(r.record())
}

// A reply without a value, as one number.
fn pack_checked(answer: Result<(), lts::Refusal>) -> u64
    ensures { result ≡ packed no_place (checked_reply answer) }
{
    match answer {
        Err(r) => pack_refused(r),
        Ok(()) => 0,
    }
}

// Yes or no, or won or not, as one number.
fn pack_decided(answer: Result<bool, lts::Refusal>) -> u64
    ensures tested { result ≡ packed one_place (simulation_reply answer) }
    ensures played { result ≡ packed one_place (play_reply answer) }
{
    match answer {
        Err(r) => pack_refused(r),
        Ok(yes) => 256 * u64::from(yes),
    }
}

// A length or a number of entries, as one number.
fn pack_count(answer: Result<usize, lts::Refusal>) -> u64
    requires { (count : ℕ) → answer ≡ Ok count → count ≤ 65536 }
    ensures joined { result ≡ packed one_place (join_reply answer) }
    ensures written { result ≡ packed one_place (write_reply answer) }
{
    match answer {
        Err(r) => pack_refused(r),
        Ok(count) => 256 * (count as u64),
    }
}

// The counts as one number.
fn pack_counts(counts: coarsest::Counts) -> u64
    requires { Small counts }
    ensures { result ≡ packed coarsest_places (coarsest_reply (Ok counts)) }
{
    256 * (counts.steps as u64)
        + 16777216 * (counts.pairs as u64)
        + 281474976710656 * (counts.blocks as u64)
}

// Yes or no and the turns, as one number.
fn pack_compared(answer: Result<comparison::Comparison, lts::Refusal>) -> u64
    requires { FewTurns (compare_reply answer) }
    ensures { result ≡ packed compare_places (compare_reply answer) }
{
    match answer {
        Err(r) => pack_refused(r),
        Ok(c) => 256 * u64::from(c.related) + 65536 * (c.steps as u64),
    }
}

// Coarsest.
#[unsafe(no_mangle)]
pub extern "C" fn flow_coarsest(
    s: &[u8],
    start: &[u8],
    schedule: &[u8],
    grid: &mut [u8],
    representatives: &mut [u8],
) -> u64
    ensures representatives_value { coarsest_on_bytes s.now start.now schedule.now grid.old representatives.old
        ≡ record { reply = unpacked coarsest_places result; grid = grid.new; representatives = representatives.new } }
    ensures value { result ≡ packed coarsest_places (unpacked coarsest_places result) }
    ensures coarsest_bytes_promise { CoarsestBytesPromise s.now start.now schedule.now grid.old representatives.old
        (unpacked coarsest_places result) grid.new representatives.new }
{
    let answer = coarsest_bytes::coarsest_on_bytes(s, start, schedule, grid, representatives);
    match answer {
        Err(r) => pack_refused(r),
        Ok(counts) => pack_counts(counts),
    }
}

// Compare.
#[unsafe(no_mangle)]
pub extern "C" fn flow_compare(first: &[u8], second: &[u8]) -> u64
    ensures second_value { compare_call termination_preorder first.now second.now ≡ unpacked compare_places result }
    ensures value { result ≡ packed compare_places (unpacked compare_places result) }
    ensures compare_promise { ComparePromise termination_preorder Relates first.now second.now (unpacked compare_places result) }
{
    pack_compared(comparison::compare(first, second))
}

// Compare's ready form.
#[unsafe(no_mangle)]
pub extern "C" fn flow_compare_ready(first: &[u8], second: &[u8]) -> u64
    ensures second_value { compare_call ready_preorder first.now second.now ≡ unpacked compare_places result }
    ensures value { result ≡ packed compare_places (unpacked compare_places result) }
    ensures compare_ready_promise { CompareReadyPromise first.now second.now (unpacked compare_places result) }
{
    pack_compared(comparison::compare_ready(first, second))
}

// Join, into a buffer at least as long as the sheet that is written. Bytes past it stay as they are.
#[unsafe(no_mangle)]
pub extern "C" fn flow_join(first: &[u8], second: &[u8], out: &mut [u8]) -> u64
    ensures out_value { join_call first.now second.now out.old
        ≡ record { reply = unpacked one_place result; out = out.new } }
    ensures value { result ≡ packed one_place (unpacked one_place result) }
    ensures join_promise { JoinPromise first.now second.now out.old (unpacked one_place result) out.new }
{
    pack_count(disjoint_union::join(first, second, out))
}

// Normalise, into a buffer of the encoding's own length.
#[unsafe(no_mangle)]
pub extern "C" fn flow_normalise(s: &[u8], out: &mut [u8]) -> u64
    ensures out_value { normalise_call s.now out.old ≡ record { reply = unpacked no_place result; out = out.new } }
    ensures value { result ≡ packed no_place (unpacked no_place result) }
    ensures normalise_promise { NormalisePromise s.now out.old (unpacked no_place result) out.new }
{
    pack_checked(normal_form::normalise(s, out))
}

// To named, into a buffer of the named sheet's length.
#[unsafe(no_mangle)]
pub extern "C" fn flow_to_named(s: &[u8], out: &mut [u8]) -> u64
    ensures out_value { to_named_call s.now out.old ≡ record { reply = unpacked no_place result; out = out.new } }
    ensures value { result ≡ packed no_place (unpacked no_place result) }
    ensures to_named_promise { ToNamedPromise s.now out.old (unpacked no_place result) out.new }
{
    pack_checked(conversion::to_named(s, out))
}

// To plain, into a buffer of the plain sheet's length.
#[unsafe(no_mangle)]
pub extern "C" fn flow_to_plain(s: &[u8], out: &mut [u8]) -> u64
    ensures out_value { to_plain_call s.now out.old ≡ record { reply = unpacked no_place result; out = out.new } }
    ensures value { result ≡ packed no_place (unpacked no_place result) }
    ensures to_plain_promise { ToPlainPromise s.now out.old (unpacked no_place result) out.new }
{
    pack_checked(conversion::to_plain(s, out))
}

// Hand play.
#[unsafe(no_mangle)]
pub extern "C" fn flow_hand_play(s: &[u8], start: &[u8], p: u64, q: u64, rounds: u64) -> u64
    ensures rounds_value { play_call s.now (words_of start.now) p q rounds ≡ unpacked one_place result }
    ensures value { result ≡ packed one_place (unpacked one_place result) }
    ensures play_promise { PlayPromise s.now (words_of start.now) p q rounds (unpacked one_place result) }
{
    let mut words = [0u64; 1024];
    let n = carry::load_grid(start, &mut words);
    pack_decided(game::hand_play(s, &words[..n], p as usize, q as usize, rounds as usize))
}

// Test simulation.
#[unsafe(no_mangle)]
pub extern "C" fn flow_test_simulation(s: &[u8], start: &[u8], claim: &[u8]) -> u64
    ensures claim_value { simulation_call s.now (words_of start.now) (words_of claim.now) ≡ unpacked one_place result }
    ensures value { result ≡ packed one_place (unpacked one_place result) }
    ensures simulation_promise { SimulationPromise s.now (words_of start.now) (words_of claim.now) (unpacked one_place result) }
{
    let mut start_words = [0u64; 1024];
    let mut claim_words = [0u64; 1024];
    let m = carry::load_grid(start, &mut start_words);
    let n = carry::load_grid(claim, &mut claim_words);
    pack_decided(simulation::is_simulation(s, &start_words[..m], &claim_words[..n]))
}

// Ready start or end start, with the words that the bytes carry.
fn start_in(s: &[u8], ready: bool, grid: &mut [u8], words: &mut [u64]) -> Result<(), lts::Refusal>
    requires { words.old ≡ words_of grid.old }
    ensures { start_on_bytes (written_start ready) s.now grid.old ≡ record { reply = checked_reply result; grid = grid.new } }
{
    simulation::write_start(s, ready, words)?;
    carry::store(words, grid);
    Ok(())
}

// The same, with an array for the words.
fn start_on_bytes(s: &[u8], ready: bool, grid: &mut [u8]) -> Result<(), lts::Refusal>
    ensures { start_on_bytes (written_start ready) s.now grid.old ≡ record { reply = checked_reply result; grid = grid.new } }
{
    let mut words = [0u64; 1024];
    let n = carry::load_grid(grid, &mut words);
    start_in(s, ready, grid, &mut words[..n])
}

// End start.
#[unsafe(no_mangle)]
pub extern "C" fn flow_end_start(s: &[u8], grid: &mut [u8]) -> u64
    ensures grid_value { start_on_bytes termination_preorder s.now grid.old ≡ record { reply = unpacked no_place result; grid = grid.new } }
    ensures value { result ≡ packed no_place (unpacked no_place result) }
    ensures start_bytes_promise { StartBytesPromise EndStart s.now grid.old (unpacked no_place result) grid.new }
{
    pack_checked(start_on_bytes(s, false, grid))
}

// Ready start.
#[unsafe(no_mangle)]
pub extern "C" fn flow_ready_start(s: &[u8], grid: &mut [u8]) -> u64
    ensures grid_value { start_on_bytes ready_preorder s.now grid.old ≡ record { reply = unpacked no_place result; grid = grid.new } }
    ensures value { result ≡ packed no_place (unpacked no_place result) }
    ensures start_bytes_promise { StartBytesPromise ReadyStart s.now grid.old (unpacked no_place result) grid.new }
{
    pack_checked(start_on_bytes(s, true, grid))
}

// Check plan, with the depth of the last entry. Bytes past the last whole entry of eight are ignored.
#[unsafe(no_mangle)]
pub extern "C" fn flow_check_plan(s: &[u8], start: &[u8], plan: &[u8]) -> u64
    ensures plan_value { check_call s.now (words_of start.now) (entries_of_bytes plan.now) ≡ unpacked check_places result }
    ensures value { result ≡ packed check_places (unpacked check_places result) }
    ensures check_promise { CheckPromise s.now (words_of start.now) (entries_of_bytes plan.now) (unpacked check_places result) }
{
    let mut words = [0u64; 1024];
    let n = carry::load_grid(start, &mut words);
    let answer = strategy_bytes::check_bytes(s, &words[..n], plan);
    match answer {
        Err(r) => pack_refused(r),
        Ok(last) => {
            256 * (last.p as u64) + 16777216 * (last.q as u64) + 1099511627776 * (last.depth as u64)
        }
    }
}

// Write plan. Bytes past the plan's entries stay as they are.
#[unsafe(no_mangle)]
pub extern "C" fn flow_write_plan(s: &[u8], start: &[u8], p: u64, q: u64, plan: &mut [u8]) -> u64
    ensures plan_value { write_call entry_bytes 8 s.now (words_of start.now) p q plan.old
        ≡ record { reply = unpacked one_place result; plan = plan.new } }
    ensures value { result ≡ packed one_place (unpacked one_place result) }
    ensures write_promise { WritePromise entries_of_bytes 8 s.now (words_of start.now) p q plan.old
        (unpacked one_place result) plan.new }
{
    let mut words = [0u64; 1024];
    let n = carry::load_grid(start, &mut words);
    pack_count(strategy_bytes::write_bytes(s, &words[..n], p as usize, q as usize, plan))
}
