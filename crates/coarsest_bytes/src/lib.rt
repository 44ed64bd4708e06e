// Coarsest on bytes (document 01, "Hand play and comparison"): grids, turn lists and block names are carried as bytes, low byte first.
#![tactic(auto)]

ghost use Rattle.std.specs.Prelude.{◌≡◌, ◌+◌, ◌*◌, ◌<◌, ◌≤◌, ◌⊎◌, length};
ghost use Rattle.encoding.specs.Records.{header_of};
ghost use Rattle.carry.specs.Carried.{list_of};
ghost use Rattle.carry.specs.Bytes.{words_of, state_numbers, Room};
ghost use Rattle.coarsest.specs.Call.{coarsest_reply};
ghost use Rattle.coarsest_bytes.specs.Call.{coarsest_on_bytes, CoarsestBytesPromise};
ghost use Rattle.coarsest_bytes.specs.Carried.{coarsest_on_words};

// Coarsest, with the words and numbers that the bytes of its two buffers carry.
fn coarsest_in(
    s: &[u8],
    start: &[u64],
    schedule: &[u16],
    grid: &mut [u8],
    representatives: &mut [u8],
    words: &mut [u64],
    numbers: &mut [u16],
) -> Result<coarsest::Counts, lts::Refusal>
    requires { (words.old ≡ words_of grid.old) × (numbers.old ≡ state_numbers representatives.old) }
    ensures { coarsest_on_words s.now start.now schedule.now grid.old representatives.old
        ≡ record { reply = coarsest_reply result; grid = grid.new; representatives = representatives.new } }
{
    let counts = coarsest::coarsest(s, start, schedule, words, numbers)?;
    carry::store(words, grid);
    carry::store(numbers, representatives);
    Ok(counts)
}

// Coarsest, with the schedule's numbers, and arrays for the start's words, the grid's words and a number a state.
fn coarsest_loaded(
    s: &[u8],
    start: &[u8],
    schedule: &[u16],
    grid: &mut [u8],
    representatives: &mut [u8],
    preorder: &mut [u64],
    words: &mut [u64],
    numbers: &mut [u16],
) -> Result<coarsest::Counts, lts::Refusal>
    requires { Room 8 1024 start.now preorder.old × Room 8 1024 grid.old words.old × Room 2 256 representatives.old numbers.old }
    ensures { coarsest_on_words s.now (words_of start.now) schedule.now grid.old representatives.old
        ≡ record { reply = coarsest_reply result; grid = grid.new; representatives = representatives.new } }
{
    let v = carry::load_grid(start, preorder);
    let w = carry::load_grid(grid, words);
    let n = carry::load_states(representatives, numbers);
    coarsest_in(
        s,
        &preorder[..v],
        schedule,
        grid,
        representatives,
        &mut words[..w],
        &mut numbers[..n],
    )
}

// The same with arrays of these sizes, which have room for every sheet or for what the bytes carry: small arrays are cleared sooner.
fn coarsest_sized<const WORDS: usize, const STATES: usize>(
    s: &[u8],
    start: &[u8],
    schedule: &[u16],
    grid: &mut [u8],
    representatives: &mut [u8],
) -> Result<coarsest::Counts, lts::Refusal>
    requires room { (length start.now ≤ 8192 → length start.now ≤ 8 * WORDS) × (length grid.old ≤ 8192 → length grid.old ≤ 8 * WORDS)
        × (length representatives.old ≤ 512 → length representatives.old ≤ 2 * STATES) }
    requires sizes { (WORDS ≤ 1024) × (STATES ≤ 256) }
    ensures { coarsest_on_words s.now (words_of start.now) schedule.now grid.old representatives.old
        ≡ record { reply = coarsest_reply result; grid = grid.new; representatives = representatives.new } }
{
    let mut preorder = [0u64; WORDS];
    let mut words = [0u64; WORDS];
    let mut numbers = [0u16; STATES];
    coarsest_loaded(
        s,
        start,
        schedule,
        grid,
        representatives,
        &mut preorder,
        &mut words,
        &mut numbers,
    )
}

// Coarsest, with the schedule's numbers.
fn coarsest_carried(
    s: &[u8],
    start: &[u8],
    schedule: &[u16],
    grid: &mut [u8],
    representatives: &mut [u8],
) -> Result<coarsest::Counts, lts::Refusal>
    ensures { coarsest_on_words s.now (words_of start.now) schedule.now grid.old representatives.old
        ≡ record { reply = coarsest_reply result; grid = grid.new; representatives = representatives.new } }
{
    if (start.len() <= 512) & (grid.len() <= 512) & (representatives.len() <= 128) {
        return coarsest_sized::<64, 64>(s, start, schedule, grid, representatives);
    }
    coarsest_sized::<1024, 256>(s, start, schedule, grid, representatives)
}

// Coarsest, with a schedule of at most NUMBERS numbers: a small array is cleared sooner.
fn coarsest_scheduled<const NUMBERS: usize>(
    s: &[u8],
    start: &[u8],
    schedule: &[u8],
    grid: &mut [u8],
    representatives: &mut [u8],
) -> Result<coarsest::Counts, lts::Refusal>
    requires { (length schedule.now ≤ 2 * NUMBERS + 1) × (NUMBERS ≤ 65280) }
    ensures { coarsest_on_words s.now (words_of start.now) (list_of schedule.now)
        grid.old representatives.old
        ≡ record { reply = coarsest_reply result; grid = grid.new; representatives = representatives.new } }
{
    let mut numbers = [0u16; NUMBERS];
    carry::load(schedule, &mut numbers);
    let k = schedule.len() / 2;
    coarsest_carried(s, start, &numbers[..k], grid, representatives)
}

// How many bytes of a schedule are used: no run makes more than 256 * 255 steps, and one on at most 16 states makes at most 256.
fn used(s: &[u8], len: usize) -> usize
    ensures { (result ≤ len) × (result ≤ 130560)
        × (result < len → (result ≡ 130560) ⊎ ((result ≡ 512) × ((header_of s.now).states ≤ 16))) }
{
    let most = len.min(130560);
    if (most <= 512) | (s.len() < encoding::Header::BYTES) {
        return most;
    }
    if encoding::Header::read(s).states <= 16 {
        return 512;
    }
    most
}

// Coarsest on bytes.
pub fn coarsest_on_bytes(
    s: &[u8],
    start: &[u8],
    schedule: &[u8],
    grid: &mut [u8],
    representatives: &mut [u8],
) -> Result<coarsest::Counts, lts::Refusal>
    ensures representatives_value { coarsest_on_bytes s.now start.now schedule.now grid.old representatives.old
        ≡ record { reply = coarsest_reply result; grid = grid.new; representatives = representatives.new } }
    ensures coarsest_bytes_promise { CoarsestBytesPromise s.now start.now schedule.now grid.old representatives.old
        (coarsest_reply result) grid.new representatives.new }
{
    let k = used(s, schedule.len());
    if k <= 513 {
        return coarsest_scheduled::<256>(s, start, &schedule[..k], grid, representatives);
    }
    coarsest_scheduled::<65280>(s, start, &schedule[..k], grid, representatives)
}
