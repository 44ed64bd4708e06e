// Calls on a sheet and relations.
use case_files::{checksums, fields, output};

// End start, or ready start: a sheet and a grid.
pub fn run_start<F: FnOnce(&[u8], &mut [u64]) -> Result<(), lts::Refusal>>(s: &[u8], call: F)
    requires { F.IsAlwaysCallable call }
{
    let mut grid = [0u64; 1025];
    let n = fields::read_numbers(&mut grid);
    output::put_answer(call(s, &mut grid[..n]).map(|()| []));
    output::put(checksums::numbers(&grid[..n]));
}

// Writes yes or no.
fn put_decided(answer: Result<bool, lts::Refusal>) {
    output::put_answer(answer.map(|yes| [u64::from(yes)]));
}

// Test simulation: a sheet, a start and a claim.
pub fn run_tested(s: &[u8], start: &[u64]) {
    let mut claim = [0u64; 1025];
    let n = fields::read_numbers(&mut claim);
    put_decided(simulation::is_simulation(s, start, &claim[..n]));
}

// Hand play: a sheet, a start, and three numbers: a pair and the rounds.
pub fn run_played(s: &[u8], start: &[u64]) {
    fields::begin_numbers(3);
    let p = fields::read_number();
    let q = fields::read_number();
    let rounds = fields::read_number();
    put_decided(game::hand_play(s, start, p, q, rounds));
}
