// Coarsest, on words and on bytes.
use case_files::{checksums, fields, output};

// Writes the refusal with its record, the steps, the pairs and the blocks.
fn put_answer(answer: Result<coarsest::Counts, lts::Refusal>) {
    output::put_answer(answer.map(|c| [c.steps as u64, c.pairs as u64, c.blocks as u64]));
}

fn put_coarsest(
    s: &[u8],
    start: &[u64],
    schedule: &[u16],
    grid: &mut [u64],
    representatives: &mut [u16],
) {
    put_answer(coarsest::coarsest(s, start, schedule, grid, representatives));
    output::put(checksums::numbers(grid));
    output::put(checksums::numbers(representatives));
}

// Coarsest: a sheet, a start, a schedule, a grid and the representatives.
pub fn run_coarsest(s: &[u8], start: &[u64]) {
    let mut schedule = [0u16; 2048];
    let t = fields::read_numbers(&mut schedule);
    let mut grid = [0u64; 1025];
    let m = fields::read_numbers(&mut grid);
    let mut representatives = [0u16; 260];
    let n = fields::read_numbers(&mut representatives);
    put_coarsest(
        s,
        start,
        &schedule[..t],
        &mut grid[..m],
        &mut representatives[..n],
    );
}

fn put_carried(
    s: &[u8],
    start: &[u8],
    schedule: &[u8],
    grid: &mut [u8],
    representatives: &mut [u8],
) {
    put_answer(coarsest_bytes::coarsest_on_bytes(s, start, schedule, grid, representatives));
    output::put(checksums::bytes(grid));
    output::put(checksums::bytes(representatives));
}

// Reads the grid and the representatives.
fn read_room(s: &[u8], start: &[u8], schedule: &[u8]) {
    let mut grid = [0u8; 8208];
    let m = fields::read_field(&mut grid);
    let mut representatives = [0u8; 520];
    let n = fields::read_field(&mut representatives);
    put_carried(
        s,
        start,
        schedule,
        &mut grid[..m],
        &mut representatives[..n],
    );
}

// Coarsest on bytes: the same fields.
pub fn run_carried(s: &[u8]) {
    let mut start = [0u8; 8208];
    let m = fields::read_field(&mut start);
    let mut schedule = [0u8; 8208];
    let n = fields::read_field(&mut schedule);
    read_room(s, &start[..m], &schedule[..n]);
}
