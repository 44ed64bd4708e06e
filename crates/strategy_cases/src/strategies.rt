// Check plan and write plan, on numbers and on bytes.
use case_files::{checksums, fields, output};

// Writes the answer of a check.
pub(crate) fn put_verdict(answer: Result<strategy::Accepted, lts::Refusal>) {
    output::put_answer(answer.map(|last| [last.p as u64, last.q as u64, last.depth as u64]));
}

// Writes the answer where a strategy is written.
pub(crate) fn put_written(answer: Result<usize, lts::Refusal>) {
    output::put_answer(answer.map(|count| [count as u64]));
}

// Check plan on numbers: a sheet, a start and the numbers.
pub fn run_check(s: &[u8], start: &[u64], numbers: &[u16]) {
    put_verdict(strategy::check_strategy(s, start, numbers));
}

// Write plan on numbers: a sheet, a start, the numbers and a pair.
pub fn run_write(s: &[u8], start: &[u64], numbers: &mut [u16]) {
    fields::begin_numbers(2);
    let p = fields::read_number();
    let q = fields::read_number();
    put_written(strategy::write_strategy(s, start, p, q, numbers));
    output::put(checksums::numbers(numbers));
}

// Check plan on bytes: a sheet, a start and the bytes.
pub fn run_check_bytes(s: &[u8], start: &[u64]) {
    let mut bytes = [0u8; 8208];
    let n = fields::read_field(&mut bytes);
    put_verdict(strategy_bytes::check_bytes(s, start, &bytes[..n]));
}

fn put_bytes(s: &[u8], start: &[u64], bytes: &mut [u8]) {
    fields::begin_numbers(2);
    let p = fields::read_number();
    let q = fields::read_number();
    put_written(strategy_bytes::write_bytes(s, start, p, q, bytes));
    output::put(checksums::bytes(bytes));
}

// Write plan on bytes: a sheet, a start, the bytes and a pair.
pub fn run_write_bytes(s: &[u8], start: &[u64]) {
    let mut bytes = [0u8; 8208];
    let n = fields::read_field(&mut bytes);
    put_bytes(s, start, &mut bytes[..n]);
}
