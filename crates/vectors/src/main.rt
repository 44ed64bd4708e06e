// Runs every call of the library on cases from standard input, and prints a line of numbers for each: the case's number, its operation, the
// refusal and its record's number (0 for none), the values, and a checksum of each lent buffer as it is afterwards.
#![tactic(auto)]

mod refinements;
mod relations;
mod sheets;

use case_files::{fields, output};
use strategy_cases::{entries, strategies};

// Runs a call on a sheet, a start and the numbers of a strategy.
fn run_numbered(operation: u8, s: &[u8], start: &[u64], numbers: &mut [u16]) {
    match operation {
        5 => strategies::run_check(s, start, numbers),
        6 => strategies::run_write(s, start, numbers),
        10 => entries::run_check(s, start, numbers),
        11 => entries::run_write(s, start, numbers),
        _ => fields::expect(false),
    }
}

fn read_numbers(operation: u8, s: &[u8], start: &[u64]) {
    let mut numbers = [0u16; 4096];
    let n = fields::read_numbers(&mut numbers);
    run_numbered(operation, s, start, &mut numbers[..n]);
}

// Runs a call on a sheet and a start. The call reads its further fields.
fn run_started(operation: u8, s: &[u8], start: &[u64]) {
    match operation {
        3 => relations::run_tested(s, start),
        4 => refinements::run_coarsest(s, start),
        7 => relations::run_played(s, start),
        12 => strategies::run_check_bytes(s, start),
        13 => strategies::run_write_bytes(s, start),
        _ => read_numbers(operation, s, start),
    }
}

fn read_start(operation: u8, s: &[u8]) {
    let mut start = [0u64; 1025];
    let n = fields::read_numbers(&mut start);
    run_started(operation, s, &start[..n]);
}

// Runs a call on a sheet. The call reads its further fields.
fn run_case(operation: u8, s: &[u8]) {
    match operation {
        1 => sheets::run_written(s, normal_form::normalise),
        2 => relations::run_start(s, simulation::termination_preorder),
        8 => sheets::run_compared(s, comparison::compare),
        9 => sheets::run_reading(s),
        14 => refinements::run_carried(s),
        15 => sheets::run_joined(s),
        16 => sheets::run_text(s),
        17 => sheets::run_written(s, conversion::to_named),
        18 => sheets::run_written(s, conversion::to_plain),
        19 => relations::run_start(s, simulation::ready_preorder),
        20 => sheets::run_compared(s, comparison::compare_ready),
        _ => read_start(operation, s),
    }
}

fn read_sheet(operation: u8) {
    let mut s = [0u8; 8200];
    let n = fields::read_field(&mut s);
    run_case(operation, &s[..n]);
}

// Runs the next case, prints its line and answers whether there was one.
fn run_next(number: u64) -> bool {
    let operation = fields::read_operation();
    if operation == 0 {
        return false;
    }
    output::begin(number, operation as u64);
    read_sheet(operation);
    output::end();
    true
}

fn main() {
    for number in 1..65536 {
        if !run_next(number) {
            break;
        }
    }
}
