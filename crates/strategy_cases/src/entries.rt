// Check plan and write plan on entry structs: `check_front` and `write_front` lend the front of an array of entries.
ghost use Rattle.std.specs.Prelude.{◌+◌, ◌*◌, ◌≤◌, ◌<◌, length};

use super::strategies;
use case_files::checksums::Checksum;
use case_files::{fields, output};

// Room for as many entries as a case has at most.
type Room = [lts::Entry; 1024];

// The entry of the four numbers from 4i.
fn entry_of(numbers: &[u16], i: usize) -> lts::Entry
    requires { 4 * i + 4 ≤ length numbers.now }
{
    let k = 4 * i;
    lts::Entry {
        p: numbers[k],
        q: numbers[k + 1],
        a: numbers[k + 2],
        t: numbers[k + 3],
    }
}

// How many entries so many numbers carry. Of more than there is room for, none is taken.
fn count_of(length: usize) -> usize
    ensures { (result ≤ 1024) × (4 * result ≤ length) }
{
    if 4096 < length {
        fields::expect(false);
        return 0;
    }
    fields::expect(length % 4 == 0);
    length / 4
}

// The entries of the numbers.
fn entries_of(numbers: &[u16]) -> Room {
    let blank = lts::Entry {
        p: 0,
        q: 0,
        a: 0,
        t: 0,
    };
    let mut room = [blank; 1024];
    let count = count_of(numbers.len());
    for i in 0..count {
        room[i] = entry_of(numbers, i);
    }
    room
}

// The checksum of the bytes that the first entries carry.
fn checksum(room: Room, count: usize) -> u64
    requires { count ≤ 1024 }
{
    let mut all = Checksum::new();
    for e in &room[..count] {
        all = all
            .add_number(e.p)
            .add_number(e.q)
            .add_number(e.a)
            .add_number(e.t);
    }
    all.sum()
}

// Check plan on the first entries.
fn check_front(
    s: &[u8],
    start: &[u64],
    room: Room,
    count: usize,
) -> Result<strategy::Accepted, lts::Refusal>
    requires { count ≤ 1024 }
{
    strategy_entries::check_entries(s, start, &room[..count])
}

// Check plan on entries: a sheet, a start and the numbers of the entries.
pub fn run_check(s: &[u8], start: &[u64], numbers: &[u16]) {
    let room = entries_of(numbers);
    let count = count_of(numbers.len());
    strategies::put_verdict(check_front(s, start, room, count));
}

fn put_entries(answer: Result<usize, lts::Refusal>, room: Room, count: usize)
    requires { count ≤ 1024 }
{
    strategies::put_written(answer);
    output::put(checksum(room, count));
}

// Write plan on the first entries.
fn write_front(s: &[u8], start: &[u64], p: usize, q: usize, room: Room, count: usize)
    requires { count ≤ 1024 }
{
    let mut lent = room;
    let answer = strategy_entries::write_entries(s, start, p, q, &mut lent[..count]);
    put_entries(answer, lent, count);
}

// Write plan on entries: a sheet, a start, the numbers of the entries and a pair.
pub fn run_write(s: &[u8], start: &[u64], numbers: &[u16]) {
    fields::begin_numbers(2);
    let p = fields::read_number();
    let q = fields::read_number();
    let room = entries_of(numbers);
    let count = count_of(numbers.len());
    write_front(s, start, p, q, room, count);
}
