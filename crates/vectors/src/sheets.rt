// Calls on one sheet, and on two.
use case_files::{checksums, fields, output};

// A call that writes a sheet, as normalise, to named and to plain are: a sheet and a buffer.
pub fn run_written<F: FnOnce(&[u8], &mut [u8]) -> Result<(), lts::Refusal>>(s: &[u8], call: F)
    requires { F.IsAlwaysCallable call }
{
    let mut out = [0u8; 8208];
    let n = fields::read_field(&mut out);
    output::put_answer(call(s, &mut out[..n]).map(|()| []));
    output::put(checksums::bytes(&out[..n]));
}

// Compare, or its ready form: two sheets.
pub fn run_compared<F: FnOnce(&[u8], &[u8]) -> Result<comparison::Comparison, lts::Refusal>>(
    first: &[u8],
    call: F,
)
    requires { F.IsAlwaysCallable call }
{
    let mut second = [0u8; 8200];
    let n = fields::read_field(&mut second);
    let answer = call(first, &second[..n]);
    output::put_answer(answer.map(|c| [u64::from(c.related), c.steps as u64]));
}

// Read: a sheet.
pub fn run_reading(s: &[u8]) {
    let answer = reader::read_encoding(s);
    output::put_answer(answer.map(|h| [h.states as u64, h.actions as u64, h.transitions as u64]));
}

fn put_joined(first: &[u8], second: &[u8], out: &mut [u8]) {
    output::put_answer(disjoint_union::join(first, second, out).map(|length| [length as u64]));
    output::put(checksums::bytes(out));
}

// Join: two sheets and a buffer.
pub fn run_joined(first: &[u8]) {
    let mut second = [0u8; 8200];
    let n = fields::read_field(&mut second);
    let mut out = [0u8; 8208];
    let k = fields::read_field(&mut out);
    put_joined(first, &second[..n], &mut out[..k]);
}

fn put_text(text: &[u8]) {
    output::put(text.len() as u64);
    output::put(checksums::bytes(text));
}

// The text of flowcheck: a sheet. The line has the text's length and checksum.
pub fn run_text(s: &[u8]) {
    let mut text = [0u8; 266304];
    let size = listing::put_flow(s, &mut text);
    put_text(&text[..size]);
}
