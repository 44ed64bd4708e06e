// The line that is printed for a case: numbers with a blank between them.
ghost use Rattle.std.specs.Prelude.{◌≤◌};

// Writes the number of the case and its operation.
pub fn begin(number: u64, operation: u64) {
    io::print_decimal(1, number);
    put(operation);
}

// Writes a further number.
pub fn put(x: u64) {
    io::write_all(1, b" ");
    io::print_decimal(1, x);
}

// Writes further numbers.
fn put_all(numbers: &[u64]) {
    for x in numbers {
        put(*x);
    }
}

// Writes an answer: 0 for the refusal and 0 for its record, and the values; or the refusal, its record, and 0 for each value.
pub fn put_answer<const K: usize>(answer: Result<[u64; K], lts::Refusal>)
    requires { K ≤ 3 }
{
    match answer {
        Ok(values) => {
            put_all(&[0, 0]);
            put_all(&values);
        }
        Err(r) => {
            put_all(&[r.number(), u64::from(r.record())]);
            put_all(&[0; K]);
        }
    }
}

pub fn end() {
    io::write_all(1, b"\n");
}
