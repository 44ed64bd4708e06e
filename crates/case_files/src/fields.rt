// The fields of a case on standard input: each a length in four bytes, low byte first, and that many bytes.
ghost use Rattle.std.specs.Prelude.{◌≡◌, ◌≤◌, length, take};
ghost use Rattle.io.specs.Counts.{IsPrefixLen};

// The next case's operation, and 0 at the end of the input.
pub fn read_operation() -> u8 {
    let mut one = [0u8; 1];
    let n = io::read_full(0, &mut one);
    if n == 0 {
        return 0;
    }
    one[0]
}

// A field's length.
fn read_length() -> u64 {
    let mut four = [0u8; 4];
    io::read_full(0, &mut four);
    carry::read_number(&four, 0, 4)
}

// Where a field is not read whole, the output has a line of its own, which no expected output has.
pub fn expect(whole: bool) {
    if !whole {
        io::write_all(1, b"a field is not read whole\n");
    }
}

// Reads a field into the front of buf and answers how many bytes it has.
pub fn read_field(buf: &mut [u8]) -> usize
    ensures { IsPrefixLen result buf.new }
{
    let length = read_length();
    let n = usize::try_from(length).unwrap_or(buf.len()).min(buf.len());
    let read = io::read_full(0, &mut buf[..n]);
    expect(read as u64 == length);
    read
}

// Loads the numbers of a field into the front of numbers and answers how many there are.
fn load<const K: usize, T: carry::Number<K>>(bytes: &[u8], numbers: &mut [T]) -> usize
    ensures { (result ≤ length numbers.new) × (result ≡ length (take result numbers.new)) }
{
    let n = bytes.len();
    let count = n / K;
    expect((n % K == 0) & (count <= numbers.len()));
    if count > numbers.len() {
        return 0;
    }
    carry::load(bytes, numbers);
    count
}

// Reads a field of numbers into the front of numbers and answers how many there are.
pub fn read_numbers<const K: usize, T: carry::Number<K>>(numbers: &mut [T]) -> usize
    ensures { (result ≤ length numbers.new) × (result ≡ length (take result numbers.new)) }
{
    let mut bytes = [0u8; 8208];
    let n = read_field(&mut bytes);
    load(&bytes[..n], numbers)
}

// Begins a field of so many 16-bit numbers, which read_number reads one by one.
pub fn begin_numbers(count: u64)
    requires { count ≤ 3 }
{
    expect(read_length() == 2 * count);
}

pub fn read_number() -> usize {
    let mut two = [0u8; 2];
    let n = io::read_full(0, &mut two);
    expect(n == 2);
    carry::read_number(&two, 0, 2) as usize
}
