// Words and 16-bit lists carried as bytes, low byte first.
#![tactic(auto)]

ghost use Rattle.std.specs.Prelude.{◌≡◌, ℕ, List, map, ◌+◌, ◌*◌, ◌/◌, ◌^◌, ◌<◌, ◌≤◌, cond, ◌++◌, ltb, length, take, drop};
ghost use Rattle.carry.specs.Carried.{number_of, digits, loaded, stored};
ghost use Rattle.carry.specs.Values.{values_same, eight_fits, two_fits};
ghost use Rattle.carry.specs.Bytes.{Room, LoadedFrom};

// The number that the k bytes from `at` on carry.
pub fn read_number(bytes: &[u8], at: usize, k: usize) -> u64
    requires k_bound { k ≤ 8 }
    requires k_in_bounds { at + k ≤ length bytes.now }
    ensures value { result ≡ number_of (take k (drop at bytes.now)) }
    ensures upper_bound { result < 256 ^ k }
{
    let mut x: u64 = 0;
    for j in (at..at + k).rev() {
        x = x * 256 + u64::from(bytes[j]);
    }
    x
}

// A number that K bytes carry.
pub trait Number<const K: usize>: Copy {
    // the number, and those of a list
    ghost value: { Self → ℕ };

    ghost values: { List Self → List ℕ };

    fn from_bytes(bytes: [u8; K]) -> Self
        ensures { value result ≡ number_of bytes.entry };

    fn to_bytes(self) -> [u8; K]
        ensures { result ≡ digits K (value self) };

    ghost each: { (xs : List Self) → values xs ≡ map value xs };

    ghost size: { (1 ≤ K) × (K ≤ 8) };
}

impl Number<8> for u64 {
    ghost value = { λ x. x };

    ghost values = { λ xs. xs };

    ghost each = { values_same };

    ghost size = { eight_fits };

    fn from_bytes(bytes: [u8; 8]) -> u64
        ensures { result ≡ number_of bytes }
    {
        u64::from_le_bytes(bytes)
    }

    fn to_bytes(self) -> [u8; 8] {
        u64::to_le_bytes(self)
    }
}

impl Number<2> for u16 {
    ghost value = { λ x. x };

    ghost values = { λ xs. xs };

    ghost each = { values_same };

    ghost size = { two_fits };

    fn from_bytes(bytes: [u8; 2]) -> u16
        ensures { result ≡ number_of bytes }
    {
        u16::from_le_bytes(bytes)
    }

    fn to_bytes(self) -> [u8; 2] {
        u16::to_le_bytes(self)
    }
}

// Reads the numbers that bytes carry, into the front of numbers; a last part of fewer than K bytes is ignored.
pub fn load<const K: usize, T: Number<K>>(bytes: &[u8], numbers: &mut [T])
    requires { length bytes.now / K ≤ length numbers.old }
    ensures { T.values numbers.new ≡ loaded K bytes.now (T.values numbers.old) }
{
    let (chunks, _) = bytes.as_chunks::<K>();
    for (i, chunk) in chunks.iter().enumerate() {
        numbers[i] = T::from_bytes(*chunk);
    }
}

// Writes the bytes that carry numbers, into the front of bytes.
pub fn store<const K: usize, T: Number<K>>(numbers: &[T], bytes: &mut [u8])
    requires { K * length numbers.now ≤ length bytes.old }
    ensures { bytes.new ≡ stored K (T.values numbers.now) bytes.old }
{
    for (i, x) in numbers.iter().enumerate() {
        bytes[K * i..K * i + K].copy_from_slice(&x.to_bytes());
    }
}

// Reads numbers from their bytes, into the front of numbers. Their count is 0 where a byte is left over, or there are more than `most`.
fn load_at_most<const K: usize, T: Number<K>>(bytes: &[u8], numbers: &mut [T], most: usize) -> usize
    requires { (most ≤ 1024) × Room K most bytes.now (T.values numbers.old) }
    ensures { LoadedFrom K most (length numbers.old) bytes.now result (T.values numbers.new) }
{
    let len = bytes.len();
    if (len % K != 0) | (K * most < len) {
        return 0;
    }
    load(bytes, numbers);
    len / K
}

// Reads the words of a grid from its bytes, into the front of words. Their number is 0 where the bytes are no grid's.
pub fn load_grid(bytes: &[u8], words: &mut [u64]) -> usize
    requires { Room 8 1024 bytes.now words.old }
    ensures { LoadedFrom 8 1024 (length words.old) bytes.now result words.new }
{
    load_at_most(bytes, words, 1024)
}

// Reads one number a state from its bytes, into the front of numbers. Their number is 0 where the bytes are no such list's.
pub fn load_states(bytes: &[u8], numbers: &mut [u16]) -> usize
    requires { Room 2 256 bytes.now numbers.old }
    ensures { LoadedFrom 2 256 (length numbers.old) bytes.now result numbers.new }
{
    load_at_most(bytes, numbers, 256)
}
