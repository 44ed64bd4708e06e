// Checksums of the bytes that buffers carry.
ghost use Rattle.std.specs.Prelude.{◌≡◌, ◌<◌};

// The checksum of the bytes so far.
#[derive(Clone, Copy)]
pub struct Checksum {
    sum: u64,
    ghost small: { sum < 1000000007 },
}

impl Checksum {
    // Of no bytes.
    pub fn new() -> Checksum
        ensures { result.sum ≡ 0 }
    {
        Checksum { sum: 0 }
    }

    pub fn sum(self) -> u64
        ensures value { result ≡ self.sum }
        ensures small { result < 1000000007 }
    {
        self.sum
    }

    // After one byte more.
    fn add(self, b: u8) -> Checksum {
        Checksum {
            sum: (self.sum * 257 + u64::from(b) + 1) % 1000000007,
        }
    }

    // After bytes more.
    fn add_all(self, bytes: &[u8]) -> Checksum {
        let mut all = self;
        for b in bytes {
            all = all.add(*b);
        }
        all
    }

    // After the bytes of a number more.
    pub fn add_number<const K: usize, T: carry::Number<K>>(self, x: T) -> Checksum {
        self.add_all(&x.to_bytes())
    }
}

// The checksum of bytes.
pub fn bytes(list: &[u8]) -> u64 {
    Checksum::new().add_all(list).sum()
}

// The checksum of the bytes that numbers carry.
pub fn numbers<const K: usize, T: carry::Number<K>>(list: &[T]) -> u64 {
    let mut all = Checksum::new();
    for x in list {
        all = all.add_number(*x);
    }
    all.sum()
}
