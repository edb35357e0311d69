//! How a register's bits and bytes are read, as in specs/Registers.
ghost use Rattle.std.specs.Prelude.{◌≡◌, ℕ, ◌+◌, ◌-◌, ◌^◌, ◌<◌, ◌≤◌, ◌+ℤ◌, not, min, ◌++◌, length, take, drop, pos, unsigned_abs};
ghost use Rattle.chip.specs.Registers.{in_mask, value_of, in_range, below_zero, bits_of, big_endian, number};

/// Bit 3 is channel 1, bit 0 channel 4; channels count from 0, and there are four.
pub fn in_mask(mask: u8, channel: usize) -> bool
    ensures { result ≡ in_mask mask channel }
{
    (mask >> 3usize.saturating_sub(channel)) % 2 == 1
}

// Products of less than this are added in 64 bits.
const MOST: i64 = 1 << 62;

// A sum register: how many bits it has, and whether they are read in two's complement.
#[derive(Clone, Copy)]
pub(crate) struct Format {
    bits: u32,
    two_way: bool,
    ghost some: { 0 < bits },
    ghost fits: { bits ≤ 64 },
}

impl Format {
    pub(crate) fn new(bits: u32, two_way: bool) -> Format
        requires some { 0 < bits }
        requires fits { bits ≤ 64 }
        ensures { (result.bits ≡ bits) × (result.two_way ≡ two_way) }
    {
        Format { bits, two_way }
    }

    // How many values there are.
    fn size(self) -> i128
        ensures { result ≡ pos (2 ^ self.bits) }
    {
        1 << self.bits
    }

    // As many as are not negative where it is two-way.
    fn half(self) -> i128
        ensures { result ≡ pos (2 ^ (self.bits - 1)) }
    {
        1 << (self.bits - 1)
    }

    // What the register holds, with its sign.
    pub(crate) fn value(self, register: u64) -> i128
        ensures value { result ≡ value_of self.bits self.two_way register }
        ensures bound { unsigned_abs result < 2 ^ 65 }
        ensures narrow { unsigned_abs result ≤ register + 2 ^ self.bits }
    {
        let plain = i128::from(register);
        let below = if self.two_way && plain >= self.half() {
            self.size()
        } else {
            0
        };
        plain - below
    }

    fn contains(self, value: i128) -> bool
        ensures { result ≡ in_range self.bits self.two_way value }
    {
        if self.two_way {
            (-self.half()..self.half()).contains(&value)
        } else {
            (0..self.size()).contains(&value)
        }
    }

    // What the register keeps of a value.
    fn bits_of(self, value: i128) -> u64
        ensures { result ≡ bits_of self.bits value }
    {
        value.rem_euclid(self.size()) as u64
    }

    // What the register keeps after a product is added, and whether the true sum left its range.
    pub(crate) fn add(self, register: u64, product: i64) -> (u64, bool)
        ensures kept { result.0 ≡ bits_of self.bits (value_of self.bits self.two_way register +ℤ product) }
        ensures left { result.1 ≡ not (in_range self.bits self.two_way (value_of self.bits self.two_way register +ℤ product)) }
    {
        if self.bits <= 62 && register < 1 << self.bits && (-MOST..MOST).contains(&product) {
            return self.add_in_64(register, product);
        }
        self.add_in_128(register, product)
    }

    // A register of at most 62 bits that holds what fits it, and a product that is no more: the sum fits 64 bits.
    fn add_in_64(self, register: u64, product: i64) -> (u64, bool)
        requires bits { self.bits ≤ 62 }
        requires register { register < 2 ^ self.bits }
        requires product { unsigned_abs product ≤ 2 ^ 62 }
        ensures kept { result.0 ≡ bits_of self.bits (value_of self.bits self.two_way register +ℤ product) }
        ensures left { result.1 ≡ not (in_range self.bits self.two_way (value_of self.bits self.two_way register +ℤ product)) }
    {
        let above = self.above_lowest(register) as i64 + product;
        let sum = above - self.below_zero() as i64;
        let size = self.size_in_64();
        (
            sum.cast_unsigned() % size,
            !(0..size as i64).contains(&above),
        )
    }

    fn size_in_64(self) -> u64
        requires { self.bits ≤ 62 }
        ensures value { result ≡ 2 ^ self.bits }
        ensures bound { 2 ^ self.bits ≤ 2 ^ 62 }
    {
        1 << self.bits
    }

    // How far the lowest value is below 0.
    fn below_zero(self) -> u64
        requires { self.bits ≤ 62 }
        ensures value { result ≡ below_zero self.bits self.two_way }
        ensures bound { below_zero self.bits self.two_way ≤ 2 ^ 61 }
    {
        if self.two_way {
            1 << (self.bits - 1)
        } else {
            0
        }
    }

    // How far a register's value is above the lowest one.
    fn above_lowest(self, register: u64) -> u64
        requires bits { self.bits ≤ 62 }
        requires register { register < 2 ^ self.bits }
        ensures value { pos result ≡ value_of self.bits self.two_way register +ℤ pos (below_zero self.bits self.two_way) }
        ensures bound { result < 2 ^ 62 }
    {
        (register + self.below_zero()) % self.size_in_64()
    }

    // Any register and any product. Apart, so that the cycles that come by 64 bits alone stay one loop.
    #[cold]
    #[inline(never)]
    fn add_in_128(self, register: u64, product: i64) -> (u64, bool)
        ensures kept { result.0 ≡ bits_of self.bits (value_of self.bits self.two_way register +ℤ product) }
        ensures left { result.1 ≡ not (in_range self.bits self.two_way (value_of self.bits self.two_way register +ℤ product)) }
    {
        let sum = self.value(register) + i128::from(product);
        (self.bits_of(sum), !self.contains(sum))
    }
}

/// A sense code, one-way or in two's complement.
pub fn sense_value(two_way: bool, sense: u16) -> i32
    ensures value { result ≡ value_of 16 two_way sense }
    ensures bound { unsigned_abs result < 65536 }
{
    if two_way {
        i32::from(sense.cast_signed())
    } else {
        i32::from(sense)
    }
}

// The number that some bytes write, the highest first.
pub(crate) fn number_of(bytes: &[u8]) -> u64
    requires { length bytes.now ≤ 8 }
    ensures value { result ≡ number bytes.now }
    ensures bound { result < 256 ^ length bytes.now }
{
    let mut all = [0; 8];
    all[8 - bytes.len()..].copy_from_slice(bytes);
    u64::from_be_bytes(all)
}

// Puts a register's bytes, the highest first, at the start of `bytes`, as many as fit, and answers how many.
pub(crate) fn put(value: u64, width: usize, bytes: &mut [u8]) -> usize
    requires { width ≤ 8 }
    ensures count { result ≡ min width (length bytes.old) }
    ensures after { bytes.new ≡ take (length bytes.old) (big_endian width value) ++ drop width bytes.old }
{
    // One by one: a copy of so few bytes is a call, and reads of a PAC193X took 1.5 to 1.9 times as long with it.
    let count = width.min(bytes.len());
    for i in 0..count {
        bytes[i] = ((value >> (8 * (width - 1 - i))) % 256) as u8;
    }
    count
}
