//! A cursor over the bytes of replies, that takes registers off by width.
ghost use Rattle.std.specs.Prelude.{◌≡◌, ◌*◌, ◌^◌, ◌<◌, min, take, drop};
ghost use Rattle.chip.specs.Registers.{number, value_of};

use super::register;
use super::register::Format;

/// What is still to come.
#[derive(Drop)]
pub struct Cursor<'a> {
    rest: &'a [u8],
}

impl<'a> Cursor<'a> {
    /// At the start of some bytes.
    pub fn new(bytes: &'a [u8]) -> Cursor<'a>
        ensures { result.rest.now ≡ bytes.now }
    {
        Cursor { rest: bytes }
    }

    /// The number in the next `width` bytes, the highest first. A register has at most eight; past the end there is none.
    pub fn take(&mut self, width: usize) -> u64
        ensures value { result ≡ number (take (min width 8) self.old.rest.now) }
        ensures bound { result < 256 ^ min width 8 }
        ensures rest { self.new.rest.now ≡ drop (min width 8) self.old.rest.now }
    {
        let count = width.min(8).min(self.rest.len());
        let (register, rest) = self.rest.split_at(count);
        self.rest = rest;
        register::number_of(register)
    }

    /// The next register as a sum of at most seven bytes, one-way or in two's complement.
    pub fn take_sum(&mut self, width: usize, two_way: bool) -> i64
        ensures value { result ≡ value_of (8 * min width 7) two_way (number (take (min width 7) self.old.rest.now)) }
        ensures rest { self.new.rest.now ≡ drop (min width 7) self.old.rest.now }
    {
        let width = width.min(7);
        let register = self.take(width);
        if width == 0 {
            return 0;
        }
        Format::new(8 * width as u32, two_way).value(register) as i64
    }

    /// Passes over some bytes.
    pub fn skip(&mut self, count: usize)
        ensures { self.new.rest.now ≡ drop count self.old.rest.now }
    {
        self.rest = &self.rest[count.min(self.rest.len())..];
    }
}
