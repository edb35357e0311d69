//! What a driver of a make sends and reads.
ghost use Rattle.std.specs.Prelude.{◌≡◌, [], ◌∷◌};
ghost use Rattle.chip.specs.Driver.{write_of};
ghost use Rattle.chip.specs.Registers.{big_endian};

use arrayvec::ArrayVec;

/// A read: where it starts, and how many bytes it brings.
#[derive(Clone, Copy, Debug, PartialEq, Eq)]
pub struct Span {
    pub address: u8,
    pub length: usize,
}

/// A write of a register of one or two bytes.
#[derive(Clone, Copy, Debug, Default, PartialEq, Eq)]
pub struct RegisterWrite {
    pub address: u8,
    bytes: [u8; 2],
    length: usize,
}

/// The writes that put settings in place, in their order. No make takes more than three.
pub type SettingsWrites = ArrayVec<RegisterWrite, 3>;

impl RegisterWrite {
    /// One byte.
    pub fn of_byte(address: u8, byte: u8) -> RegisterWrite
        ensures { write_of result ≡ (address, byte ∷ []) }
    {
        RegisterWrite {
            address,
            bytes: [byte, 0],
            length: 1,
        }
    }

    /// Two bytes, the highest first.
    pub fn of_word(address: u8, word: u16) -> RegisterWrite
        ensures { write_of result ≡ (address, big_endian 2 word) }
    {
        RegisterWrite {
            address,
            bytes: word.to_be_bytes(),
            length: 2,
        }
    }

    /// The bytes that are sent after the address.
    pub fn bytes(&self) -> &[u8]
        ensures { result.now ≡ (write_of self.now).1 }
    {
        &self.bytes[..self.length.min(2)]
    }
}
