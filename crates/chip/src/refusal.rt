//! The refusals of the whole product. One definition gives each case its number, and one each the values that it names.
ghost use Rattle.std.specs.Prelude.{◌≡◌};
ghost use Rattle.chip.specs.declared.refusal.Refusal.TheVariants.{Limits};
ghost use Rattle.chip.specs.Refusals.{number_of, who_number, refused_by, at_address, at_place};

use std::num::TryFromIntError;

/// Who refused a transaction.
#[derive(Clone, Copy, Debug, PartialEq, Eq)]
pub enum Who {
    Wire,
    Chip,
}

/// Why a call was refused.
#[derive(Clone, Copy, Debug, PartialEq, Eq)]
pub enum Refusal {
    /// a number, read length, scratch or book outside its limits
    Limits,
    /// not acknowledged: by whom, and at which address
    NotAcknowledged(Who, u8),
    /// broken, always by a wire: at which address
    Broken(u8),
    /// draw or look with a slip out
    SlipOut,
    /// look when unfinished or in doubt
    NotReady,
    /// draw, the last draw number being used
    NumbersSpent,
    /// a slip that is not the open one
    WrongSlip,
    /// book or script full
    Full,
    /// an entry beyond its kind's ranges: at which place
    BadEntry(u16),
    /// a line that cannot be read
    Unreadable,
    /// no slip in hand
    NoSlip,
}

impl Who {
    /// The number that is printed. A method, as `u8::from(who)` would not say which number it is.
    pub fn number(self) -> u8
        ensures { result ≡ who_number self }
    {
        match self {
            Who::Wire => 1,
            Who::Chip => 2,
        }
    }
}

impl Refusal {
    /// The number that is printed. A method and no conversion, as a refusal tells more than that.
    pub fn number(self) -> u8
        ensures { result ≡ number_of self }
    {
        match self {
            Refusal::Limits => 1,
            Refusal::NotAcknowledged(_, _) => 2,
            Refusal::Broken(_) => 3,
            Refusal::SlipOut => 4,
            Refusal::NotReady => 5,
            Refusal::NumbersSpent => 6,
            Refusal::WrongSlip => 7,
            Refusal::Full => 8,
            Refusal::BadEntry(_) => 9,
            Refusal::Unreadable => 10,
            Refusal::NoSlip => 11,
        }
    }

    /// Who refused, where a transaction was.
    pub fn refused_by(self) -> Option<Who>
        ensures { result ≡ refused_by self }
    {
        match self {
            Refusal::NotAcknowledged(who, _) => Some(who),
            Refusal::Broken(_) => Some(Who::Wire),
            _ => None,
        }
    }

    /// The address of a transaction that was refused.
    pub fn at_address(self) -> Option<u8>
        ensures { result ≡ at_address self }
    {
        match self {
            Refusal::NotAcknowledged(_, address) => Some(address),
            Refusal::Broken(address) => Some(address),
            _ => None,
        }
    }

    /// The place of a bad entry.
    pub fn at_place(self) -> Option<u16>
        ensures { result ≡ at_place self }
    {
        match self {
            Refusal::BadEntry(place) => Some(place),
            _ => None,
        }
    }
}

// A number that does not fit its type is outside its limits.
impl From<TryFromIntError> for Refusal {
    ghost from_gives = { λ _ r. r ≡ Limits };

    fn from(_error: TryFromIntError) -> Refusal {
        Refusal::Limits
    }
}
