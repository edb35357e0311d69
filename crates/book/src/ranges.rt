//! What the registers of a make can hold, and so what an entry can say.
ghost use Rattle.std.specs.Prelude.{◌≡◌, ◌^◌, ◌<◌, ◌≤◌, length, pos};
ghost use Rattle.chip.specs.Registers.{in_range};
ghost use Rattle.book.specs.Bill.{first_bad, holds, sum_holds, sums_hold};

use chip::entry::Entry;
use chip::make::Make;
use chip::register;
use chip::wanted::Wanted;

// 2^bits, for registers of up to 64 bits.
fn size(bits: u32) -> i128
    requires { bits ≤ 64 }
    ensures { result ≡ pos (2 ^ bits) }
{
    1 << bits
}

// Whether a register of so many bits holds a value, one-way or in two's complement.
fn in_range(bits: u32, two_way: bool, value: i128) -> bool
    requires { (0 < bits) × (bits ≤ 64) }
    ensures { result ≡ in_range bits two_way value }
{
    let half = size(bits - 1);
    let signed = (-half..half).contains(&value);
    let plain = (0..size(bits)).contains(&value);
    if two_way { signed } else { plain }
}

// Whether a channel, counted from 0, can have this sum, by an entry's own two-way mask. One that the make has not holds 0.
fn sum_holds<M: Make>(two_way: u8, channel: usize, sum: i64) -> bool
    ensures { result ≡ sum_holds M.Make.sheet two_way channel sum }
{
    let constants = M::constants();
    in_range(
        constants.sum_bits,
        register::in_mask(two_way, channel),
        i128::from(sum),
    ) && (channel < usize::from(constants.channels) || sum == 0)
}

// Whether all four channels can have their sums.
fn sums_hold<M: Make>(two_way: u8, sums: &[i64]) -> bool
    requires { length sums.now ≡ 4 }
    ensures { result ≡ sums_hold M.Make.sheet two_way 0 sums.now }
{
    for (channel, sum) in sums.iter().enumerate() {
        if !sum_holds::<M>(two_way, channel, *sum) {
            return false;
        }
    }
    true
}

// Whether an entry is within the ranges of its make. The draw number has none.
fn holds<M: Make>(entry: &Entry) -> bool
    ensures { result ≡ holds M.Make.sheet entry.now }
{
    let Ok(wanted) = Wanted::new(entry.rate, entry.off, entry.two_way) else {
        return false;
    };
    M::offers(wanted)
        && entry.spoilt <= 1
        && u64::from(entry.count) < 1 << M::constants().count_bits
        && sums_hold::<M>(entry.two_way, &entry.sums)
}

// The first entry that is beyond them, counted from 0.
pub(crate) fn first_bad<M: Make>(entries: &[Entry]) -> Option<usize>
    ensures { result ≡ first_bad M.Make.sheet 0 entries.now }
{
    entries.iter().position(|entry| !holds::<M>(entry))
}
