//! What a book's entries are worth: their energy by the tariff of a make, exact until it is rounded down once.
ghost use Rattle.std.specs.Prelude.{◌≡◌, ◌*◌, ◌^◌, ◌<◌, ◌≤◌, length, pos, ◌*ℤ◌, unsigned_abs};
ghost use Rattle.book.specs.Bill.{bill_limits, energy, sound_entries, spoilt_entries, weighed, weight, worth};
ghost use Rattle.book.specs.Billed.{bill_seen};
ghost use Rattle.book.specs.Book.{pages, bill_of_pages};

use super::book::Book;
use super::ranges;
use chip::entry::Entry;
use chip::make::Make;
use chip::refusal::Refusal;
use chip::register;

/// The largest shunt, in tenths of a milliohm.
pub const LARGEST_SHUNT: u16 = 1000;

/// What a book's entries come to on one channel.
#[derive(Clone, Copy, Debug, PartialEq, Eq)]
pub struct Bill {
    /// in millijoules, rounded down once
    pub energy: i128,
    /// how many entries were billed: the unspoilt ones
    pub billed: usize,
    /// how many are spoilt
    pub spoilt: usize,
}

// What one step of a sum counts: by the rate code, and double on a two-way channel.
fn weight(rate: u8, two_way: bool) -> u32
    ensures value { result ≡ weight rate two_way }
    ensures bound { result ≤ 256 }
{
    let one_way = match rate {
        1 => 4,
        2 => 16,
        3 => 128,
        _ => 1,
    };
    if two_way { 2 * one_way } else { one_way }
}

// An entry's worth on a channel, counted from 0.
fn worth(entry: &Entry, channel: usize) -> i128
    requires { channel < 4 }
    ensures value { result ≡ worth channel entry.now }
    ensures bound { unsigned_abs result ≤ 2 ^ 71 }
{
    if entry.spoilt != 0 {
        return 0;
    }
    let two_way = register::in_mask(entry.two_way, channel);
    i128::from(entry.sums[channel]) * i128::from(weight(entry.rate, two_way))
}

// The total over some entries.
fn weighed(entries: &[Entry], channel: usize) -> i128
    requires { (channel < 4) × (length entries.now ≤ 4096) }
    ensures value { result ≡ weighed channel entries.now }
    ensures bound { unsigned_abs result ≤ 2 ^ 83 }
{
    let mut total = 0;
    for entry in entries {
        total += worth(entry, channel);
    }
    total
}

// A total times a tariff's factor.
fn scaled(factor: u32, total: i128) -> i128
    requires { unsigned_abs total ≤ 2 ^ 83 }
    ensures value { result ≡ pos factor *ℤ total }
    ensures bound { unsigned_abs result ≤ 2 ^ 115 }
{
    i128::from(factor) * total
}

// How many parts of a scaled total make a millijoule, over a shunt in tenths of a milliohm.
fn parts(shunt: u16, power: u32) -> i128
    requires { (1 ≤ shunt) × (power ≤ 64) }
    ensures value { result ≡ pos (shunt * 2 ^ power) }
    ensures some { 0 < unsigned_abs result }
{
    i128::from(shunt) << power
}

// The energy on a channel, counted from 1, rounded down once: toward minus infinity.
fn energy<M: Make>(entries: &[Entry], channel: u8, shunt: u16) -> i128
    requires { (1 ≤ channel) × ((channel ≤ 4) × ((1 ≤ shunt) × (length entries.now ≤ 4096))) }
    ensures { result ≡ energy M.Make.sheet channel shunt entries.now }
{
    let tariff = M::constants().tariff;
    let total = weighed(entries, usize::from(channel) - 1);
    scaled(tariff.factor, total).div_euclid(parts(shunt, tariff.power))
}

// How many entries are spoilt.
fn spoilt_entries(entries: &[Entry]) -> usize
    ensures { result ≡ spoilt_entries entries.now }
{
    let mut spoilt = 0;
    for entry in entries {
        if entry.spoilt != 0 {
            spoilt += 1;
        }
    }
    spoilt
}

// How many are billed, where so many are spoilt.
fn sound_entries(entries: &[Entry], spoilt: usize) -> usize
    requires { spoilt ≡ spoilt_entries entries.now }
    ensures { result ≡ sound_entries entries.now }
{
    entries.len() - spoilt
}

// Whether a book, a channel and a shunt are within their limits.
fn bill_limits<M: Make>(book: &Book, channel: u8, shunt: u16) -> bool
    ensures { result ≡ bill_limits M.Make.sheet (length (pages book.now).places) (pages book.now).filled channel shunt }
{
    book.within_limits()
        && (1..=M::constants().channels).contains(&channel)
        && (1..=LARGEST_SHUNT).contains(&shunt)
}

impl Book<'_> {
    /// The energy of a channel, counted from 1, over a shunt in tenths of a milliohm, by the tariff of a make.
    /// A book, a channel or a shunt outside its limits is refused first, then the first entry that the make cannot have booked.
    pub fn bill<M: Make>(&self, channel: u8, shunt: u16) -> Result<Bill, Refusal>
        ensures { bill_seen result ≡ bill_of_pages M.Make.sheet (pages self.now) channel shunt }
    {
        if !bill_limits::<M>(self, channel, shunt) {
            return Err(Refusal::Limits);
        }
        let entries = self.entries();
        if let Some(place) = ranges::first_bad::<M>(entries) {
            return Err(Refusal::BadEntry(place as u16));
        }
        let spoilt = spoilt_entries(entries);
        Ok(Bill {
            energy: energy::<M>(entries, channel, shunt),
            billed: sound_entries(entries, spoilt),
            spoilt,
        })
    }
}
