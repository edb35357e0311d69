//! Entries to make others from, and bills that are compared with what is known of them.
use crate::checks::same;
use book::bill::Bill;
use book::book::Book;
use chip::entry::Entry;
use chip::make::Make;
use chip::refusal::Refusal;
use std::process::Abort;

pub(crate) const ONE_WAY: Entry = Entry {
    draw: 1,
    spoilt: 0,
    count: 1,
    rate: 0,
    off: 0,
    two_way: 0,
    sums: [0; 4],
};

pub(crate) const TWO_WAY: Entry = Entry {
    draw: 1,
    spoilt: 0,
    count: 1,
    rate: 0,
    off: 0,
    two_way: 15,
    sums: [0; 4],
};

// An entry with this sum on all four channels.
pub(crate) fn with_sum(entry: Entry, sum: i64) -> Entry {
    Entry {
        sums: [sum; 4],
        ..entry
    }
}

pub(crate) fn bill(energy: i128, billed: usize, spoilt: usize) -> Result<Bill, Refusal> {
    Ok(Bill {
        energy,
        billed,
        spoilt,
    })
}

// That a book with all places filled is billed so.
pub(crate) fn bills<M: Make>(
    rt: &impl Abort,
    entries: &mut [Entry],
    channel: u8,
    shunt: u16,
    expected: Result<Bill, Refusal>,
) {
    let filled = entries.len();
    let book = Book::new(entries, filled);
    same(rt, book.bill::<M>(channel, shunt), expected);
}
