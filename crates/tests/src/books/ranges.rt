//! Entries beyond the ranges of their make, and those just within.
use crate::books::cases::{ONE_WAY, TWO_WAY, bill, with_sum};
use crate::checks::same;
use book::book::Book;
use chip::entry::Entry;
use chip::make::Make;
use chip::refusal::Refusal;
use makes::pac193x::Pac193x;
use makes::pac194x::Pac194x;
use std::process::Abort;

// A bad entry is named by its place, the first of two; in a place that is not filled nobody looks at it.
fn refuses<M: Make>(rt: &impl Abort, bad: Entry) {
    let mut places = [ONE_WAY, ONE_WAY, bad, bad];
    for (filled, answer) in [
        (2, bill(0, 2, 0)),
        (3, Err(Refusal::BadEntry(2))),
        (4, Err(Refusal::BadEntry(2))),
    ] {
        let book = Book::new(&mut places, filled);
        same(rt, book.bill::<M>(4, 100), answer);
    }
}

// Sound or spoilt, it is refused.
fn refuses_both<M: Make>(rt: &impl Abort, bad: Entry) {
    refuses::<M>(rt, bad);
    refuses::<M>(rt, Entry { spoilt: 1, ..bad });
}

// Sound or spoilt, it is taken; the bill goes over a channel with sum 0.
fn takes<M: Make>(rt: &impl Abort, good: Entry) {
    let spoilt = Entry { spoilt: 1, ..good };
    let mut places = [good, spoilt];
    let book = Book::new(&mut places, 2);
    same(rt, book.bill::<M>(4, 100), bill(0, 1, 1));
}

// The same sum on channels 1 to 3 in turn, and 0 elsewhere.
fn in_turn(entry: Entry, sum: i64) -> [Entry; 3] {
    [
        Entry {
            sums: [sum, 0, 0, 0],
            ..entry
        },
        Entry {
            sums: [0, sum, 0, 0],
            ..entry
        },
        Entry {
            sums: [0, 0, sum, 0],
            ..entry
        },
    ]
}

// Sums beyond a register on all channels and on each, and sums at its edges.
fn sums<M: Make>(rt: &impl Abort, beyond: [(Entry, i64); 8], within: [(Entry, i64); 4]) {
    for (entry, sum) in beyond {
        refuses_both::<M>(rt, with_sum(entry, sum));
        for bad in in_turn(entry, sum) {
            refuses_both::<M>(rt, bad);
        }
    }
    for (entry, sum) in within {
        for good in in_turn(entry, sum) {
            takes::<M>(rt, good);
        }
    }
}

#[test]
fn sums_of_a_193x(rt: HostRuntime) {
    sums::<Pac193x>(
        &rt,
        [
            (ONE_WAY, -1),
            (ONE_WAY, 0x1_0000_0000_0000),
            (ONE_WAY, i64::MAX),
            (ONE_WAY, i64::MIN),
            (TWO_WAY, 0x8000_0000_0000),
            (TWO_WAY, -0x8000_0000_0001),
            (TWO_WAY, i64::MAX),
            (TWO_WAY, i64::MIN),
        ],
        [
            (ONE_WAY, 0),
            (ONE_WAY, 0xffff_ffff_ffff),
            (TWO_WAY, 0x7fff_ffff_ffff),
            (TWO_WAY, -0x8000_0000_0000),
        ],
    );
}

#[test]
fn sums_of_a_194x(rt: HostRuntime) {
    sums::<Pac194x>(
        &rt,
        [
            (ONE_WAY, -1),
            (ONE_WAY, 0x100_0000_0000_0000),
            (ONE_WAY, i64::MAX),
            (ONE_WAY, i64::MIN),
            (TWO_WAY, 0x80_0000_0000_0000),
            (TWO_WAY, -0x80_0000_0000_0001),
            (TWO_WAY, i64::MAX),
            (TWO_WAY, i64::MIN),
        ],
        [
            (ONE_WAY, 0),
            (ONE_WAY, 0xff_ffff_ffff_ffff),
            (TWO_WAY, 0x7f_ffff_ffff_ffff),
            (TWO_WAY, -0x80_0000_0000_0000),
        ],
    );
}

// A sum's range goes by the entry's own two-way mask, on a channel that is off too.
#[test]
fn each_by_its_own_mask(rt: HostRuntime) {
    for (channel, mask) in [(0, 8), (1, 4), (2, 2)] {
        let [first, second, third] = in_turn(ONE_WAY, -1);
        let below = [first, second, third][channel];
        for off in [0, 15] {
            let two_way = Entry {
                off,
                two_way: mask,
                ..below
            };
            takes::<Pac193x>(&rt, two_way);
            let others = Entry {
                off,
                two_way: 15 - mask,
                ..below
            };
            refuses_both::<Pac193x>(&rt, others);
        }
    }
}

fn settings<M: Make>(rt: &impl Abort) {
    for bad in [
        Entry { rate: 4, ..ONE_WAY },
        Entry {
            rate: 255,
            ..ONE_WAY
        },
        Entry { off: 16, ..ONE_WAY },
        Entry {
            two_way: 16,
            ..ONE_WAY
        },
        Entry {
            two_way: 255,
            ..ONE_WAY
        },
    ] {
        refuses_both::<M>(rt, bad);
    }
    for spoilt in [2, 255] {
        refuses::<M>(rt, Entry { spoilt, ..ONE_WAY });
    }
    // the draw number has no range
    for draw in [0, u32::MAX] {
        takes::<M>(
            rt,
            Entry {
                draw,
                rate: 3,
                off: 15,
                ..TWO_WAY
            },
        );
    }
}

#[test]
fn settings_of_both_makes(rt: HostRuntime) {
    settings::<Pac193x>(&rt);
    settings::<Pac194x>(&rt);
}

// A count has 24 bits on the 193X, and all 32 on the 194X.
#[test]
fn counts(rt: HostRuntime) {
    for count in [0, 0xff_ffff] {
        takes::<Pac193x>(&rt, Entry { count, ..ONE_WAY });
    }
    for count in [0x100_0000, u32::MAX] {
        let long = Entry { count, ..ONE_WAY };
        refuses_both::<Pac193x>(&rt, long);
        takes::<Pac194x>(&rt, long);
    }
}
