//! What books are worth.
use crate::books::cases::{ONE_WAY, TWO_WAY, bill, bills, with_sum};
use book::book::MOST_PLACES;
use chip::entry::Entry;
use chip::make::Make;
use makes::pac193x::Pac193x;
use makes::pac194x::Pac194x;
use std::process::Abort;

// The masks and sums of each channel count for that channel alone, an off channel's too.
#[test]
fn each_channel(rt: HostRuntime) {
    let mut entries = [
        Entry {
            off: 8,
            sums: [1_000_000_000, 2_000_000_000, 3, 4],
            ..ONE_WAY
        },
        Entry {
            rate: 1,
            two_way: 8,
            sums: [-1_000_000_000, 500_000_000, 7, 0],
            ..ONE_WAY
        },
        Entry {
            rate: 2,
            two_way: 4,
            sums: [123_456_789, -987_654_321, 0, 1],
            ..ONE_WAY
        },
        Entry {
            rate: 3,
            two_way: 1,
            sums: [5, 6, 7, -8],
            ..ONE_WAY
        },
    ];
    for (channel, on_193x, on_194x) in [
        (1, -58_496, -4_113),
        (2, -321_364, -22_596),
        (3, 0, 0),
        (4, -1, -1),
    ] {
        bills::<Pac193x>(&rt, &mut entries, channel, 10, bill(on_193x, 4, 0));
        bills::<Pac194x>(&rt, &mut entries, channel, 10, bill(on_194x, 4, 0));
    }
}

// The example of docs/BOOK.md.
#[test]
fn the_worked_example(rt: HostRuntime) {
    let mut entries = [
        with_sum(ONE_WAY, 50_000_000),
        Entry {
            rate: 3,
            ..with_sum(TWO_WAY, -1_000)
        },
        Entry {
            spoilt: 1,
            ..with_sum(ONE_WAY, 70_000_000)
        },
    ];
    bills::<Pac193x>(&rt, &mut entries, 1, 100, bill(57, 2, 1));
}

// A book of as many entries as there may be, all alike, over the smallest shunt and the largest.
fn full_of<M: Make>(rt: &impl Abort, entry: Entry, sum: i64, least: i128, most: i128) {
    let entry = Entry {
        rate: 3,
        ..with_sum(entry, sum)
    };
    let mut places = [entry; MOST_PLACES];
    bills::<M>(rt, &mut places, 1, 1, bill(least, MOST_PLACES, 0));
    bills::<M>(rt, &mut places, 4, 1000, bill(most, MOST_PLACES, 0));
}

#[test]
fn the_largest_books_of_a_193x(rt: HostRuntime) {
    for (entry, sum, least, most) in [
        (
            ONE_WAY,
            0xffff_ffff_ffff,
            17_179_869_183_999_938,
            17_179_869_183_999,
        ),
        (
            TWO_WAY,
            0x7fff_ffff_ffff,
            17_179_869_183_999_877,
            17_179_869_183_999,
        ),
        (
            TWO_WAY,
            -0x8000_0000_0000,
            -17_179_869_184_000_000,
            -17_179_869_184_000,
        ),
    ] {
        full_of::<Pac193x>(&rt, entry, sum, least, most);
    }
}

#[test]
fn the_largest_books_of_a_194x(rt: HostRuntime) {
    for (entry, sum, least, most) in [
        (
            ONE_WAY,
            0xff_ffff_ffff_ffff,
            309_237_645_311_999_995,
            309_237_645_311_999,
        ),
        (
            TWO_WAY,
            0x7f_ffff_ffff_ffff,
            309_237_645_311_999_991,
            309_237_645_311_999,
        ),
        (
            TWO_WAY,
            -0x80_0000_0000_0000,
            -309_237_645_312_000_000,
            -309_237_645_312_000,
        ),
    ] {
        full_of::<Pac194x>(&rt, entry, sum, least, most);
    }
}
