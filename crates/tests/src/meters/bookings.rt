//! Bookings that are refused, and what each leaves; the scratch.
use crate::checks::same;
use crate::meters::bench;
use book::book::Book;
use chip::entry::Entry;
use chip::make::Make;
use chip::refusal::{Refusal, Who};
use makes::pac193x::Pac193x;
use makes::pac194x::Pac194x;
use meter::meter::Meter;
use meter::slip::Slip;
use std::process::Abort;
use wire::wire::Wire;

// What is wrong with a book or a scratch is told before what is wrong with the slip, and that before a full book.
fn limits_first<W: Wire>(rt: &impl Abort, meter: &mut Meter<W>, wrong: Slip) -> Slip {
    let mut places = [Entry::EMPTY; 1];
    let mut none = Book::new(&mut [], 0);
    let wrong = bench::unbooked(rt, meter, wrong, &mut none, 32, Refusal::Limits);
    let mut overfull = Book::new(&mut places, 2);
    let wrong = bench::unbooked(rt, meter, wrong, &mut overfull, 32, Refusal::Limits);
    let mut full = Book::new(&mut places, 1);
    let wrong = bench::unbooked(rt, meter, wrong, &mut full, 31, Refusal::Limits);
    bench::unbooked(rt, meter, wrong, &mut full, 32, Refusal::WrongSlip)
}

// None of them used up the outcome that waits: it meets the first read.
fn refusals_in_order<M: Make + Drop>(rt: &impl Abort, sum: i64) {
    let mut other = bench::meter::<M>(2, 0);
    let mut meter = bench::meter::<M>(1, 0);
    bench::cycle(&mut meter);
    let wrong = bench::drawn(rt, &mut other);
    let slip = bench::drawn(rt, &mut meter);
    bench::script(rt, &mut meter, &[1]);
    let wrong = limits_first(rt, &mut meter, wrong);
    bench::spent(rt, other.write_off(wrong));
    let mut places = [Entry::EMPTY; 1];
    let mut full = Book::new(&mut places, 1);
    let slip = bench::unbooked(rt, &mut meter, slip, &mut full, 32, Refusal::Full);
    let mut book = Book::new(&mut places, 0);
    let unread = Refusal::NotAcknowledged(Who::Wire, 0x02);
    let slip = bench::unbooked(rt, &mut meter, slip, &mut book, 32, unread);
    let entry = bench::spent(rt, meter.book(slip, &mut book, &mut [0; 32]));
    same(rt, entry, bench::entry_of(1, 0, 1, sum));
    same(rt, places[0], entry);
    let _ = other.release();
    let _ = meter.release();
}

#[test]
fn refusals_in_order_on_both_makes(rt: HostRuntime) {
    refusals_in_order::<Pac193x>(&rt, 50_000_000);
    refusals_in_order::<Pac194x>(&rt, 200_000_000);
}

// Replies, each laid at the start of a scratch over what was there.
fn laid(rt: &impl Abort, replies: &[&[u8]]) -> [u8; 40] {
    let mut scratch = [bench::FILL; 40];
    for reply in replies {
        assert!(rt; reply.len() <= 40);
        scratch[..reply.len()].copy_from_slice(reply);
    }
    scratch
}

// A second read that breaks, at the address where the settings start, leaves the first reply; a booking both. Bytes beyond stay.
fn what_is_laid<M: Make + Drop>(rt: &impl Abort, settings: u8, first: &[u8], second: &[u8]) {
    let mut meter = bench::meter::<M>(1, 0);
    same(rt, meter.set_up(3, 5, 2), Ok(()));
    let slip = bench::drawn(rt, &mut meter);
    bench::spent(rt, meter.write_off(slip));
    bench::cycle(&mut meter);
    let slip = bench::drawn(rt, &mut meter);
    let mut places = [Entry::EMPTY; 1];
    let mut book = Book::new(&mut places, 0);
    let mut scratch = [bench::FILL; 40];
    bench::script(rt, &mut meter, &[0, 2]);
    let answer = meter.book(slip, &mut book, &mut scratch);
    let slip = bench::unspent(rt, answer, Refusal::Broken(settings));
    same(rt, scratch, laid(rt, &[first]));
    let entry = bench::spent(rt, meter.book(slip, &mut book, &mut scratch));
    same(rt, scratch, laid(rt, &[first, second]));
    same(rt, [entry.rate, entry.off, entry.two_way], [3, 5, 2]);
    let _ = meter.release();
}

// Count 1, then sums 50,000,000 or 200,000,000, 0, 0, 0; rate code 3 with the mark, off mask 5, two-way mask 2, on the 194X no flags.
#[test]
fn what_is_laid_on_both_makes(rt: HostRuntime) {
    let mut first = [0; 32];
    first[..9].copy_from_slice(&[0, 0, 1, 0, 0, 0x02, 0xfa, 0xf0, 0x80]);
    what_is_laid::<Pac193x>(&rt, 0x24, &first[..27], &[0xc4, 0x50, 0x20]);
    first[..11].copy_from_slice(&[0, 0, 0, 1, 0, 0, 0, 0x0b, 0xeb, 0xc2, 0x00]);
    let second = [0x74, 0x50, 0x04, 0, 0, 0, 0, 0];
    what_is_laid::<Pac194x>(&rt, 0x23, &first, &second);
}
