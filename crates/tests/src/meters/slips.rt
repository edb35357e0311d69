//! Slips offered to a meter that did not hand them out.
use crate::checks::same;
use crate::meters::bench;
use book::book::Book;
use chip::entry::Entry;
use chip::make::Make;
use chip::refusal::{Refusal, Who};
use makes::pac193x::Pac193x;
use makes::pac194x::Pac194x;
use meter::condition::Condition;
use meter::meter::Meter;
use meter::slip::Slip;
use std::process::Abort;
use wire::wire::Wire;

// What stands in a place that nothing was written to.
const NOTHING: Entry = Entry {
    draw: 0,
    spoilt: 0,
    count: 0,
    rate: 0,
    off: 0,
    two_way: 0,
    sums: [0; 4],
};

// A meter refuses a slip at both calls, gives it back, and stays as it was.
fn refused<W: Wire>(rt: &impl Abort, meter: &mut Meter<W>, slip: Slip) -> Slip {
    let mut places = [Entry::EMPTY; 1];
    let mut book = Book::new(&mut places, 0);
    let slip = bench::unbooked(rt, meter, slip, &mut book, 32, Refusal::WrongSlip);
    let slip = bench::unspent(rt, meter.write_off(slip), Refusal::WrongSlip);
    same(rt, meter.write_offs(), 0);
    same(rt, places[0], NOTHING);
    slip
}

// Two meters that differ in their number, or in the draw numbers they used: each takes its own slip alone.
fn crosswise<M: Make + Drop>(rt: &impl Abort, number: u32, last: u32, draw: u32) {
    let mut first = bench::meter::<M>(1, 0);
    let mut second = bench::meter::<M>(number, last);
    let slip = bench::drawn(rt, &mut first);
    let other = bench::drawn(rt, &mut second);
    same(rt, (slip.meter(), slip.draw()), (1, 1));
    same(rt, (other.meter(), other.draw()), (number, draw));
    let slip = refused(rt, &mut second, slip);
    let other = refused(rt, &mut first, other);
    bench::spent(rt, first.write_off(slip));
    bench::spent(rt, second.write_off(other));
    same(rt, (first.write_offs(), second.write_offs()), (1, 1));
    let _ = first.release();
    let _ = second.release();
}

// A meter without a slip out refuses every slip, ready, unfinished and in doubt, where these outcomes get it.
fn with_none_out<M: Make + Drop>(rt: &impl Abort, doubt: &[u8]) {
    let mut other = bench::meter::<M>(1, 0);
    let mut meter = bench::meter::<M>(1, 0);
    let slip = bench::drawn(rt, &mut other);
    let slip = refused(rt, &mut meter, slip);
    bench::script(rt, &mut meter, &[1]);
    bench::undrawn(rt, &mut meter, Refusal::NotAcknowledged(Who::Wire, 0x01));
    same(rt, meter.condition(), Condition::Unfinished);
    let slip = refused(rt, &mut meter, slip);
    bench::script(rt, &mut meter, doubt);
    bench::undrawn(rt, &mut meter, Refusal::Broken(0x00));
    same(rt, meter.condition(), Condition::InDoubt);
    let slip = refused(rt, &mut meter, slip);
    bench::spent(rt, other.write_off(slip));
    let _ = other.release();
    let _ = meter.release();
}

#[test]
fn wrong_slips_on_both_makes(rt: HostRuntime) {
    for (number, last, draw) in [(2, 0, 1), (1, 1, 2), (2, 7, 8)] {
        crosswise::<Pac193x>(&rt, number, last, draw);
        crosswise::<Pac194x>(&rt, number, last, draw);
    }
    with_none_out::<Pac193x>(&rt, &[0, 0, 0, 3]);
    with_none_out::<Pac194x>(&rt, &[0, 0, 3]);
}
