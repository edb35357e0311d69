//! Meters on the bench, and calls whose answer is settled beforehand.
use crate::checks::same;
use book::book::Book;
use chip::entry::Entry;
use chip::make::Make;
use chip::refusal::Refusal;
use chip::state::Codes;
use meter::meter::Meter;
use meter::slip::{Slip, Unspent};
use std::process::Abort;
use wire::direct::Direct;
use wire::scripted::Scripted;
use wire::wire::Wire;

// The byte that a scratch is filled with beforehand.
pub(crate) const FILL: u8 = 0xa5;

pub(crate) type Scripting<M> = Meter<Scripted<Direct<M>>>;

pub(crate) fn meter<M: Make>(number: u32, last: u32) -> Scripting<M> {
    Meter::new(Scripted::new(Direct::new()), number, last)
}

// The first cycle of the makers' figures: v 40000, s 20000 on channel 1, and nothing on the others.
pub(crate) fn cycle<W: Wire>(meter: &mut Meter<W>) {
    let busy = Codes {
        bus: 40000,
        sense: 20000,
    };
    let idle = Codes { bus: 0, sense: 0 };
    meter.cycle([busy, idle, idle, idle]);
}

// Adds outcomes to the script of a meter's wire.
pub(crate) fn script<M: Make>(rt: &impl Abort, meter: &mut Scripting<M>, outcomes: &[u8]) {
    for outcome in outcomes {
        same(rt, meter.add(*outcome), Ok(()));
    }
}

// The slip of a draw that is done.
pub(crate) fn drawn<W: Wire>(rt: &impl Abort, meter: &mut Meter<W>) -> Slip {
    match meter.draw() {
        Ok(slip) => slip,
        Err(refusal) => panic!(rt; "a draw is refused: {refusal:?}"),
    }
}

// A draw that is refused by this refusal.
pub(crate) fn undrawn<W: Wire>(rt: &impl Abort, meter: &mut Meter<W>, expected: Refusal) {
    match meter.draw() {
        Ok(slip) => panic!(rt; "slip {} is handed out", slip.draw()),
        Err(refusal) => same(rt, refusal, expected),
    }
}

// What a call that spends its slip answers.
pub(crate) fn spent<T: Drop>(rt: &impl Abort, answer: Result<T, Unspent>) -> T {
    match answer {
        Ok(value) => value,
        Err(unspent) => panic!(rt; "a slip is given back: {:?}", unspent.refusal),
    }
}

// The slip that a call gives back with this refusal.
pub(crate) fn unspent<T: Drop>(
    rt: &impl Abort,
    answer: Result<T, Unspent>,
    expected: Refusal,
) -> Slip {
    match answer {
        Ok(_) => panic!(rt; "a slip is spent"),
        Err(Unspent { slip, refusal }) => {
            same(rt, refusal, expected);
            slip
        }
    }
}

// A booking that is refused before it reads, and leaves the scratch, the slip and the meter.
pub(crate) fn unbooked<W: Wire>(
    rt: &impl Abort,
    meter: &mut Meter<W>,
    slip: Slip,
    book: &mut Book<'_>,
    length: usize,
    expected: Refusal,
) -> Slip {
    let mut scratch = [FILL; 32];
    assert!(rt; length <= 32);
    let numbers = (slip.meter(), slip.draw());
    let condition = meter.condition();
    let answer = meter.book(slip, book, &mut scratch[..length]);
    let slip = unspent(rt, answer, expected);
    same(rt, (slip.meter(), slip.draw()), numbers);
    same(rt, meter.condition(), condition);
    same(rt, scratch, [FILL; 32]);
    slip
}

// What a stretch on channel 1 comes to, under the settings of a fresh chip.
pub(crate) fn entry_of(draw: u32, spoilt: u8, count: u32, sum: i64) -> Entry {
    Entry {
        draw,
        spoilt,
        count,
        sums: [sum, 0, 0, 0],
        ..Entry::EMPTY
    }
}
