//! Stretches whose sum just fits its register, and just leaves it.
use crate::books::cases;
use crate::checks::same;
use crate::meters::bench;
use book::book::Book;
use chip::entry::Entry;
use chip::make::Make;
use chip::state::Codes;
use makes::pac193x::Pac193x;
use makes::pac194x::Pac194x;
use meter::meter::Meter;
use std::process::Abort;
use wire::direct::Direct;

// A stretch of this many cycles of the largest codes on channel 1, and nothing on the others, booked.
fn booked<M: Make + Drop>(
    rt: &impl Abort,
    meter: &mut Meter<Direct<M>>,
    book: &mut Book<'_>,
    count: u32,
) -> Entry {
    let most = Codes {
        bus: 65535,
        sense: 65535,
    };
    let idle = Codes { bus: 0, sense: 0 };
    for _ in 0..count {
        meter.cycle([most, idle, idle, idle]);
    }
    let slip = bench::drawn(rt, meter);
    bench::spent(rt, meter.book(slip, book, &mut [0; 32]))
}

// The entry of a stretch that left a register is marked, and the bill passes over it; the next stretch is sound again.
fn a_spoilt_stretch<M: Make + Drop>(rt: &impl Abort, spoilt: Entry, sound: Entry, worth: i128) {
    let mut meter: Meter<Direct<M>> = Meter::new(Direct::new(), 1, 0);
    let mut places = [Entry::EMPTY; 2];
    let mut book = Book::new(&mut places, 0);
    same(rt, booked(rt, &mut meter, &mut book, spoilt.count), spoilt);
    same(rt, meter.bill(&book, 1, 100), cases::bill(0, 0, 1));
    same(rt, booked(rt, &mut meter, &mut book, sound.count), sound);
    same(rt, meter.bill(&book, 1, 100), cases::bill(worth, 1, 1));
    let _ = meter.release();
}

// Products of 268,402,689 against 2^48, and of 1,073,659,905 against 2^56: in one cycle more than fits, the register begins anew.
#[test]
fn a_spoilt_stretch_on_both_makes(rt: HostRuntime) {
    a_spoilt_stretch::<Pac193x>(
        &rt,
        bench::entry_of(1, 1, 1_048_705, 265_257_089),
        bench::entry_of(2, 0, 1_048_704, 281_474_973_565_056),
        327_679_996,
    );
    a_spoilt_stretch::<Pac194x>(
        &rt,
        bench::entry_of(1, 1, 67_113_985, 721_343_489),
        bench::entry_of(2, 0, 67_113_984, 72_057_593_685_611_520),
        5_898_239_971,
    );
}
