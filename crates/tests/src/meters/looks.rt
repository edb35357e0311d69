//! What looks show.
use crate::checks::same;
use crate::meters::bench;
use chip::make::Make;
use chip::state::Codes;
use makes::pac193x::Pac193x;
use makes::pac194x::Pac194x;
use meter::meter::Meter;
use meter::reading::Reading;
use std::process::Abort;
use wire::wire::Wire;

// Codes for channels 1 to 4.
const CODES: [Codes; 4] = [
    Codes {
        bus: 32768,
        sense: 65535,
    },
    Codes {
        bus: 16384,
        sense: 32768,
    },
    Codes {
        bus: 65535,
        sense: 20000,
    },
    Codes {
        bus: 0,
        sense: 40000,
    },
];

// A channel's bus voltage in volts, and its sense voltage in millivolts.
fn look<W: Wire>(rt: &impl Abort, meter: &mut Meter<W>, channel: u8) -> (f64, f64) {
    match (meter.look(channel, 0), meter.look(channel, 1)) {
        (Ok(Reading::Volts(volts)), Ok(Reading::Millivolts(millivolts))) => (volts, millivolts),
        _ => panic!(rt; "channel {channel} shows no voltages"),
    }
}

// What every channel shows, with channels 1 and 3 two-way.
fn what_looks_show<M: Make + Drop>(rt: &impl Abort, expected: [(u8, f64, f64); 4]) {
    let mut meter = bench::meter::<M>(1, 0);
    same(rt, meter.set_up(0, 0, 10), Ok(()));
    let slip = bench::drawn(rt, &mut meter);
    bench::spent(rt, meter.write_off(slip));
    meter.cycle(CODES);
    for (channel, volts, millivolts) in expected {
        same(rt, look(rt, &mut meter, channel), (volts, millivolts));
    }
    let _ = meter.release();
}

#[test]
fn what_looks_show_on_both_makes(rt: HostRuntime) {
    what_looks_show::<Pac193x>(
        &rt,
        [
            (1, 16.0, -0.0030517578125),
            (2, 8.0, 50.0),
            (3, 31.99951171875, 61.03515625),
            (4, 0.0, 61.03515625),
        ],
    );
    what_looks_show::<Pac194x>(
        &rt,
        [
            (1, 4.5, -0.0030517578125),
            (2, 2.25, 50.0),
            (3, 8.9998626708984375, 61.03515625),
            (4, 0.0, 61.03515625),
        ],
    );
}
