//! The end of the draw numbers.
use crate::checks::same;
use crate::meters::bench;
use chip::make::Make;
use chip::refusal::{Refusal, Who};
use makes::pac193x::Pac193x;
use makes::pac194x::Pac194x;
use meter::condition::Condition;
use std::process::Abort;

// A draw with all numbers used sends nothing: the outcome that waits meets the look after it.
fn no_number_left<M: Make + Drop>(rt: &impl Abort) {
    let mut meter = bench::meter::<M>(1, u32::MAX);
    bench::script(rt, &mut meter, &[1]);
    bench::undrawn(rt, &mut meter, Refusal::NumbersSpent);
    same(rt, meter.condition(), Condition::Ready);
    same(rt, meter.last(), u32::MAX);
    let unseen = Refusal::NotAcknowledged(Who::Wire, 0x1f);
    same(rt, meter.look(1, 0).err(), Some(unseen));
    let _ = meter.release();
}

// The last number is handed out once, though these outcomes leave its REFRESH in doubt. With its slip out, draws and looks are refused for
// that, but a look of a channel that there is not is outside its limits first.
fn one_number_left<M: Make + Drop>(rt: &impl Abort, outcomes: &[u8]) {
    let mut meter = bench::meter::<M>(1, u32::MAX - 1);
    bench::script(rt, &mut meter, outcomes);
    bench::undrawn(rt, &mut meter, Refusal::Broken(0x00));
    same(rt, meter.look(1, 0).err(), Some(Refusal::NotReady));
    let slip = bench::drawn(rt, &mut meter);
    same(rt, slip.draw(), u32::MAX);
    bench::undrawn(rt, &mut meter, Refusal::SlipOut);
    same(rt, meter.look(4, 1).err(), Some(Refusal::SlipOut));
    same(rt, meter.look(5, 1).err(), Some(Refusal::Limits));
    bench::spent(rt, meter.write_off(slip));
    bench::undrawn(rt, &mut meter, Refusal::NumbersSpent);
    let _ = meter.release();
}

#[test]
fn the_last_numbers_on_both_makes(rt: HostRuntime) {
    no_number_left::<Pac193x>(&rt);
    no_number_left::<Pac194x>(&rt);
    // carried out, and broken before the chip
    for outcome in [3, 2] {
        one_number_left::<Pac193x>(&rt, &[0, 0, 0, outcome]);
        one_number_left::<Pac194x>(&rt, &[0, 0, outcome]);
    }
}
