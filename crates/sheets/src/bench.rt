//! A meter at a desk, and what it shows of a case.

use super::case::Case;
use anyhow::{Context, anyhow, bail};
use chip::entry::Entry;
use chip::make::Make;
use chip::refusal::Refusal;
use desk::desk::Desk;
use meter::reading::Reading;
use wire::direct::Direct;
use wire::scripted::Scripted;
use wire::wire::Wire;

// Where channel 1's power is read.
const POWER: u8 = 0x17;

// What the meter and the power register of channel 1 show.
#[derive(Clone, Copy)]
pub(crate) struct Shown {
    // in volts
    pub(crate) bus: f64,
    // in millivolts
    pub(crate) sense: f64,
    // in millijoules
    pub(crate) energy: f64,
    pub(crate) power: u32,
}

// A fresh chip through the cycles of a case.
pub(crate) fn measure<M: Make + Drop>(case: &Case) -> anyhow::Result<Shown> {
    let mut places = [Entry::EMPTY; 2];
    let mut desk = Desk::new(Scripted::new(Direct::<M>::new()), &mut places);
    let metered = run(&mut desk, case);
    let (mut wire, _book) = desk.end();
    let (Reading::Volts(bus), Reading::Millivolts(sense), energy) = metered.map_err(refused)? else {
        bail!("a look answers another quantity");
    };
    let energy = i32::try_from(energy)
        .ok()
        .context("a bill is too large here")?;
    let mut power = [0; 4];
    wire.read(POWER, &mut power).map_err(refused)?;
    Ok(Shown {
        bus,
        sense,
        energy: f64::from(energy),
        power: u32::from_be_bytes(power),
    })
}

pub(crate) fn refused(refusal: Refusal) -> anyhow::Error {
    anyhow!("refused: {refusal:?}")
}

// Its settings come in force with a first draw. Then its cycles come, both quantities are looked at, and a second draw is booked and billed.
fn run<W: Wire>(desk: &mut Desk<W>, case: &Case) -> Result<(Reading, Reading, i128), Refusal> {
    desk.set_up(case.rate.code, 0, case.sense.mask())?;
    desk.draw()?;
    desk.book()?;
    for _ in 0..case.cycles {
        desk.cycle(case.codes());
    }
    let bus = desk.look(1, 0)?;
    let sense = desk.look(1, 1)?;
    desk.draw()?;
    desk.book()?;
    let bill = desk.bill(1, case.shunt.0)?;
    Ok((bus, sense, bill.energy))
}
