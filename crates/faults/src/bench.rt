//! A meter whose wire fails as a script says, with the log of its run. A cycle comes before each step, and before each further try of it.

use super::counts::{BOOKINGS, Counts, DRAWS, LOOKS, OUTCOMES, RUNS};
use super::cycle::{Cycle, MOST_CYCLES};
use super::kind::{Kind, Known};
use super::log::Log;
use super::scenario::{Scenario, Step};
use super::script::{LENGTH, Script};
use super::settings::Settings;
use super::tally::{Closing, Tally};
use anyhow::{Context, anyhow, bail, ensure};
use book::bill::Bill;
use chip::entry::Entry;
use chip::refusal::{Refusal, Who};
use desk::desk::Desk;
use meter::reading::Reading;
use wire::direct::Direct;
use wire::scripted::Scripted;
use wire::wire::Wire;

// More entries than a run makes.
const PLACES: usize = 8;

// Each outcome of a script and of a doubt before it can refuse a call once.
const TRIES: usize = LENGTH + 2;

// Outcomes: a transaction passes, breaks before the chip, or is carried out and its reply is lost.
const PASS: u8 = 0;

const BREAKS: u8 = 2;

const LOST: u8 = 3;

// The quantity of a look.
const SENSE: u8 = 1;

const REFRESH_V: u8 = 0x1f;

// Where channel 1's sum is read.
const FIRST_SUM: u8 = 0x03;

struct Bench<'a, W> {
    desk: Desk<'a, W>,
    script: Script,
    log: Log,
    tally: Tally,
    counts: Counts,
    // the entries that its bookings answered
    answered: [Entry; PLACES],
}

// A run of a scenario on a fresh chip.
pub(crate) fn run<C: Known>(scenario: Scenario, script: Script) -> anyhow::Result<Counts> {
    let mut places = [Entry::EMPTY; PLACES];
    let mut bench = Bench {
        desk: Desk::new(Scripted::new(Direct::<C>::new()), &mut places),
        script,
        log: Log::new(C::KIND),
        tally: Tally::default(),
        counts: Counts::default(),
        answered: [Entry::EMPTY; PLACES],
    };
    let played = bench.play(scenario);
    let Bench {
        desk,
        script: _,
        log,
        tally,
        counts,
        answered,
    } = bench;
    let (mut wire, _book) = desk.end();
    // A run that ended early has outcomes left, which would fail the read below.
    let played = played?;
    let closing = Closing {
        running: running(&mut wire, C::KIND)?,
        ..played
    };
    let expected = tally.closing(&log);
    ensure!(closing == expected, "{closing:?} is to be {expected:?}");
    ensure!(
        places == answered,
        "the book has other entries than were answered"
    );
    ensure!(
        counts.all_struck(),
        "a failure refused no call, or more than one"
    );
    Ok(counts)
}

// What channel 1's sum register has, by the chip itself.
fn running<W: Wire>(wire: &mut W, kind: Kind) -> anyhow::Result<u64> {
    let mut sum = [0; 8];
    let register = sum.get_mut(kind.sum_start..).context("no such register")?;
    wire.send(REFRESH_V).map_err(refused)?;
    wire.read(FIRST_SUM, register).map_err(refused)?;
    Ok(u64::from_be_bytes(sum))
}

fn refused(refusal: Refusal) -> anyhow::Error {
    anyhow!("refused by {refusal:?}")
}

impl<W: Wire> Bench<'_, W> {
    // The scenario, then a last draw and booking. Cycles go on coming, so that some are left running.
    fn play(&mut self, scenario: Scenario) -> anyhow::Result<Closing> {
        self.counts.count(RUNS);
        for step in scenario.steps {
            self.take(*step)?;
        }
        self.take(Step::Draw)?;
        self.take(Step::Book)?;
        self.closing()
    }

    // A step until it is done.
    fn take(&mut self, step: Step) -> anyhow::Result<()> {
        for _ in 0..TRIES {
            if self.attempt(step)? {
                return Ok(());
            }
        }
        bail!("a call was refused {TRIES} times")
    }

    // One try of a step; whether it is done.
    fn attempt(&mut self, step: Step) -> anyhow::Result<bool> {
        self.cycle()?;
        match step {
            Step::Draw => return self.draw(),
            Step::Book => return self.book(),
            Step::Look(in_force) => return self.look(in_force),
            Step::TryDraw => {
                self.draw()?;
            }
            Step::Doubt { carried_out } => self.doubt(carried_out)?,
            Step::RefusedLook => self.refused_look()?,
            Step::Script => self.place_script()?,
            Step::SetUp(settings) => self.set_up(settings)?,
            Step::WriteOff => self.write_off()?,
        }
        Ok(true)
    }

    fn cycle(&mut self) -> anyhow::Result<()> {
        ensure!(self.log.cycles < MOST_CYCLES, "too many cycles");
        let cycle = Cycle(self.log.cycles);
        self.log.cycles += 1;
        self.desk.cycle(cycle.all_codes(self.log.kind));
        Ok(())
    }

    fn place_script(&mut self) -> anyhow::Result<()> {
        for outcome in self.script {
            self.place(outcome)?;
        }
        Ok(())
    }

    fn place(&mut self, outcome: u8) -> anyhow::Result<()> {
        self.counts.count(OUTCOMES + usize::from(outcome));
        self.desk.add(outcome).map_err(refused)
    }

    fn set_up(&mut self, settings: Settings) -> anyhow::Result<()> {
        self.log.wanted = settings;
        self.desk
            .set_up(settings.rate, settings.off, settings.two_way)
            .map_err(refused)
    }

    // What only the wire knows: whether the REFRESH was carried out.
    fn doubt(&mut self, carried_out: bool) -> anyhow::Result<()> {
        for _ in 0..self.log.kind.writes {
            self.place(PASS)?;
        }
        self.place(if carried_out { LOST } else { BREAKS })?;
        let drawn = self.draw()?;
        ensure!(!drawn, "a draw was done whose REFRESH broke");
        self.log.learn(carried_out);
        Ok(())
    }

    fn draw(&mut self) -> anyhow::Result<bool> {
        if self.log.slip_out {
            return Ok(true);
        }
        self.log.ask();
        let answer = self.desk.draw();
        let Some(number) = heard(answer, &mut self.counts, DRAWS)? else {
            return Ok(false);
        };
        let expected = self.log.hand_out();
        ensure!(number == expected, "draw {number} is to be {expected}");
        Ok(true)
    }

    fn book(&mut self) -> anyhow::Result<bool> {
        let answer = self.desk.book();
        let Some(entry) = heard(answer, &mut self.counts, BOOKINGS)? else {
            return Ok(false);
        };
        let place = self.answered.get_mut(self.tally.entries);
        *place.context("too many entries")? = entry;
        self.log.slip_out = false;
        self.tally.take(&self.log, entry)?;
        Ok(true)
    }

    fn write_off(&mut self) -> anyhow::Result<()> {
        self.log.write_off();
        self.desk.write_off().map_err(refused)
    }

    // A look at the sense of channel 3.
    fn look(&mut self, in_force: Settings) -> anyhow::Result<bool> {
        let answer = self.desk.look(3, SENSE);
        let Some(reading) = heard(answer, &mut self.counts, LOOKS)? else {
            return Ok(false);
        };
        let latest = Cycle(self.log.cycles.saturating_sub(1));
        let expected = latest.millivolts(self.log.kind, in_force);
        let agrees = matches!(reading, Reading::Millivolts(shown) if shown == expected);
        ensure!(agrees, "a look does not answer {expected} mV");
        Ok(true)
    }

    // By 4 if a slip is out, else by 5.
    fn refused_look(&mut self) -> anyhow::Result<()> {
        let expected = if self.log.slip_out {
            Refusal::SlipOut
        } else {
            Refusal::NotReady
        };
        let refusal = self.desk.look(3, SENSE).err();
        ensure!(
            refusal == Some(expected),
            "a look is to be refused by {expected:?}"
        );
        Ok(())
    }

    // What is running, the chip tells later.
    fn closing(&self) -> anyhow::Result<Closing> {
        Ok(Closing {
            last: self.desk.meter().last(),
            write_offs: self.desk.meter().write_offs(),
            running: 0,
            bills: [self.bill(1)?, self.bill(2)?, self.bill(3)?, self.bill(4)?],
        })
    }

    fn bill(&self, channel: u8) -> anyhow::Result<Bill> {
        self.desk.bill(channel, 1).map_err(refused)
    }
}

// What was answered, if the wire did not fail. Any other refusal ends the run.
fn heard<T: Drop>(
    answer: Result<T, Refusal>,
    counts: &mut Counts,
    [by_2, by_3]: [usize; 2],
) -> anyhow::Result<Option<T>> {
    match answer {
        Ok(value) => return Ok(Some(value)),
        Err(Refusal::NotAcknowledged(Who::Wire, _)) => counts.count(by_2),
        Err(Refusal::Broken(_)) => counts.count(by_3),
        Err(refusal) => bail!("refused by {refusal:?}"),
    }
    Ok(None)
}
