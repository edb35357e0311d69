//! The account that follows from the cycles that came, and whether a book has it.

use super::cycle::Cycle;
use super::log::Log;
use super::settings::Settings;
use anyhow::{Context, ensure};
use book::bill::Bill;
use chip::entry::Entry;

// Cycles from one number on and below another.
#[derive(Clone, Copy)]
struct Stretch {
    from: u8,
    to: u8,
}

impl Stretch {
    // Those whose products are in a sum of channel 1: each of its bits is a cycle. Where a cycle between them is missing, their sum is another one.
    fn in_sum(sum: i64) -> Stretch {
        let bits = sum.cast_unsigned();
        // By `min` the prover knows that a count of bits fits a byte.
        let above = bits.leading_zeros().min(64);
        Stretch {
            from: bits.trailing_zeros().min(64) as u8,
            to: (64 - above) as u8,
        }
    }

    // What it added to a channel's sum.
    fn sum(self, log: &Log, settings: Settings, channel: usize) -> i64 {
        let mut sum: i64 = 0;
        for number in self.from..self.to {
            sum = sum.saturating_add(Cycle(number).product(log.kind, settings, channel));
        }
        sum
    }

    // Its entry under the number of the slip that is out.
    fn entry(self, log: &Log, settings: Settings) -> Entry {
        Entry {
            draw: log.slips,
            spoilt: 0,
            count: u32::from(self.to.saturating_sub(self.from)),
            rate: settings.rate,
            off: settings.off,
            two_way: settings.two_way,
            sums: [
                self.sum(log, settings, 0),
                self.sum(log, settings, 1),
                self.sum(log, settings, 2),
                self.sum(log, settings, 3),
            ],
        }
    }
}

// How a run ended.
#[derive(Clone, Copy, Debug, PartialEq, Eq)]
pub(crate) struct Closing {
    pub(crate) last: u32,
    pub(crate) write_offs: u32,
    // channel 1's running sum
    pub(crate) running: u64,
    // of each channel, over a tenth of a milliohm
    pub(crate) bills: [Bill; 4],
}

// The account up to an entry.
#[derive(Clone, Copy, Default)]
pub(crate) struct Tally {
    // its draw number
    draw: u32,
    // cycles below it are accounted for
    end: u8,
    pub(crate) entries: usize,
    // all sums, each by its weight
    weighed: [i64; 4],
}

impl Tally {
    // Takes the next entry in, which the slip that is out was booked as, if it is what follows from the log.
    pub(crate) fn take(&mut self, log: &Log, entry: Entry) -> anyhow::Result<()> {
        let stretch = Stretch::in_sum(entry.sums[0]);
        let settings = log
            .in_force(stretch.from)
            .context("no draw was asked for where a stretch begins")?;
        let expected = stretch.entry(log, settings);
        ensure!(entry == expected, "{entry:?} is to be {expected:?}");
        ensure!(
            self.leads_to(entry.draw, stretch),
            "an entry does not begin where the last one ends"
        );
        self.add(entry, stretch, settings);
        Ok(())
    }

    // A stretch begins where the last one ended. Only what was written off may lie between them, a cycle at least for each slip.
    fn leads_to(&self, draw: u32, stretch: Stretch) -> bool {
        let written_off = draw.saturating_sub(self.draw).saturating_sub(1);
        let between = u32::from(stretch.from.saturating_sub(self.end));
        stretch.from >= self.end && between >= written_off && (written_off > 0 || between == 0)
    }

    fn add(&mut self, entry: Entry, stretch: Stretch, settings: Settings) {
        self.draw = entry.draw;
        self.end = stretch.to;
        self.entries = self.entries.saturating_add(1);
        for channel in 0..4 {
            let worth = entry.sums[channel].saturating_mul(settings.weight(channel));
            self.weighed[channel] = self.weighed[channel].saturating_add(worth);
        }
    }

    // How the run is to end then. Cycles that have no entry are running: on channel 1, which is never off and has no negative sense, so any settings do.
    pub(crate) fn closing(&self, log: &Log) -> Closing {
        let running = Stretch {
            from: self.end,
            to: log.cycles,
        };
        Closing {
            last: log.slips,
            write_offs: log.write_offs,
            running: running.sum(log, Settings::FRESH, 0).cast_unsigned(),
            bills: self.weighed.map(|weighed| Bill {
                energy: log.kind.energy(weighed),
                billed: self.entries,
                spoilt: 0,
            }),
        }
    }
}
