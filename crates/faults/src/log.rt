//! What came and what was asked for. It knows nothing of the transactions of a call.

use super::cycle::MOST_CYCLES;
use super::kind::Kind;
use super::settings::Settings;

// As many numbers of cycles as there can be, none among them.
const COUNTS: usize = MOST_CYCLES as usize + 1;

#[derive(Clone, Copy)]
pub(crate) struct Log {
    pub(crate) kind: Kind,
    pub(crate) cycles: u8,
    pub(crate) wanted: Settings,
    // whether it is known that a stretch is closed whose slip is not handed out yet
    closed: bool,
    // how many slips were handed out
    pub(crate) slips: u32,
    // whether the last one is neither booked nor written off
    pub(crate) slip_out: bool,
    pub(crate) write_offs: u32,
    // what a draw after so many cycles was to put in force
    asked: [Option<Settings>; COUNTS],
}

impl Log {
    pub(crate) fn new(kind: Kind) -> Log {
        Log {
            kind,
            cycles: 0,
            wanted: Settings::FRESH,
            closed: false,
            slips: 0,
            slip_out: false,
            write_offs: 0,
            asked: [None; COUNTS],
        }
    }

    // A draw is asked for. It closes no stretch if one is closed already.
    pub(crate) fn ask(&mut self) {
        if !self.closed {
            self.set_asked(Some(self.wanted));
        }
    }

    // It becomes known of the last draw that was asked for whether its REFRESH was carried out.
    pub(crate) fn learn(&mut self, carried_out: bool) {
        self.closed = carried_out;
        if !carried_out {
            self.set_asked(None);
        }
    }

    fn set_asked(&mut self, settings: Option<Settings>) {
        if let Some(asked) = self.asked.get_mut(usize::from(self.cycles)) {
            *asked = settings;
        }
    }

    // A slip is handed out, under the draw number that is answered.
    pub(crate) fn hand_out(&mut self) -> u32 {
        self.closed = false;
        self.slip_out = true;
        self.slips = self.slips.saturating_add(1);
        self.slips
    }

    // The slip that is out is written off.
    pub(crate) fn write_off(&mut self) {
        self.slip_out = false;
        self.write_offs = self.write_offs.saturating_add(1);
    }

    // What was in force from a cycle on, if a draw was asked for just before it. A fresh chip has its settings from the first one on.
    pub(crate) fn in_force(&self, from: u8) -> Option<Settings> {
        if from == 0 {
            return Some(Settings::FRESH);
        }
        self.asked.get(usize::from(from)).copied().flatten()
    }
}
