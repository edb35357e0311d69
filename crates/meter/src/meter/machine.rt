//! The meter's machine: every answer is settled by the condition and the call together.
ghost use Rattle.std.specs.Prelude.{◌≡◌};
ghost use Rattle.meter.specs.Settles.{settles, failed_refresh};

use super::Meter;
use crate::condition::Condition;
use chip::refusal::Refusal;

// What a call wants. A set-up and a bill want nothing of the condition.
#[derive(Clone, Copy)]
pub(crate) enum Call {
    Draw,
    // a booking or a write-off, with the draw number of its slip
    Spend(u32),
    Look,
}

// What the meter does then.
#[derive(Clone, Copy)]
pub(crate) enum Move {
    // writes the settings, and sends REFRESH
    Refresh,
    // reads the mark in force first
    AskMark,
    Spend,
    Look,
}

impl<W> Meter<W> {
    pub(crate) fn settle(&self, call: Call) -> Result<Move, Refusal>
        ensures { result ≡ settles self.now.condition call }
    {
        match (self.condition, call) {
            (Condition::Ready | Condition::Unfinished, Call::Draw) => Ok(Move::Refresh),
            (Condition::InDoubt, Call::Draw) => Ok(Move::AskMark),
            (Condition::SlipOut(out), Call::Spend(draw)) if draw == out => Ok(Move::Spend),
            (_, Call::Spend(_)) => Err(Refusal::WrongSlip),
            (Condition::Ready, Call::Look) => Ok(Move::Look),
            (Condition::SlipOut(_), Call::Draw | Call::Look) => Err(Refusal::SlipOut),
            (Condition::Unfinished | Condition::InDoubt, Call::Look) => Err(Refusal::NotReady),
        }
    }
}

impl Condition {
    // A REFRESH that broke may have been carried out; one that was refused was not.
    pub(crate) fn after_failed_refresh(refusal: Refusal) -> Condition
        ensures { result ≡ failed_refresh refusal }
    {
        match refusal {
            Refusal::Broken(_) => Condition::InDoubt,
            _ => Condition::Unfinished,
        }
    }
}
