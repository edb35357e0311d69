//! A script of outcomes, and how they are added and taken.
ghost use Rattle.std.specs.Prelude.{◌≤◌};

use super::outcome::Outcome;
use chip::refusal::Refusal;

/// 256 outcomes, at first all pass: those up to `added` were added, those up to `taken` are used up.
/// A plain table with two places in it, and no `ArrayVec` or model: `new` promises that all 256 pass, those not yet added too.
#[derive(Drop)]
pub struct Script {
    outcomes: [Outcome; 256],
    added: usize,
    taken: usize,
    ghost order: { taken ≤ added },
    ghost room: { added ≤ 256 },
}

impl Script {
    ghost use Rattle.std.specs.Prelude.{◌≡◌, [], replicate};
    ghost use Rattle.wire.specs.declared.outcome.Outcome.TheVariants.{Pass};
    ghost use Rattle.wire.specs.Scripts.{added_to, left, next, rest};

    pub fn new() -> Script
        ensures none_left { left result ≡ [] }
        ensures none_added { result.added ≡ 0 }
        ensures all_pass { result.outcomes ≡ replicate 256 Pass }
    {
        Script {
            outcomes: [Outcome::Pass; 256],
            added: 0,
            taken: 0,
        }
    }

    /// Adds the outcome of a number at the end: 0 to 3, and 256 in all. The number is unchecked, and a wrong one is refused first.
    pub fn add(&mut self, number: u8) -> Result<(), Refusal>
        ensures { added_to self.old number result self.new }
    {
        let outcome = Outcome::try_from(number)?;
        if self.added == self.outcomes.len() {
            return Err(Refusal::Full);
        }
        self.outcomes[self.added] = outcome;
        self.added += 1;
        Ok(())
    }

    /// The oldest outcome that is left, which is used up; with none left it is to pass.
    pub fn take(&mut self) -> Outcome
        ensures value { result ≡ next (left self.old) }
        ensures after { left self.new ≡ rest (left self.old) }
        ensures same { self.new.added ≡ self.old.added }
    {
        if self.taken == self.added {
            return Outcome::Pass;
        }
        let outcome = self.outcomes[self.taken];
        self.taken += 1;
        outcome
    }
}
