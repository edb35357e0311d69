//! What a scripted wire does with one transaction.
ghost use Rattle.std.specs.Prelude.{◌≡◌, ok_or};
ghost use Rattle.chip.specs.declared.refusal.Refusal.TheVariants.{Limits};
ghost use Rattle.wire.specs.Scripts.{outcome_of};

use chip::refusal::Refusal;

#[derive(Clone, Copy, Debug, PartialEq, Eq)]
pub enum Outcome {
    /// 0: passed on
    Pass,
    /// 1: not acknowledged, and not passed on
    Refuse,
    /// 2: broken before the wire below
    Break,
    /// 3: passed on, and broken: the reply is dropped
    DropReply,
}

impl TryFrom<u8> for Outcome {
    type Error = Refusal;

    ghost try_from_gives = { λ number r. r ≡ ok_or (outcome_of number) Limits };

    fn try_from(number: u8) -> Result<Outcome, Refusal> {
        match number {
            0 => Ok(Outcome::Pass),
            1 => Ok(Outcome::Refuse),
            2 => Ok(Outcome::Break),
            3 => Ok(Outcome::DropReply),
            _ => Err(Refusal::Limits),
        }
    }
}
