//! What the raw wire and a meter both take: cycles of the chip, and outcomes for the script.

use super::command::BenchCommand;
use chip::refusal::Refusal;
use chip::state::Codes;
use desk::desk::Desk;
use wire::scripted::Scripted;
use wire::wire::Wire;

pub(crate) trait Bench {
    fn pass_cycle(&mut self, codes: [Codes; 4]);

    fn add_outcome(&mut self, outcome: u8) -> Result<(), Refusal>;

    fn obey_bench(&mut self, command: BenchCommand) -> Result<(), Refusal> {
        match command {
            BenchCommand::Cycle(codes) => self.pass_cycle(codes),
            BenchCommand::Cycles(count, codes) => {
                for _ in 0..count {
                    self.pass_cycle(codes);
                }
            }
            BenchCommand::Fault(outcome) => self.add_outcome(u8::try_from(outcome)?)?,
        }
        Ok(())
    }
}

impl<W: Wire> Bench for Scripted<W> {
    fn pass_cycle(&mut self, codes: [Codes; 4]) {
        self.cycle(codes);
    }

    fn add_outcome(&mut self, outcome: u8) -> Result<(), Refusal> {
        self.add(outcome)
    }
}

impl<W: Wire> Bench for Desk<'_, W> {
    fn pass_cycle(&mut self, codes: [Codes; 4]) {
        self.cycle(codes);
    }

    fn add_outcome(&mut self, outcome: u8) -> Result<(), Refusal> {
        self.add(outcome)
    }
}
