//! Every outcome on reads, writes and sends, for requests that the chip takes and for those that it refuses.
use crate::checks::same;
use chip::refusal::{Refusal, Who};
use makes::pac193x::Pac193x;
use std::process::Abort;
use wire::direct::Direct;
use wire::outcome::Outcome;
use wire::scripted::Scripted;
use wire::wire::Wire;

pub(crate) type Bench = Scripted<Direct<Pac193x>>;

const OUTCOMES: [(u8, Outcome); 4] = [
    (0, Outcome::Pass),
    (1, Outcome::Refuse),
    (2, Outcome::Break),
    (3, Outcome::DropReply),
];

// A bench whose next transaction meets the outcome of this number.
fn bench(rt: &impl Abort, number: u8) -> Bench {
    let mut wire: Bench = Scripted::new(Direct::new());
    same(rt, wire.add(number), Ok(()));
    wire
}

// What an outcome makes of a request at an address, by whether the chip takes it.
fn expected(outcome: Outcome, address: u8, taken: bool) -> Result<(), Refusal> {
    match outcome {
        Outcome::Pass if taken => Ok(()),
        Outcome::Pass => Err(Refusal::NotAcknowledged(Who::Chip, address)),
        Outcome::Refuse => Err(Refusal::NotAcknowledged(Who::Wire, address)),
        Outcome::Break | Outcome::DropReply => Err(Refusal::Broken(address)),
    }
}

// The byte that a register shows first.
pub(crate) fn shown(rt: &impl Abort, wire: &mut impl Wire, address: u8) -> u8 {
    let mut bytes = [0];
    same(rt, wire.read(address, &mut bytes), Ok(()));
    bytes[0]
}

#[test]
fn reads(rt: HostRuntime) {
    for (number, outcome) in OUTCOMES {
        for address in [0x21, 0x1b, 0x00] {
            let mut wire = bench(&rt, number);
            let mut bytes = [0xaa; 2];
            let answer = wire.read(address, &mut bytes);
            same(&rt, answer, expected(outcome, address, address == 0x21));
            same(&rt, bytes[0], if answer.is_ok() { 0x00 } else { 0xaa });
        }
    }
}

// A write, a send that puts its byte in force, and a send that the chip refuses.
#[test]
fn writes_and_sends(rt: HostRuntime) {
    for (number, outcome) in OUTCOMES {
        let mut wire = bench(&rt, number);
        let answer = wire.write(0x1c, &[0x50]);
        same(&rt, answer, expected(outcome, 0x1c, true));
        same(&rt, wire.add(number), Ok(()));
        same(&rt, wire.send(0x00), expected(outcome, 0x00, true));
        let carried = matches!(outcome, Outcome::Pass | Outcome::DropReply);
        let seen = shown(&rt, &mut wire, 0x22);
        same(&rt, seen, if carried { 0x50 } else { 0x00 });
        same(&rt, wire.add(number), Ok(()));
        same(&rt, wire.send(0x1e), expected(outcome, 0x1e, false));
    }
}
