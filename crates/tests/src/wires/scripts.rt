//! Scripts over scripts.
use crate::checks::same;
use crate::wires::outcomes::{Bench, shown};
use chip::refusal::{Refusal, Who};
use makes::pac193x::Pac193x;
use wire::direct::Direct;
use wire::scripted::Scripted;
use wire::wire::Wire;

// The upper outcome decides first; what it passes on meets the lower one.
#[test]
fn a_script_over_a_script(rt: HostRuntime) {
    let mut below: Bench = Scripted::new(Direct::new());
    for outcome in [2, 1, 0] {
        same(&rt, below.add(outcome), Ok(()));
    }
    let mut wire: Scripted<Bench> = Scripted::new(below);
    for outcome in [1, 0, 3, 3] {
        same(&rt, wire.add(outcome), Ok(()));
    }
    for (byte, answer) in [
        // refused above: the lower script is untouched
        (0x10, Err(Refusal::NotAcknowledged(Who::Wire, 0x1c))),
        // passed above, broken below
        (0x20, Err(Refusal::Broken(0x1c))),
        // dropped above, refused below: broken, and the chip saw nothing
        (0x30, Err(Refusal::Broken(0x1c))),
        // dropped above, passed below: broken, and the chip carried it out
        (0x40, Err(Refusal::Broken(0x1c))),
    ] {
        same(&rt, wire.write(0x1c, &[byte]), answer);
    }
    same(&rt, shown(&rt, &mut wire, 0x1c), 0x40);
}
