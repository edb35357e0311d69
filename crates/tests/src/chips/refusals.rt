//! What the refusals of the tests tell: a number, an address and who refused.
use crate::checks::same;
use chip::refusal::{Refusal, Who};

#[test]
fn what_a_refusal_tells(rt: HostRuntime) {
    for (refusal, number, address, who) in [
        (Refusal::Limits, 1, None, None),
        (
            Refusal::NotAcknowledged(Who::Wire, 0x1c),
            2,
            Some(0x1c),
            Some(1),
        ),
        (
            Refusal::NotAcknowledged(Who::Chip, 0x1b),
            2,
            Some(0x1b),
            Some(2),
        ),
        (Refusal::Broken(0x1f), 3, Some(0x1f), Some(1)),
        (Refusal::Full, 8, None, None),
    ] {
        same(&rt, refusal.number(), number);
        same(&rt, refusal.at_address(), address);
        same(&rt, refusal.refused_by().map(Who::number), who);
    }
}
