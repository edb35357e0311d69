//! A sum that runs over where its flag has a register apart from the settings.
use crate::checks::same;
use chip::chip::Chip;
use chip::state::Codes;
use makes::pac194x::Pac194x;

// Products of 1,073,659,905 pass 2^56 in cycle 67,113,985.
#[test]
fn a_long_sum_runs_over(rt: HostRuntime) {
    let most = Codes {
        bus: 65535,
        sense: 65535,
    };
    let mut chip: Chip<Pac194x> = Chip::new();
    for (cycles, flags) in [(67_113_984, 0x00), (1, 0x08)] {
        for _ in 0..cycles {
            chip.cycle([most; 4]);
        }
        same(&rt, chip.send(0x1f), Ok(()));
        let mut shown = [0; 3];
        same(&rt, chip.read(0x26, &mut shown), Ok(()));
        same(&rt, shown, [0, 0, flags]);
    }
}
