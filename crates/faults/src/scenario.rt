//! What is played: steps of a run, with the script's outcomes from some step on. After them come a last draw and its booking.

use super::settings::Settings;

#[derive(Clone, Copy)]
pub(crate) enum Step {
    // the script's outcomes are placed
    Script,
    SetUp(Settings),
    // a draw whose REFRESH breaks, carried out or not
    Doubt { carried_out: bool },
    // one try of a draw
    TryDraw,
    // a draw until it is done, if its slip is not out already
    Draw,
    Book,
    // the slip that is out is given up, however it came
    WriteOff,
    // a look until it is done, and the settings that are in force
    Look(Settings),
    // a look after the first try of a draw, which the meter itself refuses
    RefusedLook,
}

#[derive(Clone, Copy)]
pub(crate) struct Scenario {
    pub(crate) name: &'static str,
    pub(crate) steps: &'static [Step],
}

pub(crate) const SCENARIOS: [Scenario; 8] = [
    Scenario {
        name: "two draws",
        steps: &[
            Step::Script,
            Step::SetUp(Settings::QUIET),
            Step::Draw,
            Step::Book,
            Step::Draw,
            Step::Book,
        ],
    },
    // Its mark is the other one.
    Scenario {
        name: "the second draw",
        steps: &[
            Step::Draw,
            Step::Book,
            Step::SetUp(Settings::SLOW),
            Step::Script,
            Step::Draw,
            Step::Book,
        ],
    },
    Scenario {
        name: "a booking",
        steps: &[
            Step::SetUp(Settings::QUIET),
            Step::Draw,
            Step::Script,
            Step::Book,
            Step::Draw,
            Step::Book,
        ],
    },
    // The second set-up is stored while the draw is unfinished or in doubt, or while its slip is out.
    Scenario {
        name: "a changed set-up",
        steps: &[
            Step::Script,
            Step::SetUp(Settings::QUIET),
            Step::TryDraw,
            Step::SetUp(Settings::SLOW),
            Step::Draw,
            Step::Book,
            Step::Draw,
            Step::Book,
        ],
    },
    // A draw that is tried again in doubt of its REFRESH, with another set-up wanted by then.
    Scenario {
        name: "after a broken REFRESH",
        steps: &[
            Step::SetUp(Settings::QUIET),
            Step::Doubt { carried_out: false },
            Step::SetUp(Settings::SLOW),
            Step::Script,
            Step::Draw,
            Step::Book,
            Step::Draw,
            Step::Book,
        ],
    },
    Scenario {
        name: "after a lost reply",
        steps: &[
            Step::SetUp(Settings::QUIET),
            Step::Doubt { carried_out: true },
            Step::SetUp(Settings::SLOW),
            Step::Script,
            Step::Draw,
            Step::Book,
            Step::Draw,
            Step::Book,
        ],
    },
    Scenario {
        name: "looks",
        steps: &[
            Step::Script,
            Step::SetUp(Settings::QUIET),
            Step::Look(Settings::FRESH),
            Step::TryDraw,
            Step::RefusedLook,
            Step::Draw,
            Step::RefusedLook,
            Step::Book,
            Step::Look(Settings::QUIET),
        ],
    },
    Scenario {
        name: "a write-off",
        steps: &[
            Step::Script,
            Step::SetUp(Settings::QUIET),
            Step::Draw,
            Step::WriteOff,
            Step::Draw,
            Step::Book,
        ],
    },
];
