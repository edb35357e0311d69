//! Scripts of outcomes.

// How many outcomes a script has.
pub(crate) const LENGTH: usize = 8;

pub(crate) type Script = [u8; LENGTH];

// How many scripts there are: 4 for each outcome.
pub(crate) const COUNT: u32 = 1 << (2 * LENGTH);

// One of them by its number, which has the first outcome in its lowest digit in base 4.
pub(crate) fn numbered(number: u32) -> Script {
    let mut rest = number;
    let mut script = [0; LENGTH];
    for outcome in &mut script {
        *outcome = (rest % 4) as u8;
        rest /= 4;
    }
    script
}
