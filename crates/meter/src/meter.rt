//! A meter. The struct stands alone in this file, since its ghost field imports whatever the file imports.
ghost use Rattle.std.specs.Prelude.{◌+◌, ◌≤◌};
ghost use Rattle.meter.specs.Outstanding.{outstanding};

use super::condition::Condition;
use chip::wanted::Wanted;

mod bookings;
mod draws;
mod looks;
mod machine;
mod settings;

/// A meter of a wire. It keeps what the next draw has to know, and never more than one slip out.
pub struct Meter<W> {
    wire: W,
    number: u32,
    // the last draw number used
    last: u32,
    wanted: Wanted,
    // the mark of the settings in force, as the meter knows it
    mark: bool,
    write_offs: u32,
    condition: Condition,
    // every write-off had a draw of its own, so their count fits
    ghost few: { write_offs + outstanding condition ≤ last },
    // as a 32-bit number is
    ghost numbers: { last ≤ 4294967295 },
}
