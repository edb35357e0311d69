//! A make of chip: what code has to know of it, each function tied to the make's data sheet in specs/.
ghost use Rattle.std.specs.Prelude.{◌≡◌, ◌%◌};
ghost use Rattle.chip.specs.Datasheet.{Datasheet, masks_of};
ghost use Rattle.chip.specs.Driver.{constants_of, spans_of, wanted_of, writes_of};
ghost use Rattle.chip.specs.Laws.{Lawful};

use super::driver::{SettingsWrites, Span};
use super::entry::Entry;
use super::state::{Codes, Constants, Held, Masks, Settings, State};
use super::wanted::Wanted;

/// One make, as code knows it.
pub trait Make {
    ghost sheet: { Datasheet };

    fn constants() -> Constants
        ensures { result ≡ constants_of sheet };

    /// The off and two-way masks that settings mean.
    fn masks(settings: Settings) -> Masks
        ensures { result ≡ masks_of sheet settings };

    /// What a channel, counted from 0, adds to its sum in one cycle.
    fn product(channel: usize, two_way: bool, codes: Codes) -> i64
        ensures { result ≡ sheet.product channel two_way codes };

    /// How many bytes an address has, 0 where it is not listed. No `Option`: who fills or compares would make a 0 of it again.
    fn width(address: u8) -> usize
        ensures { result ≡ sheet.width address };

    /// The number that an address shows, 0 where it is not listed. No `Option`: with no bytes there, nobody sees it.
    fn shows(state: &State, address: u8) -> u64
        ensures { result ≡ sheet.shows state.now address };

    /// What a write of a number leaves, at an address that takes one.
    fn keeps(address: u8, number: u64, held: Held) -> Option<Held>
        ensures { result ≡ sheet.keeps address number held };

    /// Whether a send takes it for a command.
    fn command(address: u8) -> bool
        ensures { result ≡ sheet.command address };

    /// Whether the make's settings can mean these.
    fn offers(wanted: Wanted) -> bool
        ensures { result ≡ sheet.offers (wanted_of wanted) };

    /// The writes that put settings and a mark in place, in their order.
    fn settings_writes(wanted: Wanted, mark: bool) -> SettingsWrites
        ensures { writes_of result ≡ sheet.settings_writes (wanted_of wanted) mark };

    /// The mark in the number read where it is in force.
    fn mark_in(number: u64) -> bool
        ensures { result ≡ sheet.mark_in number };

    /// The reads that bring an image, in their order.
    fn booking_reads() -> &'static [Span]
        ensures { spans_of result.now ≡ sheet.booking_reads };

    /// The entry in the replies to these reads, one after the other.
    fn entry_in(replies: &[u8], draw: u32) -> Entry
        ensures { result ≡ sheet.entry_in replies.now draw };

    /// Where a code is read: channel 1 on; 0 the bus code, 1 the sense code. An address is a byte, and so is each that is listed.
    fn code_at(channel: u8, quantity: u8) -> u8
        ensures { result ≡ sheet.code_at channel quantity % 256 };

    /// The two-way mask in the number read as the image's polarity.
    fn two_way_in(number: u64) -> u8
        ensures { result ≡ sheet.two_way_in number };

    ghost lawful: { Lawful sheet };
}
