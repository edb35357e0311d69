//! A meter over a scripted wire, with its book, a scratch, and the slip that is in hand. The struct stands alone in this file, since its ghost fields
//! import whatever the file imports.
ghost use Rattle.std.specs.Prelude.{◌≡◌, true};
ghost use Rattle.std.specs.Option.{ForSome};
ghost use Rattle.desk.specs.Hand.{fits_in_hand};
ghost use Rattle.meter.specs.Views.{IsUnspent};

use book::book::Book;
use meter::meter::Meter;
use meter::slip::Slip;
use wire::scripted::Scripted;

mod calls;
mod ends;
mod spending;

/// It ends by `release` or `end`, which leave no slip unspent.
pub struct Desk<'a, W> {
    meter: Meter<Scripted<W>>,
    book: Book<'a>,
    // for the replies to a booking's reads
    scratch: [u8; 32],
    // the slip of the last draw, until it is booked or written off
    slip: Option<Slip>,
    // a slip in hand is the meter's open one
    ghost fits: { fits_in_hand meter slip ≡ true },
    // and neither booked nor written off
    ghost unspent: { ForSome slip IsUnspent },
}
