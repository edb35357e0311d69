//! What a request does at a desk.
ghost use Rattle.std.specs.Prelude.{◌≡◌};
ghost use Rattle.crew.specs.Obeyed.{Obeyed};
ghost use Rattle.desk.specs.Standing.{standing};

use crate::reply::Shown;
use crate::request::Request;
use chip::refusal::Refusal;
use desk::desk::Desk;
use wire::wire::Wire;

// What is asked is done, or refused. A number above a byte is outside its limits. Apart, so that a line that asks nothing costs little.
#[inline(never)]
pub(super) fn obey<W: Wire>(desk: &mut Desk<W>, request: Request) -> Result<Shown, Refusal>
    ensures obeyed { Obeyed W.Make.Make.sheet W.Wire.chip W.Wire.goes W.Wire.passes request (standing desk.old) result (standing desk.new) }
    ensures same { desk.new.book.places.ghost_name ≡ desk.old.book.places.ghost_name }
{
    match request {
        Request::Cycle(codes) => {
            desk.cycle(codes);
            Ok(Shown::Nothing)
        }
        Request::SetUp { rate, off, two_way } => {
            desk.set_up(
                u8::try_from(rate)?,
                u8::try_from(off)?,
                u8::try_from(two_way)?,
            )?;
            Ok(Shown::Nothing)
        }
        Request::Draw => Ok(Shown::Draw(desk.draw()?)),
        Request::Book => Ok(Shown::Entry(desk.book()?)),
        Request::WriteOff => {
            desk.write_off()?;
            Ok(Shown::Nothing)
        }
        Request::Bill { channel, shunt } => {
            Ok(Shown::Bill(desk.bill(u8::try_from(channel)?, shunt)?))
        }
        Request::Fault(outcome) => {
            desk.add(u8::try_from(outcome)?)?;
            Ok(Shown::Nothing)
        }
    }
}
