//! What a line asks of the meter.
ghost use Rattle.std.specs.Prelude.{◌≡◌};
ghost use Rattle.crew.specs.Asks.{asked, or_unreadable, request_of};
ghost use Rattle.lines.specs.Numbers.{items};

use crate::word::Word;
use chip::refusal::Refusal;
use chip::state::Codes;
use lines::line;
use lines::line::Line;

/// A field that is to be a byte stays as it was read: where it is none, the line is readable, and what it asks is refused.
#[derive(Clone, Copy)]
pub enum Request {
    /// a conversion cycle: bus and sense code of each channel
    Cycle([Codes; 4]),
    /// settings that the next draw is to put in force
    SetUp { rate: u16, off: u16, two_way: u16 },
    Draw,
    /// books the slip in hand
    Book,
    /// writes the slip in hand off
    WriteOff,
    /// bills the book: a channel, 1 on, over a shunt in tenths of a milliohm
    Bill { channel: u16, shunt: u16 },
    /// an outcome for a later transaction
    Fault(u16),
}

impl TryFrom<&Line<'_>> for Request {
    type Error = Refusal;

    ghost try_from_gives = { λ line request. request ≡ or_unreadable (request_of line.now.word.text.now (items line.now.fields)) };

    fn try_from(line: &Line) -> Result<Request, Refusal> {
        let word = Word::read(line.word.text).ok_or(Refusal::Unreadable)?;
        match (word, line.fields.as_slice()) {
            (Word::Cycle, [v1, s1, v2, s2, v3, s3, v4, s4]) => Ok(Request::Cycle([
                codes(*v1, *s1),
                codes(*v2, *s2),
                codes(*v3, *s3),
                codes(*v4, *s4),
            ])),
            (Word::SetUp, [rate, off, two_way]) => Ok(Request::SetUp {
                rate: *rate,
                off: *off,
                two_way: *two_way,
            }),
            (Word::Draw, []) => Ok(Request::Draw),
            (Word::Book, []) => Ok(Request::Book),
            (Word::WriteOff, []) => Ok(Request::WriteOff),
            (Word::Bill, [channel, shunt]) => Ok(Request::Bill {
                channel: *channel,
                shunt: *shunt,
            }),
            (Word::Fault, [outcome]) => Ok(Request::Fault(*outcome)),
            _ => Err(Refusal::Unreadable),
        }
    }
}

fn codes(bus: u16, sense: u16) -> Codes
    ensures { result ≡ record { bus = bus; sense = sense } }
{
    Codes { bus, sense }
}

impl Request {
    /// What a line asks, read from its bytes.
    pub fn read(line: &[u8]) -> Result<Request, Refusal>
        ensures { result ≡ or_unreadable (asked line.now) }
    {
        Request::try_from(&line::parse(line)?)
    }
}
