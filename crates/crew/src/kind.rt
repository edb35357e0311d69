//! The line that says which chip there is.
ghost use Rattle.std.specs.Prelude.{◌≡◌};
ghost use Rattle.chip.specs.Datasheet.{Datasheet};
ghost use Rattle.crew.specs.Asks.{kind_asked, kind_of, or_unreadable};
ghost use Rattle.crew.specs.Kinds.{sheet_of};
ghost use Rattle.crew.specs.Obeyed.{opened};
ghost use Rattle.lines.specs.Numbers.{items};

use crate::reply::Reply;
use crate::word::Word;
use chip::make::Make;
use chip::refusal::Refusal;
use lines::line;
use lines::line::Line;
use makes::pac193x::Pac193x;
use makes::pac194x::Pac194x;

/// The kinds of chip.
#[derive(Clone, Copy, Debug, PartialEq, Eq)]
pub enum Kind {
    Pac193x,
    Pac194x,
}

/// Work for a chip of any make. A line says which make it is to be, and `Kind::choose` does the work with that one.
pub trait ForMake {
    /// what comes of it
    type Done;

    // what is promised of that, by the make's data sheet
    ghost done: { Self → Datasheet → Self.Done → Type 0 };

    /// Does the work with this make.
    fn with<M: Make>(self) -> Self::Done
        ensures { done self M.Make.sheet result };
}

impl TryFrom<&Line<'_>> for Kind {
    type Error = Refusal;

    ghost try_from_gives = { λ line kind. kind ≡ or_unreadable (kind_of line.now.word.text.now (items line.now.fields)) };

    fn try_from(line: &Line) -> Result<Kind, Refusal> {
        match (Word::read(line.word.text), line.fields.as_slice()) {
            (Some(Word::Kind), [193]) => Ok(Kind::Pac193x),
            (Some(Word::Kind), [194]) => Ok(Kind::Pac194x),
            _ => Err(Refusal::Unreadable),
        }
    }
}

/// What a line comes to before there is a post: its reply, and the kind that it names. Nothing else can be read yet.
pub fn opening(line: &[u8]) -> (Reply, Option<Kind>)
    ensures { result ≡ opened (kind_asked line.now) }
{
    match Kind::read(line) {
        Ok(kind) => (Reply::KIND, Some(kind)),
        Err(_) => (Reply::UNREADABLE, None),
    }
}

impl Kind {
    /// Does some work with the make of this kind.
    pub fn choose<W: ForMake>(self, work: W) -> W::Done
        ensures { W.ForMake.done work (sheet_of self) result }
    {
        match self {
            Kind::Pac193x => work.with::<Pac193x>(),
            Kind::Pac194x => work.with::<Pac194x>(),
        }
    }

    // The kind that a line names, read from its bytes.
    fn read(line: &[u8]) -> Result<Kind, Refusal>
        ensures { result ≡ or_unreadable (kind_asked line.now) }
    {
        Kind::try_from(&line::parse(line)?)
    }
}
