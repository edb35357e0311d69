//! What the console prints for a line.
ghost use Rattle.std.specs.Prelude.{◌≡◌, Err};

use arrayvec::ArrayVec;
use book::bill::Bill;
use chip::chip::LONGEST_READ;
use chip::entry::Entry;
use chip::refusal::Refusal;
use meter::condition::Condition;
use meter::reading::Reading;
use std::fmt;

// What a read brought.
pub(crate) type Bytes = ArrayVec<u8, LONGEST_READ>;

// How a meter stands.
#[derive(Clone, Copy)]
pub(crate) struct State {
    pub(crate) condition: Condition,
    // the draw number of the slip in hand
    pub(crate) slip: Option<u32>,
    pub(crate) mark: bool,
    pub(crate) last: u32,
    pub(crate) write_offs: u32,
}

// What a command that was taken answers.
#[derive(Drop)]
pub(crate) enum Answer {
    Nothing,
    Bytes(Bytes),
    Scratch([u8; 32]),
    Draw(u32),
    Entry(Entry),
    Bill(Bill),
    Reading(Reading),
    State(State),
    // nothing, and the wire goes to a meter or comes back from it
    Handover,
}

#[derive(Drop)]
pub(crate) struct Reply {
    pub(crate) word: &'static str,
    pub(crate) outcome: Result<Answer, Refusal>,
}

impl Reply {
    pub(crate) fn hands_over(&self) -> bool {
        matches!(self.outcome, Ok(Answer::Handover))
    }
}

// A line that names no command is refused under a word of the console's own.
impl From<Refusal> for Reply {
    ghost from_gives = { λ refusal reply. reply.outcome ≡ Err refusal };

    fn from(refusal: Refusal) -> Reply {
        Reply {
            word: "line",
            outcome: Err(refusal),
        }
    }
}

// 0 ready, 1 unfinished, 2 in doubt, 3 slip out.
fn number_of(condition: Condition) -> u8 {
    match condition {
        Condition::Ready => 0,
        Condition::Unfinished => 1,
        Condition::InDoubt => 2,
        Condition::SlipOut(_) => 3,
    }
}

// The condition, the slip's draw number or 0, the mark, the last draw number, the write-offs.
impl fmt::Display for State {
    fn fmt<W: fmt::Write>(&self, f: &mut fmt::Formatter<W>) -> fmt::Result {
        let condition = number_of(self.condition);
        let slip = self.slip.unwrap_or(0);
        let mark = u8::from(self.mark);
        let last = self.last;
        let write_offs = self.write_offs;
        write!(f, ",{condition},{slip},{mark},{last},{write_offs}")
    }
}

fn write_bytes<W: fmt::Write>(f: &mut fmt::Formatter<W>, bytes: &[u8]) -> fmt::Result {
    for byte in bytes {
        write!(f, ",{byte}")?;
    }
    Ok(())
}

fn write_entry<W: fmt::Write>(f: &mut fmt::Formatter<W>, entry: &Entry) -> fmt::Result {
    let Entry {
        draw,
        spoilt,
        count,
        rate,
        off,
        two_way,
        sums,
    } = *entry;
    write!(f, ",{draw},{spoilt},{count},{rate},{off},{two_way}")?;
    for sum in sums {
        write!(f, ",{sum}")?;
    }
    Ok(())
}

// Each field after a comma.
impl fmt::Display for Answer {
    fn fmt<W: fmt::Write>(&self, f: &mut fmt::Formatter<W>) -> fmt::Result {
        match self {
            Answer::Nothing | Answer::Handover => Ok(()),
            Answer::Bytes(bytes) => write_bytes(f, bytes.as_slice()),
            Answer::Scratch(bytes) => write_bytes(f, bytes),
            Answer::Draw(draw) => write!(f, ",{draw}"),
            Answer::Entry(entry) => write_entry(f, entry),
            Answer::Bill(bill) => {
                let Bill {
                    energy,
                    billed,
                    spoilt,
                } = *bill;
                write!(f, ",{energy},{billed},{spoilt}")
            }
            Answer::Reading(Reading::Volts(value)) => write!(f, ",{value}"),
            Answer::Reading(Reading::Millivolts(value)) => write!(f, ",{value}"),
            Answer::State(state) => write!(f, "{state}"),
        }
    }
}

// The word, 0 and the answer, or the refusal's number: after 2 and 3 the address and who refused, after 9 the place.
impl fmt::Display for Reply {
    fn fmt<W: fmt::Write>(&self, f: &mut fmt::Formatter<W>) -> fmt::Result {
        f.write_str(self.word)?;
        match &self.outcome {
            Ok(answer) => write!(f, ",0{answer}")?,
            Err(refusal) => {
                write!(f, ",{}", refusal.number())?;
                if let (Some(address), Some(who)) = (refusal.at_address(), refusal.refused_by()) {
                    write!(f, ",{address},{}", who.number())?;
                }
                if let Some(place) = refusal.at_place() {
                    write!(f, ",{place}")?;
                }
            }
        }
        Ok(())
    }
}
