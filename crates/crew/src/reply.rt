//! What is printed for a line.
ghost use Rattle.std.specs.Prelude.{◌<◌, ◌∷◌, OnOk};
ghost use Rattle.crew.specs.Prints.{Adds, bill_fields, entry_fields, fields_of, outcome_fields, printed_line, stretch_fields, sum_field, sum_fields};

use crate::word::Word;
use book::bill::Bill;
use chip::entry::Entry;
use chip::refusal::Refusal;
use itoa::{Buffer, Integer};
use std::alloc::AllocError;

/// What a line that was taken shows.
#[derive(Clone, Copy, Debug, PartialEq, Eq)]
pub enum Shown {
    Nothing,
    /// the draw number
    Draw(u32),
    /// the entry that was booked
    Entry(Entry),
    Bill(Bill),
}

/// The answer to one line.
#[derive(Clone, Copy, Debug, PartialEq, Eq)]
pub struct Reply {
    pub word: Word,
    pub outcome: Result<Shown, Refusal>,
}

impl Reply {
    /// A `kind` line that was taken.
    pub const KIND: Reply = Reply {
        word: Word::Kind,
        outcome: Ok(Shown::Nothing),
    };

    /// A line that cannot be read.
    pub const UNREADABLE: Reply = Reply {
        word: Word::Line,
        outcome: Err(Refusal::Unreadable),
    };

    /// Adds to a text what is printed for it, a whole line: the word, 0 and what is shown or the refusal's number, and the line's end. Only
    /// want of memory is an error; the text may then end in a part of the line.
    pub fn append_to(&self, text: &mut String) -> Result<(), AllocError>
        ensures { OnOk result (Adds (printed_line self.now) text.old text.new) }
    {
        text.push_str(self.word.text())?;
        append_outcome(text, &self.outcome)?;
        text.push('\n')
    }
}

// 0 and what is shown, or the refusal's number, each after a comma.
fn append_outcome(text: &mut String, outcome: &Result<Shown, Refusal>) -> Result<(), AllocError>
    ensures { OnOk result (Adds (outcome_fields outcome.now) text.old text.new) }
{
    match outcome {
        Ok(shown) => {
            text.push_str(",0")?;
            shown.append_to(text)
        }
        Err(refusal) => append_field(text, refusal.number()),
    }
}

impl Shown {
    // Each field after a comma.
    fn append_to(&self, text: &mut String) -> Result<(), AllocError>
        ensures { OnOk result (Adds (fields_of self.now) text.old text.new) }
    {
        match self {
            Shown::Nothing => Ok(()),
            Shown::Draw(draw) => append_field(text, *draw),
            Shown::Entry(entry) => append_entry(text, entry),
            Shown::Bill(bill) => append_bill(text, bill),
        }
    }
}

// A number after a comma.
fn append_field<I: Integer>(text: &mut String, number: I) -> Result<(), AllocError>
    ensures { OnOk result (Adds (44 ∷ I.text number) text.old text.new) }
{
    text.push(',')?;
    text.push_str(Buffer::new().format(number))
}

// An entry in its order, each field after a comma.
fn append_entry(text: &mut String, entry: &Entry) -> Result<(), AllocError>
    ensures { OnOk result (Adds (entry_fields entry.now) text.old text.new) }
{
    append_stretch(text, entry)?;
    append_sums(text, &entry.sums)
}

// What an entry says beside its sums.
fn append_stretch(text: &mut String, entry: &Entry) -> Result<(), AllocError>
    ensures { OnOk result (Adds (stretch_fields entry.now) text.old text.new) }
{
    append_field(text, entry.draw)?;
    append_field(text, entry.spoilt)?;
    append_field(text, entry.count)?;
    append_field(text, entry.rate)?;
    append_field(text, entry.off)?;
    append_field(text, entry.two_way)
}

// All four sums, channel 1's first.
fn append_sums(text: &mut String, sums: &[i64; 4]) -> Result<(), AllocError>
    ensures { OnOk result (Adds (sum_fields sums.now) text.old text.new) }
{
    append_sum(text, sums, 0)?;
    append_sum(text, sums, 1)?;
    append_sum(text, sums, 2)?;
    append_sum(text, sums, 3)
}

// A channel's sum, counted from 0.
fn append_sum(text: &mut String, sums: &[i64; 4], channel: usize) -> Result<(), AllocError>
    requires { channel < 4 }
    ensures { OnOk result (Adds (sum_field sums.now channel) text.old text.new) }
{
    append_field(text, sums[channel])
}

// A bill's three numbers.
fn append_bill(text: &mut String, bill: &Bill) -> Result<(), AllocError>
    ensures { OnOk result (Adds (bill_fields bill.now) text.old text.new) }
{
    append_field(text, bill.energy)?;
    append_field(text, bill.billed)?;
    append_field(text, bill.spoilt)
}
