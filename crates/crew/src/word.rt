//! The word at the head of a line and of its reply.
ghost use Rattle.std.specs.Prelude.{◌≡◌};
ghost use Rattle.crew.specs.Asks.{word_in, word_of};
ghost use Rattle.crew.specs.Prints.{text_of};

use crate::request::Request;

/// A line's word, and a reply's: the line's own, or `line` where it cannot be read.
#[derive(Clone, Copy, Debug, PartialEq, Eq)]
pub enum Word {
    Line,
    Kind,
    Cycle,
    SetUp,
    Draw,
    Book,
    WriteOff,
    Bill,
    Fault,
}

impl Word {
    /// The word of the lines that ask this.
    pub fn of(request: &Request) -> Word
        ensures { result ≡ word_of request.now }
    {
        match request {
            Request::Cycle(_) => Word::Cycle,
            Request::SetUp { .. } => Word::SetUp,
            Request::Draw => Word::Draw,
            Request::Book => Word::Book,
            Request::WriteOff => Word::WriteOff,
            Request::Bill { .. } => Word::Bill,
            Request::Fault(_) => Word::Fault,
        }
    }

    // The word that a line begins with, unless it is none of these. A `match` over the bytes would cost the prover three times as much.
    pub(crate) fn read(text: &[u8]) -> Option<Word>
        ensures { result ≡ word_in text.now }
    {
        if text == b"kind".as_slice() {
            Some(Word::Kind)
        } else if text == b"cycle".as_slice() {
            Some(Word::Cycle)
        } else if text == b"setup".as_slice() {
            Some(Word::SetUp)
        } else if text == b"draw".as_slice() {
            Some(Word::Draw)
        } else if text == b"book".as_slice() {
            Some(Word::Book)
        } else if text == b"writeoff".as_slice() {
            Some(Word::WriteOff)
        } else if text == b"bill".as_slice() {
            Some(Word::Bill)
        } else if text == b"fault".as_slice() {
            Some(Word::Fault)
        } else {
            None
        }
    }

    pub(crate) fn text(self) -> &'static str
        ensures { result.now ≡ text_of self }
    {
        match self {
            Word::Line => "line",
            Word::Kind => "kind",
            Word::Cycle => "cycle",
            Word::SetUp => "setup",
            Word::Draw => "draw",
            Word::Book => "book",
            Word::WriteOff => "writeoff",
            Word::Bill => "bill",
            Word::Fault => "fault",
        }
    }
}
