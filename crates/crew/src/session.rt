//! A whole input answered: every line, from the first on, and the end.
ghost use Rattle.std.specs.Prelude.{IfOk, OnOk, string_bytes};
ghost use Rattle.book.specs.Book.{pages};
ghost use Rattle.crew.specs.Sessions.{InputAnswered};
ghost use Rattle.crew.specs.Texts.{KindPrinted, LinesPrinted, OpeningPrinted, PostPrinted};
ghost use Rattle.desk.specs.Standing.{standing};

use crate::kind::{self, Kind};
use crate::post::{PLACES, Post};
use book::book::Book;
use chip::entry::Entry;
use chip::make::Make;
use lines::input::Input;
use makes::pac193x::Pac193x;
use makes::pac194x::Pac194x;
use std::alloc::{AllocError, Global};
use wire::direct::Direct;
use wire::scripted::Scripted;

/// What is printed for an input: a reply to each line in its first 64 KiB, from a fresh chip of the kind that the lines name, and at the end
/// a slip in hand is written off. Only want of memory is an error, and then nothing is to be printed.
pub fn answer(alloc: Global, input: &[u8]) -> Result<String, AllocError>
    ensures { IfOk result (λ text. InputAnswered input.now (string_bytes text)) }
{
    let mut text = String::new(alloc);
    let mut input = Input::new(input);
    if let Some(kind) = open(&mut text, &mut input)? {
        serve_kind(kind, &mut text, input)?;
    }
    Ok(text)
}

/// Answers the lines up to the first that names a kind of chip, and that one, and adds the replies to a text. It gives the kind, if one was
/// named. Only want of memory is an error; the text may then end in a part of a line, and the input has lost the lines that were taken.
pub fn open(text: &mut String, input: &mut Input) -> Result<Option<Kind>, AllocError>
    ensures { IfOk result (OpeningPrinted input.old input.new text.old text.new) }
{
    while let Some(line) = input.next() {
        let (reply, kind) = kind::opening(line);
        reply.append_to(text)?;
        if kind.is_some() {
            return Ok(kind);
        }
    }
    Ok(None)
}

// All lines that are left, at a new post of this kind.
fn serve_kind(kind: Kind, text: &mut String, input: Input) -> Result<(), AllocError>
    ensures { OnOk result (KindPrinted kind input.entry text.old text.new) }
{
    let mut places = [Entry::EMPTY; PLACES];
    match kind {
        Kind::Pac193x => {
            let (answered, _wire, _book) = serve::<Pac193x>(text, input, &mut places);
            answered
        }
        Kind::Pac194x => {
            let (answered, _wire, _book) = serve::<Pac194x>(text, input, &mut places);
            answered
        }
    }
}

// All lines that are left, at a new post of this make. What can fail stands where the post is lent, so that it always ends, and with it a slip in
// hand. The wire and the book come back as the last line left them.
fn serve<'a, M: Make>(
    text: &mut String,
    input: Input,
    places: &'a mut [Entry; PLACES],
) -> (Result<(), AllocError>, Scripted<Direct<M>>, Book<'a>)
    ensures { OnOk result.0 (PostPrinted M.Make.sheet input.entry places.entry.now
        text.old text.new result.1 (pages result.2)) }
{
    let mut post = Post::<M>::new(places);
    let answered = answer_lines(text, &mut post, input);
    let (wire, book) = post.end();
    (answered, wire, book)
}

// Every line that is left, one after the other.
fn answer_lines<M: Make>(
    text: &mut String,
    post: &mut Post<M>,
    input: Input,
) -> Result<(), AllocError>
    ensures { OnOk result (LinesPrinted M.Make.sheet input.entry
        (standing post.old.desk) (standing post.new.desk) text.old text.new) }
{
    for line in input {
        post.answer(line).append_to(text)?;
    }
    Ok(())
}
