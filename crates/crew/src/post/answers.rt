//! A post's beginning, the answer to a line, and its end.
ghost use Rattle.std.specs.Prelude.{◌≡◌};
ghost use Rattle.crew.specs.Asks.{asked};
ghost use Rattle.crew.specs.Runs.{GoesOn, LineAnswered, OnRun, PostEnded, PostOpened, chip_at, line_shows};
ghost use Rattle.desk.specs.Standing.{standing};

use super::{PLACES, Post, requests};
use crate::reply::Reply;
use crate::request::Request;
use crate::word::Word;
use book::book::Book;
use chip::entry::Entry;
use chip::make::Make;
use desk::desk::Desk;
use wire::direct::Direct;
use wire::scripted::Scripted;

impl<'a, M: Make> Post<'a, M> {
    /// At a fresh chip, with an empty book of the lent places.
    pub fn new(places: &'a mut [Entry; PLACES]) -> Post<'a, M>
        ensures opened { PostOpened M.Make.sheet places.entry.now (standing result.desk) }
        ensures statements { ∥ OnRun M.Make.sheet chip_at (standing result.desk) ∥₁ }
    {
        Post {
            desk: Desk::new(Scripted::new(Direct::new()), places),
        }
    }

    /// The answer to a line, whatever its bytes are. Whatever run led here, it goes on with just the cycle, entry or write-off of this line.
    pub fn answer(&mut self, line: &[u8]) -> Reply
        ensures answered { LineAnswered M.Make.sheet (asked line.now)
            (standing self.old.desk) result (standing self.new.desk) }
        ensures statements { ∥ OnRun M.Make.sheet chip_at (standing self.new.desk) ∥₁ }
        ensures goes_on { GoesOn M.Make.sheet chip_at (line_shows (asked line.now) result.outcome)
            (standing self.old.desk) (standing self.new.desk) }
        ensures same { self.new.desk.book.places.ghost_name ≡ self.old.desk.book.places.ghost_name }
    {
        match Request::read(line) {
            Ok(request) => Reply {
                word: Word::of(&request),
                outcome: requests::obey(&mut self.desk, request),
            },
            Err(_) => Reply::UNREADABLE,
        }
    }

    /// Gives the wire and the book back. A slip in hand is written off first.
    pub fn end(self) -> (Scripted<Direct<M>>, Book<'a>)
        ensures written_off { PostEnded M.Make.sheet (standing self.entry.desk) result.0 }
        ensures wire { result.0 ≡ self.entry.desk.meter.wire }
        ensures book { result.1 ≡ self.entry.desk.book }
    {
        let Post { desk } = self;
        desk.end()
    }
}
