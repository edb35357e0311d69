//! A book over lent places: written at one place, the next free one, and read by the bill.
ghost use Rattle.std.specs.Prelude.{◌≡◌, ◌≤◌, length, nat_le};
ghost use Rattle.book.specs.Bill.{book_within};
ghost use Rattle.book.specs.Book.{entries, pages, putting};

use chip::entry::Entry;
use chip::refusal::Refusal;

/// How many places a book has at most.
pub const MOST_PLACES: usize = 4096;

/// So many places, of which the first are filled. Calls that take a book refuse one outside its limits.
#[derive(Drop)]
pub struct Book<'a> {
    places: &'a mut [Entry],
    filled: usize,
}

impl<'a> Book<'a> {
    /// The first `filled` places are taken for filled.
    pub fn new(places: &'a mut [Entry], filled: usize) -> Book<'a>
        ensures holds { pages result ≡ record { places = places.entry.now; filled = filled } }
        ensures same { result.places.ghost_name ≡ places.entry.ghost_name }
    {
        Book { places, filled }
    }

    /// Whether it has 1 to 4,096 places, and no more filled than it has.
    pub fn within_limits(&self) -> bool
        ensures { result ≡ book_within (length (pages self.now).places) (pages self.now).filled }
    {
        let places = self.places.len();
        (1..=MOST_PLACES).contains(&places) && self.filled <= places
    }

    // The filled places.
    pub(crate) fn entries(&self) -> &[Entry]
        requires { (pages self.now).filled ≤ length (pages self.now).places }
        ensures { result.now ≡ entries (pages self.now) }
    {
        &self.places[..self.filled]
    }

    /// Whether no place is free.
    pub fn is_full(&self) -> bool
        ensures { result ≡ nat_le (length (pages self.now).places) (pages self.now).filled }
    {
        self.filled >= self.places.len()
    }

    /// Writes an entry at the next free place; a full book is refused and stays as it is.
    pub fn put(&mut self, entry: Entry) -> Result<(), Refusal>
        ensures written { (result, pages self.new) ≡ putting entry (pages self.old) }
        ensures same { self.new.places.ghost_name ≡ self.old.places.ghost_name }
    {
        if self.is_full() {
            return Err(Refusal::Full);
        }
        self.places[self.filled] = entry;
        self.filled += 1;
        Ok(())
    }
}
