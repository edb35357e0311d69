//! How a book fills.
use crate::books::cases::ONE_WAY;
use crate::checks::same;
use book::book::Book;
use chip::entry::Entry;
use chip::refusal::Refusal;

fn drawn(draw: u32) -> Entry {
    Entry { draw, ..ONE_WAY }
}

// Entries stand in the order in which they were put; a full book refuses, and stays as it is.
#[test]
fn fills_and_is_full(rt: HostRuntime) {
    let mut places = [drawn(9); 3];
    let mut book = Book::new(&mut places, 1);
    same(&rt, book.is_full(), false);
    same(&rt, book.put(drawn(5)), Ok(()));
    same(&rt, book.put(drawn(6)), Ok(()));
    same(&rt, book.is_full(), true);
    same(&rt, book.put(drawn(7)), Err(Refusal::Full));
    same(&rt, book.put(drawn(8)), Err(Refusal::Full));
    same(&rt, book.within_limits(), true);
    same(&rt, places, [drawn(9), drawn(5), drawn(6)]);
}

// More filled than there are places: full, and outside its limits.
#[test]
fn overfilled(rt: HostRuntime) {
    let mut places = [drawn(9); 2];
    let mut book = Book::new(&mut places, 3);
    same(&rt, book.is_full(), true);
    same(&rt, book.put(drawn(5)), Err(Refusal::Full));
    same(&rt, book.within_limits(), false);
    same(&rt, places, [drawn(9); 2]);
}
