//! Books, channels and shunts outside their limits.
use crate::books::cases::{ONE_WAY, bill};
use crate::checks::same;
use book::book::Book;
use chip::entry::Entry;
use chip::refusal::Refusal;
use makes::pac193x::Pac193x;
use makes::pac194x::Pac194x;

// Limits are tested before any entry is looked at: the book's one bad entry is never heard of.
#[test]
fn outside_their_limits(rt: HostRuntime) {
    let bad = Entry { rate: 4, ..ONE_WAY };
    let mut all = [bad; 4097];
    for (places, filled, channel, shunt) in [
        (0, 0, 1, 100),
        (4097, 1, 1, 100),
        (3, 4, 1, 100),
        (3, 1, 0, 100),
        (3, 1, 5, 100),
        (3, 1, 255, 100),
        (3, 1, 1, 0),
        (3, 1, 1, 1001),
        (3, 1, 1, 65535),
    ] {
        let book = Book::new(&mut all[..places], filled);
        let refused = Err(Refusal::Limits);
        same(&rt, book.bill::<Pac193x>(channel, shunt), refused);
        same(&rt, book.bill::<Pac194x>(channel, shunt), refused);
    }
}

// What stands just within them.
#[test]
fn within_their_limits(rt: HostRuntime) {
    let mut all = [ONE_WAY; 4097];
    for (places, filled, channel, shunt) in [
        (1, 0, 1, 100),
        (1, 1, 1, 1),
        (4096, 0, 4, 1000),
        (4096, 2, 4, 1),
    ] {
        let book = Book::new(&mut all[..places], filled);
        same(&rt, book.within_limits(), true);
        same(
            &rt,
            book.bill::<Pac193x>(channel, shunt),
            bill(0, filled, 0),
        );
        same(
            &rt,
            book.bill::<Pac194x>(channel, shunt),
            bill(0, filled, 0),
        );
    }
}
