//! The worked listing: a cycle, a set-up, a draw, its booking and a bill, with the figures worked out by hand.

use super::bench;
use super::check::{self, Tally};
use book::bill::Bill;
use chip::entry::Entry;
use chip::refusal::Refusal;
use chip::state::Codes;
use desk::desk::Desk;
use makes::pac193x::Pac193x;
use std::{fmt, io};
use wire::direct::Direct;
use wire::scripted::Scripted;
use wire::wire::Wire;

// What the draw, the booking and the bill answer.
const DRAW: [i128; 1] = [1];

const ENTRY: [i128; 10] = [1, 0, 1, 0, 0, 0, 50_000_000, 0, 0, 0];

const BILL: [i128; 3] = [58, 1, 0];

// What a call answers, after its word.
#[derive(Clone, Copy)]
struct Answer<'a> {
    word: &'static str,
    fields: &'a [i128],
}

impl fmt::Display for Answer<'_> {
    fn fmt<W: fmt::Write>(&self, f: &mut fmt::Formatter<W>) -> fmt::Result {
        f.write_str(self.word)?;
        for field in self.fields {
            write!(f, ",{field}")?;
        }
        Ok(())
    }
}

pub(crate) fn check(rt: &impl Print, tally: &mut Tally) -> anyhow::Result<()> {
    let mut places = [Entry::EMPTY; 64];
    let mut desk = Desk::new(Scripted::new(Direct::<Pac193x>::new()), &mut places);
    let followed = follow(&mut desk);
    let _ = desk.end();
    let (draw, entry, bill) = followed.map_err(bench::refused)?;
    show(rt, tally, "draw", &DRAW, &[i128::from(draw)])?;
    show(rt, tally, "book", &ENTRY, &entry_fields(&entry))?;
    show(rt, tally, "bill", &BILL, &bill_fields(&bill))?;
    Ok(())
}

// Counts an answer and prints its line.
fn show(
    rt: &impl Print,
    tally: &mut Tally,
    word: &'static str,
    expected: &[i128],
    ours: &[i128],
) -> io::Result<()> {
    let agrees = expected == ours;
    tally.count(agrees);
    println!(rt;
        "listing  {}  ours {}  {}",
        Answer {
            word,
            fields: expected
        },
        Answer { word, fields: ours },
        check::verdict(agrees)
    )
}

// The set-up comes in force with the draw, so the entry has the settings before it.
fn follow<W: Wire>(desk: &mut Desk<W>) -> Result<(u32, Entry, Bill), Refusal> {
    let idle = Codes { bus: 0, sense: 0 };
    let busy = Codes {
        bus: 40000,
        sense: 20000,
    };
    desk.cycle([busy, idle, idle, idle]);
    desk.set_up(3, 0, 0)?;
    let draw = desk.draw()?;
    let entry = desk.book()?;
    Ok((draw, entry, desk.bill(1, 100)?))
}

fn entry_fields(entry: &Entry) -> [i128; 10] {
    let [first, second, third, fourth] = entry.sums;
    [
        i128::from(entry.draw),
        i128::from(entry.spoilt),
        i128::from(entry.count),
        i128::from(entry.rate),
        i128::from(entry.off),
        i128::from(entry.two_way),
        i128::from(first),
        i128::from(second),
        i128::from(third),
        i128::from(fourth),
    ]
}

fn bill_fields(bill: &Bill) -> [i128; 3] {
    [bill.energy, bill.billed as i128, bill.spoilt as i128]
}
