//! A desk's beginning, cycles and outcomes, set-ups, draws and looks, and what it shows.
ghost use Rattle.std.specs.Prelude.{◌≡◌};
ghost use Rattle.desk.specs.Promises.{CycleCame, DeskOpened, DrawMade, LookDone, OutcomeAdded, SetUpMade};
ghost use Rattle.desk.specs.Standing.{standing};

use super::Desk;
use book::book::Book;
use chip::entry::Entry;
use chip::refusal::Refusal;
use chip::state::Codes;
use meter::meter::Meter;
use meter::reading::Reading;
use wire::scripted::Scripted;
use wire::wire::Wire;

// The number of the meter at every desk.
const METER: u32 = 1;

impl<'a, W: Wire> Desk<'a, W> {
    /// Meter 1 of a wire, with no draw number used, and an empty book of the lent places.
    pub fn new(wire: Scripted<W>, places: &'a mut [Entry]) -> Desk<'a, W>
        ensures opened { DeskOpened W.Make.Make.sheet W.Wire.chip wire places.entry.now (standing result) }
        ensures same { result.book.places.ghost_name ≡ places.entry.ghost_name }
    {
        Desk {
            meter: Meter::new(wire, METER, 0),
            book: Book::new(places, 0),
            scratch: [0; 32],
            slip: None,
        }
    }

    /// A conversion cycle.
    pub fn cycle(&mut self, codes: [Codes; 4])
        ensures came { CycleCame W.Make.Make.sheet W.Wire.chip W.Wire.passes codes (standing self.old) (standing self.new) }
        ensures same { self.new.book.places.ghost_name ≡ self.old.book.places.ghost_name }
    {
        self.meter.cycle(codes);
    }

    /// Adds an outcome to the wire's script: 0 to 3, and 256 in all.
    pub fn add(&mut self, outcome: u8) -> Result<(), Refusal>
        ensures added { OutcomeAdded W.Make.Make.sheet W.Wire.chip outcome (standing self.old) result (standing self.new) }
        ensures same { self.new.book.places.ghost_name ≡ self.old.book.places.ghost_name }
    {
        self.meter.add(outcome)
    }

    /// Stores the settings that the next draw is to put in force.
    pub fn set_up(&mut self, rate: u8, off: u8, two_way: u8) -> Result<(), Refusal>
        ensures made { SetUpMade W.Make.Make.sheet W.Wire.chip W.Wire.goes (record { rate = rate; off = off; two_way = two_way }) (standing self.old) result (standing self.new) }
        ensures same { self.new.book.places.ghost_name ≡ self.old.book.places.ghost_name }
    {
        self.meter.set_up(rate, off, two_way)
    }

    /// Draws, keeps the slip in hand, and answers its draw number.
    pub fn draw(&mut self) -> Result<u32, Refusal>
        ensures made { DrawMade W.Make.Make.sheet W.Wire.chip W.Wire.goes (standing self.old) result (standing self.new) }
        ensures same { self.new.book.places.ghost_name ≡ self.old.book.places.ghost_name }
    {
        let slip = self.meter.draw()?;
        let draw = slip.draw();
        self.slip = Some(slip);
        Ok(draw)
    }

    /// A channel's latest code, 1 on: quantity 0 is the bus voltage, 1 the sense voltage.
    pub fn look(&mut self, channel: u8, quantity: u8) -> Result<Reading, Refusal>
        ensures made { LookDone W.Make.Make.sheet W.Wire.chip W.Wire.goes channel quantity (standing self.old) result (standing self.new) }
        ensures same { self.new.book.places.ghost_name ≡ self.old.book.places.ghost_name }
    {
        self.meter.look(channel, quantity)
    }
}

impl<W> Desk<'_, W> {
    /// How its meter stands.
    pub fn meter(&self) -> &Meter<Scripted<W>>
        ensures { result.now ≡ self.now.meter }
    {
        &self.meter
    }

    /// The replies to the last booking's reads lie at its start.
    pub fn scratch(&self) -> &[u8; 32]
        ensures { result.now ≡ self.now.scratch }
    {
        &self.scratch
    }
}
