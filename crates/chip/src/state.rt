//! What a chip holds, and what cycles and commands make of it. The definitions in specs/ speak of these very types.
ghost use Rattle.std.specs.Prelude.{◌≡◌, ℕ, ◌<◌, ◌≤◌, map, length, not, ◌==◌};
ghost use Rattle.chip.specs.Chip.{add_all, adds, any_leaves, cleared, converted, counted, fresh_from, latched, leaves, ran, refreshed, sum_after, zeroed};
ghost use Rattle.chip.specs.Registers.{in_mask, in_range};

use super::driver::Span;
use super::make::Make;
use super::register;
use super::register::Format;

/// The settings registers, as written. Each make says which bits mean what, and keeps the others.
#[derive(Clone, Copy)]
pub struct Settings {
    pub control: u16,
    pub channels: u8,
    pub polarity: u16,
}

/// What one channel converts in one cycle.
#[derive(Clone, Copy)]
pub struct Codes {
    pub bus: u16,
    pub sense: u16,
}

/// What one channel has converted.
#[derive(Clone, Copy)]
pub struct Channel {
    pub latest: Codes,
    /// the latest one, with its sign
    pub product: i64,
    /// the sum register (accumulator), as bits
    pub sum: u64,
}

/// The running part: what each cycle changes. Channel 1 comes first.
#[derive(Clone, Copy)]
pub struct Running {
    pub channels: [Channel; 4],
    pub count: u32,
    pub sum_flag: bool,
    pub count_flag: bool,
}

/// The latch: a copy of a running part, with the settings then active.
#[derive(Clone, Copy)]
pub struct Image {
    pub running: Running,
    pub settings: Settings,
}

/// What a write can change: the pending settings, and a byte that is in force at once and copied nowhere.
#[derive(Clone, Copy)]
pub struct Held {
    pub settings: Settings,
    pub byte: u8,
}

/// All that a chip holds.
#[derive(Clone, Copy)]
pub struct State {
    pub held: Held,
    pub active: Settings,
    pub running: Running,
    pub image: Image,
}

/// The channels that are off, and those that are two-way: bit 3 is channel 1, bit 0 channel 4. Numbers, as in the
/// registers and the definitions, so that no translation stands between.
#[derive(Clone, Copy)]
pub struct Masks {
    pub off: u8,
    pub two_way: u8,
}

/// With a shunt u in tenths of a milliohm, weighed sums S are worth factor * S / (u * 2^power) millijoules.
#[derive(Clone, Copy)]
pub struct Tariff {
    pub factor: u32,
    pub power: u32,
}

/// The numbers of a make.
#[derive(Clone, Copy)]
pub struct Constants {
    pub channels: u8,
    pub sum_bits: u32,
    pub count_bits: u32,
    pub fresh: Settings,
    pub last_address: u8,
    pub refresh: u8,
    pub refresh_v: u8,
    /// where the mark in force is read
    pub mark: Span,
    /// where the image's polarity is read
    pub polarity: Span,
    /// the bus code's full scale in volts
    pub volts: u8,
    pub tariff: Tariff,
}

impl Masks {
    pub(crate) fn all_off(self) -> bool
        ensures { result ≡ (self.off == 15) }
    {
        self.off == 15
    }

    // Channels count from 0 here.
    pub(crate) fn is_off(self, channel: usize) -> bool
        ensures { result ≡ in_mask self.off channel }
    {
        register::in_mask(self.off, channel)
    }

    pub(crate) fn is_two_way(self, channel: usize) -> bool
        ensures { result ≡ in_mask self.two_way channel }
    {
        register::in_mask(self.two_way, channel)
    }
}

const BLANK: Channel = Channel {
    latest: Codes { bus: 0, sense: 0 },
    product: 0,
    sum: 0,
};

const IDLE: Running = Running {
    channels: [BLANK; 4],
    count: 0,
    sum_flag: false,
    count_flag: false,
};

impl Channel {
    // This channel's part of a cycle; answers whether its sum left the register's range.
    fn add<M: Make>(&mut self, settings: Settings, channel: usize, codes: Codes) -> bool
        ensures after { self.new ≡ adds M.Make.sheet settings channel codes self.old }
        ensures left { result ≡ leaves M.Make.sheet settings channel codes self.old }
    {
        let masks = M::masks(settings);
        if masks.is_off(channel) {
            return false;
        }
        // Each way by itself: settings seldom change, so a branch costs less than both ways' numbers.
        if masks.is_two_way(channel) {
            self.convert::<M>(channel, true, codes)
        } else {
            self.convert::<M>(channel, false, codes)
        }
    }

    // The same of a channel that is on.
    fn convert<M: Make>(&mut self, channel: usize, two_way: bool, codes: Codes) -> bool
        ensures after { self.new ≡ converted M.Make.sheet two_way channel codes self.old }
        ensures left { result ≡ not (in_range M.Make.sheet.sum_bits two_way (sum_after M.Make.sheet two_way channel codes self.old)) }
    {
        let product = M::product(channel, two_way, codes);
        let format = Format::new(M::constants().sum_bits, two_way);
        let (sum, left) = format.add(self.sum, product);
        *self = Channel {
            latest: codes,
            product,
            sum,
        };
        left
    }
}

impl Running {
    // A cycle that finds a channel on.
    pub(crate) fn cycle<M: Make>(&mut self, settings: Settings, codes: &[Codes; 4])
        ensures { self.new ≡ ran M.Make.sheet settings codes.now self.old }
    {
        self.sum_flag |= add_all::<M>(settings, codes, &mut self.channels);
        self.count_up(M::constants().count_bits);
    }

    // One cycle more, in a register of so many bits.
    fn count_up(&mut self, bits: u32)
        requires { bits ≤ 32 }
        ensures { self.new ≡ counted bits self.old }
    {
        let full = 1u64 << bits;
        // `as`, since after a `From` the proof lacks the count's range, and the sum is not proved to fit.
        let next = self.count as u64 + 1;
        self.count = (next % full) as u32;
        self.count_flag |= next == full;
    }

    // Sums, count and flags zeroed; latest codes and products stay.
    fn clear(&mut self)
        ensures { self.new ≡ zeroed self.old }
    {
        clear_all(&mut self.channels);
        self.count = 0;
        self.sum_flag = false;
        self.count_flag = false;
    }
}

// All four channels' part of a cycle, each channel lent in turn; answers whether any sum left its range.
// Settings and codes go along apart, since a channel takes one pair of the codes and all of the settings.
fn add_all<M: Make>(settings: Settings, codes: &[Codes], channels: &mut [Channel]) -> bool
    requires codes { length codes.now ≡ 4 }
    requires channels { length channels.old ≡ 4 }
    ensures after { channels.new ≡ add_all M.Make.sheet settings 0 codes.now channels.old }
    ensures left { result ≡ any_leaves M.Make.sheet settings 0 codes.now channels.old }
{
    let mut left = false;
    // The codes by index: after a `zip` the proof has the channels only as they were.
    for (i, channel) in channels.iter_mut().enumerate() {
        left |= channel.add::<M>(settings, i, codes[i]);
    }
    left
}

fn clear_all(channels: &mut [Channel])
    ensures { channels.new ≡ map cleared channels.old }
{
    for channel in channels {
        channel.sum = 0;
    }
}

impl State {
    // Nothing counted yet, under these settings.
    pub(crate) fn fresh(settings: Settings) -> State
        ensures { result ≡ fresh_from settings }
    {
        State {
            held: Held { settings, byte: 0 },
            active: settings,
            running: IDLE,
            image: Image {
                running: IDLE,
                settings,
            },
        }
    }

    // REFRESH_V.
    pub(crate) fn latch(&mut self)
        ensures { self.new ≡ latched self.old }
    {
        self.image = Image {
            running: self.running,
            settings: self.active,
        };
        self.active = self.held.settings;
    }

    // REFRESH.
    pub(crate) fn refresh(&mut self)
        ensures { self.new ≡ refreshed self.old }
    {
        self.latch();
        self.running.clear();
    }
}
