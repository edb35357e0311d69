//! The PAC193X.
ghost use Rattle.std.specs.Prelude.{◌≡◌};
ghost use Rattle.makes.specs.Pac193x.{pac193x, flagged, mask_193x};
ghost use Rattle.makes.specs.Lawful193x.{lawful_193x};

use super::table;
use chip::cursor::Cursor;
use chip::driver::{RegisterWrite, SettingsWrites, Span};
use chip::entry::Entry;
use chip::make::Make;
use chip::register;
use chip::state::{Codes, Constants, Held, Masks, Running, Settings, State, Tariff};
use chip::wanted::Wanted;

/// The make PAC193X.
#[derive(Clone, Copy)]
pub struct Pac193x;

// Bit 0 of a shown control is a flag, whatever was written there.
fn flagged(control: u16, running: &Running) -> u64
    ensures { result ≡ flagged control running.now }
{
    let flag = running.sum_flag || running.count_flag;
    u64::from(control / 2 * 2) + u64::from(flag)
}

// Masks stand in bits 7-4.
fn masked(register: u64) -> u8
    ensures { result ≡ mask_193x register }
{
    (register / 16 % 16) as u8
}

impl Make for Pac193x {
    ghost sheet = { pac193x };

    ghost lawful = { lawful_193x };

    fn constants() -> Constants {
        Constants {
            channels: 4,
            sum_bits: 48,
            count_bits: 24,
            fresh: Settings {
                control: 0,
                channels: 0,
                polarity: 0,
            },
            last_address: 0x26,
            refresh: 0x00,
            refresh_v: 0x1f,
            mark: Span {
                address: 0x21,
                length: 1,
            },
            polarity: Span {
                address: 0x26,
                length: 1,
            },
            volts: 32,
            tariff: Tariff {
                factor: 15625,
                power: 27,
            },
        }
    }

    fn product(channel: usize, two_way: bool, codes: Codes) -> i64 {
        let sense = register::sense_value(two_way, codes.sense);
        table::product(channel, codes.bus, sense.div_euclid(4))
    }

    fn masks(settings: Settings) -> Masks {
        Masks {
            off: masked(u64::from(settings.channels)),
            two_way: masked(u64::from(settings.polarity)),
        }
    }

    fn width(address: u8) -> usize {
        match address {
            0x01 => 1,
            0x02 => 3,
            0x03..=0x06 => 6,
            0x07..=0x16 => 2,
            0x17..=0x1a => 4,
            0x1c..=0x1d => 1,
            0x21..=0x26 => 1,
            _ => 0,
        }
    }

    fn shows(state: &State, address: u8) -> u64 {
        let State {
            held,
            active,
            running,
            image,
            ..
        } = state;
        match address {
            0x01 => u64::from(held.settings.control),
            0x02..=0x1a => table::image_shows(16, image, address),
            0x1c => u64::from(held.settings.channels),
            0x1d => u64::from(held.settings.polarity),
            0x21 => flagged(active.control, running),
            0x22 => u64::from(active.channels),
            0x23 => u64::from(active.polarity),
            0x24 => flagged(image.settings.control, &image.running),
            0x25 => u64::from(image.settings.channels),
            0x26 => u64::from(image.settings.polarity),
            _ => 0,
        }
    }

    fn keeps(address: u8, number: u64, held: Held) -> Option<Held> {
        let mut kept = held;
        match address {
            0x01 => kept.settings.control = (number % 256) as u16,
            0x1c => kept.settings.channels = (number % 256) as u8,
            0x1d => kept.settings.polarity = (number % 256) as u16,
            _ => return None,
        }
        Some(kept)
    }

    fn command(address: u8) -> bool {
        table::command(address)
    }

    fn offers(_wanted: Wanted) -> bool {
        true
    }

    fn settings_writes(wanted: Wanted, mark: bool) -> SettingsWrites {
        SettingsWrites::from([
            RegisterWrite::of_byte(0x01, wanted.rate * 64 + u8::from(mark) * 4),
            RegisterWrite::of_byte(0x1c, wanted.off * 16),
            RegisterWrite::of_byte(0x1d, wanted.two_way * 16),
        ])
    }

    fn mark_in(number: u64) -> bool {
        number / 4 % 2 == 1
    }

    fn booking_reads() -> &'static [Span] {
        &[
            Span {
                address: 0x02,
                length: 27,
            },
            Span {
                address: 0x24,
                length: 3,
            },
        ]
    }

    fn entry_in(replies: &[u8], draw: u32) -> Entry {
        let mut settings = Cursor::new(replies);
        settings.skip(27);
        let control = settings.take(1);
        let off = masked(settings.take(1));
        let two_way = masked(settings.take(1));
        let mut counters = Cursor::new(replies);
        Entry {
            draw,
            spoilt: (control % 2) as u8,
            count: counters.take(3) as u32,
            rate: (control / 64 % 4) as u8,
            off,
            two_way,
            sums: table::take_sums(&mut counters, 6, two_way),
        }
    }

    fn code_at(channel: u8, quantity: u8) -> u8 {
        table::code_at(channel, quantity)
    }

    fn two_way_in(number: u64) -> u8 {
        masked(number)
    }
}
