//! The PAC194X.
ghost use Rattle.std.specs.Prelude.{◌≡◌, ◌/◌, ◌%◌, ◌<◌, ◌==◌};
ghost use Rattle.chip.specs.Driver.{wanted_of};
ghost use Rattle.makes.specs.Pac194x.{pac194x, flags_194x, flagged_194x, two_way_194x, polarity_194x, control_194x};
ghost use Rattle.makes.specs.Lawful194x.{lawful_194x};

use super::table;
use chip::cursor::Cursor;
use chip::driver::{RegisterWrite, SettingsWrites, Span};
use chip::entry::Entry;
use chip::make::Make;
use chip::register;
use chip::state::{Codes, Constants, Held, Masks, Running, Settings, State, Tariff};
use chip::wanted::Wanted;

/// The make PAC194X.
#[derive(Clone, Copy)]
pub struct Pac194x;

// The sum flag in bit 3, the count flag in bit 2.
fn flags(running: &Running) -> u64
    ensures { result ≡ flags_194x running.now }
{
    u64::from(running.sum_flag) * 8 + u64::from(running.count_flag) * 4
}

// 1 if either flag is set.
fn flagged(flags: u64) -> u8
    ensures { result ≡ flagged_194x flags }
{
    u8::from(flags / 4 % 4 >= 1)
}

// A channel's two bits of polarity: 01 is two-way, the rest one-way.
fn is_two_way(polarity: u64, place: u64) -> bool
    requires { 0 < place }
    ensures { result ≡ (polarity / place % 4 == 1) }
{
    polarity / place % 4 == 1
}

// The two-way mask that a polarity means.
fn ways(polarity: u64) -> u8
    ensures { result ≡ two_way_194x polarity }
{
    let way = |place| u8::from(is_two_way(polarity, place));
    way(16384) * 8 + way(4096) * 4 + way(1024) * 2 + way(256)
}

// The polarity that means a two-way mask.
fn polarity_of(mask: u8) -> u16
    ensures { result ≡ polarity_194x mask }
{
    let way = |place: u8| u16::from(mask / place % 2);
    way(8) * 16384 + way(4) * 4096 + way(2) * 1024 + way(1) * 256
}

// 4 + rate code in bits 15-12, the mark in bit 10, the off mask in bits 7-4.
fn control_of(wanted: Wanted, mark: bool) -> u16
    ensures { result ≡ control_194x (wanted_of wanted) mark }
{
    (4 + u16::from(wanted.rate)) * 4096 + u16::from(mark) * 1024 + u16::from(wanted.off) * 16
}

impl Make for Pac194x {
    ghost sheet = { pac194x };

    ghost lawful = { lawful_194x };

    fn constants() -> Constants {
        Constants {
            channels: 4,
            sum_bits: 56,
            count_bits: 32,
            fresh: Settings {
                control: 0x4000,
                channels: 0,
                polarity: 0,
            },
            last_address: 0x26,
            refresh: 0x00,
            refresh_v: 0x1f,
            mark: Span {
                address: 0x21,
                length: 2,
            },
            polarity: Span {
                address: 0x24,
                length: 2,
            },
            volts: 9,
            tariff: Tariff {
                factor: 140625,
                power: 34,
            },
        }
    }

    fn product(channel: usize, two_way: bool, codes: Codes) -> i64 {
        let sense = register::sense_value(two_way, codes.sense);
        table::product(channel, codes.bus, sense)
    }

    fn masks(settings: Settings) -> Masks {
        Masks {
            off: (settings.control / 16 % 16) as u8,
            two_way: ways(u64::from(settings.polarity)),
        }
    }

    fn width(address: u8) -> usize {
        match address {
            0x01 => 2,
            0x02 => 4,
            0x03..=0x06 => 7,
            0x07..=0x16 => 2,
            0x17..=0x1a => 4,
            0x1c => 1,
            0x1d => 2,
            0x21..=0x24 => 2,
            0x25 => 1,
            0x26 => 3,
            _ => 0,
        }
    }

    fn shows(state: &State, address: u8) -> u64 {
        let State {
            held,
            active,
            image,
            ..
        } = state;
        match address {
            0x01 => u64::from(held.settings.control),
            0x02..=0x1a => table::image_shows(4, image, address),
            0x1c => u64::from(held.byte),
            0x1d => u64::from(held.settings.polarity),
            0x21 => u64::from(active.control),
            0x22 => u64::from(active.polarity),
            0x23 => u64::from(image.settings.control),
            0x24 => u64::from(image.settings.polarity),
            0x25 => 0,
            0x26 => flags(&image.running),
            _ => 0,
        }
    }

    fn keeps(address: u8, number: u64, held: Held) -> Option<Held> {
        let mut kept = held;
        match address {
            0x01 => kept.settings.control = (number % 65536) as u16,
            0x1c => kept.byte = (number % 256) as u8,
            0x1d => kept.settings.polarity = (number % 65536) as u16,
            _ => return None,
        }
        Some(kept)
    }

    fn command(address: u8) -> bool {
        table::command(address)
    }

    fn offers(_wanted: Wanted) -> bool {
        true
    }

    fn settings_writes(wanted: Wanted, mark: bool) -> SettingsWrites {
        let mut writes = SettingsWrites::new();
        writes.push(RegisterWrite::of_word(0x01, control_of(wanted, mark)));
        writes.push(RegisterWrite::of_word(0x1d, polarity_of(wanted.two_way)));
        writes
    }

    fn mark_in(number: u64) -> bool {
        number / 1024 % 2 == 1
    }

    fn booking_reads() -> &'static [Span] {
        &[
            Span {
                address: 0x02,
                length: 32,
            },
            Span {
                address: 0x23,
                length: 8,
            },
        ]
    }

    fn entry_in(replies: &[u8], draw: u32) -> Entry {
        let mut settings = Cursor::new(replies);
        settings.skip(32);
        let control = settings.take(2);
        let two_way = ways(settings.take(2));
        settings.skip(1);
        let spoilt = flagged(settings.take(3));
        let mut counters = Cursor::new(replies);
        Entry {
            draw,
            spoilt,
            count: counters.take(4) as u32,
            rate: (control / 4096 % 4) as u8,
            off: (control / 16 % 16) as u8,
            two_way,
            sums: table::take_sums(&mut counters, 7, two_way),
        }
    }

    fn code_at(channel: u8, quantity: u8) -> u8 {
        table::code_at(channel, quantity)
    }

    fn two_way_in(number: u64) -> u8 {
        ways(number)
    }
}
