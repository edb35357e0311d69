//! What the register tables of the PAC193X and the PAC194X have in common.
ghost use Rattle.std.specs.Prelude.{◌≡◌, ◌*◌, ◌/◌, ◌%◌, ◌≤◌, pos, ◌*ℤ◌};
ghost use Rattle.chip.specs.Registers.{bits_of};
ghost use Rattle.makes.specs.Table.{image_shows, a_command, code_from_07h, product, sums_in};

use chip::cursor::Cursor;
use chip::register;
use chip::state::Image;

// The bus code's upper 14 bits times a sense value, on four channels counted from 0.
pub(crate) fn product(channel: usize, bus: u16, sense: i32) -> i64
    ensures { result ≡ product channel bus sense }
{
    if channel < 4 {
        i64::from(bus / 4) * i64::from(sense)
    } else {
        0
    }
}

// A product times a scale, as the 32 bits of a power register.
fn power(scale: u8, product: i64) -> u64
    ensures { result ≡ bits_of 32 (product *ℤ pos scale) }
{
    (i128::from(product) * i128::from(scale)).rem_euclid(0x1_0000_0000) as u64
}

// What 02h to 1Ah show of an image.
pub(crate) fn image_shows(scale: u8, image: &Image, address: u8) -> u64
    ensures { result ≡ image_shows scale image.now address }
{
    let running = &image.running;
    match address {
        0x00..=0x02 => u64::from(running.count),
        0x03..=0x06 => running.channels[usize::from(address - 0x03)].sum,
        0x07..=0x0a => u64::from(running.channels[usize::from(address - 0x07)].latest.bus),
        0x0b..=0x0e => u64::from(running.channels[usize::from(address - 0x0b)].latest.sense),
        0x0f..=0x16 => 0,
        0x17..=0x1a => power(scale, running.channels[usize::from(address - 0x17)].product),
        _ => 0,
    }
}

// 00h REFRESH, 1Eh, which is never taken, and 1Fh REFRESH_V. Each make names it: a body in the trait would serve every make.
pub(crate) fn command(address: u8) -> bool
    ensures { result ≡ a_command address }
{
    matches!(address, 0x00 | 0x1e | 0x1f)
}

// Bus codes stand from 07h, sense codes from 0Bh.
pub(crate) fn code_at(channel: u8, quantity: u8) -> u8
    ensures { result ≡ code_from_07h channel quantity % 256 }
{
    let address = 0x06 + 4 * u16::from(quantity) + u16::from(channel);
    (address % 256) as u8
}

// Four sums of so many bytes, with their signs.
pub(crate) fn take_sums(cursor: &mut Cursor, width: usize, two_way: u8) -> [i64; 4]
    requires { width ≤ 7 }
    ensures { result ≡ sums_in width (8 * width) two_way 0 cursor.old.rest.now }
{
    [
        cursor.take_sum(width, register::in_mask(two_way, 0)),
        cursor.take_sum(width, register::in_mask(two_way, 1)),
        cursor.take_sum(width, register::in_mask(two_way, 2)),
        cursor.take_sum(width, register::in_mask(two_way, 3)),
    ]
}
