//! What the meter's calls send and read, over any wire.
ghost use Rattle.std.specs.Prelude.{◌≡◌, ◌≤◌, length};
ghost use Rattle.chip.specs.Driver.{wanted_of};
ghost use Rattle.meter.specs.Parts.{NumberRead, Fetched, SettingsWritten, Gathered};

use chip::cursor::Cursor;
use chip::driver::Span;
use chip::make::Make;
use chip::refusal::Refusal;
use chip::wanted::Wanted;
use wire::wire::Wire;

// Fills bytes, and answers the number that they write.
fn read_bytes<W: Wire>(wire: &mut W, address: u8, bytes: &mut [u8]) -> Result<u64, Refusal>
    requires { length bytes.old ≤ 8 }
    ensures { NumberRead W.Wire.goes wire.old address (length bytes.old) result wire.new }
{
    wire.read(address, bytes)?;
    let count = bytes.len();
    let mut cursor = Cursor::new(bytes);
    Ok(cursor.take(count))
}

// A register as a number.
pub(crate) fn read_number<W: Wire>(wire: &mut W, span: Span) -> Result<u64, Refusal>
    requires { span.length ≤ 8 }
    ensures { NumberRead W.Wire.goes wire.old span.address span.length result wire.new }
{
    let length = span.length;
    let mut buffer = [0u8; 8];
    read_bytes(wire, span.address, &mut buffer[0..length])
}

// Writes wanted settings and a mark, register by register.
pub(crate) fn write_settings<W: Wire>(
    wire: &mut W,
    wanted: Wanted,
    mark: bool,
) -> Result<(), Refusal>
    ensures { SettingsWritten W.Wire.goes W.Make.Make.sheet (W.Make.Make.sheet.settings_writes (wanted_of wanted) mark) wire.old result wire.new }
{
    let writes = W::Make::settings_writes(wanted, mark);
    for write in writes.as_slice() {
        wire.write(write.address, write.bytes())?;
    }
    Ok(())
}

// Reads a reply, and lays it on the scratch too.
fn fetch<W: Wire>(
    wire: &mut W,
    address: u8,
    scratch: &mut [u8],
    copy: &mut [u8],
) -> Result<(), Refusal>
    requires { length copy.old ≤ length scratch.old }
    ensures { Fetched W.Wire.goes wire.old address (length copy.old) scratch.old copy.old result scratch.new copy.new wire.new }
{
    let count = copy.len();
    wire.read(address, copy)?;
    scratch[0..count].copy_from_slice(copy);
    Ok(())
}

// The replies to a booking's reads, one after the other; answers how many bytes they are.
pub(crate) fn gather<W: Wire>(
    wire: &mut W,
    scratch: &mut [u8],
    replies: &mut [u8],
) -> Result<usize, Refusal>
    requires { (32 ≤ length scratch.old) × (length replies.old ≡ 64) }
    ensures { Gathered W.Wire.goes W.Make.Make.sheet.booking_reads wire.old scratch.old result replies.new wire.new scratch.new }
{
    let mut end = 0;
    for span in W::Make::booking_reads() {
        let start = end;
        end += span.length;
        fetch(wire, span.address, scratch, &mut replies[start..end])?;
    }
    Ok(end)
}
