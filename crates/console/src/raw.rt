//! Raw lines, on a chip behind a scripted wire.
ghost use Rattle.std.specs.Prelude.{◌≡◌, IfOk};
ghost use Rattle.arrayvec.specs.ArrayVec.{array_vec_len};

use super::bench::Bench;
use super::command::RawCommand;
use super::metered;
use super::reply::{Answer, Bytes, Reply};
use arrayvec::ArrayVec;
use chip::chip::LONGEST_READ;
use chip::refusal::Refusal;
use lines::input::Input;
use lines::line;
use wire::scripted::Scripted;
use wire::wire::Wire;

// Answers every line. A `meter` line lends the wire to a meter, until that is released.
pub(crate) fn serve<W: Wire + Drop>(
    rt: &impl Print,
    mut wire: Scripted<W>,
    mut input: Input,
) -> anyhow::Result<()> {
    while let Some(line) = input.next() {
        let reply = answer(&mut wire, line).unwrap_or_else(Reply::from);
        let wanted = reply.hands_over();
        rt.println(reply)?;
        if wanted {
            wire = metered::serve(rt, wire, &mut input)?;
        }
    }
    Ok(())
}

// The reply to a line that names a command; any other line is unreadable.
fn answer<W: Wire>(wire: &mut Scripted<W>, line: &[u8]) -> Result<Reply, Refusal> {
    let said = line::parse(line)?;
    let command = RawCommand::try_from(&said)?;
    Ok(Reply {
        word: command.word(),
        outcome: obey(wire, command),
    })
}

fn obey<W: Wire>(wire: &mut Scripted<W>, command: RawCommand) -> Result<Answer, Refusal> {
    match command {
        RawCommand::Bench(command) => wire.obey_bench(command)?,
        RawCommand::Send(address) => wire.send(u8::try_from(address)?)?,
        RawCommand::Write { address, values } => write(wire, address, values)?,
        RawCommand::Read { address, length } => {
            return Ok(Answer::Bytes(read(wire, address, length)?));
        }
        RawCommand::Meter => return Ok(Answer::Handover),
    }
    Ok(Answer::Nothing)
}

// No register takes more than eight bytes.
fn write<W: Wire>(wire: &mut Scripted<W>, address: u16, values: &[u16]) -> Result<(), Refusal> {
    let address = u8::try_from(address)?;
    let mut bytes = ArrayVec::<u8, 8>::new();
    for value in values {
        let byte = u8::try_from(*value)?;
        bytes.try_push(byte).map_err(|_| Refusal::Limits)?;
    }
    wire.write(address, bytes.as_slice())
}

fn read<W: Wire>(wire: &mut Scripted<W>, address: u16, length: u16) -> Result<Bytes, Refusal>
    ensures { IfOk result (λ bytes. array_vec_len bytes ≡ length) }
{
    let address = u8::try_from(address)?;
    let length = usize::from(length);
    if length > LONGEST_READ {
        return Err(Refusal::Limits);
    }
    let mut bytes = Bytes::from([0; LONGEST_READ]);
    bytes.truncate(length);
    wire.read(address, bytes.as_mut_slice())?;
    Ok(bytes)
}
