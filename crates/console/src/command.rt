//! What a line asks, read from its word and its fields. A field that is to be a byte stays as it was read: where it is none, the
//! line is readable, and the command is refused.
ghost use Rattle.std.specs.Prelude.{◌≡◌, ◌↔◌, length, IsOk};

use chip::refusal::Refusal;
use chip::state::Codes;
use lines::line::Line;

// A line for the chip, whoever holds the wire.
#[derive(Clone, Copy)]
pub(crate) enum BenchCommand {
    Cycle([Codes; 4]),
    Cycles(u16, [Codes; 4]),
    Fault(u16),
}

// A line for the raw wire.
#[derive(Clone, Copy)]
pub(crate) enum RawCommand<'a> {
    Bench(BenchCommand),
    Send(u16),
    Write { address: u16, values: &'a [u16] },
    Read { address: u16, length: u16 },
    Meter,
}

// A line for the meter.
#[derive(Clone, Copy)]
pub(crate) enum DeskCommand {
    Bench(BenchCommand),
    SetUp { rate: u16, off: u16, two_way: u16 },
    Draw,
    Book,
    WriteOff,
    Bill { channel: u16, shunt: u16 },
    Look { channel: u16, quantity: u16 },
    State,
    Scratch,
    Release,
}

impl TryFrom<&Line<'_>> for BenchCommand {
    type Error = Refusal;

    fn try_from(line: &Line) -> Result<BenchCommand, Refusal> {
        match (line.word.text, line.fields.as_slice()) {
            (b"cycle", codes) => Ok(BenchCommand::Cycle(channels(codes)?)),
            (b"cycles", [count, codes @ ..]) => Ok(BenchCommand::Cycles(*count, channels(codes)?)),
            (b"fault", [outcome]) => Ok(BenchCommand::Fault(*outcome)),
            _ => Err(Refusal::Unreadable),
        }
    }
}

impl<'a> TryFrom<&'a Line<'_>> for RawCommand<'a> {
    type Error = Refusal;

    fn try_from(line: &'a Line<'_>) -> Result<RawCommand<'a>, Refusal> {
        match (line.word.text, line.fields.as_slice()) {
            (b"send", [address]) => Ok(RawCommand::Send(*address)),
            (b"write", [address, values @ ..]) => Ok(RawCommand::Write {
                address: *address,
                values,
            }),
            (b"read", [address, length]) => Ok(RawCommand::Read {
                address: *address,
                length: *length,
            }),
            (b"meter", []) => Ok(RawCommand::Meter),
            _ => Ok(RawCommand::Bench(BenchCommand::try_from(line)?)),
        }
    }
}

impl TryFrom<&Line<'_>> for DeskCommand {
    type Error = Refusal;

    fn try_from(line: &Line) -> Result<DeskCommand, Refusal> {
        match (line.word.text, line.fields.as_slice()) {
            (b"setup", [rate, off, two_way]) => Ok(DeskCommand::SetUp {
                rate: *rate,
                off: *off,
                two_way: *two_way,
            }),
            (b"draw", []) => Ok(DeskCommand::Draw),
            (b"book", []) => Ok(DeskCommand::Book),
            (b"writeoff", []) => Ok(DeskCommand::WriteOff),
            (b"bill", [channel, shunt]) => Ok(DeskCommand::Bill {
                channel: *channel,
                shunt: *shunt,
            }),
            (b"look", [channel, quantity]) => Ok(DeskCommand::Look {
                channel: *channel,
                quantity: *quantity,
            }),
            (b"state", []) => Ok(DeskCommand::State),
            (b"scratch", []) => Ok(DeskCommand::Scratch),
            (b"release", []) => Ok(DeskCommand::Release),
            _ => Ok(DeskCommand::Bench(BenchCommand::try_from(line)?)),
        }
    }
}

// Bus and sense code of each channel.
fn channels(fields: &[u16]) -> Result<[Codes; 4], Refusal>
    ensures { IsOk result ↔ (length fields.now ≡ 8) }
{
    let [v1, s1, v2, s2, v3, s3, v4, s4] = *fields else {
        return Err(Refusal::Unreadable);
    };
    let pair = |bus, sense| Codes { bus, sense };
    Ok([pair(v1, s1), pair(v2, s2), pair(v3, s3), pair(v4, s4)])
}

// The word that names a command, at the head of its line and of the reply.
impl BenchCommand {
    pub(crate) fn word(&self) -> &'static str {
        match self {
            BenchCommand::Cycle(_) => "cycle",
            BenchCommand::Cycles(_, _) => "cycles",
            BenchCommand::Fault(_) => "fault",
        }
    }
}

impl RawCommand<'_> {
    pub(crate) fn word(&self) -> &'static str {
        match self {
            RawCommand::Bench(command) => command.word(),
            RawCommand::Send(_) => "send",
            RawCommand::Write { .. } => "write",
            RawCommand::Read { .. } => "read",
            RawCommand::Meter => "meter",
        }
    }
}

impl DeskCommand {
    pub(crate) fn word(&self) -> &'static str {
        match self {
            DeskCommand::Bench(command) => command.word(),
            DeskCommand::SetUp { .. } => "setup",
            DeskCommand::Draw => "draw",
            DeskCommand::Book => "book",
            DeskCommand::WriteOff => "writeoff",
            DeskCommand::Bill { .. } => "bill",
            DeskCommand::Look { .. } => "look",
            DeskCommand::State => "state",
            DeskCommand::Scratch => "scratch",
            DeskCommand::Release => "release",
        }
    }
}
