//! A meter's lines, at a desk that holds the wire.
ghost use Rattle.std.specs.Prelude.{◌≤◌, length};
ghost use Rattle.lines.specs.Cuts.{lines};

use super::bench::Bench;
use super::command::DeskCommand;
use super::reply::{Answer, Reply, State};
use chip::entry::Entry;
use chip::refusal::Refusal;
use crew::post::PLACES;
use desk::desk::Desk;
use lines::input::Input;
use lines::line;
use wire::scripted::Scripted;
use wire::wire::Wire;

// A desk of the wire, with an empty book, until it is released or there are no more lines; then the wire comes back. All that can
// fail stands where the desk is lent, so that it always ends, and with it a slip that is still in hand.
pub(crate) fn serve<W: Wire + Drop>(
    rt: &impl Print,
    wire: Scripted<W>,
    input: &mut Input,
) -> anyhow::Result<Scripted<W>>
    ensures { length (lines input.new.rest.now) ≤ length (lines input.old.rest.now) }
{
    let mut places = [Entry::EMPTY; PLACES];
    let mut desk = Desk::new(wire, &mut places);
    let served = serve_lines(rt, &mut desk, input);
    let (wire, _book) = desk.end();
    served?;
    Ok(wire)
}

// Answers lines up to a `release` that is not refused.
fn serve_lines<W: Wire>(
    rt: &impl Print,
    desk: &mut Desk<W>,
    input: &mut Input,
) -> anyhow::Result<()>
    ensures { length (lines input.new.rest.now) ≤ length (lines input.old.rest.now) }
{
    while let Some(line) = input.next() {
        let reply = answer(desk, line).unwrap_or_else(Reply::from);
        let released = reply.hands_over();
        rt.println(reply)?;
        if released {
            break;
        }
    }
    Ok(())
}

// The reply to a line that names a command; any other line is unreadable.
fn answer<W: Wire>(desk: &mut Desk<W>, line: &[u8]) -> Result<Reply, Refusal> {
    let command = DeskCommand::try_from(&line::parse(line)?)?;
    Ok(Reply {
        word: command.word(),
        outcome: obey(desk, command),
    })
}

fn obey<W: Wire>(desk: &mut Desk<W>, command: DeskCommand) -> Result<Answer, Refusal> {
    Ok(match command {
        DeskCommand::Bench(command) => {
            desk.obey_bench(command)?;
            Answer::Nothing
        }
        DeskCommand::SetUp { rate, off, two_way } => {
            desk.set_up(
                u8::try_from(rate)?,
                u8::try_from(off)?,
                u8::try_from(two_way)?,
            )?;
            Answer::Nothing
        }
        DeskCommand::Draw => Answer::Draw(desk.draw()?),
        DeskCommand::Book => Answer::Entry(desk.book()?),
        DeskCommand::WriteOff => {
            desk.write_off()?;
            Answer::Nothing
        }
        DeskCommand::Bill { channel, shunt } => {
            Answer::Bill(desk.bill(u8::try_from(channel)?, shunt)?)
        }
        DeskCommand::Look { channel, quantity } => {
            Answer::Reading(desk.look(u8::try_from(channel)?, u8::try_from(quantity)?)?)
        }
        DeskCommand::State => Answer::State(state(desk)),
        DeskCommand::Scratch => Answer::Scratch(*desk.scratch()),
        DeskCommand::Release => {
            desk.may_release()?;
            Answer::Handover
        }
    })
}

fn state<W>(desk: &Desk<W>) -> State {
    let meter = desk.meter();
    State {
        condition: meter.condition(),
        slip: desk.slip_in_hand(),
        mark: meter.mark(),
        last: meter.last(),
        write_offs: meter.write_offs(),
    }
}
