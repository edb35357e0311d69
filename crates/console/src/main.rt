//! A bench client for the chips, line by line from standard input: raw transactions, or a meter's calls.
#![tactic(auto)]

mod bench;
mod command;
mod metered;
mod raw;
mod reply;

use chip::make::Make;
use crew::kind::ForMake;
use crew::session;
use lines::input::{Input, LIMIT};
use std::io::Read;
use wire::direct::Direct;
use wire::scripted::Scripted;

fn main(rt: HostRuntime) -> anyhow::Result<()> {
    let mut text = Vec::new(rt.alloc());
    rt.stdin().take(LIMIT as u64).read_to_end(&mut text)?;
    run(&rt, Input::new(text.as_slice()))?;
    // One byte more tells whether there is a rest. The replies do not wait for it, and stand, whatever becomes of it and of this line.
    if text.len() == LIMIT && rt.stdin().read_exact(&mut [0]).is_ok() {
        let _ = eprintln!(rt; "console: only the first {LIMIT} bytes of the input were read");
    }
    Ok(())
}

// With no chip on the bench only a good `kind` line can be read.
fn run<R: Print + AllocGlobal>(rt: &R, mut input: Input) -> anyhow::Result<()> {
    let mut replies = String::new(rt.alloc());
    let kind = session::open(&mut replies, &mut input)?;
    rt.print(replies.as_str())?;
    match kind {
        Some(kind) => kind.choose(Rest { rt, input }),
        None => Ok(()),
    }
}

// Every line after the `kind` line, for a fresh chip of the make that it names.
struct Rest<'a, R> {
    rt: &'a R,
    input: Input<'a>,
}

impl<R: Print> ForMake for Rest<'_, R> {
    ghost use Rattle.std.specs.Prelude.{⊤};

    type Done = anyhow::Result<()>;

    // What is printed is promised by nobody.
    ghost done = { λ rest sheet result. ⊤ };

    fn with<M: Make>(self) -> anyhow::Result<()> {
        let Rest { rt, input } = self;
        raw::serve(rt, Scripted::new(Direct::<M>::new()), input)
    }
}
