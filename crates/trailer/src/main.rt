//! The crew's program: moves the bytes of standard input to the library that answers them, and its answer to standard output.
#![tactic(auto)]

use crew::session;
use lines::input::LIMIT;
use std::io;
use std::io::{Read, Write};

fn main(rt: HostRuntime) -> anyhow::Result<()> {
    let mut input = Vec::new(rt.alloc());
    rt.stdin().take(LIMIT as u64).read_to_end(&mut input)?;
    let replies = session::answer(rt.alloc(), input.as_slice())?;
    io::writer(&rt).write_all(replies.as_bytes())?;
    // One byte more tells whether there is a rest. The replies do not wait for it, and stand, whatever becomes of it and of this line.
    if input.len() == LIMIT && rt.stdin().read_exact(&mut [0]).is_ok() {
        let _ = eprintln!(rt; "trailer: only the first {LIMIT} bytes of the input were read");
    }
    Ok(())
}
