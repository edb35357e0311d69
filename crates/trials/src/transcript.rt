//! A transcript: what is read, and what is to be printed.

use std::alloc::Global;
use std::rt::Files;
use std::{fs, io};

#[derive(Drop)]
pub(crate) struct Transcript {
    pub(crate) input: Vec<u8>,
    pub(crate) expected: String,
}

impl Transcript {
    // From the two files of that name.
    pub(crate) fn open<R: Files + AllocGlobal>(rt: &R, name: &str) -> io::Result<Transcript> {
        let alloc: Global = rt.alloc();
        let lines = format!(in alloc; "{name}.txt")?;
        let expected = format!(in alloc; "{name}.out")?;
        Ok(Transcript {
            input: fs::read(rt, lines.as_str())?,
            expected: fs::read_to_string(rt, expected.as_str())?,
        })
    }
}
