//! Answers the transcripts of its data folder as the line program does, and compares what would be printed with what a model that was written
//! apart expects. It prints a line for each, and fails if one differs.
#![tactic(auto)]

mod difference;
mod transcript;

use anyhow::Context;
use crew::session;
use difference::Difference;
use std::fs;
use std::rt::Files;
use transcript::Transcript;

fn main(rt: HostRuntime) -> anyhow::Result<()> {
    let names = names(&rt)?;
    let mut differing = 0u32;
    for name in names.iter() {
        if !check(&rt, name.as_str())? {
            differing = differing.saturating_add(1);
        }
    }
    println!(rt; "{} transcripts, {differing} differ", names.len())?;
    anyhow::ensure!(differing == 0, "transcripts differ");
    Ok(())
}

// The names of the transcripts that lie where the program runs, in the order of the alphabet.
fn names<R: Files + AllocGlobal + Clone + Drop>(rt: &R) -> anyhow::Result<Vec<String>> {
    let mut names = Vec::new(rt.alloc());
    for entry in fs::read_dir(rt, ".")? {
        let entry = entry?;
        if let Some(name) = entry.file_name().strip_suffix(".txt") {
            names.push(String::from_str(rt.alloc(), name)?)?;
        }
    }
    names.sort()?;
    Ok(names)
}

// Prints a transcript's line, and says whether its replies are as expected.
fn check<R: Files + Print + AllocGlobal>(rt: &R, name: &str) -> anyhow::Result<bool> {
    let transcript = Transcript::open(rt, name).context(format_args!("{name}"))?;
    let replies = session::answer(rt.alloc(), transcript.input.as_slice())?;
    match Difference::first(replies.as_str(), transcript.expected.as_str()) {
        None => {
            println!(rt; "{name}: ok")?;
            Ok(true)
        }
        Some(difference) => {
            println!(rt; "{name}: {difference}")?;
            Ok(false)
        }
    }
}
