//! Places each outcome at each of eight transactions in a row, from some step of a run on, and checks the account of every run against the cycles that
//! came. It prints a line for each kind of chip and scenario, and ends with an error at the first run whose account differs.
#![tactic(auto)]

mod bench;
mod counts;
mod cycle;
mod kind;
mod log;
mod scenario;
mod script;
mod settings;
mod tally;

use anyhow::Context;
use counts::Counts;
use kind::Known;
use makes::pac193x::Pac193x;
use makes::pac194x::Pac194x;
use scenario::{SCENARIOS, Scenario};

fn main(rt: HostRuntime) -> anyhow::Result<()> {
    println!(rt;
        "every script of {} outcomes, then passes\n{}",
        script::LENGTH,
        counts::HEADING
    )?;
    let mut total = Counts::default();
    check_kind::<Pac193x>(&rt, &mut total)?;
    check_kind::<Pac194x>(&rt, &mut total)?;
    println!(rt;
        "{:<32}{total}\nevery account agrees with its cycles",
        "in all"
    )?;
    Ok(())
}

fn check_kind<C: Known>(rt: &impl Print, total: &mut Counts) -> anyhow::Result<()> {
    for scenario in SCENARIOS {
        let counts = check_scenario::<C>(scenario)?;
        println!(rt; "{}  {:<23}{counts}", C::KIND.name, scenario.name)?;
        total.add(counts);
    }
    Ok(())
}

// Every script.
fn check_scenario<C: Known>(scenario: Scenario) -> anyhow::Result<Counts> {
    let mut counts = Counts::default();
    for number in 0..script::COUNT {
        let script = script::numbered(number);
        let run = bench::run::<C>(scenario, script).context(format_args!(
            "{}, {}, script {script:?}",
            C::KIND.name,
            scenario.name
        ))?;
        counts.add(run);
    }
    Ok(counts)
}
