//! Checks the meter against the equations of the makers' data sheets: real cycles, looked at, read, booked and billed on both makes, beside
//! what each equation says of the same codes. It prints a line for each check, and fails if a figure differs.
#![tactic(auto)]

mod bench;
mod case;
mod check;
mod listing;
mod sheet;
mod vectors;

use case::{Case, RATES, Sense, Shunt};
use check::{Check, Tally};
use makes::pac193x::Pac193x;
use makes::pac194x::Pac194x;
use sheet::Sheeted;
use vectors::{ENERGIES, LOOKS, POWERS};

fn main(rt: HostRuntime) -> anyhow::Result<()> {
    let mut tally = Tally::default();
    rt.println(check::HEAD)?;
    check_make::<Pac193x>(&rt, &mut tally)?;
    check_make::<Pac194x>(&rt, &mut tally)?;
    listing::check(&rt, &mut tally)?;
    println!(rt; "{} checks, {} differ", tally.checks, tally.differing)?;
    anyhow::ensure!(tally.differing == 0, "figures differ");
    Ok(())
}

fn check_make<M: Sheeted>(rt: &impl Print, tally: &mut Tally) -> anyhow::Result<()> {
    for (bus, sense) in LOOKS {
        check_looks::<M>(rt, tally, bus, sense)?;
    }
    for (bus, sense) in POWERS {
        check_power::<M>(rt, tally, bus, sense)?;
    }
    for (bus, sense, cycles, shunt) in ENERGIES {
        for rate in RATES {
            check_energy::<M>(
                rt,
                tally,
                Case {
                    bus,
                    sense,
                    cycles,
                    rate,
                    shunt,
                },
            )?;
        }
    }
    Ok(())
}

// Both voltages as a look answers them, and the current that the one over the shunt means.
fn check_looks<M: Sheeted>(
    rt: &impl Print,
    tally: &mut Tally,
    bus: u16,
    sense: Sense,
) -> anyhow::Result<()> {
    let sheet = M::SHEET;
    let case = Case::single(bus, sense, Shunt::TEN_MILLIOHMS);
    let shown = bench::measure::<M>(&case)?;
    let check = Check {
        make: sheet.make,
        case,
        quantity: check::BUS_VOLTAGE,
        sheet: sheet.bus_voltage(bus),
        ours: shown.bus,
    };
    tally.show(rt, check)?;
    let voltage = Check {
        quantity: check::SENSE_VOLTAGE,
        sheet: sheet.sense_voltage(sense),
        ours: shown.sense,
        ..check
    };
    tally.show(rt, voltage)?;
    for shunt in [Shunt::TEN_MILLIOHMS, Shunt::THREE_TENTHS] {
        let current = Check {
            case: Case { shunt, ..case },
            quantity: check::CURRENT,
            sheet: sheet.current(sense, shunt),
            ours: shown.sense / shunt.milliohms(),
            ..check
        };
        tally.show(rt, current)?;
    }
    Ok(())
}

// The power register, as a number and in watts.
fn check_power<M: Sheeted>(
    rt: &impl Print,
    tally: &mut Tally,
    bus: u16,
    sense: Sense,
) -> anyhow::Result<()> {
    let sheet = M::SHEET;
    let case = Case::single(bus, sense, Shunt::TEN_MILLIOHMS);
    let number = sheet.in_register(sense, bench::measure::<M>(&case)?.power);
    let product = Check {
        make: sheet.make,
        case,
        quantity: check::POWER_NUMBER,
        sheet: sheet.power_number(&case),
        ours: number,
    };
    tally.show(rt, product)?;
    let power = Check {
        quantity: check::POWER,
        sheet: sheet.power(&case),
        ours: sheet.power_of(number, &case),
        ..product
    };
    tally.show(rt, power)?;
    Ok(())
}

// The bill.
fn check_energy<M: Sheeted>(rt: &impl Print, tally: &mut Tally, case: Case) -> anyhow::Result<()> {
    let energy = Check {
        make: M::SHEET.make,
        case,
        quantity: check::ENERGY,
        sheet: M::SHEET.energy(&case),
        ours: bench::measure::<M>(&case)?.energy,
    };
    tally.show(rt, energy)?;
    Ok(())
}
