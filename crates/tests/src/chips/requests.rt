//! Every request at every address: what is read, and what is refused.
use crate::checks::same;
use crate::chips::known::{self, Known, Writes};
use chip::chip::Chip;
use chip::make::Make;
use chip::refusal::{Refusal, Who};
use chip::state::Codes;
use makes::pac193x::Pac193x;
use makes::pac194x::Pac194x;
use std::process::Abort;

const BUSY: [Codes; 4] = [
    Codes {
        bus: 40000,
        sense: 20000,
    },
    Codes {
        bus: 50001,
        sense: 65000,
    },
    Codes {
        bus: 60003,
        sense: 30007,
    },
    Codes {
        bus: 1111,
        sense: 2222,
    },
];

const LATER: [Codes; 4] = [
    Codes { bus: 5, sense: 6 },
    Codes { bus: 7, sense: 8 },
    Codes { bus: 9, sense: 10 },
    Codes { bus: 11, sense: 12 },
];

// Writes settings.
fn set<M: Make>(rt: &impl Abort, chip: &mut Chip<M>, writes: Writes) {
    for (address, bytes) in writes {
        same(rt, chip.write(*address, bytes), Ok(()));
    }
}

// A chip with something to see in every register.
fn busy<M: Make>(rt: &impl Abort, known: Known) -> Chip<M> {
    let [first, second, pending] = known.settings;
    let mut chip = Chip::new();
    set(rt, &mut chip, first);
    same(rt, chip.send(0x00), Ok(()));
    for _ in 0..4 {
        chip.cycle(BUSY);
    }
    set(rt, &mut chip, second);
    same(rt, chip.send(0x00), Ok(()));
    chip.cycle(LATER);
    set(rt, &mut chip, pending);
    chip
}

// A read of these bytes gives what is shown, then FFh.
fn reads_as<M: Make>(rt: &impl Abort, chip: &Chip<M>, address: u8, bytes: &mut [u8], shown: &[u8]) {
    same(rt, chip.read(address, bytes), Ok(()));
    let listed = bytes.len().min(shown.len());
    same(rt, &bytes[..listed], &shown[..listed]);
    for beyond in &bytes[listed..] {
        same(rt, *beyond, 0xff);
    }
}

// Lengths 1, the register's own and 64, from each address of the list.
fn shows_all<M: Make>(rt: &impl Abort, chip: &Chip<M>, known: Known) {
    let mut shown = known.shown;
    for (first, last, width) in known.listed {
        for address in *first..=*last {
            assert!(rt; *width <= 8 && *width <= shown.len());
            reads_as(rt, chip, address, &mut [0], shown);
            reads_as(rt, chip, address, &mut [0; 8][..*width], shown);
            reads_as(rt, chip, address, &mut [0; 64], shown);
            shown = &shown[*width..];
        }
    }
    same(rt, shown.len(), 0);
}

fn refused(address: u8) -> Result<(), Refusal> {
    Err(Refusal::NotAcknowledged(Who::Chip, address))
}

// A bad length comes first, whatever the address; then an address that is not listed. Both leave the bytes.
fn refuses_reads<M: Make>(rt: &impl Abort, chip: &Chip<M>, known: Known) {
    for address in 0..=255 {
        let mut bytes = [0xaa; 65];
        same(rt, chip.read(address, &mut []), Err(Refusal::Limits));
        same(rt, chip.read(address, &mut bytes), Err(Refusal::Limits));
        let is_listed = known
            .listed
            .iter()
            .any(|(first, last, _)| (*first..=*last).contains(&address));
        if !is_listed {
            same(rt, chip.read(address, &mut bytes[..64]), refused(address));
        }
        same(rt, bytes, [0xaa; 65]);
    }
}

// Writes are taken at three addresses with just so many bytes, sends at 00h and 1Fh, and nowhere else.
fn refuses_the_rest<M: Make>(rt: &impl Abort, chip: &mut Chip<M>, known: Known) {
    for address in 0..=255 {
        for len in 0..9 {
            if !known.taken.contains(&(address, len)) {
                let answer = chip.write(address, &[0x5a; 9][..len]);
                same(rt, answer, refused(address));
            }
        }
        if !matches!(address, 0x00 | 0x1f) {
            same(rt, chip.send(address), refused(address));
        }
    }
}

// What is refused leaves the chip as it was.
fn every_request<M: Make + Drop>(rt: &impl Abort, known: Known) {
    let mut chip: Chip<M> = busy(rt, known);
    shows_all(rt, &chip, known);
    refuses_reads(rt, &chip, known);
    refuses_the_rest(rt, &mut chip, known);
    shows_all(rt, &chip, known);
}

#[test]
fn every_request_on_both_makes(rt: HostRuntime) {
    every_request::<Pac193x>(&rt, known::PAC193X);
    every_request::<Pac194x>(&rt, known::PAC194X);
}
