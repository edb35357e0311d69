//! A chip of any make.
ghost use Rattle.std.specs.Prelude.{◌≡◌, ℕ, min, ◌++◌, length, take, drop, replicate};
ghost use Rattle.chip.specs.Chip.{cycled, fresh_chip, good_length};
ghost use Rattle.chip.specs.Chip.{read, write, send, reacts, heard, state_after, bytes_after, reply};
ghost use Rattle.chip.specs.Registers.{big_endian};

use super::make::Make;
use super::refusal::{Refusal, Who};
use super::register;
use super::state::{Codes, State};
use std::marker::PhantomData;

/// How many bytes a read fills at most.
pub const LONGEST_READ: usize = 64;

/// Whether a read may have so many bytes.
pub fn is_readable(length: usize) -> bool
    ensures { result ≡ good_length length }
{
    (1..=LONGEST_READ).contains(&length)
}

/// A chip of one make.
#[derive(Drop)]
pub struct Chip<M> {
    state: State,
    make: PhantomData<M>,
}

impl<M: Make> Chip<M> {
    /// A fresh one.
    pub fn new() -> Chip<M>
        ensures { result.state ≡ fresh_chip M.Make.sheet }
    {
        Chip {
            state: State::fresh(M::constants().fresh),
            make: PhantomData,
        }
    }

    /// One conversion cycle.
    #[inline(always)]
    pub fn cycle(&mut self, codes: [Codes; 4])
        ensures { self.new.state ≡ cycled M.Make.sheet codes self.old.state }
    {
        // The settings are copied behind the test: a cycle that finds all channels off needs no copy of them.
        if !M::masks(self.state.active).all_off() {
            let settings = self.state.active;
            self.state.running.cycle::<M>(settings, &codes);
        }
    }

    /// Fills `bytes` from an address on, register after register.
    pub fn read(&self, address: u8, bytes: &mut [u8]) -> Result<(), Refusal>
        ensures answer { result ≡ heard address (reacts M.Make.sheet self.now.state (read address (length bytes.old))) }
        ensures filled { bytes.new ≡ bytes_after (reacts M.Make.sheet self.now.state (read address (length bytes.old))) bytes.old }
    {
        if !is_readable(bytes.len()) {
            return Err(Refusal::Limits);
        }
        if M::command(address) || M::width(address) == 0 {
            return Err(Refusal::NotAcknowledged(Who::Chip, address));
        }
        self.fill(address, bytes);
        Ok(())
    }

    /// Writes a settings register, with just its bytes.
    pub fn write(&mut self, address: u8, bytes: &[u8]) -> Result<(), Refusal>
        ensures answer { result ≡ heard address (reacts M.Make.sheet self.old.state (write address bytes.now)) }
        ensures after { self.new.state ≡ state_after (reacts M.Make.sheet self.old.state (write address bytes.now)) self.old.state }
    {
        if bytes.len() == M::width(address) {
            let number = register::number_of(bytes);
            if let Some(kept) = M::keeps(address, number, self.state.held) {
                self.state.held = kept;
                return Ok(());
            }
        }
        Err(Refusal::NotAcknowledged(Who::Chip, address))
    }

    /// Sends a command.
    pub fn send(&mut self, address: u8) -> Result<(), Refusal>
        ensures answer { result ≡ heard address (reacts M.Make.sheet self.old.state (send address)) }
        ensures after { self.new.state ≡ state_after (reacts M.Make.sheet self.old.state (send address)) self.old.state }
    {
        let commands = M::constants();
        if address == commands.refresh {
            self.state.refresh();
        } else if address == commands.refresh_v {
            self.state.latch();
        } else {
            return Err(Refusal::NotAcknowledged(Who::Chip, address));
        }
        Ok(())
    }

    // The bytes of a read: register after register from an address on, then FFh.
    fn fill(&self, start: u8, bytes: &mut [u8])
        ensures { bytes.new ≡ reply M.Make.sheet self.now.state start (length bytes.old) }
    {
        // A place, and no slice that shrinks: with that the proof knew only the bytes that were left, and did not close.
        let mut at = 0;
        for address in start..=M::constants().last_address {
            if at == bytes.len() {
                break;
            }
            at += self.show(address, &mut bytes[at..]);
        }
        blank(&mut bytes[at..]);
    }

    // Puts one register's bytes at the start of `bytes`, as many as fit, and answers how many.
    fn show(&self, address: u8, bytes: &mut [u8]) -> usize
        ensures count { result ≡ min (M.Make.sheet.width address) (length bytes.old) }
        ensures after { bytes.new ≡ take (length bytes.old) (big_endian (M.Make.sheet.width address) (M.Make.sheet.shows self.now.state address)) ++ drop (M.Make.sheet.width address) bytes.old }
    {
        register::put(M::shows(&self.state, address), M::width(address), bytes)
    }
}

// FFh in each byte.
fn blank(bytes: &mut [u8])
    ensures { bytes.new ≡ replicate (length bytes.old) 255 }
{
    bytes.fill(0xff);
}
