//! `OnCall`: how the calls of a tested program are answered.
use crate::numbers::Numbers;
use crate::overwriting::{FIRST, PATTERNS, SIZE};
use anyhow::{Error, bail};
use byte_list::Bytes;
use machine::{Machine, Reply, Stop};
use std::alloc::{AllocError, Global};

/// How a program's calls are answered.
#[derive(Clone, Copy)]
pub enum OnCall {
    /// Not at all: the program ends at a call.
    End,
    /// By bytes over the program's own words, as a read or a pipe places them. The bytes follow from this number and the count of
    /// instructions, so that each run of a program gets the same.
    Overwrite(u32),
}

impl OnCall {
    /// Answers the call at which a machine stands. Says whether it did.
    pub fn answer(self, alloc: Global, machine: &mut Machine) -> Result<bool, Error> {
        match self {
            OnCall::End => Ok(false),
            OnCall::Overwrite(seed) => {
                overwrite(alloc, machine, seed)?;
                Ok(true)
            }
        }
    }
}

/// Answers a call by up to twelve bytes over the program's words.
fn overwrite(alloc: Global, machine: &mut Machine, seed: u32) -> Result<(), Error> {
    let done = (machine.count() % 0x1_0000) as u32;
    let mut numbers = Numbers::new(seed.wrapping_add(done) | 1);
    let size = 1 + numbers.next() % 12;
    let at = FIRST + numbers.next() % (SIZE - 12);
    let reply = Reply::with_bytes(alloc, size, at, bytes(alloc, &mut numbers, size)?)?;
    if machine.stopped() != Some(Stop::Call)
        || machine.count() > 1 << 32
        || !machine.space().takes(at, reply.bytes())
    {
        bail!("a call that cannot be answered");
    }
    machine.reply(&reply);
    Ok(())
}

/// So many bytes of words in a row.
fn bytes(alloc: Global, numbers: &mut Numbers, size: u32) -> Result<Bytes, AllocError> {
    let mut bytes = Vec::new(alloc);
    for _ in 0..3 {
        bytes.extend_from_slice(&numbers.word(PATTERNS).to_le_bytes())?;
    }
    bytes.truncate(size as usize);
    Ok(Bytes::new(bytes))
}
