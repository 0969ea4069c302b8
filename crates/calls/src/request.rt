//! Which call a machine asks for that stands at one.
//!
//! Read `request_of`: it reads the registers, and copies the bytes that they name. The request is the definitions', and only those
//! bytes take memory.
ghost use Rattle.std.specs.Prelude.{◌≡◌, ◌+◌, ◌==◌, ◌||◌, None, IfOk, IsOk};
ghost use Rattle.kernel_model.specs.Requests.{read_bytes, may_be_placed, longest_names, most_bytes, word_size, request_of as request_at};
ghost use Rattle.kernel_model.specs.Wholes.{AreWhole, IsWhole, HoldsNone};

use byte_list::Bytes;
use call_forms::Call;
use disk_model::LONGEST_NAME;
use formats::Reg;
use kernel_model::{MOST_BYTES, Request};
use machine::Machine;
use memory::CopyFault;
use std::alloc::{AllocError, Global};

/// The most bytes of two names.
const LONGEST_NAMES: u32 = 2 * LONGEST_NAME;

/// The bytes of two words, as which a pipe's descriptors are written.
const PAIR_SIZE: u32 = 8;

/// The bytes of a word, as which a child's status is written.
const WORD_SIZE: u32 = 4;

/// The bytes that a call names, where they are at most so many and the process may read them. Else no memory is taken.
fn named_bytes(
    alloc: Global,
    machine: &Machine,
    at: u32,
    n: u32,
    most: u32,
) -> Result<Option<Bytes>, AllocError>
    ensures read { IfOk result (λ bytes. bytes ≡ read_bytes machine.now.architectural.memory most at n) }
    ensures whole { IfOk result (λ bytes. AreWhole most n bytes) }
    ensures none { read_bytes machine.now.architectural.memory most at n ≡ None → IsOk result }
{
    if n > most {
        return Ok(None);
    }
    match machine.space().copy_in(alloc, at, n) {
        Ok(bytes) => Ok(Some(bytes)),
        Err(CopyFault::Fault(_)) => Ok(None),
        Err(CopyFault::OutOfMemory) => Err(AllocError),
    }
}

/// As `named_bytes`, of two names of n and of m bytes one after the other, at most 64.
fn named_pair(
    alloc: Global,
    machine: &Machine,
    at: u32,
    n: u32,
    m: u32,
) -> Result<Option<Bytes>, AllocError>
    ensures read { IfOk result (λ names. names ≡ read_bytes machine.now.architectural.memory longest_names at (n + m)) }
    ensures whole { IfOk result (λ names. AreWhole longest_names (n + m) names) }
    ensures none { read_bytes machine.now.architectural.memory longest_names at (n + m) ≡ None → IsOk result }
{
    match n.checked_add(m) {
        Some(size) => named_bytes(alloc, machine, at, size, LONGEST_NAMES),
        None => Ok(None),
    }
}

/// Whether n bytes that a call gives are not too many, and the process may write them at an address.
fn may_be_placed(machine: &Machine, at: u32, n: u32) -> bool
    ensures { result ≡ may_be_placed machine.now.architectural.memory most_bytes at n }
{
    n <= MOST_BYTES && machine.space().writable(at, n)
}

/// A wait at the address 0 asks for no status.
fn may_take_status(machine: &Machine, at: u32) -> bool
    ensures { result ≡ ((at == 0) || may_be_placed machine.now.architectural.memory word_size at word_size) }
{
    at == 0 || machine.space().writable(at, WORD_SIZE)
}

/// The call that the registers name: its number in a7, its arguments in a0 to a2, with the bytes that it names. Refused for want of
/// memory alone, which only the bytes of a write or of names take.
pub fn request_of(alloc: Global, machine: &Machine) -> Result<Request, AllocError>
    ensures request { IfOk result (λ r. r ≡ request_at machine.now) }
    ensures whole { IfOk result (λ r. IsWhole r) }
    ensures none { HoldsNone (request_at machine.now) → IsOk result }
{
    let a0 = machine.reg(Reg::new(10));
    let a1 = machine.reg(Reg::new(11));
    let a2 = machine.reg(Reg::new(12));
    let Some(call) = Call::of(machine.reg(Reg::new(17))) else {
        return Ok(Request::Unknown);
    };
    match call {
        Call::Exit => Ok(Request::Exit { status: a0 }),
        Call::Write => Ok(Request::Write {
            fd: a0,
            n: a2,
            bytes: named_bytes(alloc, machine, a1, a2, MOST_BYTES)?,
        }),
        Call::Read => Ok(Request::Read {
            fd: a0,
            at: a1,
            n: a2,
            fits: may_be_placed(machine, a1, a2),
        }),
        Call::Open => Ok(Request::Open {
            n: a1,
            mode: a2,
            name: named_bytes(alloc, machine, a0, a1, LONGEST_NAME)?,
        }),
        Call::Close => Ok(Request::Close { fd: a0 }),
        Call::Pipe => Ok(Request::Pipe {
            at: a0,
            fits: machine.space().writable(a0, PAIR_SIZE),
        }),
        Call::Fork => Ok(Request::Fork),
        Call::Wait => Ok(Request::Wait {
            at: a0,
            fits: may_take_status(machine, a0),
        }),
        Call::GetPid => Ok(Request::GetPid),
        Call::Seek => Ok(Request::Seek { fd: a0, offset: a1 }),
        Call::Sync => Ok(Request::Sync),
        Call::Unlink => Ok(Request::Unlink {
            n: a1,
            name: named_bytes(alloc, machine, a0, a1, LONGEST_NAME)?,
        }),
        Call::Rename => Ok(Request::Rename {
            n: a1,
            m: a2,
            names: named_pair(alloc, machine, a0, a1, a2)?,
        }),
        Call::Exec => Ok(Request::Exec {
            n: a1,
            name: named_bytes(alloc, machine, a0, a1, LONGEST_NAME)?,
        }),
    }
}
