//! The registers and the memory of a machine, in the digits that gdb reads.
ghost use Rattle.std.specs.Prelude.{◌≡◌, ◌≢◌, [], IfOk, IfSome, IsNone, IsSome};
ghost use Rattle.gdb_packets.specs.Answers.{machine_bytes, registers, told};
ghost use Rattle.gdb_packets.specs.Digits.{hex_of};

use crate::numbers::push_bytes;
use formats::Reg;
use machine::Machine;
use memory::Space;
use std::alloc::{AllocError, Global};

/// How many registers there are beside the pc.
const REGISTERS: u8 = 32;

/// The most bytes of memory in one answer.
const MOST_BYTES: u32 = 4096;

/// The digits of bytes.
fn hex_text(alloc: Global, bytes: &[u8]) -> Result<Vec<u8>, AllocError>
    ensures { IfOk result (λ text. text.items ≡ hex_of bytes.now) }
{
    let mut text = Vec::new(alloc);
    push_bytes(&mut text, bytes)?;
    Ok(text)
}

/// The registers, the lowest byte of each first.
fn bytes_of_registers(alloc: Global, machine: &Machine) -> Result<Vec<u8>, AllocError>
    ensures { IfOk result (λ bytes. bytes.items ≡ registers machine.now.architectural 32) }
{
    let mut bytes = Vec::new(alloc);
    for number in 0..REGISTERS {
        let value = machine.reg(Reg::new(number));
        bytes.extend_from_slice(&value.to_le_bytes())?;
    }
    Ok(bytes)
}

/// The registers, the pc and the count, the lowest byte of each first.
#[tactic(auto, unfolding(crate::specs::Answers::machine_bytes))]
fn bytes_of(alloc: Global, machine: &Machine) -> Result<Vec<u8>, AllocError>
    ensures { IfOk result (λ bytes. bytes.items ≡ machine_bytes machine.now) }
{
    let mut bytes = bytes_of_registers(alloc, machine)?;
    bytes.extend_from_slice(&machine.pc().to_le_bytes())?;
    bytes.extend_from_slice(&machine.count().to_le_bytes())?;
    Ok(bytes)
}

/// The digits of the registers, the pc and the count, the lowest byte of each first.
pub fn registers_of(alloc: Global, machine: &Machine) -> Result<Vec<u8>, AllocError>
    ensures { IfOk result (λ text. text.items ≡ hex_of (machine_bytes machine.now)) }
{
    let bytes = bytes_of(alloc, machine)?;
    hex_text(alloc, &bytes)
}

/// `length` bytes from an address on, or as many as are there.
fn bytes_at(alloc: Global, space: &Space, at: u32, length: u32) -> Result<Vec<u8>, AllocError>
    ensures { IfOk result (λ bytes. bytes.items ≡ told space.now at length) }
{
    let mut bytes = Vec::new(alloc);
    let most = u64::from(length.min(MOST_BYTES)).min((1 << 32) - u64::from(at));
    for n in 0..most {
        match space.byte((u64::from(at) + n) as u32) {
            Some(byte) => bytes.push(byte)?,
            None => return Ok(bytes),
        }
    }
    Ok(bytes)
}

/// The digits of `length` bytes from an address on, or of as many as are there. None where no byte is there.
pub fn memory_at(
    alloc: Global,
    space: &Space,
    at: u32,
    length: u32,
) -> Result<Option<Vec<u8>>, AllocError>
    ensures told { IfOk result (λ answer. IfSome answer (λ text. text.items ≡ hex_of (told space.now at length))) }
    ensures some { IfOk result (λ answer. IsSome answer → told space.now at length ≢ []) }
    ensures none { IfOk result (λ answer. IsNone answer → told space.now at length ≡ []) }
{
    let bytes = bytes_at(alloc, space, at, length)?;
    if bytes.is_empty() {
        return Ok(None);
    }
    Ok(Some(hex_text(alloc, &bytes)?))
}
