//! `Location`: a register, or bytes of memory; and what locations hold.
ghost use Rattle.std.specs.Prelude.{◌≡◌, ◌++◌, ◌↔◌, IsTrue, OnOk};
ghost use Rattle.timeline.specs.Locations.{byte_in, bytes_from, held_by, held_in};

use debugger::Machine;
use formats::Reg;
use memory::Space;
use std::alloc::AllocError;

/// What a person looks at.
#[derive(Clone, Copy)]
pub enum Location {
    Register(Reg),
    /// So many bytes from an address on. After the greatest address comes 0.
    Bytes { at: u32, length: u32 },
}

/// The byte at an address, if a page is there.
fn byte_in(space: &Space, at: u32) -> Option<u32>
    ensures { result ≡ byte_in space.now at }
{
    match space.byte(at) {
        Some(byte) => Some(u32::from(byte)),
        None => None,
    }
}

fn push_bytes(
    space: &Space,
    at: u32,
    length: u32,
    held: &mut Vec<Option<u32>>,
) -> Result<(), AllocError>
    ensures { OnOk result (held.new.items ≡ held.old.items ++ bytes_from space.now at length) }
{
    for offset in 0..length {
        held.push(byte_in(space, at.wrapping_add(offset)))?;
    }
    Ok(())
}

impl Location {
    /// Adds what it holds in a machine: a register's word, or its bytes, None where no page is.
    fn push_held(self, machine: &Machine, held: &mut Vec<Option<u32>>) -> Result<(), AllocError>
        ensures { OnOk result (held.new.items ≡ held.old.items ++ held_by machine.now self) }
    {
        match self {
            Location::Register(register) => Ok(held.push(Some(machine.reg(register)))?),
            Location::Bytes { at, length } => push_bytes(machine.space(), at, length, held),
        }
    }

    /// How many parts it holds: one word, or its bytes.
    pub fn parts(self) -> usize {
        match self {
            Location::Register(_) => 1,
            Location::Bytes { at: _, length } => length as usize,
        }
    }
}

/// Reads what locations hold in a machine, one after the other.
pub fn read_held(
    locations: &[Location],
    machine: &Machine,
    held: &mut Vec<Option<u32>>,
) -> Result<(), AllocError>
    ensures { OnOk result (held.new.items ≡ held_in locations.now machine.now) }
{
    held.clear();
    for location in locations {
        location.push_held(machine, held)?;
    }
    Ok(())
}

/// Whether the same is held.
pub fn are_same(one: &[Option<u32>], other: &[Option<u32>]) -> bool
    ensures { IsTrue result ↔ (one.now ≡ other.now) }
{
    one == other
}
