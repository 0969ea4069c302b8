//! What instructions and replies load and store.
ghost use Rattle.std.specs.Prelude.{◌≡◌};
ghost use Rattle.memory_model.specs.Access.{size as size_of};
ghost use Rattle.machine_model.specs.Effects.{moved as moved_by, reg as register};
ghost use Rattle.debugger.specs.Accesses.{access_of as access_in, accessed, fetched_access, stored_by as stores_of};

use formats::{Immediate, Instr, Reg, decode};
use isa_table::moved;
use machine::{Machine, Reply};
use machine_model::Width;

/// Whether bytes are loaded or stored.
#[derive(Clone, Copy, Debug, PartialEq, Eq)]
pub enum AccessKind {
    Load,
    Store,
}

/// Bytes that are loaded or stored, at ascending addresses.
#[derive(Clone, Copy)]
pub struct Access {
    /// The address of the first byte.
    pub at: u32,
    /// How many bytes there are, 1 to 2^32. The last one is at an address below 2^32.
    pub length: u64,
    pub kind: AccessKind,
}

fn size(width: Width) -> u64
    ensures { result ≡ size_of width }
{
    match width {
        Width::Byte => 1,
        Width::Half => 2,
        Width::Word => 4,
    }
}

/// The bytes of a width at the address that a register and an immediate name.
fn named(
    machine: &Machine,
    kind: AccessKind,
    base: Reg,
    imm: Immediate,
    width: Width,
) -> Option<Access>
    ensures { result ≡ accessed kind (moved_by (register machine.now.architectural base) imm) width }
{
    Some(Access {
        at: moved(machine.reg(base), imm.value()),
        length: size(width),
        kind,
    })
}

/// What an instruction of a machine loads or stores, if it does.
fn access_of(machine: &Machine, instr: Instr) -> Option<Access>
    ensures { result ≡ access_in instr machine.now.architectural }
{
    match instr {
        Instr::Load {
            operator,
            rs1,
            imm,
            ..
        } => named(machine, AccessKind::Load, rs1, imm, operator.width()),
        Instr::Store {
            width,
            rs1,
            imm,
            ..
        } => named(machine, AccessKind::Store, rs1, imm, width),
        _ => None,
    }
}

/// What the instruction at the program counter of a machine loads or stores, if there is one that does.
pub fn access_at(machine: &Machine) -> Option<Access>
    ensures { result ≡ fetched_access machine.now }
{
    match machine.space().fetch(machine.pc()) {
        Ok(word) => match decode(word) {
            Some(instr) => access_of(machine, instr),
            None => None,
        },
        Err(_) => None,
    }
}

/// What a reply stores, if it does: its bytes, or all of the memory where it has an image.
pub fn stored_by(reply: &Reply) -> Option<Access>
    ensures { result ≡ stores_of reply.now }
{
    if reply.has_image() {
        return Some(Access {
            at: 0,
            length: 1 << 32,
            kind: AccessKind::Store,
        });
    }
    if reply.bytes().is_empty() {
        return None;
    }
    Some(Access {
        at: reply.at(),
        length: reply.bytes().len() as u64,
        kind: AccessKind::Store,
    })
}
