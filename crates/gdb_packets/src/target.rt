//! The documents that gdb reads in parts, of which one describes the machine's registers.
ghost use Rattle.std.specs.Prelude.{◌≡◌, min, drop, IfOk};
ghost use Rattle.gdb_packets.specs.Answers.{part};

use formats::Reg;
use std::alloc::{AllocError, Global};
use std::fmt::Write;

const REGISTERS: u8 = 32;

/// The most bytes of a part.
const MOST_BYTES: usize = 4096;

/// The type of a register, as gdb names it.
fn type_of(number: u8) -> &'static str {
    match number {
        1 => "code_ptr",
        2 | 3 | 4 | 8 => "data_ptr",
        _ => "int",
    }
}

fn push_register(text: &mut String, name: Reg, is: &str) -> Result<(), AllocError> {
    write!(text, "<reg name=\"{name}\" bitsize=\"32\" type=\"{is}\"/>")
}

/// The registers of the machine in XML: those of RV32, and `count`, how many instructions were done.
pub fn description(alloc: Global) -> Result<String, AllocError> {
    let mut text = String::new(alloc);
    text.push_str(
        "<?xml version=\"1.0\"?><!DOCTYPE target SYSTEM \"gdb-target.dtd\"><target version=\"1.0\">",
    )?;
    text.push_str(
        "<architecture>riscv:rv32</architecture><feature name=\"org.gnu.gdb.riscv.cpu\">",
    )?;
    for number in 0..REGISTERS {
        push_register(&mut text, Reg::new(number), type_of(number))?;
    }
    text.push_str(
        "<reg name=\"pc\" bitsize=\"32\" type=\"code_ptr\"/></feature><feature name=\"bench\">",
    )?;
    text.push_str(
        "<reg name=\"count\" bitsize=\"64\" type=\"uint64\" group=\"general\"/></feature></target>",
    )?;
    Ok(text)
}

/// A part of a document from an offset on. Before the last part of the document stands `l`, before any other `m`.
pub fn part_of(
    alloc: Global,
    document: &[u8],
    offset: u32,
    length: u32,
) -> Result<Vec<u8>, AllocError>
    ensures { IfOk result (λ payload. payload.items ≡ part (min length 4096) (drop offset document.now)) }
{
    let rest = &document[(offset as usize).min(document.len())..];
    let size = (length as usize).min(MOST_BYTES).min(rest.len());
    let mut payload = Vec::new(alloc);
    payload.push(if size == rest.len() { b'l' } else { b'm' })?;
    payload.extend_from_slice(&rest[..size])?;
    Ok(payload)
}
