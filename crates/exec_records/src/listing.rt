//! A program's parts, each with a count.
use exec_files::{LoadedProgram, Part, WordText};
use faults::{Fault, write_line};
use std::alloc::Global;
use std::io::Write;

/// Past all addresses.
const END: u64 = 1 << 32;

/// Where the part of a place begins; past all addresses if there is none.
fn start_of(parts: &[Part<'_>], place: usize) -> u64 {
    match parts.get(place) {
        Some(part) => u64::from(part.start),
        None => END,
    }
}

/// The entries at addresses below this one, and the others.
fn split_below(entries: &[(u32, u64)], end: u64) -> (&[(u32, u64)], &[(u32, u64)]) {
    entries.split_at(entries.partition_point(|entry| u64::from(entry.0) < end))
}

fn sum_of(entries: &[(u32, u64)]) -> u64 {
    let mut sum = 0u64;
    for (_address, count) in entries {
        sum = sum.saturating_add(*count);
    }
    sum
}

/// Prints how many instructions of a program were executed: in all, at each word before its parts, and in each part, if it
/// is a line or if some of it were. The entries have the addresses, in ascending order, and how many were executed there.
pub fn print_listing<E: Write>(
    alloc: Global,
    program: &LoadedProgram,
    entries: &[(u32, u64)],
    err: &mut E,
) -> Result<(), Fault> {
    let path = program.places.path.as_str();
    let all = sum_of(entries);
    write_line(err, format_args!("profile of {path}: {all} instructions"))?;
    let parts = program.parts(alloc)?;
    let (words, mut rest) = split_below(entries, start_of(parts.as_slice(), 0));
    for (address, count) in words {
        let address = *address;
        let word = WordText { program, address };
        write_line(err, format_args!("{count:>12}  {word}"))?;
    }
    for (place, part) in parts.iter().enumerate() {
        let end = start_of(parts.as_slice(), place.saturating_add(1));
        let (inside, after) = split_below(rest, end);
        rest = after;
        let (count, name) = (sum_of(inside), part.name);
        if count > 0 || name.is_line() {
            write_line(err, format_args!("{count:>12}  {path}{name}"))?;
        }
    }
    Ok(())
}
