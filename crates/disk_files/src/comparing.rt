//! Compares the files of two disks.
use files::FileList;
use std::io;
use std::io::Write;

/// Prints a file that one disk has alone, after this mark.
fn print_alone<O: Write>(
    mark: &[u8],
    files: &FileList,
    place: usize,
    out: &mut O,
) -> io::Result<()> {
    if place >= files.count() {
        return Ok(());
    }
    let length = files.length(place);
    out.write_all(mark)?;
    out.write_all(files.name(place))?;
    writeln!(out, " {length}")
}

/// The place of the first byte that differs; where one ends before the other, its end. None where they are equal.
fn first_difference(one: &[u8], other: &[u8]) -> Option<usize> {
    let differs = one.iter().zip(other).position(|(a, b)| *a != *b);
    match differs {
        None if one.len() != other.len() => Some(one.len().min(other.len())),
        place => place,
    }
}

/// Prints a file that both disks have, if its bytes differ. Whether they do.
fn print_both<O: Write>(name: &[u8], one: &[u8], other: &[u8], out: &mut O) -> io::Result<bool> {
    let Some(place) = first_difference(one, other) else {
        return Ok(false);
    };
    let (length, others) = (one.len(), other.len());
    out.write_all(b"! ")?;
    out.write_all(name)?;
    writeln!(out, " {length} {others} from byte {place} on")?;
    Ok(true)
}

/// Prints the files of the first list that the second has not, or has with other bytes. Gives how many.
fn print_first<O: Write>(one: &FileList, other: &FileList, out: &mut O) -> io::Result<u64> {
    let mut differing = 0u64;
    for place in 0..one.count() {
        let name = one.name(place);
        let differs = match other.find(name) {
            Some(there) => print_both(name, one.bytes(place), other.bytes(there), out)?,
            None => {
                print_alone(b"- ", one, place, out)?;
                true
            }
        };
        if differs {
            differing = differing.saturating_add(1);
        }
    }
    Ok(differing)
}

/// Prints a line for each file in which two disks differ, whatever the order of their files: `- NAME LENGTH` of one that the first has
/// alone, `+ NAME LENGTH` of one that the second has alone, and `! NAME LENGTH LENGTH from byte N on` of one with other bytes. Gives how
/// many these are.
pub fn print_differences<O: Write>(
    one: &FileList,
    other: &FileList,
    out: &mut O,
) -> io::Result<u64> {
    let mut differing = print_first(one, other, out)?;
    for place in 0..other.count() {
        if one.find(other.name(place)).is_none() {
            print_alone(b"+ ", other, place, out)?;
            differing = differing.saturating_add(1);
        }
    }
    Ok(differing)
}
