//! Reading the body of a record.
ghost use Rattle.std.specs.Prelude.{◌≡◌, length};
ghost use Rattle.std.specs.Int.{w16, w32};
ghost use Rattle.journal.specs.Reading.{Gives, number_at, text_at, name_at, create_at, write_at, empty_at, remove_at, rename_at, change_at, changes_at, body_at, all_name_bytes};

use crate::fault::DiskFault;
use byte_list::Bytes;
use disk_model::{Change, LONGEST_FILE_WRITE, LONGEST_NAME};
use std::alloc::Global;

/// A number of two bytes, little-endian, and the bytes after it.
fn u16_at(bytes: &[u8]) -> Result<(u16, &[u8]), DiskFault>
    ensures { Gives (λ x. (x.0, x.1.now)) result (number_at w16 bytes.now) }
{
    if bytes.len() < 2 {
        return Err(DiskFault::BadRecord);
    }
    let (prefix, rest) = bytes.split_at(2);
    let number = u16::from_le_bytes([prefix[0], prefix[1]]);
    Ok((number, rest))
}

/// A number of four bytes, little-endian, and the bytes after it.
fn u32_at(bytes: &[u8]) -> Result<(u32, &[u8]), DiskFault>
    ensures { Gives (λ x. (x.0, x.1.now)) result (number_at w32 bytes.now) }
{
    if bytes.len() < 4 {
        return Err(DiskFault::BadRecord);
    }
    let (prefix, rest) = bytes.split_at(4);
    let number = u32::from_le_bytes([prefix[0], prefix[1], prefix[2], prefix[3]]);
    Ok((number, rest))
}

/// A copy of the first n bytes, and the bytes after them.
fn text_of(alloc: Global, n: usize, bytes: &[u8]) -> Result<(Bytes, &[u8]), DiskFault>
    ensures { Gives (λ x. (x.0, x.1.now)) result (text_at n bytes.now) }
{
    if bytes.len() < n {
        return Err(DiskFault::BadRecord);
    }
    let (text, rest) = bytes.split_at(n);
    Ok((Bytes::copy_of(alloc, text)?, rest))
}

/// Whether a file's name may have each of these bytes.
fn are_name_bytes(bytes: &[u8]) -> bool
    ensures { result ≡ all_name_bytes bytes.now }
{
    for byte in bytes {
        if *byte < 0x21 || *byte > 0x7e || *byte == b'/' {
            return false;
        }
    }
    true
}

/// A name of 1 to 32 bytes after its length, which is one byte, and the bytes after it.
#[tactic(auto, unfolding(crate::specs::Reading::name_at))]
fn name_of(alloc: Global, bytes: &[u8]) -> Result<(Bytes, &[u8]), DiskFault>
    ensures { Gives (λ x. (x.0, x.1.now)) result (name_at bytes.now) }
{
    match bytes {
        [] => Err(DiskFault::BadRecord),
        [n, rest @ ..] => {
            let n = *n as usize;
            let (name, rest) = text_of(alloc, n, rest)?;
            if n < 1 || n > LONGEST_NAME as usize || !are_name_bytes(name.as_slice()) {
                return Err(DiskFault::BadRecord);
            }
            Ok((name, rest))
        }
    }
}

/// A creation, from the bytes after its kind.
#[tactic(auto, unfolding(crate::specs::Reading::create_at))]
fn create_of(alloc: Global, bytes: &[u8]) -> Result<(Change, &[u8]), DiskFault>
    ensures { Gives (λ x. (x.0, x.1.now)) result (create_at bytes.now) }
{
    let (name, rest) = name_of(alloc, bytes)?;
    Ok((Change::Create(name), rest))
}

/// A write, from the bytes after its kind.
#[tactic(auto, unfolding(crate::specs::Reading::write_at))]
fn write_of(alloc: Global, bytes: &[u8]) -> Result<(Change, &[u8]), DiskFault>
    ensures { Gives (λ x. (x.0, x.1.now)) result (write_at bytes.now) }
{
    let (file, rest) = u16_at(bytes)?;
    let (offset, rest) = u32_at(rest)?;
    let (n, rest) = u16_at(rest)?;
    let (bytes, rest) = text_of(alloc, n as usize, rest)?;
    if n < 1 || n as u32 > LONGEST_FILE_WRITE {
        return Err(DiskFault::BadRecord);
    }
    let change = Change::Write {
        file,
        offset,
        bytes,
    };
    Ok((change, rest))
}

/// An emptying, from the bytes after its kind.
#[tactic(auto, unfolding(crate::specs::Reading::empty_at))]
fn empty_of(bytes: &[u8]) -> Result<(Change, &[u8]), DiskFault>
    ensures { Gives (λ x. (x.0, x.1.now)) result (empty_at bytes.now) }
{
    let (file, rest) = u16_at(bytes)?;
    Ok((Change::Empty(file), rest))
}

/// A removal, from the bytes after its kind.
#[tactic(auto, unfolding(crate::specs::Reading::remove_at))]
fn remove_of(bytes: &[u8]) -> Result<(Change, &[u8]), DiskFault>
    ensures { Gives (λ x. (x.0, x.1.now)) result (remove_at bytes.now) }
{
    let (file, rest) = u16_at(bytes)?;
    Ok((Change::Remove(file), rest))
}

/// A renaming, from the bytes after its kind.
#[tactic(auto, unfolding(crate::specs::Reading::rename_at))]
fn rename_of(alloc: Global, bytes: &[u8]) -> Result<(Change, &[u8]), DiskFault>
    ensures { Gives (λ x. (x.0, x.1.now)) result (rename_at bytes.now) }
{
    let (file, rest) = u16_at(bytes)?;
    let (name, rest) = name_of(alloc, rest)?;
    Ok((Change::Rename { file, name }, rest))
}

/// A change, of the kind that its first byte says, and the bytes after it.
#[tactic(auto, unfolding(crate::specs::Reading::change_at))]
fn change_of(alloc: Global, bytes: &[u8]) -> Result<(Change, &[u8]), DiskFault>
    ensures { Gives (λ x. (x.0, x.1.now)) result (change_at bytes.now) }
{
    match bytes {
        [1, rest @ ..] => create_of(alloc, rest),
        [2, rest @ ..] => write_of(alloc, rest),
        [3, rest @ ..] => empty_of(rest),
        [4, rest @ ..] => remove_of(rest),
        [5, rest @ ..] => rename_of(alloc, rest),
        _ => Err(DiskFault::BadRecord),
    }
}

/// The body of the record whose gate lies before these bytes, and the rest from the next gate on. PastHalf where that gate is not
/// in the half.
#[tactic(auto, unfolding(crate::specs::Reading::body_at))]
pub fn body_in(bytes: &[u8]) -> Result<(&[u8], &[u8]), DiskFault>
    ensures { Gives (λ x. (x.0.now, x.1.now)) result (body_at bytes.now) }
{
    if bytes.len() < 4 {
        return Err(DiskFault::PastHalf);
    }
    let (prefix, rest) = bytes.split_at(4);
    let n = u32::from_le_bytes([prefix[0], prefix[1], prefix[2], prefix[3]]) as usize;
    if rest.len() <= n {
        return Err(DiskFault::PastHalf);
    }
    Ok(rest.split_at(n))
}

/// The changes that all bytes of a body spell.
pub fn read_changes(alloc: Global, bytes: &[u8]) -> Result<Vec<Change>, DiskFault>
    ensures { Gives (λ v. v.items) result (changes_at (length bytes.now) bytes.now) }
{
    let mut changes = Vec::new(alloc);
    let mut rest = bytes;
    for _ in 0..bytes.len() {
        if rest.is_empty() {
            return Ok(changes);
        }
        let (change, after) = change_of(alloc, rest)?;
        changes.push(change)?;
        rest = after;
    }
    if rest.is_empty() {
        Ok(changes)
    } else {
        Err(DiskFault::BadRecord)
    }
}
