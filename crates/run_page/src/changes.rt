//! What a change does.
use crate::file_data::{ChangeData, ChangeDeed};
use byte_list::Bytes;
use disk_model::Change;
use kernel::Core;
use kernel_model::Request;
use run_events::EventRecord;
use std::alloc::{AllocError, Global};

/// The name of the file at a place; empty if there is none.
fn name_at(core: &Core, place: u16) -> &[u8] {
    let files = core.tables().files.list();
    if usize::from(place) < files.count() {
        files.name(usize::from(place))
    } else {
        &[]
    }
}

/// The first so many bytes that a call names, if the process may read them.
fn first_bytes(bytes: &Option<Bytes>, count: u32) -> &[u8] {
    match bytes {
        Some(bytes) => {
            let bytes = bytes.as_slice();
            bytes.get(..count as usize).unwrap_or(bytes)
        }
        None => &[],
    }
}

/// The name that a file had before the call by which it is gone, or has another one.
fn old_name<'a>(request: Option<&'a Request>) -> &'a [u8] {
    match request {
        Some(Request::Unlink { name, .. }) => first_bytes(name, u32::MAX),
        Some(Request::Rename { n, names, .. }) => first_bytes(names, *n),
        _ => &[],
    }
}

/// What a change does, and the name of its file.
fn deed_of<'a>(
    alloc: Global,
    core: &'a Core,
    change: &'a Change,
    request: Option<&'a Request>,
) -> Result<(&'a [u8], ChangeDeed), AllocError> {
    Ok(match change {
        Change::Create(name) => (name.as_slice(), ChangeDeed::Make),
        Change::Write {
            file,
            offset,
            bytes,
        } => {
            let at = *offset;
            let bytes = u32::try_from(bytes.as_slice().len()).unwrap_or(u32::MAX);
            (name_at(core, *file), ChangeDeed::Write { at, bytes })
        }
        Change::Empty(file) => (name_at(core, *file), ChangeDeed::Empty),
        Change::Remove(_) => (old_name(request), ChangeDeed::Remove),
        Change::Rename { name, .. } => {
            let to = String::from_utf8_lossy(alloc, name.as_slice())?;
            (old_name(request), ChangeDeed::Rename { to })
        }
    })
}

/// The change that the last event of a core made.
pub fn change_of(
    alloc: Global,
    core: &Core,
    done: &EventRecord<'_>,
    change: &Change,
) -> Result<ChangeData, AllocError> {
    let (name, deed) = deed_of(alloc, core, change, done.request)?;
    Ok(ChangeData {
        e: core.history().len() as u64,
        p: done.process(),
        file: String::from_utf8_lossy(alloc, name)?,
        deed,
    })
}
