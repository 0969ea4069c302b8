//! The cones of events.
use crate::file_data::ChangeData;
use faults::Fault;
use kernel::{Core, Event};
use scripts::{cone_numbers, process_of};
use std::alloc::Global;
use std::collections::BTreeMap;

/// Of each process with an event in the cone of the last event of a history, the number of the last of these. None for an event of
/// the disk.
pub fn last_cone(alloc: Global, core: &Core, event: Event) -> Result<BTreeMap<u32, u64>, Fault> {
    let mut lasts = BTreeMap::new(alloc);
    if process_of(event).is_none() {
        return Ok(lasts);
    }
    let history = core.history();
    for number in cone_numbers(core, history.len() as u64)?.as_slice() {
        let place = number.saturating_sub(1) as usize;
        if let Some(process) = history.get(place).copied().and_then(process_of) {
            lasts.insert(process, *number)?;
        }
    }
    Ok(lasts)
}

/// Whether a change was made in a cone.
fn is_within(lasts: &BTreeMap<u32, u64>, change: &ChangeData) -> bool {
    match lasts.get(&change.p) {
        Some(last) => change.e <= *last,
        None => false,
    }
}

/// How many changes have to be committed until all are that were made in a cone.
pub fn needs_of(lasts: &BTreeMap<u32, u64>, changes: &[ChangeData]) -> u64 {
    let mut needs = 0;
    for (place, change) in changes.iter().enumerate() {
        if is_within(lasts, change) {
            needs = (place as u64).saturating_add(1);
        }
    }
    needs
}
