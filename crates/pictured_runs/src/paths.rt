//! The paths between the events of a cone: which events are directly before another, with no event between.
use faults::Fault;
use kernel::Core;
use pictures::MOST_ROWS;
use scripts::cone_numbers;
use std::alloc::{AllocError, Global};
use std::collections::BTreeSet;

/// An event, and the events on which it rests, in order.
pub struct Past {
    pub event: u64,
    pub events: Vec<u64>,
}

impl Drop for Past {
    fn drop(self) {
        let Past {
            event: _,
            events: _events,
        } = self;
    }
}

/// The number of the last event that no longer fits into a picture which ends with event `last`.
fn floor_of(last: u64) -> u64 {
    last.saturating_sub(MOST_ROWS as u64)
}

/// The past of an event, without the events up to number `floor`.
fn past_of(alloc: Global, core: &Core, event: u64, floor: u64) -> Result<Past, Fault> {
    let cone = cone_numbers(core, event)?;
    let events = cone
        .iter()
        .copied()
        .filter(|before| *before != event && *before > floor)
        .collect(alloc)?;
    Ok(Past { event, events })
}

/// The pasts of the last events of a cone, of as many as a picture can have.
pub fn pasts_of(alloc: Global, core: &Core, cone: &[u64]) -> Result<Vec<Past>, Fault> {
    let floor = floor_of(cone.last().copied().unwrap_or(0));
    let mut pasts = Vec::new(alloc);
    for event in cone {
        if *event > floor {
            pasts.push(past_of(alloc, core, *event, floor)?)?;
        }
    }
    Ok(pasts)
}

/// The events of `past` that are directly before its event, the last one first. Left out is an event on which another one of this
/// past rests.
pub fn directly_before(alloc: Global, pasts: &[Past], past: &Past) -> Result<Vec<u64>, AllocError> {
    let mut direct = Vec::new(alloc);
    let mut behind = BTreeSet::new(alloc);
    for event in past.events.iter().rev() {
        if behind.contains(event) {
            continue;
        }
        direct.push(*event)?;
        if let Some(before) = pasts.iter().find(|before| before.event == *event) {
            for earlier in before.events.as_slice() {
                behind.insert(*earlier)?;
            }
        }
    }
    Ok(direct)
}
