//! The cone of an event in a picture: what it does not rest on is pale, and arrows show the paths between processes.
use crate::paths::{Past, directly_before, pasts_of};
use faults::Fault;
use kernel::Core;
use pictures::{Arrow, Deed, Picture};
use scripts::cone_numbers;
use std::alloc::Global;

/// The row of the event of this number.
fn row_of(event: u64) -> usize {
    event.saturating_sub(1) as usize
}

/// Makes the rows of all events pale that are not in a cone.
fn make_pale(picture: &mut Picture, cone: &[u64]) {
    for row in picture.rows.iter_mut() {
        row.pale = true;
    }
    for event in cone {
        if let Some(row) = picture.rows.get_mut(row_of(*event)) {
            row.pale = false;
        }
    }
}

/// Whether a row is there and not pale.
fn is_full(picture: &Picture, row: usize) -> bool {
    matches!(picture.rows.get(row), Some(row) if !row.pale)
}

/// How many changes were made in rows that are not pale.
fn full_changes(picture: &Picture) -> usize {
    picture
        .changes
        .iter()
        .filter(|change| is_full(picture, change.row))
        .count()
}

/// The process of an event.
fn process_at(picture: &Picture, event: u64) -> Option<u32> {
    match &picture.rows.get(row_of(event))?.deed {
        Deed::Turn { process } | Deed::Call { process, .. } => Some(*process),
        Deed::Disk | Deed::Note(_) => None,
    }
}

/// Adds arrows to an event, from the events of other processes that are directly before it.
fn push_arrows(
    alloc: Global,
    picture: &mut Picture,
    pasts: &[Past],
    past: &Past,
) -> Result<(), Fault> {
    let process = process_at(picture, past.event);
    for event in directly_before(alloc, pasts, past)?.as_slice() {
        if process_at(picture, *event) != process {
            picture.arrows.push(Arrow {
                from: row_of(*event),
                to: row_of(past.event),
            })?;
        }
    }
    Ok(())
}

/// Shows in the picture of a run on what event number `event` rests. `Fault::Event`: there is no such event, or it is one of the
/// disk.
pub fn show_cone(
    alloc: Global,
    core: &Core,
    picture: &mut Picture,
    event: u64,
) -> Result<(), Fault> {
    let cone = cone_numbers(core, event)?;
    make_pale(picture, cone.as_slice());
    let (events, changes) = (cone.len(), full_changes(picture));
    picture.heading = format!(in alloc;
        "What event {event} rests on: {events} events, {changes} changes"
    )?;
    picture.focus = row_of(event);
    let pasts = pasts_of(alloc, core, cone.as_slice())?;
    for past in pasts.as_slice() {
        push_arrows(alloc, picture, pasts.as_slice(), past)?;
    }
    Ok(())
}
