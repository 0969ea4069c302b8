//! Calls that note events in `Dependencies`, and what rests on these events.
use anyhow::{Error, ensure};
use commit_deps::{Carrier, Dependencies, Mark};
use std::alloc::{AllocError, Global};
use std::hash::{DefaultHasher, Hasher};

/// An event: the carriers that it reads and writes, its change, and how many changes have to be committed for it.
type Noted = (&'static [Carrier], &'static [Carrier], Option<u32>, u64);

const ONE: Carrier = Carrier::Proc(1);

const TWO: Carrier = Carrier::Proc(2);

const FILE: Carrier = Carrier::File(0);

const PIPE: Carrier = Carrier::Pipe(0);

const NAMES: Carrier = Carrier::Names;

const TASKS: Carrier = Carrier::Tasks;

const CARRIERS: &[Carrier] = &[ONE, TWO, FILE, PIPE, NAMES, TASKS];

/// A process makes a file and writes to a pipe, which another reads; then it changes the file too.
const EVENTS: &[Noted] = &[
    (&[ONE, NAMES], &[ONE, NAMES, FILE], Some(0), 1),
    (&[ONE, PIPE], &[ONE, PIPE], None, 1),
    (&[TWO, TASKS], &[TWO, TASKS], None, 0),
    (&[TWO, PIPE], &[TWO, PIPE], None, 1),
    (&[TWO, FILE], &[TWO, FILE], Some(1), 2),
];

/// Whether an event wrote this carrier, and its readers need no more changes than these.
fn needs_no_more(dependencies: &Dependencies, carrier: Carrier, committed: u64) -> bool {
    match dependencies.of(carrier) {
        Some(mark) => mark.below(committed),
        None => false,
    }
}

/// What is seen of the marks, as one number: for each carrier how many changes its readers need.
fn seen_marks(dependencies: &Dependencies) -> u64 {
    let mut state = DefaultHasher::new();
    for carrier in CARRIERS {
        for committed in 0..3 {
            let is_enough = needs_no_more(dependencies, *carrier, committed);
            state.write_u8(u8::from(is_enough));
        }
    }
    state.finish()
}

fn note_once(dependencies: &mut Dependencies, event: &Noted) -> Result<Mark, AllocError> {
    let &(reads, writes, change, _) = event;
    match change {
        Some(change) => dependencies.event(reads, writes, Some(u64::from(change))),
        None => dependencies.event(reads, writes, None),
    }
}

/// Notes an event, once more where it is refused for want of memory.
fn note_surely(dependencies: &mut Dependencies, event: &Noted) -> Result<Mark, Error> {
    let before = seen_marks(dependencies);
    match note_once(dependencies, event) {
        Err(_) => {
            ensure!(
                seen_marks(dependencies) == before,
                "an event that was refused changed the marks"
            );
            Ok(note_once(dependencies, event)?)
        }
        Ok(mark) => Ok(mark),
    }
}

/// Notes the events.
pub fn check_marks(alloc: Global) -> Result<(), Error> {
    let mut dependencies = Dependencies::new(alloc);
    for (place, event) in EVENTS.iter().enumerate() {
        let mark = note_surely(&mut dependencies, event)?;
        let needs = event.3;
        let is_right = mark.below(needs) && (needs == 0 || !mark.below(needs.saturating_sub(1)));
        ensure!(is_right, "event {place} rests on other changes");
    }
    Ok(())
}
