//! `seen`: all that is seen of a core, as one number. Taking it needs no memory, so it can be asked for where a growth is refused.
use crate::cores::TestCore;
use kernel::{Event, Refused, Standing};
use kernel_model::TERMINALS;
use machine_model::Reply;
use std::hash::{DefaultHasher, Hash, Hasher};

/// A number for the kind of an event, with its two numbers, 0 where it has fewer.
fn parts_of(event: Event) -> (u8, u32, u32) {
    match event {
        Event::Turn { pid, n } => (1, pid, n),
        Event::Enter { pid } => (2, pid, 0),
        Event::Cut => (3, 0, 0),
        Event::Complete { at } => (4, at, 0),
        Event::Fail { at } => (5, at, 0),
    }
}

fn add_events(state: &mut DefaultHasher, events: &[Event]) {
    state.write_u64(events.len() as u64);
    for event in events {
        let (kind, first, second) = parts_of(*event);
        state.write_u8(kind);
        state.write_u32(first);
        state.write_u32(second);
    }
}

/// Events as one number.
pub fn seen_events(events: &[Event]) -> u64 {
    let mut state = DefaultHasher::new();
    add_events(&mut state, events);
    state.finish()
}

fn add_counts(state: &mut DefaultHasher, core: &TestCore) {
    state.write_u64(core.changes());
    state.write_u64(core.committed());
    state.write_u64(core.ran());
    state.write_u8(u8::from(core.wants_cut()));
    for write in core.writes_in_flight() {
        state.write_u32(write.at);
        write.bytes.as_slice().hash(state);
    }
}

fn add_terminals(state: &mut DefaultHasher, core: &TestCore) {
    for terminal in 0..TERMINALS as u32 {
        core.shown(terminal).hash(state);
    }
}

fn add_replies(state: &mut DefaultHasher, replies: &[Reply]) {
    for reply in replies {
        state.write_u32(reply.a0());
        state.write_u32(reply.at());
        reply.bytes().hash(state);
        state.write_u8(u8::from(reply.has_image()));
    }
}

fn number_of(standing: Result<Standing, Refused>) -> u8 {
    match standing {
        Ok(Standing::Ended) => 1,
        Ok(Standing::Lent) => 2,
        Ok(Standing::Waits) => 3,
        Ok(Standing::Free) => 4,
        Err(_) => 5,
    }
}

/// Adds what is seen of the processes, whose numbers go from 1 on.
fn add_processes(state: &mut DefaultHasher, core: &TestCore) {
    for pid in 1..u32::MAX {
        let Ok(replies) = core.replies(pid) else {
            return;
        };
        add_replies(state, replies);
        core.ended(pid).unwrap_or(None).hash(state);
        state.write_u8(number_of(core.standing(pid)));
        if let Ok(machine) = core.machine(pid) {
            state.write_u64(machine.count());
        }
    }
}

/// A core as one number: its history, its counts, its writes in flight, and what its terminals show. Of each process the number has
/// the replies and the end that are handed out, how the process stands, and how many instructions it did.
pub fn seen(core: &TestCore) -> u64 {
    let mut state = DefaultHasher::new();
    add_events(&mut state, core.history());
    add_counts(&mut state, core);
    add_terminals(&mut state, core);
    add_processes(&mut state, core);
    state.finish()
}
