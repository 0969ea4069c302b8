//! `converse`: starts the two threads of a conversation, of which one reads from gdb, and one answers.
use crate::conversation::Conversation;
use crate::inbox::Inbox;
use crate::keeper::Keeper;
use crate::session::Session;
use std::alloc::Global;
use std::io::{Read, Write};
use std::sync::{Mutex, Wait};
use std::thread;
use std::thread::Threads;
use timeline::SessionFault;

/// An input, for the thread that reads.
#[derive(Drop)]
struct Source<'i, I> {
    input: &'i mut I,
}

/// A conversation, for the thread that computes, and how it ended.
#[derive(Drop)]
struct Desk<'x, K, O> {
    conversation: Conversation<'x, K, O>,
    ended: Result<(), SessionFault>,
}

/// What the thread that reads does.
fn read<R: Wait, I: Read>(rt: &R, alloc: Global, inbox: &Inbox, source: &Mutex<Source<'_, I>>) {
    let mut source = source.lock(rt);
    inbox.fill(rt, alloc, source.input);
}

/// What the thread that computes does.
fn compute<R: Wait, K: Keeper, O: Write>(rt: &R, inbox: &Inbox, desk: &Mutex<Desk<'_, K, O>>) {
    let mut desk = desk.lock(rt);
    let ended = desk.conversation.answer_all(rt, inbox);
    inbox.close(rt);
    desk.ended = ended;
}

/// Runs both threads. Where the thread that reads cannot be had, nothing is answered.
fn run_both<R: Threads + Wait + Sync, I: Read + Send, K: Keeper, O: Write>(
    rt: &R,
    alloc: Global,
    inbox: &Inbox,
    source: &Mutex<Source<'_, I>>,
    desk: &Mutex<Desk<'_, K, O>>,
) {
    thread::scope(thread::scope_env(), rt, |scope| {
        if scope.spawn(move || read(rt, alloc, inbox, source)).is_ok() {
            compute(rt, inbox, desk);
        }
    });
}

/// Answers gdb: reads its packets from `input`, and writes the answers to `out`. A thread reads, so that a run is interrupted where
/// gdb asks for it. The conversation ends where gdb leaves, or the input ends. The packets before the end are answered, for which
/// the machine goes on for no more than 1,024 slices. An input that cannot be read is a fault, and no end of the input.
pub fn converse<R: Threads + Wait + Sync, I: Read + Send, K: Keeper, O: Write>(
    rt: &R,
    alloc: Global,
    session: Session,
    keeper: &mut K,
    input: &mut I,
    out: &mut O,
) -> Result<(), SessionFault> {
    let source = Mutex::new(Source { input });
    let conversation = Conversation::new(alloc, session, keeper, out);
    let desk = Mutex::new(Desk {
        conversation,
        ended: Err(SessionFault::OutOfMemory),
    });
    run_both(rt, alloc, &Inbox::new(alloc), &source, &desk);
    desk.into_inner().ended
}
