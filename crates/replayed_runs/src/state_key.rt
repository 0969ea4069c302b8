//! What tells a run from others: a digest of its whole state.
ghost use Rattle.std.specs.Prelude.{◌≡◌, ◌<◌, ◌+◌, [], ℕ, List, length, slice_get, None};
ghost use Rattle.kernel_model.specs.Answers.{now};
ghost use Rattle.kernel_model.specs.State.{process_at};
ghost use Rattle.processes.specs.Parts.{part_at, descriptors_in};
ghost use Rattle.state_search.specs.Digests.{Fed, number_bytes};
ghost use Rattle.replayed_runs.specs.StateKeys.{IsKeyOf, children_bytes, descriptor_bytes, file_bytes, files_bytes, left_on, machine_bytes, number_bytes_at, numbers_bytes, pipe_bytes, pipes_bytes, process_bytes, processes_bytes, slot_bytes, slot_bytes_at, slots_bytes, tapes_bytes, terminals_bytes, upto_bytes, written_in};

use crate::pipe_texts::PipeTexts;
use crate::replay::Replay;
use calls::TapeTable;
use crash_lists::Window;
use files::FileTable;
use input_reading::MOST_TAPE_BYTES;
use kernel::{Core, KernelTables};
use kernel_model::{Descriptor, PipeEnd, TAPES, TERMINALS};
use pipes::PipeTable;
use state_search::{Key, StateDigest};

fn digest_descriptor(digest: &mut StateDigest, descriptor: Descriptor)
    ensures { Fed digest.old (descriptor_bytes descriptor) digest.new }
{
    match descriptor {
        Descriptor::Tape(tape) => digest.numbered(1, u64::from(tape)),
        Descriptor::Terminal(terminal) => digest.numbered(2, u64::from(terminal)),
        Descriptor::File {
            file,
            offset,
            writes,
        } => {
            digest.numbered(3, file);
            digest.number(u64::from(offset));
            digest.flag(writes);
        }
        Descriptor::Pipe(PipeEnd::Read(pipe)) => digest.numbered(4, u64::from(pipe)),
        Descriptor::Pipe(PipeEnd::Write(pipe)) => digest.numbered(5, u64::from(pipe)),
    }
}

fn digest_slot(digest: &mut StateDigest, slot: Option<Descriptor>)
    ensures { Fed digest.old (slot_bytes slot) digest.new }
{
    match slot {
        Some(descriptor) => digest_descriptor(digest, descriptor),
        None => digest.byte(0),
    }
}

fn digest_slot_at(digest: &mut StateDigest, slots: &[Option<Descriptor>], place: usize)
    ensures { Fed digest.old (slot_bytes_at (slice_get slots.now place)) digest.new }
{
    if let Some(slot) = slots.get(place) {
        digest_slot(digest, *slot);
    }
}

fn digest_slots(digest: &mut StateDigest, slots: &[Option<Descriptor>])
    ensures { Fed digest.old (slots_bytes slots.now) digest.new }
{
    for place in 0..slots.len() {
        digest_slot_at(digest, slots, place);
    }
}

fn digest_descriptors(digest: &mut StateDigest, tables: KernelTables<'_>, pid: u32)
    ensures { Fed digest.old (slots_bytes (descriptors_in (part_at tables.entry.processes.now.parts pid))) digest.new }
{
    if let Some(descriptors) = tables.processes.descriptors(pid) {
        digest_slots(digest, descriptors.as_slice());
    }
}

fn digest_number_at(digest: &mut StateDigest, numbers: &[u32], place: usize)
    ensures { Fed digest.old (number_bytes_at (slice_get numbers.now place)) digest.new }
{
    if let Some(number) = numbers.get(place) {
        digest.number(u64::from(*number));
    }
}

fn digest_numbers(digest: &mut StateDigest, numbers: &[u32])
    ensures { Fed digest.old (numbers_bytes numbers.now) digest.new }
{
    for place in 0..numbers.len() {
        digest_number_at(digest, numbers, place);
    }
}

fn digest_children(digest: &mut StateDigest, children: &[u32])
    ensures { Fed digest.old (children_bytes children.now) digest.new }
{
    digest.number(children.len() as u64);
    digest_numbers(digest, children);
}

/// The machine of a process: it is a function of what its program began as, of the replies to its calls, and of how far it ran.
fn digest_machine(digest: &mut StateDigest, core: &Core, pid: u32)
    ensures { Fed digest.old (machine_bytes (process_at (now core.now).sync.processes pid)) digest.new }
{
    match core.machine(pid) {
        Ok(machine) => {
            digest.number(u64::from(machine.pc()));
            digest.number(machine.count());
        }
        Err(_) => {}
    }
}

/// A process: its machine, all replies that it got, its descriptors and children, and how it ended.
fn digest_process(digest: &mut StateDigest, replay: &Replay, tables: KernelTables<'_>, pid: u32)
    ensures { Fed digest.old (process_bytes (now replay.now.core).sync.processes replay.now.replies.sums.items tables.entry.processes.now.parts pid) digest.new }
{
    digest_machine(digest, &replay.core, pid);
    digest.sum(replay.replies.of(pid));
    digest_descriptors(digest, tables, pid);
    digest_children(digest, tables.processes.children(pid));
    digest.option_word(tables.processes.status(pid));
}

fn digest_each_process(
    digest: &mut StateDigest,
    replay: &Replay,
    tables: KernelTables<'_>,
    last: u32,
)
    ensures { Fed digest.old (upto_bytes (λ k. process_bytes (now replay.now.core).sync.processes replay.now.replies.sums.items tables.entry.processes.now.parts (k + 1)) last) digest.new }
{
    for place in 0..last {
        digest_process(digest, replay, tables, place + 1);
    }
}

fn digest_processes(digest: &mut StateDigest, replay: &Replay, tables: KernelTables<'_>)
    ensures { Fed digest.old (processes_bytes (now replay.now.core).sync.processes replay.now.replies.sums.items tables.entry.processes.now.parts) digest.new }
{
    let last = replay.last_process();
    digest.number(u64::from(last));
    digest_each_process(digest, replay, tables, last);
}

fn digest_file(digest: &mut StateDigest, files: &FileTable, place: usize)
    requires { place < length files.now.living }
    ensures { Fed digest.old (file_bytes files.now place) digest.new }
{
    digest.number(files.number(place));
    digest.bytes(files.name(place));
    digest.bytes(files.bytes(place));
}

fn digest_each_file(digest: &mut StateDigest, files: &FileTable)
    ensures { Fed digest.old (upto_bytes (file_bytes files.now) (length files.now.living)) digest.new }
{
    for place in 0..files.count() {
        digest_file(digest, files, place);
    }
}

fn digest_files(digest: &mut StateDigest, files: &FileTable)
    ensures { Fed digest.old (files_bytes files.now) digest.new }
{
    digest.number(files.made());
    digest.number(files.count() as u64);
    digest_each_file(digest, files);
}

fn digest_moment(digest: &mut StateDigest, window: &Window, moment: usize)
    ensures { (more : List ℕ) × Fed digest.old more digest.new }
{
    match window.files_at(moment) {
        Some(files) => digest_files(digest, files),
        None => {}
    }
}

/// The files at each moment since the last sync, in their order.
fn digest_moments(digest: &mut StateDigest, window: &Window)
    ensures { (more : List ℕ) × Fed digest.old more digest.new }
{
    digest.number(window.changes() as u64);
    for moment in 0..window.changes().saturating_add(1) {
        digest_moment(digest, window, moment);
    }
}

fn digest_window(digest: &mut StateDigest, window: &Option<Window>)
    ensures { (more : List ℕ) × (window.now ≡ None → more ≡ []) × Fed digest.old more digest.new }
{
    match window {
        Some(window) => digest_moments(digest, window),
        None => {}
    }
}

/// A pipe, with all that was ever written to it.
fn digest_pipe(digest: &mut StateDigest, pipes: &PipeTable, texts: &PipeTexts, number: u32)
    ensures { Fed digest.old (pipe_bytes (slice_get pipes.now number) (written_in texts.now.texts.items number)) digest.new }
{
    if let Some(pipe) = pipes.get(number) {
        digest.number(pipe.readers() as u64);
        digest.number(pipe.writers() as u64);
        digest.number(pipe.held() as u64);
        digest.bytes(texts.written(number as usize));
    }
}

fn digest_each_pipe(digest: &mut StateDigest, pipes: &PipeTable, texts: &PipeTexts)
    ensures { Fed digest.old (upto_bytes (λ k. pipe_bytes (slice_get pipes.now k) (written_in texts.now.texts.items k)) (length pipes.now)) digest.new }
{
    for number in 0..pipes.len() {
        digest_pipe(digest, pipes, texts, number as u32);
    }
}

fn digest_pipes(digest: &mut StateDigest, pipes: &PipeTable, texts: &PipeTexts)
    ensures { Fed digest.old (pipes_bytes pipes.now texts.now.texts.items) digest.new }
{
    digest.number(pipes.len() as u64);
    digest_each_pipe(digest, pipes, texts);
}

/// How much of a tape is left, up to so many bytes.
fn left_of(tapes: &TapeTable, tape: u32, most: usize) -> Option<u64>
    ensures { result ≡ left_on most tapes.now tape }
{
    match tapes.read(tape, most) {
        Some(bytes) => Some(bytes.len() as u64),
        None => None,
    }
}

fn digest_tapes(digest: &mut StateDigest, tapes: &TapeTable, most: usize)
    ensures { Fed digest.old (tapes_bytes most tapes.now) digest.new }
{
    for tape in 0..TAPES as u32 {
        digest.option(left_of(tapes, tape, most));
    }
}

/// All that was written to each terminal.
fn digest_terminals(digest: &mut StateDigest, core: &Core)
    ensures { Fed digest.old (terminals_bytes core.now) digest.new }
{
    for terminal in 0..TERMINALS as u32 {
        digest.bytes(core.written(terminal));
    }
}

/// The key of a run: the first 128 bits of the SHA-256 digest of its state. The state is that of each process, with the sum of all replies
/// that it got, the files with their numbers, the pipes with all that was ever written to them, and what is left of tapes and was
/// written to terminals. Where windows are kept it has the files at each moment since the last sync too.
pub fn key_of(replay: &Replay) -> Key
    ensures { IsKeyOf replay.now result }
{
    let tables = replay.core.tables();
    let mut digest = StateDigest::new();
    digest_processes(&mut digest, replay, tables);
    digest_files(&mut digest, tables.files);
    digest_pipes(&mut digest, tables.pipes, &replay.pipes);
    digest_tapes(&mut digest, tables.tapes, MOST_TAPE_BYTES);
    digest_terminals(&mut digest, &replay.core);
    digest_window(&mut digest, &replay.window);
    digest.key()
}
