//! Calls of a core, as `order_laws` has them: an Enter, and a Turn of its process and of one that it makes.
ghost use Rattle.std.specs.Prelude.{◌≡◌, [], true, length, IfOk, OnOk};
ghost use Rattle.kernel_model.specs.Answers.{now, with_event};
ghost use Rattle.kernel_model.specs.Limits.{AreNumbered};
ghost use Rattle.kernel_model.specs.declared.event.Event.TheVariants.{Turn, Enter};
ghost use Rattle.order_laws.specs.Moves.{Seen, call_after, label_in, seen_after, writes_some};
ghost use Rattle.replayed_runs.specs.Replays.{is_gone as gone_by, seen_of, start, was_made};

use faults::Fault;
use kernel::{Answer, Core, Event, Refused};

/// Whether a process cannot have an event that is refused so.
fn is_gone(why: Refused) -> bool
    ensures { result ≡ gone_by why }
{
    matches!(
        why,
        Refused::NoProcess | Refused::Ended | Refused::NotStopped
    )
}

/// Whether something came of an Enter that is answered so.
fn is_made(answer: Answer) -> bool
    ensures { result ≡ was_made answer }
{
    matches!(answer, Answer::Entered | Answer::Ended)
}

/// The number of the last process; they begin at 1.
pub fn last_process(core: &Core) -> u32
    ensures { result ≡ length (now core.now).sync.processes }
{
    core.tables().processes.len() as u32
}

/// A process runs to where it stops, at most n instructions, unless it has ended. The fault is want of memory, or of room in the history.
pub fn run_on(core: &mut Core, pid: u32, n: u32) -> Result<(), Fault>
    ensures seen { OnOk result (seen_of core.new ≡ seen_after (seen_of core.old) (Turn pid n)) }
    ensures boot { OnOk result (core.new.boot ≡ core.old.boot) }
{
    match core.apply(Event::Turn { pid, n }) {
        Ok(_) => Ok(()),
        Err(why) if is_gone(why) => Ok(()),
        Err(_) => Err(Fault::OutOfMemory),
    }
}

/// A process enters the kernel. Whether something came of it. The faults are those of `run_on`.
pub fn enter(core: &mut Core, pid: u32) -> Result<bool, Fault>
    ensures seen { OnOk result (seen_of core.new ≡ seen_after (seen_of core.old) (Enter pid)) }
    ensures works { IfOk result (λ made. made ≡ writes_some (label_in (seen_of core.old) (Enter pid))) }
    ensures made { IfOk result (λ made. made ≡ true → core.new ≡ with_event core.old (Enter pid)) }
    ensures boot { OnOk result (core.new.boot ≡ core.old.boot) }
{
    match core.apply(Event::Enter { pid }) {
        Ok(answer) => Ok(is_made(answer)),
        Err(why) if is_gone(why) => Ok(false),
        Err(_) => Err(Fault::OutOfMemory),
    }
}

/// After an Enter its process runs on, and so does one that it made, where `last` was the last process before. The faults are those of
/// `run_on`.
pub fn run_on_after(core: &mut Core, pid: u32, last: u32, n: u32) -> Result<(), Fault>
    ensures called { (s : Seen) → seen_of core.old ≡ seen_after s (Enter pid) → AreNumbered s.sync.files → writes_some (label_in s (Enter pid)) ≡ true
        → last ≡ length s.sync.processes → OnOk result (seen_of core.new ≡ call_after n s pid) }
    ensures boot { OnOk result (core.new.boot ≡ core.old.boot) }
{
    let child = last_process(core);
    run_on(core, pid, n)?;
    if child == last {
        return Ok(());
    }
    run_on(core, child, n)?;
    Ok(())
}

/// Each process of a core that was just booted runs to where it first stops, at most n instructions. The faults are those of `run_on`.
pub fn run_all(core: &mut Core, n: u32) -> Result<(), Fault>
    requires { core.old.history ≡ [] }
    ensures seen { OnOk result (seen_of core.new ≡ start n core.old.boot) }
    ensures boot { OnOk result (core.new.boot ≡ core.old.boot) }
{
    for place in 0..last_process(core) {
        run_on(core, place + 1, n)?;
    }
    Ok(())
}
