//! `stop_text`: the packet by which gdb is told why the machine stops.
ghost use Rattle.std.specs.Prelude.{◌≡◌, IfOk};
ghost use Rattle.gdb_packets.specs.Stopping.{name_of as watch_named, signal_of as signal_named, stop_text as text_of_stop, watch_text as text_of_watch};

use crate::numbers::push_bytes;
use debugger::{Cause, Watch, WatchKind};
use std::alloc::{AllocError, Global};

/// Why a machine stops.
#[derive(Clone, Copy)]
pub enum Stop {
    /// The machine went as far as it was to.
    Done,
    /// gdb interrupted the machine.
    Interrupted,
    /// The machine stands at a breakpoint.
    Break,
    /// An instruction or a reply meets a watch. The machine stands before it on the way on, and after it on the way back.
    Watch(Watch),
    /// The machine stands at a trap.
    Trap(Cause),
    /// The machine stands at its first state.
    Begin,
    /// The program goes no further.
    End,
}

/// The packet of a stop at a trap, with gdb's number of its signal.
fn signal_of(cause: Cause) -> &'static str
    ensures { result.now ≡ signal_named cause }
{
    match cause {
        Cause::Illegal => "T04",
        Cause::MisalignedTarget | Cause::MisalignedData => "T0a",
        Cause::PageFault | Cause::FetchFault => "T0b",
        Cause::Breakpoint => "T05",
    }
}

/// The name of a watch in the packet of a stop.
fn name_of(kind: WatchKind) -> &'static str
    ensures { result.now ≡ watch_named kind }
{
    match kind {
        WatchKind::Stores => "watch",
        WatchKind::Loads => "rwatch",
        WatchKind::Both => "awatch",
    }
}

fn watch_text(alloc: Global, watch: Watch) -> Result<Vec<u8>, AllocError>
    ensures { IfOk result (λ text. text.items ≡ text_of_watch watch) }
{
    let mut text = Vec::from_slice(alloc, b"T05")?;
    text.extend_from_slice(name_of(watch.kind).as_bytes())?;
    text.extend_from_slice(b":")?;
    push_bytes(&mut text, &watch.at.to_be_bytes())?;
    text.extend_from_slice(b";")?;
    Ok(text)
}

/// The packet by which gdb is told of a stop.
pub fn stop_text(alloc: Global, stop: Stop) -> Result<Vec<u8>, AllocError>
    ensures { IfOk result (λ text. text.items ≡ text_of_stop stop) }
{
    let text = match stop {
        Stop::Done => "T05",
        Stop::Interrupted => "T02",
        Stop::Break => "T05swbreak:;",
        Stop::Watch(watch) => return watch_text(alloc, watch),
        Stop::Trap(cause) => signal_of(cause),
        Stop::Begin => "T05replaylog:begin;",
        Stop::End => "T05replaylog:end;",
    };
    Vec::from_slice(alloc, text.as_bytes())
}
