//! Scripts in files of the host, and the command `replay`. Each script is read whole before anything runs.
//!
//! Read `replay_file` first. Only safety is proved.
#![tactic(auto)]

use faults::{Fault, Role};
use host_files::text_in;
use scripts::{Script, replay, replay_cone};
use std::io::{self, Read, Write};
use std::rt::Files;

/// What came of the script in a file. A fault of the script has the file's path then.
fn of_script<R: AllocGlobal, T: Drop>(
    rt: &R,
    path: &str,
    done: Result<T, Fault>,
) -> Result<T, Fault> {
    match done {
        Ok(done) => Ok(done),
        Err(fault) => Err(fault.of(rt.alloc(), Role::Script, path)),
    }
}

/// The script in a file.
fn script_in<R: Files + AllocGlobal>(rt: &R, path: &str) -> Result<Script, Fault> {
    let text = text_in(rt, path)?;
    Script::of_file(rt.alloc(), path, text.as_str())
}

/// Replays the script on the input.
pub fn replay_input<R: Files + AllocGlobal, I: Read, O: Write>(
    rt: &R,
    input: &mut I,
    out: &mut O,
) -> Result<(), Fault> {
    let text = io::read_to_string(rt.alloc(), input)?;
    replay(rt, Script::parse(rt.alloc(), text.as_str())?, out)
}

/// Replays the script in a file.
pub fn replay_file<R: Files + AllocGlobal, O: Write>(
    rt: &R,
    path: &str,
    out: &mut O,
) -> Result<(), Fault> {
    of_script(rt, path, replay(rt, script_in(rt, path)?, out))
}

/// Replays the script in a file without printing, and prints the cone of the event of this number.
pub fn replay_cone_file<R: Files + AllocGlobal, O: Write>(
    rt: &R,
    path: &str,
    event: u64,
    out: &mut O,
) -> Result<(), Fault> {
    let script = script_in(rt, path)?;
    of_script(rt, path, replay_cone(rt, script, event, out))
}
