//! `status_of`: the exit status of a run by how a process of it ended.
ghost use Rattle.std.specs.Prelude.{◌≡◌, ◌+◌, ◌<◌, ◌≤◌, ℕ};

use kernel::Core;

/// The exit status where a run has ended and the process is not there.
const NO_PROCESS: u8 = 127;

/// The exit status where a run has ended and the process has not.
const NOT_ENDED: u8 = 126;

/// The status of a process in eight bits: what it gave to `exit`, or 128 plus the cause where it ended by a trap, whose status is 256
/// plus the cause. No other status is given to a process; one would be at most 255.
fn exit_status(status: u32) -> u8
    ensures exited { status < 256 → result ≡ status }
    ensures trapped { (cause : ℕ) → cause < 128 → status ≡ 256 + cause → result ≡ 128 + cause }
    ensures greater { 384 ≤ status → result ≡ 255 }
{
    if status < 256 {
        status as u8
    } else {
        (status - 256).min(127) as u8 + 128
    }
}

/// The exit status of a run by the status of a process: 127 where there is no such process, and 126 where the process has not
/// ended, or its end is held back.
pub fn status_of(core: &Core, pid: u32) -> u8 {
    match core.ended(pid) {
        Ok(Some(status)) => exit_status(status),
        Ok(None) => NOT_ENDED,
        Err(_) => NO_PROCESS,
    }
}
