//! A recovery that failed.
use crate::pending::Chain;
use call_forms::BytesText;
use crash_points::CrashPoint;
use exec_reports::{Family, print_ending, status_of_run};
use exec_runs::Ending;
use faults::{Fault, write_line};
use kernel::Core;
use scripts::Launch;
use std::io;
use std::io::Write;

/// A recovery that did not end with status 0, after crashes.
#[derive(Drop)]
pub struct Failure {
    /// The crash of the run.
    pub point: CrashPoint,
    /// The crashes of recoveries that came after it.
    pub chain: Chain,
    /// What the recovery began with: the files that the crash of the run left, and the promise on its tape.
    pub launch: Launch,
    /// The recovery at its end.
    pub core: Core,
    pub ending: Ending,
}

/// Prints bytes as a text, with a word before it.
fn print_text<O: Write>(word: &str, bytes: &[u8], out: &mut O) -> io::Result<()> {
    let text = BytesText {
        bytes,
        most: usize::MAX,
    };
    writeln!(out, "{word} '{text}'")
}

impl Failure {
    /// The bytes of the recovery's tape.
    fn tape(&self) -> &[u8] {
        match self.launch.tapes.as_slice().first() {
            Some(tape) => tape.bytes.as_slice(),
            None => &[],
        }
    }

    /// Prints the crash, what was promised before it, the crashes of recoveries after it, and what the last recovery came to. Then, by
    /// another rule than bench's, which changes were there.
    pub fn print<O: Write>(&self, out: &mut O) -> io::Result<()> {
        self.point.print(out)?;
        print_text("shown", self.tape(), out)?;
        for point in &self.chain {
            write!(out, "recovery crashed: ")?;
            point.print(out)?;
        }
        let status = status_of_run(&self.core, self.ending);
        write!(out, "recovery status {status} ")?;
        print_text("shown", self.core.shown(0), out)?;
        let changes = self.point.told.changes.as_str();
        write!(out, "{changes}")
    }

    /// Prints why the recovery ended as it did, and last which crash it is.
    pub fn tell<E: Write>(&self, family: &mut Family, err: &mut E) -> Result<(), Fault> {
        family.forget_executed(&self.core);
        print_ending(&self.core, family, self.ending, err)?;
        let place = self.point.place;
        write_line(err, format_args!("bench: recovery failed: {place}"))?;
        Ok(())
    }
}
