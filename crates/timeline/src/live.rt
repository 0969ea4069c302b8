//! `LiveKernel`: a kernel that answers the calls of the program.
ghost use Rattle.std.specs.Prelude.{◌<◌};
ghost use Rattle.kernel_model.specs.World.{terminal_count};

use console::Cursor;
use kernel::Core;
use kernel_model::{Refused, TERMINALS};
use recorder::{Recorded, Recorder};

/// A kernel that answers the calls of a process, and how much of what each terminal shows was told.
#[derive(Drop)]
pub struct LiveKernel {
    recorder: Recorder,
    process: u32,
    told: [Cursor; TERMINALS],
}

impl LiveKernel {
    /// A kernel, before anything was told of its terminals.
    pub(crate) fn new(recorder: Recorder, process: u32) -> LiveKernel {
        LiveKernel {
            recorder,
            process,
            told: [Cursor::new(); TERMINALS],
        }
    }

    /// The number of its process.
    pub fn process(&self) -> u32 {
        self.process
    }

    /// The kernel as it stands.
    pub fn core(&self) -> &Core {
        self.recorder.core()
    }

    /// Runs the kernel on until the process has more replies, its end is found, or so many loans are done.
    pub(crate) fn more(&mut self, loans: u32) -> Result<Recorded, Refused> {
        self.recorder.more(loans)
    }

    /// The bytes that a terminal shows and that were not told before. They count as told from now on.
    pub fn tell(&mut self, terminal: u32) -> &[u8]
        requires { terminal < terminal_count }
    {
        let shown = self.recorder.core().shown(terminal);
        match self.told.get_mut(terminal as usize) {
            Some(told) => told.rest(shown),
            None => &[],
        }
    }
}
