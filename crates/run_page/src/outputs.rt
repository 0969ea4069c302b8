//! What is written to terminals, and when it is shown.
ghost use Rattle.kernel_model.specs.World.{terminal_count};
ghost use Rattle.std.specs.Prelude.{◌<◌};

use crate::output_data::OutputData;
use kernel::Core;
use kernel_model::TERMINALS;
use run_events::Output;
use std::alloc::{AllocError, Global};

/// An output that is held back.
#[derive(Clone, Copy)]
struct Held {
    /// Its place among the outputs.
    output: usize,
    terminal: u32,
    /// How many bytes were written to the terminal, those of this output included.
    end: usize,
    ghost there: { terminal < terminal_count },
}

/// The outputs since a boot.
pub struct OutputNotes {
    outputs: Vec<OutputData>,
    held: Vec<Held>,
    /// How many changes the last output of each terminal needs.
    needs: [u64; TERMINALS],
}

impl Drop for OutputNotes {
    fn drop(self) {
        let OutputNotes {
            outputs: _outputs,
            held: _held,
            needs: _,
        } = self;
    }
}

/// Whether an output is held back still.
fn is_held(core: &Core, held: &Held) -> bool {
    core.shown(held.terminal).len() < held.end
}

impl OutputNotes {
    /// Before the first output.
    pub fn new(alloc: Global) -> OutputNotes {
        OutputNotes {
            outputs: Vec::new(alloc),
            held: Vec::new(alloc),
            needs: [0; TERMINALS],
        }
    }

    /// The outputs in order.
    pub fn into_outputs(self) -> Vec<OutputData> {
        let OutputNotes {
            outputs,
            held: _held,
            needs: _,
        } = self;
        outputs
    }

    /// How many outputs are held back.
    pub fn held_back(&self) -> u64 {
        self.held.len() as u64
    }

    /// Notes what the last event of a core, which needs so many changes, wrote to a terminal.
    fn note_written(
        &mut self,
        alloc: Global,
        core: &Core,
        written: &Output<'_>,
        needs: u64,
    ) -> Result<(), AllocError> {
        let terminal = written.terminal;
        if terminal >= TERMINALS as u32 {
            return Ok(());
        }
        let needs = needs.max(self.needs[terminal as usize]);
        self.needs[terminal as usize] = needs;
        self.held.push(Held {
            output: self.outputs.len(),
            terminal,
            end: core.written(terminal).len(),
        })?;
        self.outputs.push(OutputData {
            e: core.history().len() as u64,
            t: terminal,
            hex: hex::encode(alloc, written.bytes)?,
            needs,
            shown: 0,
        })?;
        Ok(())
    }

    /// Notes the outputs that are shown now.
    fn note_shown(&mut self, core: &Core) {
        let number = core.history().len() as u64;
        for held in self.held.as_slice() {
            if !is_held(core, held)
                && let Some(output) = self.outputs.get_mut(held.output)
            {
                output.shown = number;
            }
        }
        self.held.retain(|held| is_held(core, held));
    }

    /// Notes what the last event of a core wrote, if it wrote anything, which needs so many changes, and what is shown since.
    pub fn note(
        &mut self,
        alloc: Global,
        core: &Core,
        written: Option<Output<'_>>,
        needs: u64,
    ) -> Result<(), AllocError> {
        if let Some(written) = &written {
            self.note_written(alloc, core, written, needs)?;
        }
        self.note_shown(core);
        Ok(())
    }
}
