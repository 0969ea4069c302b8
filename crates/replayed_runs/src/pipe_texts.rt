//! All bytes that were ever written to pipes. The core keeps those alone that are not read yet.
ghost use Rattle.std.specs.Prelude.{◌≡◌, map, IfOk};
ghost use Rattle.replayed_runs.specs.Copies.{text_in};
ghost use Rattle.replayed_runs.specs.StateKeys.{written_in};

use kernel::KernelTables;
use pipes::Pipe;
use std::alloc::{AllocError, Global};

/// What was written to a pipe.
#[derive(Drop)]
struct PipeText {
    written: Vec<u8>,
    /// How many bytes the pipe held when it was last looked at.
    held: usize,
}

/// What was written to each pipe.
#[derive(Drop)]
pub struct PipeTexts {
    alloc: Global,
    texts: Vec<PipeText>,
}

/// The same texts once more.
fn text_copies(alloc: Global, texts: &[PipeText]) -> Result<Vec<PipeText>, AllocError>
    ensures { IfOk result (λ copies. map text_in copies.items ≡ map text_in texts.now) }
{
    let mut copies = Vec::new(alloc);
    for text in texts {
        copies.push(PipeText {
            written: Vec::from_slice(alloc, text.written.as_slice())?,
            held: text.held,
        })?;
    }
    Ok(copies)
}

impl PipeTexts {
    /// No pipes.
    pub fn new(alloc: Global) -> PipeTexts {
        PipeTexts {
            alloc,
            texts: Vec::new(alloc),
        }
    }

    /// One more pipe, to which nothing was written.
    fn open(&mut self) -> Result<(), AllocError> {
        self.texts.push(PipeText {
            written: Vec::new(self.alloc),
            held: 0,
        })?;
        Ok(())
    }

    /// Looks at a pipe after one call, which either wrote to its end or read from its beginning.
    fn look(&mut self, number: usize, pipe: &Pipe) -> Result<(), AllocError> {
        let alloc = self.alloc;
        let Some(text) = self.texts.get_mut(number) else {
            return Ok(());
        };
        let held = pipe.held();
        if held > text.held {
            let bytes = pipe.prefix(alloc, held)?;
            let new = bytes.as_slice().get(text.held..).unwrap_or(&[]);
            text.written.extend_from_slice(new)?;
        }
        text.held = held;
        Ok(())
    }

    /// Looks at all pipes, after each call.
    pub fn note(&mut self, tables: KernelTables<'_>) -> Result<(), AllocError> {
        for number in 0..tables.pipes.len() {
            if number >= self.texts.len() {
                self.open()?;
            }
            if let Some(pipe) = u32::try_from(number)
                .ok()
                .and_then(|it| tables.pipes.get(it))
            {
                self.look(number, pipe)?;
            }
        }
        Ok(())
    }

    /// The same once more.
    pub fn try_clone(&self) -> Result<PipeTexts, AllocError>
        ensures { IfOk result (λ copy. map text_in copy.texts.items ≡ map text_in self.now.texts.items) }
    {
        Ok(PipeTexts {
            alloc: self.alloc,
            texts: text_copies(self.alloc, self.texts.as_slice())?,
        })
    }

    /// What was written to the pipe of a number.
    pub fn written(&self, number: usize) -> &[u8]
        ensures { result.now ≡ written_in self.now.texts.items number }
    {
        match self.texts.get(number) {
            Some(text) => text.written.as_slice(),
            None => &[],
        }
    }
}
