//! `Screen`: writes out what one terminal shows, or all show.
ghost use Rattle.std.specs.Prelude.{◌<◌, IfSome};
ghost use Rattle.kernel_model.specs.World.{terminal_count};

use crate::backoff::Backoff;
use crate::fault::RunFault;
use crate::transcript::Transcript;
use crate::watch::Watch;
use bursts::{Bench, Naming};
use console::pump;
use kernel::Core;
use std::alloc::{AllocError, Global};
use std::io::Write;
use std::sync::{Mutex, Wait};

/// How many bytes of a terminal are copied under the lock at most, while workers work.
const LONGEST_PART: usize = 65536;

/// The longest wait for more to be shown, where something is shown at each look, in pauses of 100 microseconds.
const GATHER_PAUSES: u32 = 10;

/// A writer, and what went out to it.
#[derive(Drop)]
pub struct Screen<'o, O> {
    out: &'o mut O,
    transcript: Transcript,
}

impl<'o, O: Write> Screen<'o, O> {
    /// An empty screen, for this terminal, or for all where none is given.
    pub fn new(out: &'o mut O, terminal: Option<u32>) -> Screen<'o, O>
        requires { IfSome terminal (λ t. t < terminal_count) }
    {
        Screen {
            out,
            transcript: Transcript::of(terminal),
        }
    }

    /// Writes these bytes and flushes the writer, so that they show at once.
    fn write(&mut self, bytes: &[u8]) -> Result<(), RunFault> {
        pump(self.out, bytes, 0).map_err(|_| RunFault::Output)?;
        self.out.flush().map_err(|_| RunFault::Output)
    }

    /// Adds bytes that are shown and were not written yet, copied under the lock.
    fn add_part<N: Naming, R: Wait>(
        &mut self,
        rt: &R,
        alloc: Global,
        bench: &Mutex<Bench<'_, N>>,
        text: &mut Vec<u8>,
    ) -> Result<(), AllocError> {
        let bench = bench.lock(rt);
        self.transcript
            .add_more(alloc, bench.core(), LONGEST_PART, text)
    }

    /// Writes bytes that are shown and were not written yet, by way of a buffer, and returns how many. The lock is free meanwhile.
    fn refresh<N: Naming, R: Wait>(
        &mut self,
        rt: &R,
        alloc: Global,
        bench: &Mutex<Bench<'_, N>>,
        buffer: &mut Vec<u8>,
    ) -> Result<usize, RunFault> {
        buffer.clear();
        self.add_part(rt, alloc, bench, buffer)?;
        if !buffer.is_empty() {
            self.write(buffer.as_slice())?;
        }
        Ok(buffer.len())
    }

    /// Writes what is shown, until no worker works any more, and waits (`Backoff`) where nothing new is shown. While a little is shown at
    /// each look, the looks grow rarer, up to a millisecond apart: each takes the lock. A fault, of the output or for want of memory, is
    /// kept, and makes the workers stop.
    pub fn serve<N: Naming, R: Wait>(
        &mut self,
        rt: &R,
        alloc: Global,
        bench: &Mutex<Bench<'_, N>>,
        watch: &Watch,
    ) {
        let mut rest = Backoff::new();
        let mut gather = Backoff::up_to(GATHER_PAUSES);
        let mut buffer = Vec::new(alloc);
        for _ in rt.forever() {
            let is_over = watch.is_over();
            match self.refresh(rt, alloc, bench, &mut buffer) {
                Ok(0) if is_over => return,
                Ok(0) => {
                    gather.end();
                    rest.take(rt);
                }
                Ok(written) => {
                    rest.end();
                    if written < LONGEST_PART && !is_over {
                        gather.take(rt);
                    }
                }
                Err(fault) => {
                    watch.note(rt, fault);
                    bench.lock(rt).stop();
                    return;
                }
            }
        }
    }

    /// Writes what was not written yet of what the run's core shows at its end.
    pub fn finish(&mut self, alloc: Global, core: &Core) -> Result<(), RunFault> {
        let mut text = Vec::new(alloc);
        self.transcript
            .add_more(alloc, core, usize::MAX, &mut text)?;
        self.write(text.as_slice())
    }
}
