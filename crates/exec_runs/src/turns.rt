//! A run by turns.
use crate::choosing::{Chooser, Order, is_stopped};
use crate::ending::Ending;
use kernel::{Core, Event};
use run_events::EventSource;

/// The most instructions of a process, its replies among them.
const MOST_INSTRUCTIONS: u64 = 1 << 40;

/// The events of a run by turns. The same core and order give the same events. The changes that output waits for are committed at once,
/// and at the end all are.
#[derive(Clone, Copy)]
pub struct Turns {
    chooser: Chooser,
    /// How many instructions all processes may run together, if not any number.
    limit: Option<u64>,
    /// The process whose Turn was the last event of a process; 0 if that was no Turn.
    running: u32,
    /// How the run ended. None while processes go on.
    ending: Option<Ending>,
}

/// At most so many instructions, of those that are left; how the run ends if none is.
fn within(left: u64, most: u32, ending: Ending) -> Result<u32, Ending> {
    match u32::try_from(left).unwrap_or(u32::MAX).min(most) {
        0 => Err(ending),
        n => Ok(n),
    }
}

/// How many of so many instructions a process may run; how the run ends if it may run none.
fn fitting(core: &Core, pid: u32, most: u32) -> Result<u32, Ending> {
    let count = match core.machine(pid) {
        Ok(machine) => machine.count(),
        Err(_) => 0,
    };
    let left = MOST_INSTRUCTIONS.saturating_sub(count);
    within(left, most, Ending::Full { pid })
}

impl Turns {
    pub fn new(order: Order) -> Turns {
        Turns {
            chooser: Chooser::new(order.seed),
            limit: order.limit,
            running: 0,
            ending: None,
        }
    }

    /// How the run ended, after its last event.
    pub fn ending(&self) -> Ending {
        self.ending.unwrap_or(Ending::Over)
    }

    /// The next event of a process: one that ran to a call or a trap enters the kernel, and else one is chosen. How the run ends if
    /// there is none.
    fn next_of_process(&mut self, core: &Core) -> Result<Event, Ending> {
        let pid = self.running;
        self.running = 0;
        if pid > 0 && is_stopped(core, pid) {
            fitting(core, pid, 1)?;
            return Ok(Event::Enter { pid });
        }
        if pid > 0 {
            self.chooser.pass();
        }
        let Some((pid, most)) = self.chooser.next(core) else {
            return Err(Ending::Over);
        };
        let most = fitting(core, pid, most)?;
        if is_stopped(core, pid) {
            return Ok(Event::Enter { pid });
        }
        let n = match self.limit {
            Some(instructions) => {
                let left = instructions.saturating_sub(core.ran());
                within(left, most, Ending::Limit { instructions })?
            }
            None => most,
        };
        self.running = pid;
        Ok(Event::Turn { pid, n })
    }

    /// The next event. None once the run has ended, and all changes are committed.
    pub fn next(&mut self, core: &Core) -> Option<Event> {
        if let Some(at) = core.in_flight() {
            return Some(Event::Complete { at });
        }
        if core.wants_cut() {
            return Some(Event::Cut);
        }
        if self.ending.is_none() {
            match self.next_of_process(core) {
                Ok(event) => return Some(event),
                Err(ending) => self.ending = Some(ending),
            }
        }
        core.next_of_drain()
    }
}

impl EventSource for Turns {
    ghost gives = { λ old k event new. Unit {0} };

    fn next(&mut self, core: &Core) -> Option<Event> {
        Turns::next(self, core)
    }
}
