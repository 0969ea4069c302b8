//! The gates of workers between a loan and its run: one that holds nobody, and one that holds a worker until the other is at work.
use bursts::Gate;
use std::sync::atomic::{AtomicBool, AtomicU64, Ordering};
use std::thread;

/// A gate that holds nobody.
#[derive(Clone, Copy)]
pub struct Open;

impl Gate for Open {
    fn hold(&mut self, _pid: u32) {}
}

/// What gates share: how often process 2 was lent, whether the second time was late, and whether those who are held were freed.
#[derive(Drop)]
pub struct Lendings {
    twos: AtomicU64,
    late: AtomicBool,
    freed: AtomicBool,
}

impl Lendings {
    /// Before the first loan.
    pub fn none() -> Lendings {
        Lendings {
            twos: AtomicU64::new(0),
            late: AtomicBool::new(false),
            freed: AtomicBool::new(false),
        }
    }
}

/// Whom a gate holds.
#[derive(Clone, Copy)]
enum Holds {
    Nobody,
    /// The first loan of process 1, until process 2 was lent twice.
    UntilTwo,
    /// Each loan, until `free` is called.
    UntilFreed,
}

/// The gate of a worker in a case, which may hold it, for a bounded number of polls. In the case of two programs the worker that
/// lends first leaves process 2 in its deque, and is held. So process 2 runs only where the other worker steals it.
#[derive(Clone, Copy)]
pub struct CaseGate<'a> {
    lendings: &'a Lendings,
    holds: Holds,
}

impl<'a> CaseGate<'a> {
    /// A gate that counts these lendings, and holds a worker until process 2 was lent twice, if it is to.
    pub fn new(lendings: &'a Lendings, holds: bool) -> CaseGate<'a> {
        let holds = if holds {
            Holds::UntilTwo
        } else {
            Holds::Nobody
        };
        CaseGate { lendings, holds }
    }

    /// A gate with the same count, which holds its worker until `free` is called.
    pub fn until_freed(&self) -> CaseGate<'a> {
        CaseGate {
            lendings: self.lendings,
            holds: Holds::UntilFreed,
        }
    }

    /// Frees each worker that is held until this call, now and later.
    pub fn free(&self) {
        self.lendings.freed.store(true, Ordering::SeqCst);
    }

    /// Whether process 2 was lent twice too late.
    pub fn is_late(&self) -> bool {
        self.lendings.late.load(Ordering::SeqCst)
    }
}

impl<'a> Gate for CaseGate<'a> {
    fn hold(&mut self, pid: u32) {
        if pid == 2 {
            self.lendings.twos.fetch_add(1, Ordering::SeqCst);
        }
        match self.holds {
            Holds::UntilTwo if pid == 1 => {
                self.holds = Holds::Nobody;
                wait_for_two(self.lendings);
            }
            Holds::UntilFreed => wait_until_freed(self.lendings),
            _ => {}
        }
    }
}

/// Polls until process 2 was lent twice. It is late where that has not come in 10,000,000 polls.
fn wait_for_two(lendings: &Lendings) {
    for _ in 0..10_000_000 {
        if lendings.twos.load(Ordering::SeqCst) >= 2 {
            return;
        }
        thread::yield_now();
    }
    lendings.late.store(true, Ordering::SeqCst);
}

fn wait_until_freed(lendings: &Lendings) {
    for _ in 0..10_000_000 {
        if lendings.freed.load(Ordering::SeqCst) {
            return;
        }
        thread::yield_now();
    }
}
