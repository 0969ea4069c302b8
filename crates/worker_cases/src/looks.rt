//! A gate that looks whether the process that it is held with is lent.
use bursts::{Bench, Gate, Naming};
use kernel::Standing;
use std::sync::{Mutex, Wait};

/// A gate that counts how often it was held, and how often with a process that was then out on loan.
#[derive(Drop)]
pub struct Looks<'r, 'a, 'b, N: Naming, R: Wait> {
    rt: &'r R,
    bench: &'a Mutex<Bench<'b, N>>,
    pub held: u32,
    pub lent: u32,
}

impl<'r, 'a, 'b, N: Naming, R: Wait> Looks<'r, 'a, 'b, N, R> {
    /// A gate that was not held yet.
    pub fn new(rt: &'r R, bench: &'a Mutex<Bench<'b, N>>) -> Looks<'r, 'a, 'b, N, R> {
        Looks {
            rt,
            bench,
            held: 0,
            lent: 0,
        }
    }
}

impl<'r, 'a, 'b, N: Naming, R: Wait> Gate for Looks<'r, 'a, 'b, N, R> {
    fn hold(&mut self, pid: u32) {
        self.held = self.held.saturating_add(1);
        if is_lent(self.rt, self.bench, pid) {
            self.lent = self.lent.saturating_add(1);
        }
    }
}

/// Whether a process is out on loan.
pub fn is_lent<N: Naming, R: Wait>(rt: &R, bench: &Mutex<Bench<'_, N>>, pid: u32) -> bool {
    matches!(bench.lock(rt).core().standing(pid), Ok(Standing::Lent))
}
