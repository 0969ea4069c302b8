//! Which process runs next, and how long.
use crate::random::Random;
use kernel::{Core, Standing};

/// The most instructions of a turn without a seed.
const LONG_TURN: u32 = 100_000;

/// The most turns that a process has one after the other without a seed, each but the last up to a call.
const MOST_TURNS: u32 = 100;

/// Turns by a seed have 1 to 2^k instructions, where k is drawn below this number: so short turns are as likely as long ones.
const LENGTHS: u32 = 18;

/// What decides a run's order, and its end.
#[derive(Clone, Copy)]
pub struct Order {
    /// By None processes run by rising number, each as long as it can: until it waits or ends, or has run long.
    pub seed: Option<u64>,
    /// How many instructions all processes may run together, if not any number.
    pub limit: Option<u64>,
}

#[derive(Clone, Copy)]
pub struct Chooser {
    random: Option<Random>,
    /// The process that was chosen last; 0 before the first.
    last: u32,
    /// How many more turns it may have at once.
    left: u32,
}

/// Whether a process stands at a call or a trap.
pub fn is_stopped(core: &Core, pid: u32) -> bool {
    match core.machine(pid) {
        Ok(machine) => machine.stopped().is_some(),
        Err(_) => false,
    }
}

fn is_free(core: &Core, pid: u32) -> bool {
    matches!(core.standing(pid), Ok(Standing::Free))
}

fn last_process(core: &Core) -> u32 {
    core.tables().processes.len() as u32
}

/// Whether this process may be drawn. `is_in_vain` leaves out those that are at a call, where they might wait again.
fn may_be_drawn(core: &Core, is_in_vain: bool, pid: u32) -> bool {
    is_free(core, pid) && !(is_in_vain && is_stopped(core, pid))
}

fn count_drawn(core: &Core, is_in_vain: bool) -> u32 {
    let mut count = 0u32;
    for pid in 1..=last_process(core) {
        if may_be_drawn(core, is_in_vain, pid) {
            count = count.saturating_add(1);
        }
    }
    count
}

/// The process that may be drawn after so many others.
fn drawn(core: &Core, is_in_vain: bool, others: u32) -> Option<u32> {
    let mut left = others;
    for pid in 1..=last_process(core) {
        match may_be_drawn(core, is_in_vain, pid) {
            true if left == 0 => return Some(pid),
            true => left = left.saturating_sub(1),
            false => {}
        }
    }
    None
}

/// The first process after this one, by rising number and round again, that may go on.
fn next_free(core: &Core, last: u32) -> Option<u32> {
    let count = last_process(core);
    for step in 0..count {
        let pid = last.wrapping_add(step) % count + 1;
        if is_free(core, pid) {
            return Some(pid);
        }
    }
    None
}

/// A turn by chance. After one in vain, of a process that waits, it is of a process that is at no call, if there is one: else many
/// processes that wait would each be tried again after each call of another process.
fn any_turn(core: &Core, random: &mut Random, is_in_vain: bool) -> Option<(u32, u32)> {
    let is_in_vain = is_in_vain && count_drawn(core, true) > 0;
    let pid = drawn(
        core,
        is_in_vain,
        random.below(count_drawn(core, is_in_vain)),
    )?;
    let length = random.below(LENGTHS);
    let most = random.below(1u32.checked_shl(length).unwrap_or(1));
    Some((pid, most.saturating_add(1)))
}

impl Chooser {
    pub fn new(seed: Option<u64>) -> Chooser {
        Chooser {
            random: seed.map(Random::new),
            last: 0,
            left: 0,
        }
    }

    /// The process that was chosen last ran to the end of its turn, and came to no call.
    pub fn pass(&mut self) {
        self.left = 0;
    }

    /// The next turn: of which process, and of how many instructions at most. None if no process may go on.
    pub fn next(&mut self, core: &Core) -> Option<(u32, u32)> {
        if let Some(random) = &mut self.random {
            let is_in_vain = matches!(core.standing(self.last), Ok(Standing::Waits));
            let (pid, most) = any_turn(core, random, is_in_vain)?;
            self.last = pid;
            return Some((pid, most));
        }
        if self.left > 0 && is_free(core, self.last) {
            self.left = self.left.saturating_sub(1);
        } else {
            self.last = next_free(core, self.last)?;
            self.left = MOST_TURNS;
        }
        Some((self.last, LONG_TURN))
    }
}
