//! How often each instruction was executed.
ghost use Rattle.std.specs.Prelude.{◌≡◌, ℕ, ◌+◌, ◌≤◌, ◌^◌, ◌==◌, cond, length, OnOk};
ghost use Rattle.exec_records.specs.Begun.{begun, times};
ghost use Rattle.exec_records.specs.Counted.{count_at, count_of_all};

use kernel::Machine;
use std::alloc::{AllocError, Global};
use std::collections::BTreeMap;

/// How many instructions were executed at each address.
#[derive(Drop)]
pub struct StepCounts {
    counts: BTreeMap<u32, u64>,
}

impl StepCounts {
    /// None yet.
    pub fn new(alloc: Global) -> StepCounts {
        StepCounts {
            counts: BTreeMap::new(alloc),
        }
    }

    /// Each address at which one was executed, in ascending order, and how many were.
    pub fn entries(&self, alloc: Global) -> Result<Vec<(u32, u64)>, AllocError> {
        let mut entries = Vec::new(alloc);
        for (address, count) in self.counts.iter() {
            entries.push((*address, *count))?;
        }
        Ok(entries)
    }

    /// Counts one more at an address. Refused where there is no room for a new address, or a count has no room for one more.
    pub fn add(&mut self, address: u32) -> Result<(), AllocError>
        ensures each { OnOk result ((a : ℕ) → count_at a self.new ≡ count_at a self.old + cond (address == a) 1 0) }
        ensures all { OnOk result (count_of_all self.new ≡ count_of_all self.old + 1) }
    {
        let before = self.counts.get(&address).copied().unwrap_or(0);
        let Some(count) = before.checked_add(1) else {
            return Err(AllocError);
        };
        self.counts.insert(address, count)?;
        Ok(())
    }
}

/// Does at most so many instructions of a machine, and counts each at its address. Refused for want of memory, and where a count would
/// pass 2^64 - 1; then some of them are counted.
pub fn count_steps(machine: Machine, steps: u32, counts: &mut StepCounts) -> Result<(), AllocError>
    requires { machine.count + steps ≤ 2 ^ 40 }
    ensures each { OnOk result ((a : ℕ) → count_at a counts.new ≡ count_at a counts.old + times a (begun steps machine)) }
    ensures all { OnOk result (count_of_all counts.new ≡ count_of_all counts.old + length (begun steps machine)) }
{
    let mut current = machine;
    let mut left = steps;
    while left > 0 {
        let address = current.pc();
        let (done, _stop) = current.run(1);
        if done == 0 {
            return Ok(());
        }
        counts.add(address)?;
        left -= 1;
    }
    Ok(())
}
