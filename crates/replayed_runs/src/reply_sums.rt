//! Sums of the replies that processes got. A core hands out those alone that rest on committed changes.
ghost use Rattle.std.specs.Prelude.{◌≡◌, IfOk};
ghost use Rattle.replayed_runs.specs.StateKeys.{sum_in};

use crate::private::last_reads;
use call_forms::Call;
use call_lines::call_at;
use formats::Reg;
use kernel::{Core, Machine};
use kernel_model::Carrier;
use state_search::{Key, StateDigest};
use std::alloc::{AllocError, Global};

/// The least reply that is an error.
const LEAST_ERROR: u32 = 0x8000_0000;

/// How many bytes a reply to `pipe` stores, and one to `wait`.
const PAIR_SIZE: u32 = 8;

const WORD_SIZE: u32 = 4;

/// The sum of no replies.
const NONE: Key = Key { high: 0, low: 0 };

/// The call at which a process stands, and where the reply to it stores bytes, if it stores some.
#[derive(Clone, Copy)]
pub struct Asked {
    call: Option<Call>,
    at: u32,
}

/// The sum of all replies to each process.
#[derive(Drop)]
pub struct ReplySums {
    alloc: Global,
    sums: Vec<Key>,
}

/// What a machine asks for.
fn asked_at(machine: &Machine) -> Asked {
    let call = call_at(machine);
    let at = match call {
        Some(Call::Read) => machine.reg(Reg::new(11)),
        _ => machine.reg(Reg::new(10)),
    };
    Asked { call, at }
}

/// How many bytes came with a reply.
fn stored_by(call: Option<Call>, reply: u32) -> u32 {
    match call {
        Some(Call::Read) => reply,
        Some(Call::Pipe) => PAIR_SIZE,
        Some(Call::Wait) => WORD_SIZE,
        _ => 0,
    }
}

/// The number of the file among these carriers, if one is.
fn file_of(carriers: &[Carrier]) -> Option<u64> {
    carriers.iter().find_map(|carrier| match carrier {
        Carrier::File(number) => Some(*number),
        _ => None,
    })
}

/// The bytes of the file that the last Enter read, if it read one that lives.
fn file_read(core: &Core) -> &[u8] {
    let files = core.tables().files;
    let Some(number) = file_of(last_reads(core.footprints())) else {
        return &[];
    };
    match files.place(number) {
        Some(place) => files.bytes(place),
        None => &[],
    }
}

/// So many bytes of a machine's memory, whatever its rights to them: a process may execute bytes that it may not read.
fn bytes_at(alloc: Global, machine: &Machine, at: u32, n: u32) -> Result<Vec<u8>, AllocError> {
    let mut bytes = Vec::new(alloc);
    for k in 0..n {
        if let Some(byte) = machine.space().byte(at.wrapping_add(k)) {
            bytes.push(byte)?;
        }
    }
    Ok(bytes)
}

impl Asked {
    /// What a process asks for.
    pub fn by(core: &Core, pid: u32) -> Asked {
        match core.machine(pid) {
            Ok(machine) => asked_at(machine),
            Err(_) => Asked { call: None, at: 0 },
        }
    }

    pub fn is_sync(self) -> bool {
        self.call == Some(Call::Sync)
    }

    /// What came with a reply that is no error: the bytes that it stored, or the file in whose program the process goes on.
    fn digest_brought(
        self,
        alloc: Global,
        digest: &mut StateDigest,
        core: &Core,
        machine: &Machine,
    ) -> Result<(), AllocError> {
        if let Some(Call::Exec) = self.call {
            digest.bytes(file_read(core));
            return Ok(());
        }
        let n = stored_by(self.call, machine.reg(Reg::new(10)));
        let stored = bytes_at(alloc, machine, self.at, n)?;
        digest.bytes(stored.as_slice());
        Ok(())
    }
}

impl ReplySums {
    /// No process got a reply.
    pub fn new(alloc: Global) -> ReplySums {
        ReplySums {
            alloc,
            sums: Vec::new(alloc),
        }
    }

    pub fn try_clone(&self) -> Result<ReplySums, AllocError>
        ensures { IfOk result (λ copy. copy.sums.items ≡ self.now.sums.items) }
    {
        Ok(ReplySums {
            alloc: self.alloc,
            sums: Vec::from_slice(self.alloc, self.sums.as_slice())?,
        })
    }

    /// The sum of all replies to a process.
    pub fn of(&self, pid: u32) -> Key
        ensures { result ≡ sum_in self.now.sums.items pid }
    {
        match self.sums.get((pid as usize).saturating_sub(1)) {
            Some(sum) => *sum,
            None => NONE,
        }
    }

    fn put(&mut self, pid: u32, sum: Key) -> Result<(), AllocError> {
        for _ in self.sums.len()..pid as usize {
            self.sums.push(NONE)?;
        }
        if let Some(old) = self.sums.get_mut((pid as usize).saturating_sub(1)) {
            *old = sum;
        }
        Ok(())
    }

    /// Notes the reply to a call that was just made, before its process runs on.
    pub fn note(&mut self, core: &Core, pid: u32, asked: Asked) -> Result<(), AllocError> {
        let Ok(machine) = core.machine(pid) else {
            return Ok(());
        };
        let reply = machine.reg(Reg::new(10));
        let mut digest = StateDigest::new();
        digest.sum(self.of(pid));
        digest.number(u64::from(reply));
        if reply < LEAST_ERROR {
            asked.digest_brought(self.alloc, &mut digest, core, machine)?;
        }
        self.put(pid, digest.key())
    }
}
