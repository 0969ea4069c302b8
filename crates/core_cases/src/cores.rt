//! `TestCore`: boots a core of the programs and tapes of a case, or takes one that was booted, and calls it.
ghost use Rattle.std.specs.Prelude.{◌≡◌, ◌<◌, IfOk, length};
ghost use Rattle.std.specs.List.{AllByRecursion};
ghost use Rattle.kernel_model.specs.World.{terminal_count};

use anyhow::{Error, bail};
use assembler::assemble;
use bursts::{Done, Loan, Rejected, Totals, totals_of};
use byte_list::Bytes;
use files::{FileList, FileTable};
use kernel::{
    Answer, BootFault, ConeFault, Core, DiskFault, Event, Machine, Piece, Program, Refused,
    SimDisk, Standing,
};
use kernel_model::{MOST_PROGRAMS, TAPES, TERMINALS};
use machine_model::Reply;
use std::alloc::{AllocError, Global};

/// A program that can be booted any number of times: its terminal, and its source.
pub struct Source {
    pub terminal: u32,
    pub text: String,
    ghost known: { terminal < terminal_count },
}

impl Drop for Source {
    fn drop(self) {
        let Source {
            terminal: _,
            text: _text,
        } = self;
    }
}

/// Programs to be booted once.
fn programs_of(alloc: Global, sources: &[Source]) -> Result<Vec<Program>, Error>
    ensures { IfOk result (λ booted. AllByRecursion (λ p. p.terminal < terminal_count) booted.items) }
{
    let mut booted = Vec::new(alloc);
    for source in sources {
        let (image, _listing) = assemble(alloc, source.text.as_str())?;
        let terminal = source.terminal;
        booted.push(Program { image, terminal })?;
    }
    Ok(booted)
}

/// Tapes to be booted once.
fn tapes_of(alloc: Global, tapes: &[Vec<u8>]) -> Result<Vec<Bytes>, AllocError>
    ensures { IfOk result (λ booted. length booted.items ≡ length tapes.now) }
{
    let mut booted = Vec::new(alloc);
    for tape in tapes {
        booted.push(Bytes::copy_of(alloc, tape)?)?;
    }
    Ok(booted)
}

/// The files that a disk holds, as `journal::recover` finds them.
fn recover_once(alloc: Global, device: &SimDisk) -> Result<FileTable, DiskFault> {
    journal::recover(alloc, device)
}

/// As `recover_once`, once more where it is refused for want of memory.
pub fn recover(alloc: Global, device: &SimDisk) -> Result<FileTable, DiskFault> {
    match recover_once(alloc, device) {
        Err(DiskFault::OutOfMemory) => recover_once(alloc, device),
        found => found,
    }
}

/// A core whose calls are looked at by running them. They are the core's own without their contracts, which would make each case a
/// proof of what its run comes to. A call that is refused for want of memory is made once more: `watching` has those that compare
/// what is seen of the core before and after the refusal.
pub struct TestCore {
    core: Core,
}

impl Drop for TestCore {
    /// Halts the core: here once, and not wherever a case may end.
    fn drop(self) {
        let TestCore { core } = self;
        let _device = core.halt(b"");
    }
}

impl TestCore {
    /// A core that was booted.
    pub fn of(core: Core) -> TestCore {
        TestCore { core }
    }

    fn try_boot_once(
        alloc: Global,
        sources: &[Source],
        tapes: &[Vec<u8>],
        device: &SimDisk,
    ) -> Result<Result<TestCore, BootFault>, Error> {
        let programs = programs_of(alloc, sources)?;
        if programs.is_empty() || programs.len() > MOST_PROGRAMS || tapes.len() > TAPES {
            bail!("a core has one to eight programs, and at most eight tapes");
        }
        let device = SimDisk::open(alloc, device.bytes())?;
        match Core::boot(alloc, device, programs, tapes_of(alloc, tapes)?) {
            Ok(core) => Ok(Ok(TestCore { core })),
            Err(fault) => Ok(Err(fault)),
        }
    }

    /// Boots these programs and tapes on the completed bytes of a disk. The inner error is why the core is not booted.
    pub fn try_boot(
        alloc: Global,
        sources: &[Source],
        tapes: &[Vec<u8>],
        device: &SimDisk,
    ) -> Result<Result<TestCore, BootFault>, Error> {
        match TestCore::try_boot_once(alloc, sources, tapes, device)? {
            Err(BootFault::OutOfMemory) => TestCore::try_boot_once(alloc, sources, tapes, device),
            booted => Ok(booted),
        }
    }

    /// As `try_boot`, where the core has to be booted.
    pub fn boot(
        alloc: Global,
        sources: &[Source],
        tapes: &[Vec<u8>],
        device: &SimDisk,
    ) -> Result<TestCore, Error> {
        Ok(TestCore::try_boot(alloc, sources, tapes, device)??)
    }

    pub fn apply_once(&mut self, event: Event) -> Result<Answer, Refused> {
        self.core.apply(event)
    }

    pub fn run_script(&mut self, events: &[Event]) -> usize {
        self.core.run_script(events)
    }

    pub fn drain(&mut self) -> Result<(), Refused> {
        self.core.drain()
    }

    pub fn halt(self, fill: &[u8]) -> SimDisk {
        let TestCore { core } = self;
        core.halt(fill)
    }

    pub fn lend_once(&mut self, quantum: u32) -> Result<Option<Loan>, Refused> {
        self.core.lend(quantum)
    }

    pub fn lend_again_once(&mut self, pid: u32, quantum: u32) -> Option<Loan> {
        self.core.lend_again(pid, quantum)
    }

    pub fn settle_once(&mut self, done: Done) -> Result<Answer, Rejected> {
        self.core.settle(done)
    }

    pub fn boot_files(&self) -> &FileList {
        self.core.boot_files()
    }

    pub fn history(&self) -> &[Event] {
        self.core.history()
    }

    /// What a terminal shows: nothing, where there is no such terminal.
    pub fn shown(&self, terminal: u32) -> &[u8] {
        if terminal < TERMINALS as u32 {
            self.core.shown(terminal)
        } else {
            &[]
        }
    }

    /// The replies of a process, as far as they are handed out.
    pub fn replies(&self, pid: u32) -> Result<&[Reply], Refused> {
        self.core.trace(pid)
    }

    /// The numbers that a process was replied, as far as they are handed out.
    pub fn replied(&self, alloc: Global, pid: u32) -> Result<Vec<u32>, Error> {
        let mut numbers = Vec::new(alloc);
        for reply in self.replies(pid)? {
            numbers.push(reply.a0())?;
        }
        Ok(numbers)
    }

    pub fn standing(&self, pid: u32) -> Result<Standing, Refused> {
        self.core.standing(pid)
    }

    pub fn ended(&self, pid: u32) -> Result<Option<u32>, Refused> {
        self.core.ended(pid)
    }

    pub fn in_flight(&self) -> Option<u32> {
        self.core.in_flight()
    }

    /// The writes in flight, in the order in which they were submitted.
    pub fn writes_in_flight(&self) -> &[Piece] {
        self.core.writes_in_flight()
    }

    fn after_crash_once(&self, fill: &[u8]) -> Result<SimDisk, AllocError> {
        self.core.after_crash(fill)
    }

    /// The disk that a crash would leave now with this fill. The core goes on.
    pub fn after_crash(&self, fill: &[u8]) -> Result<SimDisk, AllocError> {
        match self.after_crash_once(fill) {
            Err(_) => self.after_crash_once(fill),
            disk => disk,
        }
    }

    pub fn machine(&self, pid: u32) -> Result<&Machine, Refused> {
        self.core.machine(pid)
    }

    pub fn changes(&self) -> u64 {
        self.core.changes()
    }

    pub fn committed(&self) -> u64 {
        self.core.committed()
    }

    fn cone_once(&self, n: u64) -> Result<Vec<u64>, ConeFault> {
        self.core.cone(n)
    }

    pub fn cone(&self, n: u64) -> Result<Vec<u64>, ConeFault> {
        match self.cone_once(n) {
            Err(ConeFault::OutOfMemory) => self.cone_once(n),
            cone => cone,
        }
    }

    pub fn ran(&self) -> u64 {
        self.core.ran()
    }

    pub fn totals(&self) -> Totals {
        totals_of(&self.core)
    }

    pub fn wants_cut(&self) -> bool {
        self.core.wants_cut()
    }
}
