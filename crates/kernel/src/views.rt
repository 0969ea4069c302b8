//! What may be seen of a run.
ghost use Rattle.std.specs.Prelude.{◌≡◌, ◌<◌, None, true, not, is_some, IsSomeAnd, IfOk, OnOk, IfErr};
ghost use Rattle.disk_model.specs.Storage.{is_empty};
ghost use Rattle.kernel_model.specs.Answers.{now, process_of, committed as committed_in, changes as changes_in, in_flight as least_in_flight, wants_cut as is_cut_wanted};
ghost use Rattle.kernel_model.specs.Paths.{changes_in_log};
ghost use Rattle.kernel_model.specs.Ran.{ran_by_turns};
ghost use Rattle.kernel_model.specs.Shown.{shown as shown_of, printed, told, handed, replies_in, end_in};
ghost use Rattle.kernel_model.specs.Views.{contents};
ghost use Rattle.kernel_model.specs.World.{terminal_count};
ghost use Rattle.kernel_model.specs.declared.answer.Refused.TheVariants.{NoProcess};
ghost use Rattle.calls.specs.Sights.{sight_of};
ghost use Rattle.footprints.specs.Footprints.{AreFootprints};
ghost use Rattle.kernel_step.specs.Entering.{IsSightOf};
ghost use Rattle.kernel.specs.Sums.{sum_of_turns, sum_of_enters};

use crate::cores::Core;
use disk_model::{Change, Piece};
use files::FileList;
use kernel_model::{Event, Refused};
use kernel_step::{Footprints, KernelTables, Machine};
use machine_model::Reply;

impl Core {
    /// The bytes that a terminal, 0 to 7, shows: the longest prefix of those written to it that rests on committed changes alone.
    pub fn shown(&self, terminal: u32) -> &[u8]
        requires { terminal < terminal_count }
        ensures { result.now ≡ shown_of (now self.now) terminal }
    {
        self.running.shown(terminal)
    }

    /// All bytes that were written to a terminal, 0 to 7, shown or held back.
    pub fn written(&self, terminal: u32) -> &[u8]
        requires { terminal < terminal_count }
        ensures { result.now ≡ contents (printed terminal (now self.now).log) }
    {
        self.running.written(terminal)
    }

    /// The replies to a process's calls that are handed out: the longest prefix that rests on committed changes alone. Refused:
    /// NoProcess.
    pub fn trace(&self, pid: u32) -> Result<&[Reply], Refused>
        ensures replies { IfOk result (λ rs. rs.now ≡ replies_in (handed (now self.now) pid)) }
        ensures there { OnOk result (is_some (process_of self.now pid) ≡ true) }
        ensures none { IfErr result (λ why. (why ≡ NoProcess) × (process_of self.now pid ≡ None)) }
    {
        self.running.trace(pid)
    }

    /// All replies to a process's calls, handed out or held back; those of a forked process begin with its parent's. They are for records
    /// of what a run did: what a user may see is `trace`. Refused: NoProcess.
    pub fn replies(&self, pid: u32) -> Result<&[Reply], Refused>
        ensures replies { IfOk result (λ rs. rs.now ≡ replies_in (contents (told pid (now self.now).log))) }
        ensures none { IfErr result (λ why. (why ≡ NoProcess) × (process_of self.now pid ≡ None)) }
    {
        self.running.replies(pid)
    }

    /// The status with which a process ended, where all its replies are handed out and its end rests on committed changes alone.
    /// None before. Refused: NoProcess.
    pub fn ended(&self, pid: u32) -> Result<Option<u32>, Refused>
        ensures status { IfOk result (λ status. status ≡ end_in (handed (now self.now) pid)) }
        ensures there { OnOk result (is_some (process_of self.now pid) ≡ true) }
        ensures none { IfErr result (λ why. (why ≡ NoProcess) × (process_of self.now pid ≡ None)) }
    {
        self.running.ended(pid)
    }

    /// The accepted events, in order.
    pub fn history(&self) -> &[Event]
        ensures { result.now ≡ self.now.history }
    {
        self.running.history()
    }

    /// How many changes are committed.
    pub fn committed(&self) -> u64
        ensures { result ≡ committed_in (now self.now) }
    {
        self.running.committed()
    }

    /// How many changes of files there are, committed or not.
    pub fn changes(&self) -> u64
        ensures { result ≡ changes_in (now self.now) }
    {
        self.running.changes()
    }

    /// The changes of files, in order, committed or not.
    pub fn change_list(&self) -> &[Change]
        ensures { result.now ≡ changes_in_log (now self.now).log }
    {
        self.running.change_list()
    }

    /// How many instructions the history's Turns ran, those of loans' results among them.
    pub fn ran(&self) -> u64
        ensures { result ≡ ran_by_turns self.now }
    {
        self.running.ran()
    }

    /// The sum of the process numbers of the history's Turns, those of loans' results among them.
    pub fn sum_of_turns(&self) -> u64
        ensures { result ≡ sum_of_turns self.now.history }
    {
        self.sums.turns
    }

    /// The sum of the process numbers of the history's Enters, those of loans' results among them.
    pub fn sum_of_enters(&self) -> u64
        ensures { result ≡ sum_of_enters self.now.history }
    {
        self.sums.enters
    }

    /// Whether a write has failed in this run. No later Cut is accepted then.
    pub fn has_failed(&self) -> bool
        ensures { result ≡ not (is_empty (now self.now).storage.device.failed) }
    {
        self.running.has_failed()
    }

    /// Whether a Cut is wanted: a byte of some terminal is held back, no group is in flight, and no write has failed.
    pub fn wants_cut(&self) -> bool
        ensures { result ≡ is_cut_wanted (now self.now) }
    {
        self.running.wants_cut()
    }

    /// The files that the disk held at boot.
    pub fn boot_files(&self) -> &FileList
        ensures { result.now ≡ self.now.boot.files }
    {
        &self.booted.files
    }

    /// The least offset on the disk at which a write in flight begins. None where no write is in flight.
    pub fn in_flight(&self) -> Option<u32>
        ensures { result ≡ least_in_flight (now self.now) }
    {
        self.running.in_flight()
    }

    /// The writes in flight, in the order in which they were submitted, each with the place on the disk at which it begins, and its
    /// bytes. A Complete or a Fail names one by its place.
    pub fn writes_in_flight(&self) -> &[Piece]
        ensures { result.now ≡ (now self.now).storage.device.in_flight }
    {
        self.running.writes_in_flight()
    }

    /// The machine of a process as it stands between two events; of one that is lent, as it stood when it was lent. For whoever draws
    /// or debugs a run: `Machine::reg` and `Machine::pc` read its registers, and `byte` of its `Machine::space` its bytes.
    /// Refused: NoProcess.
    pub fn machine(&self, pid: u32) -> Result<&Machine, Refused>
        ensures machine { IfOk result (λ machine. IsSomeAnd (process_of self.now pid) (λ process. machine.now ≡ process.state)) }
        ensures none { IfErr result (λ why. (why ≡ NoProcess) × (process_of self.now pid ≡ None)) }
    {
        self.running.machine(pid)
    }

    /// The tables from which calls are planned, where each change of a file counts at once: the files as programs see them, the bytes
    /// that pipes hold, what is left of the tapes, and of each process its descriptors, its children left to collect, and its end.
    pub fn tables(&self) -> KernelTables<'_>
        ensures { IsSightOf (now self.now).sync (sight_of result) }
    {
        self.running.tables()
    }

    /// What each Enter of the history read beside its process, and what it wrote.
    pub fn footprints(&self) -> &Footprints
        ensures { AreFootprints self.now.history (now self.now).log result.now.footprints }
    {
        self.running.footprints()
    }
}
