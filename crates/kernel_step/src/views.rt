//! What may be seen of a run.
ghost use Rattle.std.specs.Prelude.{◌≡◌, ◌<◌, ◌≤◌, ◌^◌, None, true, not, is_some, IsSomeAnd, IfOk, OnOk, IfErr};
ghost use Rattle.std.specs.List.{list_any};
ghost use Rattle.disk_model.specs.Runs.{quiet};
ghost use Rattle.disk_model.specs.Storage.{is_empty};
ghost use Rattle.simdisk.specs.Room.{crashed};
ghost use Rattle.kernel_model.specs.Answers.{now, process_of, committed as committed_in, changes as changes_in, in_flight as least_in_flight, wants_cut as is_cut_wanted};
ghost use Rattle.kernel_model.specs.Paths.{changes_in_log};
ghost use Rattle.kernel_model.specs.Ran.{ran_by_turns};
ghost use Rattle.kernel_model.specs.Shown.{shown as shown_of, printed, told, handed, replies_in, end_in};
ghost use Rattle.kernel_model.specs.Views.{contents};
ghost use Rattle.kernel_model.specs.World.{Boot, terminal_count};
ghost use Rattle.kernel_model.specs.declared.answer.Refused.TheVariants.{NoProcess};
ghost use Rattle.calls.specs.Sights.{sight_of};
ghost use Rattle.footprints.specs.Footprints.{AreFootprints};
ghost use Rattle.held_output.specs.Withheld.{holds_back};
ghost use Rattle.kernel_step.specs.Entering.{IsSightOf};
ghost use Rattle.kernel_step.specs.Represents.{Represents, kernel_in};

use crate::running::Running;
use crate::tasks::task_of;
use calls::KernelTables;
use disk_model::{Change, Piece};
use footprints::Footprints;
use held_output::Withheld;
use kernel_model::{Event, Refused};
use machine::Machine;
use machine_model::Reply;
use simdisk::SimDisk;
use std::alloc::AllocError;

fn is_any_held_back(screens: &[Withheld<u8>]) -> bool
    ensures { result ≡ list_any holds_back screens.now }
{
    screens.iter().any(|screen| screen.holds_back())
}

impl Running {
    /// As `Core::shown`.
    pub fn shown(&self, terminal: u32) -> &[u8]
        requires kept { (b : Boot) × Represents b self.now }
        requires there { terminal < terminal_count }
        ensures { (b : Boot) → Represents b self.now → result.now ≡ shown_of (now (kernel_in b self.now)) terminal }
    {
        let screen = &self.system.screens[terminal as usize];
        screen.released()
    }

    /// As `Core::written`.
    pub fn written(&self, terminal: u32) -> &[u8]
        requires kept { (b : Boot) × Represents b self.now }
        requires there { terminal < terminal_count }
        ensures { (b : Boot) → Represents b self.now → result.now ≡ contents (printed terminal (now (kernel_in b self.now)).log) }
    {
        let screen = &self.system.screens[terminal as usize];
        screen.items()
    }

    /// As `Core::trace`.
    pub fn trace(&self, pid: u32) -> Result<&[Reply], Refused>
        ensures replies { IfOk result (λ rs. (b : Boot) → Represents b self.now → rs.now ≡ replies_in (handed (now (kernel_in b self.now)) pid)) }
        ensures there { OnOk result ((b : Boot) → Represents b self.now → is_some (process_of (kernel_in b self.now) pid) ≡ true) }
        ensures none { IfErr result (λ why. (b : Boot) → Represents b self.now → (why ≡ NoProcess) × (process_of (kernel_in b self.now) pid ≡ None)) }
    {
        let task = task_of(&self.tasks, pid)?;
        Ok(task.trace.replies())
    }

    /// As `Core::replies`.
    pub fn replies(&self, pid: u32) -> Result<&[Reply], Refused>
        ensures replies { IfOk result (λ rs. (b : Boot) → Represents b self.now → rs.now ≡ replies_in (contents (told pid (now (kernel_in b self.now)).log))) }
        ensures none { IfErr result (λ why. (b : Boot) → Represents b self.now → (why ≡ NoProcess) × (process_of (kernel_in b self.now) pid ≡ None)) }
    {
        let task = task_of(&self.tasks, pid)?;
        Ok(task.trace.all_replies())
    }

    /// As `Core::ended`.
    pub fn ended(&self, pid: u32) -> Result<Option<u32>, Refused>
        ensures status { IfOk result (λ status. (b : Boot) → Represents b self.now → status ≡ end_in (handed (now (kernel_in b self.now)) pid)) }
        ensures there { OnOk result ((b : Boot) → Represents b self.now → is_some (process_of (kernel_in b self.now) pid) ≡ true) }
        ensures none { IfErr result (λ why. (b : Boot) → Represents b self.now → (why ≡ NoProcess) × (process_of (kernel_in b self.now) pid ≡ None)) }
    {
        let task = task_of(&self.tasks, pid)?;
        Ok(task.trace.ended())
    }

    /// As `Core::history`.
    pub fn history(&self) -> &[Event]
        ensures { (b : Boot) → result.now ≡ (kernel_in b self.now).history }
    {
        &self.history
    }

    /// As `Core::committed`.
    pub fn committed(&self) -> u64
        ensures { (b : Boot) → Represents b self.now → result ≡ committed_in (now (kernel_in b self.now)) }
    {
        self.system.committer.committed()
    }

    /// As `Core::changes`.
    pub fn changes(&self) -> u64
        ensures { (b : Boot) → Represents b self.now → result ≡ changes_in (now (kernel_in b self.now)) }
    {
        self.system.changes.len() as u64
    }

    /// As `Core::change_list`.
    pub fn change_list(&self) -> &[Change]
        ensures { (b : Boot) → Represents b self.now → result.now ≡ changes_in_log (now (kernel_in b self.now)).log }
    {
        &self.system.changes
    }

    /// As `Core::ran`.
    pub fn ran(&self) -> u64
        ensures sum { (b : Boot) → Represents b self.now → result ≡ ran_by_turns (kernel_in b self.now) }
        ensures few { (b : Boot) → Represents b self.now → result ≤ 2 ^ 50 }
    {
        self.ran
    }

    /// As `Core::wants_cut`.
    pub fn wants_cut(&self) -> bool
        ensures { (b : Boot) → Represents b self.now → result ≡ is_cut_wanted (now (kernel_in b self.now)) }
    {
        let held = is_any_held_back(&self.system.screens);
        self.system.committer.wants_cut(held)
    }

    /// As `Core::in_flight`.
    pub fn in_flight(&self) -> Option<u32>
        ensures { (b : Boot) → Represents b self.now → result ≡ least_in_flight (now (kernel_in b self.now)) }
    {
        self.system.committer.in_flight()
    }

    /// As `Core::writes_in_flight`.
    pub fn writes_in_flight(&self) -> &[Piece]
        ensures { (b : Boot) → Represents b self.now → result.now ≡ (now (kernel_in b self.now)).storage.device.in_flight }
    {
        self.system.committer.writes_in_flight()
    }

    /// As `Core::machine`.
    pub fn machine(&self, pid: u32) -> Result<&Machine, Refused>
        ensures machine { IfOk result (λ machine. (b : Boot) → Represents b self.now → IsSomeAnd (process_of (kernel_in b self.now) pid) (λ process. machine.now ≡ process.state)) }
        ensures none { IfErr result (λ why. (b : Boot) → Represents b self.now → (why ≡ NoProcess) × (process_of (kernel_in b self.now) pid ≡ None)) }
    {
        let task = task_of(&self.tasks, pid)?;
        Ok(task.machine())
    }

    /// As `Core::tables`.
    pub fn tables(&self) -> KernelTables<'_>
        ensures { (b : Boot) → Represents b self.now → IsSightOf (now (kernel_in b self.now)).sync (sight_of result) }
    {
        self.system.tables()
    }

    /// As `Core::footprints`.
    pub fn footprints(&self) -> &Footprints
        ensures { (b : Boot) → Represents b self.now
            → AreFootprints (kernel_in b self.now).history (now (kernel_in b self.now)).log result.now.footprints }
    {
        &self.system.footprints
    }

    /// As `Core::has_failed`.
    pub fn has_failed(&self) -> bool
        ensures { (b : Boot) → Represents b self.now → result ≡ not (is_empty (now (kernel_in b self.now)).storage.device.failed) }
    {
        self.system.committer.has_failed()
    }

    /// The device that `Core::halt` gives; what is known of its files is said there.
    pub fn crash(self, fill: &[u8]) -> SimDisk
        ensures { (b : Boot) → Represents b self → result ≡ quiet (crashed (now (kernel_in b self)).storage.device fill.now) }
    {
        self.into_system().into_committer().crash(fill)
    }

    /// The device that `Core::after_crash` gives; what is known of its files is said there.
    pub fn after_crash(&self, fill: &[u8]) -> Result<SimDisk, AllocError>
        ensures { IfOk result (λ d. (b : Boot) → Represents b self.now → d ≡ quiet (crashed (now (kernel_in b self.now)).storage.device fill.now)) }
    {
        self.system.committer.after_crash(fill)
    }
}
