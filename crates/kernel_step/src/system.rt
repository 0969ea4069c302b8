//! What all processes share: the whole kernel but the tasks and the history.
ghost use Rattle.std.specs.Prelude.{◌≡◌};
ghost use Rattle.calls.specs.Sights.{sight_of};
ghost use Rattle.kernel_step.specs.Entering.{sight_in};

use calls::{KernelTables, TapeTable};
use commit_deps::Dependencies;
use disk_model::Change;
use files::FileTable;
use footprints::Footprints;
use group_commit::Committer;
use held_output::Withheld;
use pipes::PipeTable;
use processes::ProcTable;
use std::alloc::Global;

/// What all processes share.
pub struct System {
    /// Where the host's memory comes from.
    pub alloc: Global,
    pub dependencies: Dependencies,
    /// What each Enter of the history read and wrote.
    pub footprints: Footprints,
    /// All changes of files so far.
    pub changes: Vec<Change>,
    pub files: FileTable,
    pub tapes: TapeTable,
    pub pipes: PipeTable,
    pub processes: ProcTable,
    /// How many Enters were served: those that did not have to wait.
    pub served: u64,
    /// The bytes of the terminals, 0 to 7.
    pub screens: Vec<Withheld<u8>>,
    pub committer: Committer,
}

impl Drop for System {
    fn drop(self) {
        let System {
            alloc: _,
            dependencies: _dependencies,
            footprints: _footprints,
            changes: _changes,
            files: _files,
            tapes: _tapes,
            pipes: _pipes,
            processes: _processes,
            served: _,
            screens: _screens,
            committer: _committer,
        } = self;
    }
}

impl System {
    /// The committer, without the rest.
    pub fn into_committer(self) -> Committer
        ensures { result ≡ self.committer }
    {
        let System {
            alloc: _,
            dependencies: _dependencies,
            footprints: _footprints,
            changes: _changes,
            files: _files,
            tapes: _tapes,
            pipes: _pipes,
            processes: _processes,
            served: _,
            screens: _screens,
            committer,
        } = self;
        committer
    }

    /// The tables from which calls are planned.
    pub fn tables(&self) -> KernelTables<'_>
        ensures { sight_of result ≡ sight_in self.now }
    {
        KernelTables {
            files: &self.files,
            pipes: &self.pipes,
            tapes: &self.tapes,
            processes: &self.processes,
        }
    }
}
