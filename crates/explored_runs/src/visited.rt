//! A state of a search of all orders, as it is visited.
ghost use Rattle.std.specs.Prelude.{ℕ, List, IfOk};
ghost use Rattle.explored_runs.specs.Answering.{IsVisited};
ghost use Rattle.order_laws.specs.Moves.{Seen};
ghost use Rattle.replayed_runs.specs.Replays.{seen_of};

use crash_lists::Window;
use files::FileList;
use replayed_runs::Replay;
use std::alloc::{AllocError, Global};

/// What is visited of a search.
#[derive(Clone, Copy, PartialEq, Eq)]
pub enum Visits {
    Nothing,
    /// Each state. What terminal 0 shows there counts, so no write to it is private.
    States,
    /// The same, with the files since the last sync where they are to be tried. So the search keeps windows, and states in which they differ are
    /// two; nor is a sync private.
    Windows,
}

/// A state that a search of all orders found.
#[derive(Drop)]
pub struct VisitedState {
    /// The processes whose calls lead there.
    pub calls: Vec<u32>,
    /// What the disk holds once all that was done is committed.
    pub files: FileList,
    /// What terminal 0 shows then: all that was printed there.
    pub shown: Vec<u8>,
    /// Where windows are visited, the files since the last sync, if some process stands at a sync or at a write to terminal 0, or none can go
    /// on.
    pub window: Option<Window>,
}

impl VisitedState {
    /// The state of a run of these calls, which were replayed. It has its window, if windows are kept.
    pub fn of(alloc: Global, calls: &[u32], replay: &Replay) -> Result<VisitedState, AllocError>
        ensures { IfOk result (IsVisited calls.now (seen_of replay.now.core)) }
    {
        let core = &replay.core;
        Ok(VisitedState {
            calls: Vec::from_slice(alloc, calls)?,
            files: core.tables().files.list().try_clone()?,
            shown: Vec::from_slice(alloc, core.written(0))?,
            window: replay.window_copy(alloc)?,
        })
    }

    /// The same, with its window only where that is to be tried.
    pub fn with_window_if(mut self, is_tried: bool) -> VisitedState
        ensures { (ps : List ℕ) (s : Seen) → IsVisited ps s self → IsVisited ps s result }
    {
        if !is_tried {
            self.window = None;
        }
        self
    }
}
