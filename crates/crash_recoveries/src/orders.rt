//! `Orders`: whether the user's recovery gets over the crashes of all orders of calls.
use crate::verdict::{SearchedStates, Trial, Untried, Verdict, print_tested, verdict_of};
use crash_lists::Window;
use crash_points::{CrashPlace, Promise, Stop, Taker, Told};
use crash_visits::{Bound, Closed, Promised, WindowLists};
use exec_runs::Ending;
use faults::Fault;
use files::FileList;
use progress::Progress;
use recovery_runs::{Effort, Recovery, Tester};
use std::alloc::Global;
use std::io::Write;
use std::rt::Files;
use std::thread::Threads;

/// A state to which calls lead.
#[derive(Drop)]
pub struct OrderState<'a> {
    /// The processes that made them, in their order.
    pub calls: &'a [u32],
    /// What the disk holds once all is committed.
    pub files: &'a FileList,
    /// What terminal 0 shows then.
    pub shown: &'a [u8],
    /// By another rule than bench's, the files since the last sync, if a crash is to be tried there.
    pub window: Option<Window>,
}

/// Numbers what is new with its promise of what crashes leave after orders of calls, and has the recovery run on it.
#[derive(Drop)]
struct Numbering<'a, R, E> {
    alloc: Global,
    tester: Tester<'a, R, E>,
    /// The calls that lead to the state that is taken.
    calls: Vec<u32>,
    /// Those that lead to each disk that was new with its promise.
    numbered: Vec<Vec<u32>>,
}

/// What runs the recovery on what crashes leave in states to which orders of calls lead. A search shows it each state. By bench's rule a
/// crash leaves the files of the state, and what it shows: what any crash leaves, some state has, if each change is committed by itself. By
/// another rule it leaves the lists that are allowed since the last sync, and what was printed by then.
#[derive(Drop)]
pub struct Orders<'a, R, E> {
    alloc: Global,
    effort: Effort,
    numbering: Numbering<'a, R, E>,
    /// None by bench's rule.
    lists: Option<WindowLists>,
}

/// What came of the recoveries, and the calls that lead to the state on whose files one failed; none where none did.
#[derive(Drop)]
pub struct OrdersTried {
    pub verdict: Verdict,
    pub calls: Vec<u32>,
}

/// How far the search came, if it came to its end.
fn searched_of(done: &Result<SearchedStates, Stop>) -> Option<SearchedStates> {
    match done {
        Ok(searched) => Some(*searched),
        Err(_) => None,
    }
}

/// Up to which bound all was tried of these lists, if they are by another rule than bench's, where the search came so far.
fn bound_of(lists: Option<WindowLists>, searched: Option<SearchedStates>) -> Option<Bound> {
    let is_whole = match searched {
        Some(searched) => searched.is_whole,
        None => false,
    };
    match lists {
        Some(lists) => Some(lists.bound(is_whole)),
        None => None,
    }
}

/// The end of a search as that of a run, which it is whole.
fn ending_of(done: Result<SearchedStates, Stop>) -> Result<Ending, Stop> {
    match done {
        Ok(_) => Ok(Ending::Over),
        Err(stop) => Err(stop),
    }
}

impl<R: Files + AllocGlobal, E: Write> Taker for Numbering<'_, R, E> {
    fn take(
        &mut self,
        files: &FileList,
        promise: &Promise,
        place: CrashPlace,
        told: Told<'_>,
    ) -> Result<(), Stop> {
        let found = self.tester.found();
        let place = place.numbered(found.saturating_add(1));
        let told = Told {
            calls: Some(self.calls.as_slice()),
            changes: told.changes,
        };
        self.tester.take(files, promise, place, told)?;
        if self.tester.found() > found {
            let calls = Vec::from_slice(self.alloc, self.calls.as_slice())?;
            self.numbered.push(calls)?;
        }
        Ok(())
    }

    fn again(&mut self, times: u64) {
        self.tester.again(times);
    }

    fn settle<T: Threads + Sync>(&mut self, rt: &T) -> Result<(), Stop> {
        self.tester.settle(rt)
    }
}

impl<R: Files + AllocGlobal, E: Write> Numbering<'_, R, E> {
    /// The calls that lead to the state on whose files a recovery failed; none where none did.
    fn failed_calls(&self) -> &[u32] {
        let Some(failure) = &self.tester.failure else {
            return &[];
        };
        let CrashPlace::Order(number, _) = failure.point.place else {
            return &[];
        };
        match self.numbered.get(number.saturating_sub(1) as usize) {
            Some(calls) => calls.as_slice(),
            None => &[],
        }
    }

    /// Runs the recovery on the rest, and prints what came of all, as `Orders` does, whose lists these are.
    fn finish<T: Threads + Sync, O: Write>(
        mut self,
        rt: &T,
        searched: Result<SearchedStates, Stop>,
        lists: Option<WindowLists>,
        effort: Effort,
        out: &mut O,
    ) -> Result<OrdersTried, Fault> {
        let done = self.tester.finish(rt, searched);
        if let Err(Stop::Fault(fault)) = done {
            return Err(fault);
        }
        let searched = searched_of(&done);
        let untried = Untried::Orders(searched, bound_of(lists, searched));
        print_tested(&self.tester, untried, effort, out)?;
        let calls = Vec::from_slice(self.alloc, self.failed_calls())?;
        let Numbering { alloc, tester, .. } = self;
        let lines = String::new(alloc);
        Ok(OrdersTried {
            verdict: verdict_of(ending_of(done), tester.into_failure(), lines)?,
            calls,
        })
    }
}

impl<'a, R: Files + AllocGlobal, E: Write> Orders<'a, R, E> {
    /// Before the first state. How far it has come is told to `err`, if that is wanted.
    pub fn new(
        rt: &'a R,
        recovery: &'a Recovery,
        trial: Trial,
        err: &'a mut E,
    ) -> Orders<'a, R, E> {
        let alloc = rt.alloc();
        let Trial { rule, effort } = trial;
        let progress = Progress::new(rt, err, effort.progress);
        Orders {
            alloc,
            effort,
            numbering: Numbering {
                alloc,
                tester: Tester::new(rt, &recovery.program, effort, progress),
                calls: Vec::new(alloc),
                numbered: Vec::new(alloc),
            },
            lists: match rule {
                Some(rule) => Some(WindowLists::new(alloc, rule)),
                None => None,
            },
        }
    }

    /// Takes a state: its files, or by another rule than bench's its window, if it has one. The recovery is run on what it took, if that is
    /// enough by now. Threads share the work.
    pub fn take<T: Threads + Sync>(&mut self, rt: &T, state: OrderState<'_>) -> Result<(), Stop> {
        let OrderState {
            calls,
            files,
            shown,
            window,
        } = state;
        let promise = Promise::of_bytes(self.alloc, shown)?;
        let place = CrashPlace::Order(0, None);
        self.numbering.calls = Vec::from_slice(self.alloc, calls)?;
        let Some(lists) = &mut self.lists else {
            self.numbering
                .take(files, &promise, place, Told::nothing())?;
            return self.numbering.settle(rt);
        };
        let Some(window) = window else {
            return Ok(());
        };
        let mut promised = Vec::new(self.alloc);
        promised.push(Promised { place, promise })?;
        let closed = Closed { window, promised };
        lists.try_window(rt, &closed, &mut self.numbering)
    }

    /// Runs the recovery on the rest, where the search came so far, or was stopped. Prints the first recovery that failed, if one did, and
    /// how much was tried.
    pub fn finish<T: Threads + Sync, O: Write>(
        self,
        rt: &T,
        searched: Result<SearchedStates, Stop>,
        out: &mut O,
    ) -> Result<OrdersTried, Fault> {
        let Orders {
            effort,
            numbering,
            lists,
            ..
        } = self;
        numbering.finish(rt, searched, lists, effort, out)
    }
}
