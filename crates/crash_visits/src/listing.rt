//! Prints what a crash may leave by another rule than bench's.
use crate::window_lists::Rule;
use crate::windows::WindowTrier;
use crash_outcomes::outcome_of;
use crash_points::{Course, CrashPlace, Promise, RunEnd, Stop, Taker, Told};
use faults::Fault;
use files::FileList;
use scripts::Launch;
use std::alloc::Global;
use std::collections::HashSet;
use std::io::Write;
use std::thread::Threads;

/// Prints each list once.
#[derive(Drop)]
struct Lister<'a, O> {
    alloc: Global,
    lines: HashSet<String>,
    out: &'a mut O,
}

impl<O: Write> Taker for Lister<'_, O> {
    fn take(
        &mut self,
        files: &FileList,
        _promise: &Promise,
        place: CrashPlace,
        _told: Told<'_>,
    ) -> Result<(), Stop> {
        let outcome = outcome_of(self.alloc, files)?;
        let line = outcome.as_str();
        if self.lines.insert(String::from_str(self.alloc, line)?)? {
            writeln!(self.out, "{place} {line}")?;
        }
        Ok(())
    }

    fn again(&mut self, _times: u64) {}

    fn settle<R: Threads + Sync>(&mut self, _rt: &R) -> Result<(), Stop> {
        Ok(())
    }
}

/// Runs what is set up, and prints each list of files that a crash may leave by a rule, when it is found for the first time. At the end
/// it prints how many there were. Gives how the run ended.
pub fn explore_by<R: AllocGlobal + Threads + Sync, O: Write>(
    rt: &R,
    launch: &Launch,
    course: &Course,
    rule: Rule,
    out: &mut O,
) -> Result<RunEnd, Fault> {
    let mut lister = Lister {
        alloc: rt.alloc(),
        lines: HashSet::new(rt.alloc()),
        out,
    };
    let mut trier = WindowTrier::new(rt, launch, rule, false);
    match trier.run(course, &mut lister) {
        Ok(end) => {
            let (count, bound) = (lister.lines.len(), trier.bound());
            writeln!(lister.out, "{count} lists{bound}")?;
            Ok(end)
        }
        Err(stop) => Err(stop.into_fault()),
    }
}
