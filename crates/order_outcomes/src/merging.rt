//! Puts the parts of an exploration together.
ghost use Rattle.std.specs.Prelude.{◌≡◌, ◌-◌, ◌++◌, None, Some, true, false, not, replicate, slice_get, slice_set, IfOk, OnOk};
ghost use Rattle.std.specs.List.{position};
ghost use Rattle.order_outcomes.specs.PartFiles.{AreOfOne, IsNoted};

use crate::findings::{Findings, print_outcome};
use crate::levels::levels_of;
use crate::outcome::Outcome;
use crate::part_fault::{PartFault, refused};
use crate::part_file::PartHead;
use crate::part_reading::{PartFile, PartState};
use crate::totals::Totals;
use faults::{Fault, at_path};
use std::alloc::{AllocError, Global};
use std::fs;
use std::io::Write;
use std::rt::Files;

/// The parts that were read so far.
#[derive(Drop)]
struct Merging {
    /// What the first is of.
    first: Option<PartHead>,
    /// Which parts were read.
    read: Vec<bool>,
    states: Vec<PartState>,
    outcomes: Vec<Outcome>,
}

/// Refuses a part of something else than the first one is of.
fn test_same(first: PartHead, head: PartHead) -> Result<(), PartFault>
    ensures { IfOk result (λ _. AreOfOne first head) }
{
    if head.programs != first.programs {
        return Err(PartFault::OtherPrograms);
    }
    if head.instructions != first.instructions
        || head.states != first.states
        || head.calls != first.calls
    {
        return Err(PartFault::OtherLimits);
    }
    if head.part.of != first.part.of {
        return Err(PartFault::OtherNumber);
    }
    Ok(())
}

/// So many parts, of which none was read yet, beside these.
fn add_unread(read: &mut Vec<bool>, parts: u64) -> Result<(), AllocError>
    ensures { OnOk result (read.new.items ≡ read.old.items ++ replicate parts false) }
{
    for _ in 0..parts {
        read.push(false)?;
    }
    Ok(())
}

/// Marks the part of this number as read. Refused is one that was read already, or that is not there.
fn mark_read(read: &mut Vec<bool>, number: u64) -> Result<(), PartFault>
    ensures fresh { OnOk result (slice_get read.old.items (number - 1) ≡ Some false) }
    ensures marked { OnOk result (read.new.items ≡ slice_set read.old.items (number - 1) true) }
{
    match read.get_mut(number.saturating_sub(1) as usize) {
        Some(is_read) if !*is_read => {
            *is_read = true;
            Ok(())
        }
        _ => Err(PartFault::Twice),
    }
}

/// The place of the first part that was not read.
fn first_missing(read: &[bool]) -> Option<usize>
    ensures { result ≡ position not read.now }
{
    read.iter().position(|is_read| !*is_read)
}

impl Merging {
    fn new(alloc: Global) -> Merging {
        Merging {
            first: None,
            read: Vec::new(alloc),
            states: Vec::new(alloc),
            outcomes: Vec::new(alloc),
        }
    }

    /// Notes which part is read. Refused is one of something else, and one that was read already.
    fn note(&mut self, head: PartHead) -> Result<(), PartFault>
        ensures { OnOk result (IsNoted self.old.first self.old.read.items head self.new.first self.new.read.items) }
    {
        match self.first {
            Some(first) => test_same(first, head)?,
            None => {
                add_unread(&mut self.read, head.part.of)?;
                self.first = Some(head);
            }
        }
        mark_read(&mut self.read, head.part.number)
    }

    /// Reads the file of a part.
    fn read(&mut self, alloc: Global, bytes: &[u8]) -> Result<(), PartFault> {
        let mut file = PartFile::parse(alloc, bytes)?;
        self.note(file.head)?;
        self.states.append(&mut file.states)?;
        self.outcomes.append(&mut file.outcomes)?;
        Ok(())
    }

    /// Refuses a part that is missing.
    fn test_all_read(&self, alloc: Global) -> Result<(), Fault>
        ensures { OnOk result (position not self.now.read.items ≡ None) }
    {
        match first_missing(self.read.as_slice()) {
            Some(place) => {
                let (number, of) = (place.saturating_add(1), self.read.len());
                Err(refused(alloc, format_args!("{number}/{of}"), "is missing"))
            }
            None => Ok(()),
        }
    }

    /// How far the whole search came.
    fn totals(&mut self) -> Result<Totals, AllocError> {
        let most = self.first.map_or(0, |head| head.states);
        levels_of(&mut self.states, most)
    }
}

/// Reads the files of all parts.
fn read_all<R: Files + AllocGlobal>(rt: &R, paths: &[&str]) -> Result<Merging, Fault> {
    let alloc = rt.alloc();
    let mut merging = Merging::new(alloc);
    for path in paths {
        let bytes = at_path(alloc, path, fs::read(rt, *path))?;
        if let Err(why) = merging.read(alloc, bytes.as_slice()) {
            return Err(why.of(alloc, path));
        }
    }
    merging.test_all_read(alloc)?;
    Ok(merging)
}

/// Prints each outcome that the whole search comes to, the nearest first. The first that is not expected is refused.
fn print_outcomes<O: Write>(
    alloc: Global,
    outcomes: &[Outcome],
    totals: Totals,
    findings: &mut Findings<'_>,
    out: &mut O,
) -> Result<(), Fault> {
    for outcome in outcomes {
        if totals.left > 0 && outcome.calls.len() as u64 >= totals.depth {
            break;
        }
        if let Some(number) = findings.keep(alloc, outcome)? {
            print_outcome(number, outcome, out)?;
            findings.judge(number, outcome)?;
        }
    }
    Ok(())
}

/// Prints the outcomes of the whole search, and how far it came. Refused where not all was explored.
fn print_all<O: Write>(
    alloc: Global,
    merging: &mut Merging,
    findings: &mut Findings<'_>,
    out: &mut O,
) -> Result<(), Fault> {
    let totals = merging.totals()?;
    merging.outcomes.sort()?;
    merging.outcomes.sort_by_key(|outcome| outcome.calls.len())?;
    print_outcomes(alloc, merging.outcomes.as_slice(), totals, findings, out)?;
    totals.print(findings, out)?;
    totals.test_all(findings)
}

/// Prints what `explore_orders` prints of a whole search, by the files of its parts in any order. A state that several parts found counts
/// once, by the fewest calls, and so does an outcome. Where a part went farther than the whole search, which has the same limits, that is
/// left out.
///
/// The expectations are read first, and then the files; the first that is refused ends it.
pub fn merge_parts<R: Files + AllocGlobal, O: Write>(
    rt: &R,
    paths: &[&str],
    expected: Option<&str>,
    out: &mut O,
) -> Result<(), Fault> {
    let mut findings = Findings::new(rt.alloc(), expected)?;
    let mut merging = read_all(rt, paths)?;
    print_all(rt.alloc(), &mut merging, &mut findings, out)
}
