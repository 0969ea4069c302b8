//! Runs the cases of a `.cores` file. Beside each line of a case stands what the line has to come to.
//!
//! Each case begins with a line `== TITLE` (`case_files` of `case_format`). Its lines are run one after the other. Each is a command
//! and, after ` => `, what it has to come to, as `{:?}` prints it; without that it has to come to `Ok(())`. What stands after `#`
//! is a comment. Numbers are decimal, and one that is missing or no number is 0. HEX is pairs of digits, `-` for no bytes where a
//! line comes to them.
//!
//! Set up are programs, tapes and a disk, which is of zeros before:
//! - `program T FILE`: one more program, for this terminal, whose source stands in a file;
//! - `tape HEX`: one more tape, which is empty without HEX;
//! - `disk S AT HEX`: a disk with S as its byte 0, and with these bytes from the place AT on.
//!
//! The first line that needs the core boots it from all that:
//! - `turn P N`, `enter P`, `cut`, `complete AT`, `fail AT`: an event, which comes to its answer or its refusal;
//! - `script EVENT; EVENT; ..`: these events by `run_script`, which comes to the number of those that were applied;
//! - `drain`;
//! - `scripts EVENT; ..`, `drains`: the same, and once more for what the first left, as where memory ran out;
//! - `call P`: process P runs up to a call or a trap and enters the kernel; the line comes to the answer of the Enter;
//! - `until N`: process 1 makes calls until there are N changes, and the line comes to their number;
//! - `commit N`: N events, each the completion of the write in flight that begins first on the disk, or a Cut where none is;
//! - `rounds N K`: N times, process 1 makes K further changes, which one group commits; the line comes to the numbers of
//!   writes that this took each time;
//! - `lend Q NAME`: a process is lent for a quantum of Q, and the loan run; its result goes by this name, and the line comes
//!   to its process, or to None where none is lent;
//! - `again P Q NAME`: the same of process P, whichever was lent last;
//! - `settle NAME`: the core takes the result back; one that is refused comes to why, and to what is given back of it, the
//!   process, the number of the loan and how many instructions it ran;
//! - `loans Q`: loans for a quantum of Q are run and taken back until no process is lent, and the line comes to their number;
//! - `history`: the events; `last N`: the last N of them; `events`: their number; `cone N`: the numbers of those in the cone
//!   of event N;
//! - `ran`: how many instructions ran; `totals`: the four numbers of the history; `counts`: how many changes there are and how
//!   many are committed, and whether a cut is wanted; `in_flight`;
//! - `writes`: the writes in flight, each by its place and how many bytes it has; `machine P`: how many instructions the process
//!   did, its pc and its a0;
//! - `shown T`, in HEX; `replied P`: the numbers that the process was replied; `ended P`.
//!
//! What is refused for want of memory is tried again (`watching`), so that a line comes to the same whichever growth is refused.
//!
//! By `halt HEX` or `halt` the core ends. Its writes in flight leave these bytes on the disk, or none, and the next core is
//! booted on it. A case can have a second core, which is booted alike. After `other` the lines are about it, and after one
//! more `other` about the first.
//!
//! By `after HEX` or `after` the core goes on, and the disk is the one that a crash would leave now.
//!
//! Of the disk, as it is before a boot, after a halt or after a line `after`:
//! - `recovered`: how many files it holds, or its fault; `boot`: how many files a core finds that is booted on it, or why it
//!   is refused;
//! - `files FILE N`: whether it holds the files that the program of this file leaves after its first N changes, by a plain
//!   fold of them, and a core that is booted on it finds them (`changers`);
//! - `bytes AT N`: N bytes from this place on, in HEX; `zeros AT N`: whether they are zeros.
use crate::changers::Changer;
use crate::cores::{Source, TestCore, recover};
use crate::plain_files::has;
use anyhow::{Error, bail};
use bursts::{Done, Rejected};
use case_format::{Choice, bare};
use files::part_of;
use formats::Reg;
use kernel::{Event, Refused, SimDisk};
use kernel_model::TERMINALS;
use simdisk::DiskRefusal;
use std::alloc::Global;
use std::fmt::Debug;
use std::rt::Files;
use std::{fs, mem};

/// The word at this place of a command, an empty one where there is none.
fn word(command: &str, place: usize) -> &str {
    command.split_whitespace().nth(place).unwrap_or("")
}

/// The number that is written as the word at this place of a command, 0 where there is none.
fn number(command: &str, place: usize) -> u32 {
    word(command, place).parse::<u32>().unwrap_or(0)
}

/// What comes after the first word of a command.
fn after_word(command: &str) -> &str {
    match command.split_once(' ') {
        Some((_word, rest)) => rest,
        None => "",
    }
}

/// What a line comes to, as it is written.
fn text<T: Debug + Drop>(alloc: Global, answer: T) -> Result<String, Error> {
    Ok(format!(in alloc; "{answer:?}")?)
}

/// What a line comes to that has to succeed. An error ends the case.
fn text_ok<T: Debug + Drop>(alloc: Global, answer: T) -> Result<String, Error> {
    text(alloc, Ok::<T, Refused>(answer))
}

/// Bytes as they are written, `-` for none.
fn digits(alloc: Global, bytes: &[u8]) -> Result<String, Error> {
    if bytes.is_empty() {
        return Ok(String::from_str(alloc, "-")?);
    }
    Ok(hex::encode(alloc, bytes)?)
}

fn event_of(command: &str) -> Result<Event, Error> {
    let (first, n) = (number(command, 1), number(command, 2));
    match word(command, 0) {
        "turn" => Ok(Event::Turn { pid: first, n }),
        "enter" => Ok(Event::Enter { pid: first }),
        "cut" => Ok(Event::Cut),
        "complete" => Ok(Event::Complete { at: first }),
        "fail" => Ok(Event::Fail { at: first }),
        _ => bail!("no such command"),
    }
}

fn events_of(alloc: Global, commands: &str) -> Result<Vec<Event>, Error> {
    let mut events = Vec::new(alloc);
    for command in commands.split(';') {
        events.push(event_of(command)?)?;
    }
    Ok(events)
}

fn last_events(core: &TestCore, count: usize) -> &[Event] {
    let history = core.history();
    &history[history.len().saturating_sub(count)..]
}

/// What a line `script` comes to.
fn run_script(alloc: Global, core: &mut TestCore, commands: &str) -> Result<String, Error> {
    let events = events_of(alloc, commands)?;
    text(alloc, core.run_script(events.as_slice()))
}

/// What a line `scripts` comes to.
fn run_scripts(alloc: Global, core: &mut TestCore, commands: &str) -> Result<String, Error> {
    let events = events_of(alloc, commands)?;
    text(alloc, core.run_scripts(events.as_slice()))
}

/// What a line comes to that applies an event or events.
fn apply(alloc: Global, core: &mut TestCore, command: &str) -> Result<String, Error> {
    match word(command, 0) {
        "script" => run_script(alloc, core, after_word(command)),
        "scripts" => run_scripts(alloc, core, after_word(command)),
        "drain" => text(alloc, core.drain()),
        "drains" => text(alloc, core.drains()?),
        "call" => text(alloc, core.call(number(command, 1))?),
        _ => {
            let event = event_of(command)?;
            text(alloc, core.apply(event)?)
        }
    }
}

/// What a line comes to that has a core go on; another line is `apply`'s.
fn run(alloc: Global, core: &mut TestCore, command: &str) -> Result<String, Error> {
    let first = number(command, 1);
    match word(command, 0) {
        "until" => text_ok(alloc, core.change_up_to(u64::from(first))?),
        "commit" => text(alloc, core.commit(u64::from(first))),
        "rounds" => text_ok(
            alloc,
            core.rounds(alloc, first, u64::from(number(command, 2)))?,
        ),
        "loans" => text_ok(alloc, core.loans(first)?),
        _ => apply(alloc, core, command),
    }
}

/// Where each write in flight begins, and how many bytes it has.
fn writes_text(alloc: Global, core: &TestCore) -> Result<String, Error> {
    let mut writes = Vec::new(alloc);
    for write in core.writes_in_flight() {
        writes.push((write.at, write.bytes.as_slice().len()))?;
    }
    text(alloc, writes)
}

/// How many instructions a process did, its pc and its a0.
fn machine_text(alloc: Global, core: &TestCore, pid: u32) -> Result<String, Error> {
    match core.machine(pid) {
        Ok(machine) => text_ok(
            alloc,
            (machine.count(), machine.pc(), machine.reg(Reg::new(10))),
        ),
        Err(why) => text(alloc, Err::<(), Refused>(why)),
    }
}

/// What a line comes to that looks at a core; another line is `run`'s.
fn look_or_run(alloc: Global, core: &mut TestCore, command: &str) -> Result<String, Error> {
    let first = number(command, 1);
    match word(command, 0) {
        "in_flight" => text(alloc, core.in_flight()),
        "shown" => digits(alloc, core.shown(first)),
        "replied" => text_ok(alloc, core.replied(alloc, first)?),
        "ended" => text(alloc, core.ended(first)),
        "writes" => writes_text(alloc, core),
        "machine" => machine_text(alloc, core, first),
        _ => run(alloc, core, command),
    }
}

/// What a line comes to that counts what a core did; another line is `look_or_run`'s.
fn count_or_look(alloc: Global, core: &mut TestCore, command: &str) -> Result<String, Error> {
    match word(command, 0) {
        "history" => text(alloc, core.history()),
        "events" => text(alloc, core.history().len()),
        "last" => text(alloc, last_events(core, number(command, 1) as usize)),
        "cone" => text(alloc, core.cone(u64::from(number(command, 1)))),
        "ran" => text(alloc, core.ran()),
        "totals" => text(alloc, core.totals()),
        "counts" => text(alloc, (core.changes(), core.committed(), core.wants_cut())),
        _ => look_or_run(alloc, core, command),
    }
}

/// A quiet device with a disk of zeros, but for byte 0 and for these bytes, from this place on.
fn disk_with(alloc: Global, selector: u8, at: u32, bytes: &[u8]) -> Result<SimDisk, DiskRefusal> {
    let mut device = SimDisk::zero(alloc)?;
    device.submit(0, &[selector])?;
    device.submit(at, bytes)?;
    device.complete(0)?;
    device.complete(at)?;
    Ok(device)
}

/// Why a result is refused, and what is given back of it.
fn rejection_text(alloc: Global, rejected: &Rejected) -> Result<String, Error> {
    let done = &rejected.done;
    text(alloc, (rejected.why, done.pid, done.number, done.count))
}

/// A case as far as it has run.
pub struct Case {
    alloc: Global,
    sources: Vec<Source>,
    tapes: Vec<Vec<u8>>,
    device: SimDisk,
    core: Option<TestCore>,
    other: Option<TestCore>,
    /// Results of loans, each with its name.
    results: Vec<(String, Done)>,
}

impl Drop for Case {
    fn drop(self) {
        let Case {
            alloc: _,
            sources: _sources,
            tapes: _tapes,
            device: _device,
            core: _core,
            other: _other,
            results: _results,
        } = self;
    }
}

impl Case {
    /// A case before its first line.
    pub fn new(alloc: Global) -> Result<Case, Error> {
        Ok(Case {
            alloc,
            sources: Vec::new(alloc),
            tapes: Vec::new(alloc),
            device: SimDisk::zero(alloc)?,
            core: None,
            other: None,
            results: Vec::new(alloc),
        })
    }

    fn program<R: Files + AllocGlobal>(
        &mut self,
        rt: &R,
        terminal: u32,
        name: &str,
    ) -> Result<(), Error> {
        let text = fs::read_to_string(rt, name)?;
        if terminal >= TERMINALS as u32 {
            bail!("there is no such terminal");
        }
        self.sources.push(Source { terminal, text })?;
        Ok(())
    }

    fn tape(&mut self, digits: &str) -> Result<(), Error> {
        self.tapes.push(hex::decode(self.alloc, digits)?)?;
        Ok(())
    }

    fn set_disk(&mut self, selector: u32, at: u32, digits: &str) -> Result<(), Error> {
        let bytes = hex::decode(self.alloc, digits)?;
        self.device = disk_with(self.alloc, u8::try_from(selector)?, at, &bytes)?;
        Ok(())
    }

    /// Swaps the two cores of the case, for `other`.
    fn swap(&mut self) {
        mem::swap(&mut self.core, &mut self.other);
    }

    /// The core, which is booted where there is none.
    fn core(&mut self) -> Result<&mut TestCore, Error> {
        if self.core.is_none() {
            let core = TestCore::boot(self.alloc, &self.sources, &self.tapes, &self.device)?;
            self.core = Some(core);
        }
        match &mut self.core {
            Some(core) => Ok(core),
            None => bail!("no core was booted"),
        }
    }

    fn halt(&mut self, digits: &str) -> Result<(), Error> {
        let fill = hex::decode(self.alloc, digits)?;
        if let Some(core) = self.core.take() {
            self.device = core.halt(&fill);
        }
        Ok(())
    }

    /// The disk becomes the one that a crash of the core would leave.
    fn crash_copy(&mut self, digits: &str) -> Result<(), Error> {
        let fill = hex::decode(self.alloc, digits)?;
        self.device = self.core()?.after_crash(&fill)?;
        Ok(())
    }

    /// A result goes by this name from now on. Gives its process, if there is one.
    fn name_result(&mut self, done: Option<Done>, name: &str) -> Result<Option<u32>, Error> {
        let Some(done) = done else {
            return Ok(None);
        };
        let pid = done.pid;
        let name = String::from_str(self.alloc, name)?;
        self.results.push((name, done))?;
        Ok(Some(pid))
    }

    /// Lends a process and runs the loan, whose result goes by this name. Gives the process, if one was lent.
    fn lend(&mut self, quantum: u32, name: &str) -> Result<Option<u32>, Error> {
        let done = self.core()?.burst(quantum)?;
        self.name_result(done, name)
    }

    /// As `lend`, of this process.
    fn lend_again(&mut self, pid: u32, quantum: u32, name: &str) -> Result<Option<u32>, Error> {
        let done = self.core()?.burst_again(pid, quantum)?;
        self.name_result(done, name)
    }

    /// The result of this name, which is gone then.
    fn result(&mut self, name: &str) -> Result<Done, Error> {
        for place in 0..self.results.len() {
            if self.results[place].0.as_str() == name {
                let (_name, done) = self.results.remove(place);
                return Ok(done);
            }
        }
        bail!("no result goes by this name")
    }

    fn settle(&mut self, name: &str) -> Result<String, Error> {
        let alloc = self.alloc;
        let done = self.result(name)?;
        match self.core()?.settle(done)? {
            Ok(answer) => text(alloc, answer),
            Err(rejected) => rejection_text(alloc, &rejected),
        }
    }

    /// How many files the disk holds, or its fault.
    fn recovered(&self) -> Result<String, Error> {
        match recover(self.alloc, &self.device) {
            Ok(files) => text(self.alloc, files.count()),
            Err(fault) => text(self.alloc, fault),
        }
    }

    /// How many files a core finds that is booted on the disk, or why it is refused.
    fn booted(&self) -> Result<String, Error> {
        match TestCore::try_boot(self.alloc, &self.sources, &self.tapes, &self.device)? {
            Ok(core) => text(self.alloc, core.boot_files().count()),
            Err(fault) => text(self.alloc, fault),
        }
    }

    /// Whether the disk holds the files that a program leaves after so many changes, and a core that is booted on it finds
    /// them.
    fn holds(&self, name: &str, changes: u32) -> Result<bool, Error> {
        let files = Changer::of(name).files_after(self.alloc, changes)?;
        let found = recover(self.alloc, &self.device)?;
        let next = TestCore::boot(self.alloc, &self.sources, &self.tapes, &self.device)?;
        Ok(has(found.list(), &files) && has(next.boot_files(), &files))
    }

    fn part(&self, at: u32, count: u32) -> &[u8] {
        part_of(self.device.bytes(), at as usize, count as usize)
    }

    fn is_zero(&self, at: u32, count: u32) -> bool {
        self.part(at, count).iter().all(|byte| *byte == 0)
    }

    /// What a line comes to that is about the disk or results of loans; another line is `count_or_look`'s.
    fn recover_or_lend(&mut self, command: &str) -> Result<String, Error> {
        let alloc = self.alloc;
        let first = number(command, 1);
        let second = number(command, 2);
        match word(command, 0) {
            "recovered" => self.recovered(),
            "boot" => self.booted(),
            "files" => text_ok(alloc, self.holds(word(command, 1), second)?),
            "bytes" => digits(alloc, self.part(first, second)),
            "zeros" => text(alloc, self.is_zero(first, second)),
            "lend" => text_ok(alloc, self.lend(first, word(command, 2))?),
            "again" => text_ok(alloc, self.lend_again(first, second, word(command, 3))?),
            "settle" => self.settle(word(command, 1)),
            _ => count_or_look(alloc, self.core()?, command),
        }
    }

    /// What a line comes to that sets up a tape or a disk, or another core; another line is `recover_or_lend`'s.
    fn set_or_recover(&mut self, command: &str) -> Result<String, Error> {
        let alloc = self.alloc;
        let first = word(command, 1);
        match word(command, 0) {
            "tape" => text_ok(alloc, self.tape(first)?),
            "disk" => text_ok(
                alloc,
                self.set_disk(number(command, 1), number(command, 2), word(command, 3))?,
            ),
            "other" => text_ok(alloc, self.swap()),
            "halt" => text_ok(alloc, self.halt(first)?),
            "after" => text_ok(alloc, self.crash_copy(first)?),
            _ => self.recover_or_lend(command),
        }
    }

    /// What a line comes to.
    fn answer<R: Files + AllocGlobal>(&mut self, rt: &R, command: &str) -> Result<String, Error> {
        let alloc = self.alloc;
        match word(command, 0) {
            "program" => text_ok(
                alloc,
                self.program(rt, number(command, 1), word(command, 2))?,
            ),
            _ => self.set_or_recover(command),
        }
    }

    /// Runs a line, and compares what it comes to with what is wanted. Where they differ, prints both and gives an error.
    fn check<R: Files + AllocGlobal + Eprint>(&mut self, rt: &R, line: &str) -> Result<(), Error> {
        let (command, wanted) = parts_of(line);
        if command.is_empty() {
            return Ok(());
        }
        let answer = self.answer(rt, command)?;
        if answer.as_str() == wanted {
            return Ok(());
        }
        // What it came to may be longer than the text of an error.
        eprintln!(rt; "{command} => {wanted}\nit comes to: {answer}")?;
        bail!("a line comes to something else")
    }
}

/// The command of a line, and what it has to come to.
fn parts_of(line: &str) -> (&str, &str) {
    let line = bare(line);
    line.split_once(" => ").unwrap_or((line, "Ok(())"))
}

/// Runs the lines of a case, up to the first that comes to something else than what is wanted.
fn run_case<R: Files + AllocGlobal + Eprint>(rt: &R, lines: &str) -> Result<(), Error> {
    let mut case = Case::new(rt.alloc())?;
    for line in lines.lines() {
        case.check(rt, line)?;
    }
    Ok(())
}

/// Runs the chosen cases of a file, each of them whatever came of those before, and gives the line that is printed where all pass.
/// For each that fails standard error has a line: the word that names it, and why, with what its line comes to.
pub fn check_file<R: Files + AllocGlobal + Eprint>(
    rt: &R,
    choice: Choice<'_>,
) -> Result<String, Error> {
    let file = choice.file;
    let text = fs::read_to_string(rt, file)?;
    let mut failed = 0usize;
    for case in choice.cases(rt, text.as_str())? {
        if let Err(error) = run_case(rt, case.lines) {
            let title = case.title;
            eprintln!(rt; "{file}:{title}: {error}")?;
            failed = failed.saturating_add(1);
        }
    }
    choice.outcome(rt.alloc(), failed)
}
