//! Runs of programs for people.
use crate::exec_outputs::Outputs;
use crate::observing::{before_call, both, may_show};
use crate::running::{Booted, keep_end, of_run, run_on};
use command_line::ExecOptions;
use exec_records::{Counts, EndedRun, Profile, StepLog, write_json};
use exec_reports::{CallTrace, Family, print_ending, status_of_run};
use exec_runs::{Ending, Order, Turns};
use executor::RunFault;
use faults::Fault;
use kernel::Core;
use run_events::{EventRecord, Observer, step};
use run_files::{Input, Subject, boot_on, of_disk, subject_in};
use run_threads::Screen;
use scripts::Launch;
use std::fs::File;
use std::io::{BufWriter, Read, Write};
use std::rt::Files;
use std::sync::Wait;
use std::thread::Threads;

/// How many bytes of a log go out at once.
const LOG_PART: usize = 65_536;

type FileLog<'a> = StepLog<'a, BufWriter<File>>;

/// A run, but for its core.
#[derive(Drop)]
struct Execution<'a, R> {
    rt: &'a R,
    options: &'a ExecOptions<'a>,
    family: Family,
    counts: Option<Counts>,
    profile: Option<Profile>,
    /// What is recorded, or drawn, of the run before its events.
    launch: Option<Launch>,
}

impl<'a, R: Files<File = File> + AllocGlobal + Threads + Wait + Sync> Execution<'a, R> {
    fn log_of(&self, outputs: &Outputs<'_, R>) -> Result<Option<FileLog<'a>>, Fault> {
        let (Some(file), Some(path)) = (&outputs.log, self.options.log) else {
            return Ok(None);
        };
        let alloc = self.rt.alloc();
        Ok(Some(StepLog {
            alloc,
            pid: self.options.logged,
            path,
            out: BufWriter::with_capacity(alloc, LOG_PART, file.try_clone()?)?,
        }))
    }

    /// Runs a core by turns to its end. What a call shows goes out before the line of the call.
    fn run_in_turns<O: Write, E: Write>(
        &mut self,
        core: &mut Core,
        log: &mut Option<FileLog<'_>>,
        out: &mut O,
        err: &mut E,
    ) -> Result<Ending, Fault> {
        let (alloc, options) = (self.rt.alloc(), self.options);
        let mut turns = Turns::new(Order {
            seed: options.seed,
            limit: options.limit,
        });
        let mut screen = Screen::new(out, options.run.numbers.terminal);
        let mut calls = CallTrace::new(alloc, err);
        let mut counted = both(&mut self.counts, &mut self.profile);
        let mut kept = both(&mut self.family, log);
        let mut noted = both(&mut counted, &mut kept);
        for _ in 0..u64::MAX {
            let Some(event) = turns.next(core) else {
                break;
            };
            let may_show = !options.is_json && may_show(core, event);
            let before = before_call(alloc, core, event, options.tells_calls)?;
            let answer = match step(alloc, core, event, &mut noted)? {
                Ok(answer) => answer,
                Err(why) => return Err(of_run(RunFault::from(why))),
            };
            if may_show {
                screen.finish(alloc, core).map_err(of_run)?;
            }
            if let Some(before) = &before {
                calls.event(core, &EventRecord::of(core, before, event, answer))?;
            }
        }
        Ok(turns.ending())
    }

    /// Runs a core to its end.
    fn run_whole<O: Write, E: Write>(
        &mut self,
        booted: Booted,
        log: &mut Option<FileLog<'_>>,
        out: &mut O,
        err: &mut E,
    ) -> Result<(Core, Ending), Fault> {
        if self.options.is_threaded {
            let core = run_on(self.rt, self.options.run.numbers, booted, out)?;
            self.family.forget_executed(&core);
            return Ok((core, Ending::Over));
        }
        let (mut core, _file) = booted;
        let ending = self.run_in_turns(&mut core, log, out, err)?;
        if let Some(log) = log {
            log.finish()?;
        }
        Ok((core, ending))
    }

    /// Writes the run as an object of JSON, if that is asked for, and what has not gone out.
    fn write_out<O: Write>(&self, core: &Core, ending: Ending, out: &mut O) -> Result<(), Fault> {
        if let Some(counts) = &self.counts {
            let run = EndedRun {
                core,
                counts,
                ending,
            };
            write_json(self.rt.alloc(), run, out)?;
        }
        Ok(out.flush()?)
    }

    /// Says why the run ended, and last how often each part of the first program was executed, if that is asked for.
    fn tell_end<E: Write>(&self, core: &Core, ending: Ending, err: &mut E) -> Result<(), Fault> {
        print_ending(core, &self.family, ending, err)?;
        match (&self.profile, self.family.programs()) {
            (Some(profile), [Some(program), ..]) => profile.print(program, err),
            _ => Ok(()),
        }
    }

    /// Says why the run ended, also if its output did not go out, and keeps its disk, if it is to be kept at the end.
    fn finish<O: Write, E: Write>(
        &self,
        core: Core,
        ending: Ending,
        out: &mut O,
        err: &mut E,
    ) -> Result<u8, Fault> {
        let written = self.write_out(&core, ending, out);
        let told = self.tell_end(&core, ending, err);
        written?;
        let (has_failed, status) = (core.has_failed(), status_of_run(&core, ending));
        keep_end(self.rt, &self.options.run, core, has_failed, told)?;
        Ok(status)
    }

    /// Runs a core to its end, says why it ended, and keeps what is to be kept of it. The files that it is to write are opened first.
    fn run_to_end<O: Write, E: Write>(
        &mut self,
        booted: Booted,
        out: &mut O,
        err: &mut E,
    ) -> Result<u8, Fault> {
        let outputs = Outputs::open(self.rt, self.options)?;
        let mut log = self.log_of(&outputs)?;
        let (core, ending) = self.run_whole(booted, &mut log, out, err)?;
        let kept = outputs.keep(self.rt, self.launch.take(), &core);
        let status = self.finish(core, ending, out, err)?;
        kept?;
        Ok(status)
    }
}

/// Reads the programs and the tapes of a run, and boots its core.
fn prepare<'a, R: Files<File = File> + AllocGlobal, I: Read>(
    rt: &'a R,
    options: &'a ExecOptions<'a>,
    input: &mut I,
) -> Result<(Execution<'a, R>, run_files::Booted), Fault> {
    let alloc = rt.alloc();
    let subject = subject_in(rt, &options.run.programs, &mut Input::new(input))?;
    subject.test_disk(alloc, options.run.disk)?;
    let Subject {
        launch,
        steps: _steps,
        programs,
    } = subject;
    let count = launch.programs().len();
    let family = Family::new(alloc, programs, count)?;
    let profile = options.tells_profile.then_some(Profile::new(alloc, count)?);
    let booted = boot_on(rt, &options.run, &launch)?;
    let is_kept = options.record.is_some() || options.picture.is_some();
    let execution = Execution {
        rt,
        options,
        family,
        counts: options.is_json.then_some(Counts::new(alloc)),
        profile,
        launch: is_kept.then_some(launch),
    };
    Ok((execution, booted))
}

/// Runs programs to their end, as `run_images` does, but by turns unless threads are asked for. Gives the exit status: that of the first
/// program, or why the run ended.
pub fn execute<
    R: Files<File = File> + AllocGlobal + Threads + Wait + Sync,
    I: Read,
    O: Write,
    E: Write,
>(rt: &R, options: &ExecOptions<'_>, input: &mut I, out: &mut O, err: &mut E) -> Result<u8, Fault> {
    let (mut execution, (core, lock, file)) = prepare(rt, options, input)?;
    let done = execution.run_to_end((core, file), out, err);
    if let Some(lock) = lock {
        lock.release(rt);
    }
    of_disk(rt.alloc(), options.run.disk, done)
}
