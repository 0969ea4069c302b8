//! The files that `exec` writes. All are opened before the run begins, so that no long run is lost at its end. Each takes its place once
//! the run is over, so that a run that is refused or cut short leaves what was there.
use command_line::ExecOptions;
use exec_files::refused;
use exec_records::{steps_of, write_script};
use faults::Fault;
use host_files::{OutputFile, Place};
use kernel::Core;
use pictured_runs::picture;
use scripts::Launch;
use std::alloc::Global;
use std::rt::Files;

/// The open files of a run.
pub struct Outputs<'a, R: Files> {
    pub record: Option<OutputFile<'a, R>>,
    pub picture: Option<OutputFile<'a, R>>,
    pub log: Option<OutputFile<'a, R>>,
}

impl<R: Files> Drop for Outputs<'_, R> {
    fn drop(self) {
        let Outputs {
            record: _record,
            picture: _picture,
            log: _log,
        } = self;
    }
}

/// The files of a run so far. A disk is read, and also written at the end.
#[derive(Drop)]
struct Taken {
    read: Vec<Place>,
    written: Vec<Place>,
}

impl Taken {
    /// Adds a file that is read, unless it is standard input.
    fn push_read<R: Files + AllocGlobal>(&mut self, rt: &R, path: &str) -> Result<(), Fault> {
        if path != "-" {
            self.read.push(Place::of(rt, path)?)?;
        }
        Ok(())
    }

    /// Before any output is taken.
    fn new<R: Files + AllocGlobal>(rt: &R, options: &ExecOptions<'_>) -> Result<Taken, Fault> {
        let mut taken = Taken {
            read: Vec::new(rt.alloc()),
            written: Vec::new(rt.alloc()),
        };
        for path in options.run.programs.paths.as_slice() {
            taken.push_read(rt, *path)?;
        }
        for path in options.run.programs.tapes.as_slice() {
            taken.push_read(rt, path.unwrap_or("-"))?;
        }
        if let Some(path) = options.run.disk {
            let lock = format!(in rt.alloc(); "{path}.lck")?;
            taken.read.push(Place::of(rt, path)?)?;
            taken.written.push(Place::of(rt, path)?)?;
            taken.written.push(Place::of(rt, lock.as_str())?)?;
        }
        Ok(taken)
    }

    /// Takes the path of an output, if one is given. Refused is one that leads to a file of the run.
    fn take<R: Files + AllocGlobal>(&mut self, rt: &R, path: Option<&str>) -> Result<(), Fault> {
        let Some(path) = path else {
            return Ok(());
        };
        let place = Place::of(rt, path)?;
        let why = if self.read.iter().any(|read| place.writes_over(read)) {
            "the run reads this file, and would write over it; name another"
        } else if self.written.iter().any(|other| place.writes_over(other)
            || other.writes_over(&place))
        {
            "the run would write two things to this file; name another for one of them"
        } else {
            return Ok(self.written.push(place)?);
        };
        Err(refused(rt.alloc(), path, why))
    }
}

/// Opens the file of a path, if a path is given.
fn open<'a, R: Files + AllocGlobal>(
    rt: &'a R,
    path: Option<&'a str>,
) -> Result<Option<OutputFile<'a, R>>, Fault> {
    match path {
        Some(path) => Ok(Some(OutputFile::open(rt, path)?)),
        None => Ok(None),
    }
}

/// Empties a file, if it is open.
fn empty<R: Files + AllocGlobal>(file: &Option<OutputFile<'_, R>>) -> Result<(), Fault> {
    match file {
        Some(file) => file.empty(),
        None => Ok(()),
    }
}

impl<'a, R: Files + AllocGlobal> Outputs<'a, R> {
    /// Opens the files that a run is to write. Refused if one leads to a file that the run reads, or to another of them.
    pub fn open(rt: &'a R, options: &ExecOptions<'a>) -> Result<Outputs<'a, R>, Fault> {
        let mut taken = Taken::new(rt, options)?;
        taken.take(rt, options.record)?;
        taken.take(rt, options.picture)?;
        taken.take(rt, options.log)?;
        let outputs = Outputs {
            record: open(rt, options.record)?,
            picture: open(rt, options.picture)?,
            log: open(rt, options.log)?,
        };
        empty(&outputs.record)?;
        empty(&outputs.picture)?;
        empty(&outputs.log)?;
        Ok(outputs)
    }

    /// Puts the log of a run of what is set up in its place, and the script and the picture, each if it is wanted.
    pub fn keep(mut self, rt: &R, launch: Option<Launch>, core: &Core) -> Result<(), Fault> {
        if let Some(log) = self.log.take() {
            log.keep()?;
        }
        let Some(launch) = launch else {
            return Ok(());
        };
        let alloc = rt.alloc();
        if let Some(record) = self.record.take() {
            let mut script: Vec<u8> = Vec::new(alloc);
            write_script(alloc, &launch, core, &mut script)?;
            record.keep_with(script.as_slice())?;
        }
        if let Some(drawn) = self.picture.take() {
            let steps = steps_of(alloc, core.history())?;
            let mut svg: Vec<u8> = Vec::new(alloc);
            picture(alloc, &launch, steps.as_slice(), None, &mut svg)?;
            drawn.keep_with(svg.as_slice())?;
        }
        Ok(())
    }
}
