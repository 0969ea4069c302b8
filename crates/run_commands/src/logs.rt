//! Logs of instructions in files of the host, side by side.
use commit_logs::{Compared, Difference, Side, compare};
use exec_files::{PlaceText, Places, load_places};
use faults::{Fault, Refusal, at_path};
use std::fs::OpenOptions;
use std::io::{self, BufReader, Write};
use std::rt::Files;

/// The files of two logs, and that of the program whose logs they are, if it is named.
#[derive(Clone, Copy)]
pub struct LogPaths<'a> {
    pub first: &'a str,
    pub second: &'a str,
    pub source: Option<&'a str>,
}

impl<'a> LogPaths<'a> {
    /// The path of one of the logs.
    fn of(self, side: Side) -> &'a str {
        match side {
            Side::First => self.first,
            Side::Second => self.second,
        }
    }
}

/// A log that is read a line at a time, however long it is.
fn log_in<R: Files + AllocGlobal>(rt: &R, path: &str) -> Result<BufReader<R::File>, Fault> {
    let mut options = OpenOptions::new();
    options.read(true);
    let file = at_path(rt.alloc(), path, options.open(rt, path))?;
    Ok(BufReader::new(rt.alloc(), file)?)
}

/// Prints where in a program the logs differ: once if both have the same address there.
fn print_places<O: Write>(places: &Places, difference: &Difference, out: &mut O) -> io::Result<()> {
    let mut last = None;
    for line in [difference.first, difference.second] {
        if let Some(line) = line
            && last != Some(line.at)
        {
            let address = line.at;
            last = Some(address);
            let place = PlaceText { places, address };
            writeln!(out, "at {address:08x}{place}")?;
        }
    }
    Ok(())
}

/// Compares two logs of a program.
fn diff_logs<R: Files + AllocGlobal, O: Write>(
    rt: &R,
    paths: LogPaths<'_>,
    places: Option<&Places>,
    out: &mut O,
) -> Result<(), Fault> {
    let alloc = rt.alloc();
    let (first, second) = (log_in(rt, paths.first)?, log_in(rt, paths.second)?);
    match compare(alloc, first, second) {
        Err((side, error)) => Err(Fault::from(error).at(alloc, paths.of(side))),
        Ok(Compared::NoLog(side)) => Err(Fault::from(Refusal::Log).at(alloc, paths.of(side))),
        Ok(Compared::Equal(count)) => Ok(writeln!(out, "equal, {count} instructions")?),
        Ok(Compared::Different(difference)) => {
            difference.print(paths.first, paths.second, out)?;
            if let Some(places) = places {
                print_places(places, &difference, out)?;
            }
            Err(Fault::from(Refusal::Logs {
                instruction: difference.number,
            }))
        }
    }
}

/// Prints where the logs in two files differ first, and is refused then; or how many instructions they have. A file no line of which
/// says an instruction is refused too.
pub fn diff_files<R: Files + AllocGlobal, O: Write>(
    rt: &R,
    paths: LogPaths<'_>,
    out: &mut O,
) -> Result<(), Fault> {
    match paths.source {
        Some(source) => diff_logs(rt, paths, Some(&load_places(rt, source)?), out),
        None => diff_logs(rt, paths, None, out),
    }
}
