//! The command `gdb`: answers gdb, which debugs a program.
use crate::debugging::{Debuggee, process_in};
use crate::fault::of_session;
use command_line::GdbOptions;
use exec_files::Places;
use faults::Fault;
use gdb_session::{Keeper, Session, converse};
use host_files::{DiskLock, keep, replies_in};
use run_files::{Input, program_in};
use simdisk::SimDisk;
use std::alloc::Global;
use std::fs::File;
use std::io::{Read, Write};
use std::rt::Files;
use std::sync::Wait;
use std::thread::Threads;
use timeline::{Origin, SessionFault, Timeline};

/// The file of a session's disk, if there is one.
#[derive(Drop)]
struct DiskFile<'x, R> {
    rt: &'x R,
    path: Option<&'x str>,
}

/// Keeps a disk in its file, under the file's lock, so that no run has the file meanwhile.
fn keep_locked<R: Files<File = File> + AllocGlobal>(
    rt: &R,
    path: &str,
    disk: &SimDisk,
) -> Result<(), Fault> {
    let lock = DiskLock::take(rt, path)?;
    let kept = keep(rt, path, disk);
    lock.release(rt);
    kept
}

impl<R: Files<File = File> + AllocGlobal> Keeper for DiskFile<'_, R> {
    fn keep(&mut self, disk: &SimDisk) -> &'static str {
        let Some(path) = self.path else {
            return "no file for a disk is given: bench gdb --disk FILE";
        };
        match keep_locked(self.rt, path, disk) {
            Ok(()) => "the disk is kept",
            Err(fault) if fault.is_in_use() => "another run has the disk's file",
            Err(_) => "the disk cannot be kept in its file",
        }
    }
}

/// What is debugged: the program of a trace, or a process of a run that a kernel answers.
fn debuggee_in<R: Files + AllocGlobal, I: Read>(
    rt: &R,
    options: &GdbOptions<'_>,
    input: &mut Input<'_, I>,
) -> Result<Debuggee, Fault> {
    let live = &options.live;
    match (options.trace, live.programs.paths.as_slice().first()) {
        (Some(trace), Some(program)) => {
            let (image, places) = program_in(rt, program, input)?.into_parts();
            Ok(Debuggee {
                image,
                places: Some(places),
                origin: Origin::Trace(replies_in(rt, Some(trace))?),
            })
        }
        _ => process_in(rt, live, input),
    }
}

/// The path of the symbols that gdb is told: the one given, or that of an executable with symbols or lines.
fn symbols_of<'a>(given: Option<&'a str>, places: Option<&'a Places>) -> Option<&'a str> {
    match (given, places) {
        (None, Some(places)) if places.has_symbols() => Some(places.path.as_str()),
        (given, _) => given,
    }
}

fn session_of(
    alloc: Global,
    debuggee: Debuggee,
    options: &GdbOptions<'_>,
) -> Result<Session, SessionFault> {
    let Debuggee {
        image,
        places,
        origin,
    } = debuggee;
    let symbols = match symbols_of(options.symbols, places.as_ref()) {
        Some(path) => Some(Vec::from_slice(alloc, path.as_bytes())?),
        None => None,
    };
    let timeline = Timeline::new(alloc, image, origin)?;
    let room = u64::from(options.history) << 20;
    Ok(Session::new(alloc, timeline, room, symbols))
}

/// Answers gdb, which debugs a program. A kernel answers its calls, or a trace does. Nothing is written to the disk's file, unless gdb's
/// user asks for it.
pub fn answer_gdb<
    R: Files<File = File> + AllocGlobal + Threads + Wait + Sync,
    I: Read + Send,
    O: Write,
>(rt: &R, options: &GdbOptions<'_>, input: &mut I, out: &mut O) -> Result<(), Fault> {
    let debuggee = debuggee_in(rt, options, &mut Input::<I>::none())?;
    let session = session_of(rt.alloc(), debuggee, options).map_err(of_session)?;
    let mut file = DiskFile {
        rt,
        path: options.live.disk,
    };
    converse(rt, rt.alloc(), session, &mut file, input, out).map_err(of_session)
}
