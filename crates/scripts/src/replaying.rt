//! `replay`: runs a script, and prints what each of its lines gives, as `shown 0 41`.
use crate::file_lines::write_files;
use crate::launch::Launch;
use crate::playing::{LineAnswer, Visitor, play_all};
use crate::printing::{bytes_text, print_answer, print_refusal, print_reply};
use crate::script::Script;
use crate::steps::Question;
use faults::Fault;
use files::FileList;
use kernel::{Core, Refused};
use machine_model::Reply;
use std::alloc::Global;
use std::io;
use std::io::Write;
use std::rt::Files;

/// Prints how many replies to a process are handed out, and then a line for each.
fn print_replies<O: Write>(
    alloc: Global,
    pid: u32,
    replies: &[Reply],
    out: &mut O,
) -> io::Result<()> {
    let count = replies.len();
    writeln!(out, "trace {pid} {count} replies")?;
    for reply in replies {
        print_reply(alloc, reply, out)?;
    }
    Ok(())
}

/// Prints how many files the disk held at boot, and then a line for each.
fn print_boot_files<O: Write>(files: &FileList, out: &mut O) -> io::Result<()> {
    let count = files.count();
    writeln!(out, "files {count}")?;
    write_files(files, out)
}

/// Prints what a line asks of the core: what a terminal shows, a trace, or the files at the boot.
fn print_asked<O: Write>(
    alloc: Global,
    core: &Core,
    question: Question,
    out: &mut O,
) -> io::Result<()> {
    match question {
        Question::Shown(terminal) => {
            let number = terminal.number;
            let bytes = bytes_text(alloc, core.shown(number))?;
            writeln!(out, "shown {number} {bytes}")
        }
        Question::Trace(pid) => match core.trace(pid) {
            Ok(replies) => print_replies(alloc, pid, replies, out),
            Err(why) => print_refusal(why, out),
        },
        Question::Files => print_boot_files(core.boot_files(), out),
    }
}

/// Prints how many changes are committed after a drain, or why it was refused.
fn print_drained<O: Write>(
    core: &Core,
    drained: Result<(), Refused>,
    out: &mut O,
) -> io::Result<()> {
    match drained {
        Ok(()) => {
            let committed = core.committed();
            writeln!(out, "drained, {committed} committed")
        }
        Err(why) => print_refusal(why, out),
    }
}

/// The visitor of `replay`, which prints what each line gives.
#[derive(Drop)]
struct Printer<'a, O> {
    alloc: Global,
    launch: &'a Launch,
    out: &'a mut O,
}

impl<O: Write> Visitor for Printer<'_, O> {
    type Fault = Fault;

    fn answered(&mut self, core: &Core, answer: LineAnswer) -> Result<(), Fault> {
        match answer {
            LineAnswer::Applied(answer) => print_answer(answer, self.out)?,
            LineAnswer::Drained(drained) => print_drained(core, drained, self.out)?,
            LineAnswer::Asked(question) => {
                print_asked(self.alloc, core, question, self.out)?;
            }
        }
        Ok(())
    }

    fn crash(&mut self, core: Core, fill: &[u8]) -> Result<Core, Fault> {
        let next = self.launch.boot(self.alloc, Some(core.halt(fill)))?;
        writeln!(self.out, "crashed")?;
        Ok(next)
    }
}

/// Runs a script, and prints what each of its lines gives.
pub fn replay<R: Files + AllocGlobal, O: Write>(
    rt: &R,
    script: Script,
    out: &mut O,
) -> Result<(), Fault> {
    let (setup, steps) = script.into_parts();
    let launch = setup.read(rt)?;
    let core = launch.boot(rt.alloc(), None)?;
    let mut printer = Printer {
        alloc: rt.alloc(),
        launch: &launch,
        out,
    };
    play_all(&mut printer, core, steps.as_slice())?;
    Ok(())
}
