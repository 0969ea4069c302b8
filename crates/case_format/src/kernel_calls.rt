//! The notation of `.calls`: cases of programs that call the kernel, with the wanted reply beside each call.
//!
//! A case has a line `== TITLE` before it (`case_files`). It sets up tapes as a script does, their bytes as below, and programs:
//! after a line `program T` come the lines of a source. They come after `image T` too, but that program stands in a file, with three
//! more pages. 0x00020000 may be read alone, 0x00030000 written alone, 0x00040000 executed alone.
//!
//! A line that begins with the name or the number of a call stands for the instructions that load its arguments and call. An
//! argument is a number, a label after `&`, or a register; one that is left out stays what it was. After ` = ` stands the reply:
//! its number in decimal, and, where it has bytes, `at`, their place in eight hexadecimal digits, and the bytes, as `41+00*3`. The
//! reply of an exec that entered a program is `image` and the bytes of the file that a trace prints, or `tool` or `probe`, a
//! built-in program. Calls of a loop, or of a program that was entered, have no replies beside them. After them stands
//! `each N = R; R`, the same replies N times, or `numbers N M`, the replies from N to M.
//!
//! After its text each program has built-in places, labels that an argument names after `&`. They may be read and executed, and not
//! written (`PLACES` of `notation` has their words):
//! - `f`, `g`, `h`, `ff`, `fg`, `fh`, `gf`: these names of files, of one byte and of two;
//! - `A`, `B`, `C`, `D`, `P`, `X`, `Y`: these letters, one byte each, and `letters`: `ABCD`;
//! - `long`: 36 times the letter `a`, of which a name has 32 at most; `zeros`: 1,028 zeros;
//! - `tool`, `probe`: the files of two programs for exec, of 124 and 164 bytes. `tool` writes C to its terminal and exits with
//!   status 5. `probe` asks for its number, reads two bytes from descriptor 3 to 0x7FFFFFFC and waits for a child. Then it goes on
//!   as `tool`.
//!
//! Then come lines with ` => `, what is done and what is wanted of it:
//! - `P => entered waits entered*3 ended`: process P runs up to a call or a trap and enters the kernel, once for each;
//! - `P => calls`: the same for each reply beside the calls of program P, and the kernel replies to each;
//! - `commit => N`: the first cut of a run, with two writes, and their completions, by which N changes are committed;
//! - `shown T => HEX`, in parts as above; `trace P => R; R; R`, or `-` for no replies, or `replies` for those beside the
//!   program's calls; `files => NAME LENGTH; NAME LENGTH`, or `-` for no files;
//! - any other line of a script, and the line that it prints.
//!
//! What a turn prints is left out; what stands after `#` is a comment.
use crate::comparing::{check_exit, check_text};
use crate::hex_parts::{push_parts_line, repeated};
use crate::lines::{bare, push_line, push_texts, refused, words_of};
use crate::notation::{Form, Program, Replies, fill_image, push_listed_trace, push_program};
use crate::ran::Ran;
use anyhow::Error;
use std::alloc::Global;

/// The name of the file in which the program of a line `image T` stands.
pub const IMAGE_NAME: &str = "rights";

/// A case: its script so far, what is to be printed, the replies of its programs, and its image's file.
pub struct CallsCase {
    file: Vec<u8>,
    script: String,
    printed: String,
    program: Option<Program>,
    programs: Vec<Replies>,
}

impl Drop for CallsCase {
    fn drop(self) {
        let CallsCase {
            file: _file,
            script: _script,
            printed: _printed,
            program: _program,
            programs: _programs,
        } = self;
    }
}

impl CallsCase {
    /// Reads the lines of a case.
    pub fn read(alloc: Global, lines: &str) -> Result<CallsCase, Error> {
        let mut case = CallsCase::new(alloc);
        for line in lines.lines() {
            case.read_line(alloc, bare(line))?;
        }
        Ok(case)
    }

    /// The script that is to be run.
    pub fn script(&self) -> &[u8] {
        self.script.as_bytes()
    }

    /// The bytes of the file that has to stand beside the script, under its name; none where there is no line `image T`.
    pub fn image(&self) -> &[u8] {
        self.file.as_slice()
    }

    /// Refuses a run of the script that printed something else than is wanted.
    pub fn check(&self, alloc: Global, ran: &Ran) -> Result<(), Error> {
        let printed = without_turns(alloc, str::from_utf8(ran.out.as_slice())?)?;
        check_text(printed.as_str(), self.printed.as_str())?;
        check_exit(ran.status, 0)
    }

    fn new(alloc: Global) -> CallsCase {
        CallsCase {
            file: Vec::new(alloc),
            script: String::new(alloc),
            printed: String::new(alloc),
            program: None,
            programs: Vec::new(alloc),
        }
    }

    /// Sets up a program of these words that stands in a file.
    fn set_up_image(&mut self, terminal: &str, words: &[u32]) -> Result<(), Error> {
        fill_image(&mut self.file, words)?;
        push_texts(
            &mut self.script,
            &["image ", terminal, " ", IMAGE_NAME, "\n"],
        )
    }

    fn set_up(&mut self, alloc: Global, program: &mut Program) -> Result<(), Error> {
        let words = program.assemble_words(alloc)?;
        let terminal = program.terminal.as_str();
        match program.form {
            Form::Words => push_program(&mut self.script, terminal, words.as_slice()),
            Form::Image => self.set_up_image(terminal, words.as_slice()),
        }
    }

    /// Sets up the program whose source was read, if there is one.
    fn end_program(&mut self, alloc: Global) -> Result<(), Error> {
        if let Some(mut program) = self.program.take() {
            self.set_up(alloc, &mut program)?;
            self.programs.push(program.into_replies())?;
        }
        Ok(())
    }

    /// Adds to the script that a process enters the kernel, once for each wanted outcome.
    fn enters(&mut self, pid: &str, wanted: &str) -> Result<(), Error> {
        for word in wanted.split_whitespace() {
            let (line, times) = entering(self.programs.as_slice(), pid, word)?;
            push_enters(&mut self.script, &mut self.printed, pid, line, times)?;
        }
        Ok(())
    }

    fn trace(&mut self, alloc: Global, pid: &str, wanted: &str) -> Result<(), Error> {
        match wanted {
            "replies" => {
                replies_of(self.programs.as_slice(), pid)?.push_trace(&mut self.printed, pid)
            }
            list => push_listed_trace(alloc, &mut self.printed, pid, list),
        }
    }

    /// Reads a line that does something, with what is wanted beside it.
    fn do_words(
        &mut self,
        alloc: Global,
        line: &str,
        words: &[&str],
        wanted: &str,
    ) -> Result<(), Error> {
        match words {
            ["files"] => return push_files(&mut self.script, &mut self.printed, wanted),
            ["commit"] => return push_commit(&mut self.script, &mut self.printed, wanted),
            [pid] if pid.parse::<u32>().is_ok() => return self.enters(pid, wanted),
            _ => push_line(&mut self.script, line)?,
        }
        match words {
            ["trace", pid] => self.trace(alloc, pid, wanted),
            ["shown", _] => push_parts_line(&mut self.printed, &[line, " "], wanted),
            _ => push_line(&mut self.printed, wanted),
        }
    }

    fn program(&mut self, alloc: Global, form: Form, terminal: &str) -> Result<(), Error> {
        self.end_program(alloc)?;
        self.program = Some(Program::new(alloc, form, terminal)?);
        Ok(())
    }

    fn read_source(&mut self, alloc: Global, line: &str) -> Result<(), Error> {
        match &mut self.program {
            Some(program) => program.read(alloc, line),
            None => Err(refused("no program for: ", line)),
        }
    }

    /// Reads a line that sets something up.
    fn read_words(&mut self, alloc: Global, line: &str, words: &[&str]) -> Result<(), Error> {
        match words {
            [] => Ok(()),
            ["program", terminal] => self.program(alloc, Form::Words, terminal),
            ["image", terminal] => self.program(alloc, Form::Image, terminal),
            ["tape", number, bytes] => {
                push_parts_line(&mut self.script, &["tape ", number, " "], bytes)
            }
            _ => self.read_source(alloc, line),
        }
    }

    fn read_line(&mut self, alloc: Global, line: &str) -> Result<(), Error> {
        let (line, wanted) = line.split_once(" => ").unwrap_or((line, ""));
        let words = words_of(alloc, line)?;
        if wanted.is_empty() {
            self.read_words(alloc, line, words.as_slice())
        } else {
            self.end_program(alloc)?;
            self.do_words(alloc, line, words.as_slice(), wanted)
        }
    }
}

/// The replies of the program that is this process.
fn replies_of<'a>(programs: &'a [Replies], pid: &str) -> Result<&'a Replies, Error> {
    let number = pid.parse::<usize>()?;
    match programs.get(number.saturating_sub(1)) {
        Some(replies) => Ok(replies),
        None => Err(refused("no program: ", pid)),
    }
}

/// What is to be printed each time that a process enters the kernel, and how often it enters, by a word such as `entered*3`.
fn entering<'a>(programs: &[Replies], pid: &str, word: &'a str) -> Result<(&'a str, u32), Error> {
    if word == "calls" {
        Ok(("entered", replies_of(programs, pid)?.count))
    } else {
        repeated(word)
    }
}

/// Adds to a script that a process enters the kernel so many times, and the line that each prints.
fn push_enters(
    script: &mut String,
    printed: &mut String,
    pid: &str,
    line: &str,
    times: u32,
) -> Result<(), Error> {
    for _ in 0..times {
        push_texts(script, &["turn ", pid, " 1000000\nenter ", pid, "\n"])?;
        push_line(printed, line)?;
    }
    Ok(())
}

fn push_commit(script: &mut String, printed: &mut String, wanted: &str) -> Result<(), Error> {
    script.push_str("cut\ncomplete 65\ncomplete 64\n")?;
    push_texts(
        printed,
        &[
            "cut ",
            wanted,
            " changes 2 writes\ncompleted, 0 committed\ncompleted, ",
            wanted,
            " committed\n",
        ],
    )
}

/// Adds what some files print, after their number.
fn push_listed(printed: &mut String, files: &str) -> Result<(), Error> {
    let count = files.split("; ").count();
    writeln!(printed, "files {count}")?;
    for file in files.split("; ") {
        push_line(printed, file)?;
    }
    Ok(())
}

/// Adds the line `files` to a script, and what it prints.
fn push_files(script: &mut String, printed: &mut String, wanted: &str) -> Result<(), Error> {
    push_line(script, "files")?;
    match wanted {
        "-" => push_line(printed, "files 0"),
        files => push_listed(printed, files),
    }
}

fn without_turns(alloc: Global, out: &str) -> Result<String, Error> {
    let mut kept = String::new(alloc);
    for line in out.lines() {
        if !line.starts_with("ran ") {
            push_line(&mut kept, line)?;
        }
    }
    Ok(kept)
}
