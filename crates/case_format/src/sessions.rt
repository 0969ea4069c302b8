//! The notation of `.sessions`: cases of the program by its command line, as a person types it at a terminal.
//!
//! A line begins with its mark:
//! - `$ WORDS`: the program is run with these words; lines after it say more of the run:
//!   - `< TEXT`: a line of its input; `<< N TEXT`: this text N times, without a line's end;
//!   - `> TEXT`: a line that it prints; `>> TEXT`: a text, without a line's end; `>*`: whatever it prints; `>= NAME`: the same, and that
//!     is written to the file NAME; `># N TEXT`, before these: the first N lines that it prints begin with TEXT;
//!   - `<$ TEXT` and `>$ TEXT`: a packet of gdb's with this text, on its input, or printed; neither has a line's end;
//!   - `! STATUS TEXT`: its status, and its line on standard error, with `!! TEXT` for each line after it;
//!   - `! STATUS`: its status, and something on standard error;
//!   - without `!` it ends with status 0 and says nothing on standard error;
//! - `file NAME`, and lines `| TEXT` after it: a file of these lines is written;
//! - `bytes NAME PARTS`: a file of these bytes, in hexadecimal, as `41+00*3`, or of none for `-`;
//! - `remove NAME`: the file is removed, or the folder, in which nothing is left;
//! - `holds NAME PARTS`: the file has these bytes; `missing NAME`: there is no such file.
//!
//! In input `\t`, `\r`, `\s`, `\x03` and `\xff` stand for a tab, a carriage return, a blank and the bytes 03 and ff. Empty lines and
//! lines that begin with `#` are skipped.
use crate::comparing::{check_exit, check_text};
use crate::hex_parts::push_parts;
use crate::lines::{push_line, refused, two_parts, words_of};
use crate::ran::Ran;
use anyhow::{Error, bail};
use std::alloc::{AllocError, Global};

/// The escapes: what stands after a backslash, and the byte that it means.
const ESCAPES: &[(&str, u8)] = &[
    ("t", b'\t'),
    ("r", b'\r'),
    ("s", b' '),
    ("x03", 3),
    ("xff", 0xFF),
];

/// Adds the byte of an escape, and the text after it. `text` begins after the backslash.
fn push_escaped(input: &mut Vec<u8>, text: &str) -> Result<(), Error> {
    for &(mark, byte) in ESCAPES {
        if let Some(rest) = text.strip_prefix(mark) {
            input.push(byte)?;
            return Ok(input.extend_from_slice(rest.as_bytes())?);
        }
    }
    Err(refused("no such byte: \\", text))
}

/// Adds a text, in which escapes stand for their bytes.
fn push_text(input: &mut Vec<u8>, text: &str) -> Result<(), Error> {
    let mut parts = text.split('\\');
    input.extend_from_slice(parts.next().unwrap_or("").as_bytes())?;
    for escaped in parts {
        push_escaped(input, escaped)?;
    }
    Ok(())
}

/// Adds a line, in which escapes stand for their bytes.
fn push_input(input: &mut Vec<u8>, text: &str) -> Result<(), Error> {
    push_text(input, text)?;
    Ok(input.extend_from_slice(b"\n")?)
}

/// The packet of gdb's that has this text, none of whose bytes are escaped.
fn packet_of(alloc: Global, text: &str) -> Result<String, AllocError> {
    let mut sum = 0u8;
    for byte in text.as_bytes() {
        sum = sum.wrapping_add(*byte);
    }
    format!(in alloc; "${text}#{sum:02x}")
}

/// Adds a packet of gdb's with this text.
fn push_packet(alloc: Global, input: &mut Vec<u8>, text: &str) -> Result<(), Error> {
    let packet = packet_of(alloc, text)?;
    Ok(input.extend_from_slice(packet.as_bytes())?)
}

/// Adds a packet of gdb's with this text that is to be printed.
fn push_printed_packet(alloc: Global, out: &mut String, text: &str) -> Result<(), Error> {
    let packet = packet_of(alloc, text)?;
    Ok(out.push_str(packet.as_str())?)
}

/// Adds a text so many times, as `N TEXT` says.
fn push_times(input: &mut Vec<u8>, line: &str) -> Result<(), Error> {
    let (times, text) = two_parts(line, " ", "no text to be repeated: ")?;
    for _ in 0..times.parse::<u32>()? {
        push_text(input, text)?;
    }
    Ok(())
}

/// Refuses what a run wrote that is not what is wanted of it. Where anything at all is wanted and nothing was written, `why` is the
/// error.
fn check_written(
    came: &[u8],
    wanted: &str,
    something: bool,
    why: &'static str,
) -> Result<(), Error> {
    if !something {
        check_text(str::from_utf8(came)?, wanted)
    } else if came.is_empty() {
        Err(Error::msg(why))
    } else {
        Ok(())
    }
}

/// Lines that begin alike: how many there are, and how each begins.
struct AlikeLines {
    count: u32,
    begin: String,
}

impl Drop for AlikeLines {
    fn drop(self) {
        let AlikeLines {
            count: _,
            begin: _begin,
        } = self;
    }
}

impl AlikeLines {
    /// Reads `N TEXT`.
    fn read(&mut self, line: &str) -> Result<(), Error> {
        let (count, begin) = two_parts(line, " ", "no text with which lines begin: ")?;
        self.count = count.parse::<u32>()?;
        self.begin.clear();
        Ok(self.begin.push_str(begin)?)
    }

    /// The bytes after these lines. Refuses bytes that do not begin with them.
    fn after<'a>(&self, bytes: &'a [u8]) -> Result<&'a [u8], Error> {
        let mut rest = bytes;
        for _ in 0..self.count {
            rest = match rest.iter().position(|byte| *byte == b'\n') {
                Some(end) if rest.starts_with(self.begin.as_bytes()) => {
                    rest.get(end + 1..).unwrap_or(&[])
                }
                _ => bail!(
                    "fewer than {} lines begin with '{}'",
                    self.count,
                    self.begin
                ),
            };
        }
        Ok(rest)
    }
}

/// A run of the program, and what is wanted of it.
pub struct Run {
    words: String,
    input: Vec<u8>,
    /// The lines that it prints first. Only their beginnings are wanted.
    alike: AlikeLines,
    /// What it prints after these.
    out: String,
    /// Whether any output will do, as long as there is some.
    prints_something: bool,
    /// The name of the file to which that is written. Empty where it is not.
    kept: String,
    status: u8,
    /// What is wanted on standard error.
    err: String,
    /// Whether any text on standard error will do, as long as there is some.
    says_something: bool,
}

impl Drop for Run {
    fn drop(self) {
        let Run {
            words: _words,
            input: _input,
            alike: _alike,
            out: _out,
            prints_something: _,
            kept: _kept,
            status: _,
            err: _err,
            says_something: _,
        } = self;
    }
}

impl Run {
    fn new(alloc: Global, words: &str) -> Result<Run, Error> {
        Ok(Run {
            words: String::from_str(alloc, words)?,
            input: Vec::new(alloc),
            alike: AlikeLines {
                count: 0,
                begin: String::new(alloc),
            },
            out: String::new(alloc),
            prints_something: false,
            kept: String::new(alloc),
            status: 0,
            err: String::new(alloc),
            says_something: false,
        })
    }

    /// Notes how the run is to end, by `STATUS TEXT` or `STATUS`.
    fn want_end(&mut self, line: &str) -> Result<(), Error> {
        let (status, text) = parted(line);
        self.status = status.parse::<u8>()?;
        self.says_something = !line.contains(' ');
        self.err.clear();
        push_line(&mut self.err, text)
    }

    /// Notes that any output will do, and the name of the file to which it is written, if it is.
    fn want_something(&mut self, name: &str) -> Result<(), Error> {
        self.prints_something = true;
        Ok(self.kept.push_str(name)?)
    }

    /// Reads a line that says more of the run, by its mark. False where the line does not.
    fn read(&mut self, alloc: Global, mark: &str, text: &str) -> Result<bool, Error> {
        let read = match mark {
            "<" => push_input(&mut self.input, text),
            "<<" => push_times(&mut self.input, text),
            "<$" => push_packet(alloc, &mut self.input, text),
            ">$" => push_printed_packet(alloc, &mut self.out, text),
            ">" => push_line(&mut self.out, text),
            ">>" => Ok(self.out.push_str(text)?),
            ">*" | ">=" => self.want_something(text),
            ">#" => self.alike.read(text),
            "!" => self.want_end(text),
            "!!" => push_line(&mut self.err, text),
            _ => return Ok(false),
        };
        read?;
        Ok(true)
    }

    /// The words with which the program is run, parted by blanks.
    pub fn words(&self) -> &str {
        self.words.as_str()
    }

    /// What stands on the input of the run.
    pub fn input(&self) -> &[u8] {
        self.input.as_slice()
    }

    /// The name of the file to which the output is written, if it is.
    pub fn kept(&self) -> Option<&str> {
        Some(self.kept.as_str()).filter(|name| !name.is_empty())
    }

    /// Refuses a run of which something else came than is wanted.
    pub fn check(&self, ran: &Ran) -> Result<(), Error> {
        match self.check_all(ran) {
            Ok(()) => Ok(()),
            Err(error) => bail!("$ {}: {error}", self.words),
        }
    }

    fn check_all(&self, ran: &Ran) -> Result<(), Error> {
        check_written(
            self.alike.after(&ran.out)?,
            &self.out,
            self.prints_something,
            "nothing was printed",
        )?;
        check_written(
            &ran.err,
            &self.err,
            self.says_something,
            "nothing was said on standard error",
        )?;
        check_exit(ran.status, self.status)
    }
}

/// A file's name, and bytes.
pub struct NamedBytes {
    pub name: String,
    pub bytes: Vec<u8>,
}

impl Drop for NamedBytes {
    fn drop(self) {
        let NamedBytes {
            name: _name,
            bytes: _bytes,
        } = self;
    }
}

/// The bytes of parts in hexadecimal, or none for `-`.
fn bytes_of(alloc: Global, parts: &str) -> Result<Vec<u8>, Error> {
    let mut digits = String::new(alloc);
    if parts != "-" {
        push_parts(&mut digits, parts)?;
    }
    Ok(hex::decode(alloc, digits.as_str())?)
}

impl NamedBytes {
    fn of_parts(alloc: Global, name: &str, parts: &str) -> Result<NamedBytes, Error> {
        let bytes = bytes_of(alloc, parts)?;
        let name = String::from_str(alloc, name)?;
        Ok(NamedBytes { name, bytes })
    }

    fn push_line(&mut self, text: &str) -> Result<(), AllocError> {
        self.bytes.extend_from_slice(text.as_bytes())?;
        self.bytes.extend_from_slice(b"\n")
    }

    /// Refuses a file that holds other bytes.
    pub fn check(&self, file: &[u8]) -> Result<(), Error> {
        if file == self.bytes.as_slice() {
            return Ok(());
        }
        let name = self.name.as_str();
        let len = file.len();
        bail!("{name} holds {len} other bytes")
    }
}

/// A step of a case.
#[derive(Drop)]
pub enum Step {
    /// The program is run.
    Run(Run),
    /// A file of lines is written.
    Lines(NamedBytes),
    /// A file of bytes is written.
    Bytes(NamedBytes),
    /// The file of this name is removed.
    Remove(String),
    /// The file has these bytes.
    Holds(NamedBytes),
    /// There is no file of this name.
    Missing(String),
}

impl Step {
    /// Reads a line that says more of the step, by its mark. False where the line does not.
    fn goes_on(&mut self, alloc: Global, mark: &str, text: &str) -> Result<bool, Error> {
        match self {
            Step::Run(run) => run.read(alloc, mark, text),
            Step::Lines(file) if mark == "|" => {
                file.push_line(text)?;
                Ok(true)
            }
            _ => Ok(false),
        }
    }
}

/// Refuses that a file is there which is to be missing.
pub fn check_missing(is_missing: bool) -> Result<(), Error> {
    if is_missing {
        Ok(())
    } else {
        bail!("this file is there")
    }
}

/// The step that begins with a line of these words.
fn step_of(alloc: Global, line: &str, words: &[&str]) -> Result<Step, Error> {
    match words {
        ["$", ..] => Ok(Step::Run(Run::new(alloc, line.trim_start_matches('$').trim())?)),
        ["file", name] => Ok(Step::Lines(NamedBytes::of_parts(alloc, name, "-")?)),
        ["bytes", name, parts] => Ok(Step::Bytes(NamedBytes::of_parts(alloc, name, parts)?)),
        ["remove", name] => Ok(Step::Remove(String::from_str(alloc, name)?)),
        ["holds", name, parts] => Ok(Step::Holds(NamedBytes::of_parts(alloc, name, parts)?)),
        ["missing", name] => Ok(Step::Missing(String::from_str(alloc, name)?)),
        _ => bail!("this has no form"),
    }
}

fn begin(alloc: Global, line: &str) -> Result<Step, Error> {
    let words = words_of(alloc, line)?;
    step_of(alloc, line, words.as_slice())
}

/// The mark of a line, and the text after its blank.
fn parted(line: &str) -> (&str, &str) {
    line.split_once(' ').unwrap_or((line, ""))
}

/// Has the last step read a line, if the line goes on with it. Says whether it does.
fn goes_on(alloc: Global, steps: &mut [Step], line: &str) -> Result<bool, Error> {
    let (mark, text) = parted(line);
    match steps.last_mut() {
        Some(step) => step.goes_on(alloc, mark, text),
        None => Ok(false),
    }
}

fn read_line(alloc: Global, steps: &mut Vec<Step>, line: &str) -> Result<(), Error> {
    if !goes_on(alloc, steps.as_mut_slice(), line)? {
        steps.push(begin(alloc, line)?)?;
    }
    Ok(())
}

/// The steps of a case, by its lines.
pub fn session_steps(alloc: Global, lines: &str) -> Result<Vec<Step>, Error> {
    let mut steps = Vec::new(alloc);
    for line in lines.lines() {
        if !line.trim().is_empty() && !line.starts_with('#') {
            read_line(alloc, &mut steps, line)?;
        }
    }
    Ok(steps)
}
