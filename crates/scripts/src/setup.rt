//! The set-up lines of a script, `program`, `image`, `binary`, `tape` and `file`, and what they set up.
ghost use Rattle.std.specs.Prelude.{◌<◌, ◌≤◌, length, vec_len};

use crate::launch::{Launch, LaunchProgram};
use crate::tapes::TapeList;
use crate::words::{Terminal, is_file_name, numbers_of, only_bytes_of, terminal_of};
use byte_list::Bytes;
use disk_model::{Change, LONGEST_FILE, MOST_FILES};
use faults::{Fault, Refusal};
use files::FileList;
use host_files::{image_in, image_of_bytes};
use input_reading::decimal_word;
use kernel_model::MOST_PROGRAMS;
use machine_model::Image;
use std::alloc::{AllocError, Global};
use std::rt::Files;

/// The most words of a program: 60 pages.
const MOST_WORDS: usize = 61440;

/// The words of a program, 1 to 61,440, for the addresses from 0x00010000 on.
pub struct Words {
    words: Vec<u32>,
    ghost some: { 0 < vec_len words },
    ghost few: { vec_len words ≤ 61440 },
}

impl Drop for Words {
    fn drop(self) {
        let Words { words: _words } = self;
    }
}

impl Words {
    /// The words in order.
    pub fn as_slice(&self) -> &[u32]
        ensures some { 0 < length result.now }
        ensures few { length result.now ≤ 61440 }
    {
        self.words.as_slice()
    }
}

/// Where a program comes from.
#[derive(Drop)]
enum Source {
    /// The script itself.
    Words(Words),
    /// The image in a file of the host, at this path, which is not read yet.
    Path(String),
    /// The bytes of an image's file, as they were when it was read.
    File(Vec<u8>),
}

/// A program that a script sets up.
struct ScriptProgram {
    terminal: Terminal,
    source: Source,
}

impl Drop for ScriptProgram {
    fn drop(self) {
        let ScriptProgram {
            terminal: _,
            source: _source,
        } = self;
    }
}

/// What a script sets up: its programs in order, the tapes that it gives, and the files that the disk holds at the first boot.
pub struct Setup {
    programs: Vec<ScriptProgram>,
    tapes: TapeList,
    files: FileList,
}

impl Drop for Setup {
    fn drop(self) {
        let Setup {
            programs: _programs,
            tapes: _tapes,
            files: _files,
        } = self;
    }
}

/// What a line sets up, as its first word says.
#[derive(Clone, Copy)]
pub enum SetupLine {
    Program,
    Image,
    Binary,
    Tape,
    File,
}

impl SetupLine {
    /// The set-up line that begins with this word, if one does.
    pub fn named(word: &str) -> Option<SetupLine> {
        match word {
            "program" => Some(SetupLine::Program),
            "image" => Some(SetupLine::Image),
            "binary" => Some(SetupLine::Binary),
            "tape" => Some(SetupLine::Tape),
            "file" => Some(SetupLine::File),
            _ => None,
        }
    }
}

/// The words of a program line. None where one has no form, or where there are none or too many.
fn words_of(alloc: Global, texts: &[&str]) -> Result<Option<Source>, AllocError> {
    if texts.is_empty() || texts.len() > MOST_WORDS {
        return Ok(None);
    }
    match numbers_of(alloc, texts)? {
        Some(words) => Ok(Some(Source::Words(Words { words }))),
        None => Ok(None),
    }
}

/// Whether a word is a path: it is not empty, and has no tab and no carriage return.
fn is_path(word: &str) -> bool {
    !word.is_empty() && word.bytes().all(|byte| byte != b'\t' && byte != b'\r')
}

/// The path of an image line. None where there is none, or more than one.
fn path_of(alloc: Global, texts: &[&str]) -> Result<Option<Source>, AllocError> {
    match texts {
        [path] if is_path(path) => Ok(Some(Source::Path(String::from_str(alloc, path)?))),
        _ => Ok(None),
    }
}

/// The file of a binary line, by its bytes. None where these have no form.
fn file_of(alloc: Global, texts: &[&str]) -> Result<Option<Source>, AllocError> {
    match only_bytes_of(alloc, texts)? {
        Some(bytes) => Ok(Some(Source::File(Vec::from_slice(alloc, bytes.as_slice())?))),
        None => Ok(None),
    }
}

impl Source {
    /// The image, and the words of which the script made it.
    fn read<R: Files + AllocGlobal>(self, rt: &R) -> Result<(Image, Option<Words>), Fault> {
        match self {
            Source::Words(words) => {
                Ok((Image::from_text(rt.alloc(), words.as_slice())?, Some(words)))
            }
            Source::Path(path) => Ok((image_in(rt, path.as_str())?, None)),
            Source::File(file) => Ok((image_of_bytes(rt.alloc(), file.as_slice())?, None)),
        }
    }
}

impl ScriptProgram {
    fn read<R: Files + AllocGlobal>(self, rt: &R) -> Result<LaunchProgram, Fault> {
        let ScriptProgram { terminal, source } = self;
        let (image, words) = source.read(rt)?;
        Ok(LaunchProgram {
            image,
            terminal,
            words,
        })
    }
}

impl Setup {
    /// Adds a program. False where its terminal or its source is missing, or where there are eight programs already.
    fn push_program(
        &mut self,
        terminal: Option<Terminal>,
        source: Option<Source>,
    ) -> Result<bool, AllocError> {
        match (terminal, source) {
            (Some(terminal), Some(source)) if self.programs.len() < MOST_PROGRAMS => {
                self.programs.push(ScriptProgram { terminal, source })?;
                Ok(true)
            }
            _ => Ok(false),
        }
    }

    /// Whether one more file of this name and these bytes may be there: they are within their limits, and no other has the name.
    fn takes_file(&self, name: &str, bytes: &[u8]) -> bool {
        is_file_name(name)
            && bytes.len() <= LONGEST_FILE as usize
            && self.files.count() < MOST_FILES
            && self.files.find(name.as_bytes()).is_none()
    }

    /// Adds a file that the disk holds at the first boot. False where its bytes are missing, or where `takes_file` says no.
    fn push_file(
        &mut self,
        alloc: Global,
        name: &str,
        bytes: Option<Bytes>,
    ) -> Result<bool, AllocError> {
        let Some(bytes) = bytes else {
            return Ok(false);
        };
        if !self.takes_file(name, bytes.as_slice()) {
            return Ok(false);
        }
        let file = u16::try_from(self.files.count()).unwrap_or(u16::MAX);
        let name = Bytes::copy_of(alloc, name.as_bytes())?;
        self.files.change(&Change::Create(name))?;
        self.files.change(&Change::Write {
            file,
            offset: 0,
            bytes,
        })?;
        Ok(true)
    }

    /// Before the first line.
    pub fn new(alloc: Global) -> Setup {
        Setup {
            programs: Vec::new(alloc),
            tapes: TapeList::new(alloc),
            files: FileList::new(alloc),
        }
    }

    /// Adds what a set-up line sets up, if the words after its first have a form.
    pub fn add(
        &mut self,
        alloc: Global,
        line: SetupLine,
        words: &[&str],
    ) -> Result<bool, AllocError> {
        let [first, rest @ ..] = words else {
            return Ok(false);
        };
        let number = decimal_word(first);
        match line {
            SetupLine::Program => {
                self.push_program(number.and_then(terminal_of), words_of(alloc, rest)?)
            }
            SetupLine::Image => {
                self.push_program(number.and_then(terminal_of), path_of(alloc, rest)?)
            }
            SetupLine::Binary => {
                self.push_program(number.and_then(terminal_of), file_of(alloc, rest)?)
            }
            SetupLine::Tape => self.tapes.push(number, only_bytes_of(alloc, rest)?),
            SetupLine::File => self.push_file(alloc, first, only_bytes_of(alloc, rest)?),
        }
    }

    /// Reads the images in the files of the host that it names, one after the other; each is checked before the next is read. A script
    /// that sets up no program is refused at line 1; one that was read sets up no more than eight.
    pub fn read<R: Files + AllocGlobal>(self, rt: &R) -> Result<Launch, Fault> {
        let Setup {
            programs,
            tapes,
            files,
        } = self;
        let mut read = Vec::new(rt.alloc());
        for program in programs {
            read.push(program.read(rt)?)?;
        }
        match Launch::new(read, tapes, files) {
            Some(launch) => Ok(launch),
            None => Err(Fault::from(Refusal::NoProgram)),
        }
    }
}
