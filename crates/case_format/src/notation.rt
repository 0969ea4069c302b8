//! The programs of a `.calls` case: makes their sources and images of the notation, and keeps the replies beside their calls.
use crate::hex_parts::push_parts_line;
use crate::lines::{push_line, push_texts, refused, two_parts, words_of};
use anyhow::Error;
use assembler::{ListingRow, assemble};
use call_forms::Call;
use std::alloc::{AllocError, Global};
use std::str::SplitWhitespace;

/// The built-in places, which the head of `kernel_calls` lists for those who write cases. They stand after each program's text, in
/// its pages. The text of `tool` and of `probe` stands from 0x00010054 on.
const PLACES: &str = "
f: .word 0x66
g: .word 0x67
h: .word 0x68
ff: .word 0x6666
fg: .word 0x6766
fh: .word 0x6866
gf: .word 0x6667
letters: .word 0x44434241
A: .word 0x41
B: .word 0x42
C: .word 0x43
D: .word 0x44
P: .word 0x50
X: .word 0x58
Y: .word 0x59
long: .word 0x61616161,0x61616161,0x61616161,0x61616161,0x61616161,0x61616161,0x61616161,0x61616161,0x61616161
zeros: .space 1028
tool: .word 0x464C457F,0x00010101,0,0,0x00F30002,1,0x00010054,52,0,0,0x00200034,1,0
.word 1,84,0x00010054,0x00010054,40,40,5,4096
.word 0x00100513,0x00000597,0x02058593,0x00100613,0x00200893,0x00000073,0x00500513,0x00100893,0x00000073,0x43
probe: .word 0x464C457F,0x00010101,0,0,0x00F30002,1,0x00010054,52,0,0,0x00200034,1,0
.word 1,84,0x00010054,0x00010054,80,80,5,4096
.word 0x00900893,0x00000073,0x00300513,0xFFC10593,0x00200613,0x00300893,0x00000073,0x00000513,0x00800893,0x00000073
.word 0x00100513,0x00000597,0x02058593,0x00100613,0x00200893,0x00000073,0x00500513,0x00100893,0x00000073,0x43
";

/// The bytes of the files that a trace prints where `tool` and `probe` were entered: text stands at 4,180 there.
const TOOL_FILE: &str =
    "7f454c460101010000000000000000000200f3000100000054000100340000000000000000000000340020000100000000000000\
    0100000054100000540001005400010028000000280000000500000000100000+00*4096\
    +13051000970500009385050213061000930820007300000013055000930810007300000043000000";

const PROBE_FILE: &str =
    "7f454c460101010000000000000000000200f3000100000054000100340000000000000000000000340020000100000000000000\
    0100000054100000540001005400010050000000500000000500000000100000+00*4096\
    +9308900073000000130530009305c1ff13062000930830007300000013050000930880007300000013051000970500009385050213061000\
    930820007300000013055000930810007300000043000000";

/// The parts of the file that the reply of an exec brings, by the name of a built-in program or as they stand.
fn file_parts(word: &str) -> &str {
    match word {
        "tool" => TOOL_FILE,
        "probe" => PROBE_FILE,
        parts => parts,
    }
}

/// The number of a call, by its name or as it stands.
fn call_number(word: &str) -> Option<u32> {
    match Call::named(word) {
        Some(call) => Some(call.number()),
        None => word.parse::<u32>().ok(),
    }
}

/// The instruction that loads an argument, and its operand.
fn loading(word: &str) -> (&str, &str) {
    if let Some(label) = word.strip_prefix('&') {
        return ("la", label);
    }
    match word.as_bytes().first() {
        Some(b'0'..=b'9' | b'-') => ("li", word),
        _ => ("mv", word),
    }
}

/// Adds the instruction that loads a call's argument into this register.
fn push_argument(source: &mut String, register: &str, word: &str) -> Result<(), Error> {
    let (mnemonic, operand) = loading(word);
    push_texts(source, &[mnemonic, " ", register, ",", operand, "\n"])
}

/// The registers of a call's arguments.
const REGISTERS: &[&str] = &["a0", "a1", "a2"];

/// Adds the instructions of a call, which load its arguments, at most three.
fn push_call(
    source: &mut String,
    call: u32,
    arguments: &mut SplitWhitespace<'_>,
) -> Result<(), Error> {
    for register in REGISTERS {
        if let Some(word) = arguments.next() {
            push_argument(source, register, word)?;
        }
    }
    Ok(writeln!(source, "li a7,{call}\necall")?)
}

/// Adds a statement: a call by its name or number, or a line of the source as it stands.
fn push_statement(source: &mut String, statement: &str) -> Result<(), Error> {
    let mut words = statement.split_whitespace();
    match call_number(words.next().unwrap_or("")) {
        Some(call) => push_call(source, call, &mut words),
        None => push_line(source, statement),
    }
}

/// Adds a decimal number, in hexadecimal, and a text.
fn push_number(out: &mut String, number: &str, text: &str) -> Result<(), Error> {
    let number = number.parse::<i32>()?;
    Ok(write!(out, "{number:08x} {text}")?)
}

/// Adds the line that a trace prints of a reply, by the words of the reply's text.
fn push_reply(out: &mut String, reply: &str, words: &[&str]) -> Result<(), Error> {
    match words {
        [a0] => push_number(out, a0, "-\n"),
        [a0, "at", at, parts] => {
            push_number(out, a0, at)?;
            push_parts_line(out, &[" "], parts)
        }
        ["image", file] => push_parts_line(out, &["00000000 image "], file_parts(file)),
        _ => Err(refused("no reply: ", reply)),
    }
}

/// The replies beside a program's calls.
pub struct Replies {
    pub count: u32,
    printed: String,
}

impl Drop for Replies {
    fn drop(self) {
        let Replies {
            count: _,
            printed: _printed,
        } = self;
    }
}

impl Replies {
    fn none(alloc: Global) -> Replies {
        Replies {
            count: 0,
            printed: String::new(alloc),
        }
    }

    fn push(&mut self, alloc: Global, reply: &str) -> Result<(), Error> {
        self.count = self.count.saturating_add(1);
        let words = words_of(alloc, reply)?;
        push_reply(&mut self.printed, reply, words.as_slice())
    }

    fn push_list(&mut self, alloc: Global, replies: &str) -> Result<(), Error> {
        for reply in replies.split(';') {
            self.push(alloc, reply)?;
        }
        Ok(())
    }

    /// Adds the same replies again and again, as `N = R; R` says.
    fn push_times(&mut self, alloc: Global, line: &str) -> Result<(), Error> {
        let (times, replies) = two_parts(line, " = ", "no replies: ")?;
        for _ in 0..times.parse::<u32>()? {
            self.push_list(alloc, replies)?;
        }
        Ok(())
    }

    fn push_range(&mut self, first: u32, last: u32) -> Result<(), Error> {
        for number in first..=last {
            self.count = self.count.saturating_add(1);
            writeln!(self.printed, "{number:08x} -")?;
        }
        Ok(())
    }

    /// Adds the replies from one number to another, as `N M` says.
    fn push_numbers(&mut self, range: &str) -> Result<(), Error> {
        let (first, last) = two_parts(range, " ", "no numbers: ")?;
        self.push_range(first.parse::<u32>()?, last.parse::<u32>()?)
    }

    /// Adds what a trace of these replies prints.
    pub fn push_trace(&self, out: &mut String, pid: &str) -> Result<(), Error> {
        let count = self.count;
        let lines = self.printed.as_str();
        Ok(write!(out, "trace {pid} {count} replies\n{lines}")?)
    }
}

/// Adds what a trace of the replies of a list prints; the list is `-` where there are none.
pub fn push_listed_trace(
    alloc: Global,
    out: &mut String,
    pid: &str,
    list: &str,
) -> Result<(), Error> {
    let mut replies = Replies::none(alloc);
    if list != "-" {
        replies.push_list(alloc, list)?;
    }
    replies.push_trace(out, pid)
}

fn push_word_bytes(file: &mut Vec<u8>, words: &[u32]) -> Result<(), Error> {
    for word in words {
        file.extend_from_slice(&word.to_le_bytes())?;
    }
    Ok(())
}

/// The header of an image's file with four segments, whose program headers stand after it.
const IMAGE_HEADER: &[u32] = &[
    0x464C457F, 0x00010101, 0, 0, 0x00F30002, 1, 0x10000, 52, 0, 0, 0x00200034, 4, 0,
];

/// Adds the program headers of an image whose text has this size.
fn push_segments(file: &mut Vec<u8>, size: u32) -> Result<(), Error> {
    let headers = [
        [1, 4096, 0x10000, 0x10000, size, size, 5, 4096],
        [1, 4096, 0x20000, 0x20000, 0, 4096, 4, 4096],
        [1, 4096, 0x30000, 0x30000, 0, 4096, 2, 4096],
        [1, 4096, 0x40000, 0x40000, 0, 4096, 1, 4096],
    ];
    for header in &headers {
        push_word_bytes(file, header)?;
    }
    Ok(())
}

/// Fills the file of an image: a program's text, and three pages. The one at 0x00020000 may be read alone, at 0x00030000 written
/// alone, at 0x00040000 executed alone.
pub fn fill_image(file: &mut Vec<u8>, words: &[u32]) -> Result<(), Error> {
    file.clear();
    push_word_bytes(file, IMAGE_HEADER)?;
    push_segments(file, u32::try_from(words.len())?.saturating_mul(4))?;
    file.resize(4096, 0)?;
    push_word_bytes(file, words)
}

/// How a program is set up.
#[derive(Clone, Copy)]
pub enum Form {
    /// By its words.
    Words,
    /// By an image with a page of each right.
    Image,
}

/// A program whose source is being read, line by line.
pub struct Program {
    pub form: Form,
    pub terminal: String,
    source: String,
    pub replies: Replies,
}

impl Drop for Program {
    fn drop(self) {
        let Program {
            form: _form,
            terminal: _terminal,
            source: _source,
            replies: _replies,
        } = self;
    }
}

fn listed_words(alloc: Global, rows: &[ListingRow]) -> Result<Vec<u32>, AllocError> {
    let mut words = Vec::new(alloc);
    for row in rows {
        words.push(row.word)?;
    }
    Ok(words)
}

impl Program {
    /// A program without a line of its source as yet.
    pub fn new(alloc: Global, form: Form, terminal: &str) -> Result<Program, AllocError> {
        Ok(Program {
            form,
            terminal: String::from_str(alloc, terminal)?,
            source: String::from_str(alloc, "_start:\n")?,
            replies: Replies::none(alloc),
        })
    }

    /// Reads a line of the source: a statement, and the reply beside it, if there is one.
    fn read_statement(&mut self, alloc: Global, line: &str) -> Result<(), Error> {
        match line.split_once(" = ") {
            Some((statement, reply)) => {
                push_statement(&mut self.source, statement)?;
                self.replies.push(alloc, reply)
            }
            None => push_statement(&mut self.source, line),
        }
    }

    /// Reads a line of the source, or a line `each` or `numbers` of replies.
    pub fn read(&mut self, alloc: Global, line: &str) -> Result<(), Error> {
        if let Some(list) = line.strip_prefix("each ") {
            self.replies.push_times(alloc, list)
        } else if let Some(range) = line.strip_prefix("numbers ") {
            self.replies.push_numbers(range)
        } else {
            self.read_statement(alloc, line)
        }
    }

    /// The replies beside its calls.
    pub fn into_replies(self) -> Replies {
        let Program {
            form: _form,
            terminal: _terminal,
            source: _source,
            replies,
        } = self;
        replies
    }

    /// The words of the program. The places are added to its source here, so it is asked once.
    pub fn assemble_words(&mut self, alloc: Global) -> Result<Vec<u32>, Error> {
        self.source.push_str(PLACES)?;
        let (_image, listing) = assemble(alloc, self.source.as_str())?;
        Ok(listed_words(alloc, listing.rows())?)
    }
}

/// Adds the set-up line of a program.
pub fn push_program(script: &mut String, terminal: &str, words: &[u32]) -> Result<(), Error> {
    push_texts(script, &["program ", terminal])?;
    for word in words {
        write!(script, " {word:08x}")?;
    }
    push_texts(script, &["\n"])
}
