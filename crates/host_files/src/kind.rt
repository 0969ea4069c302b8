//! `kind_of`: what a file holds, by its bytes.
use crate::fields::value_at;
use faults::{Fault, Refusal};
use source_checks::form_of;
use std::alloc::Global;
use std::fmt;

/// The first bytes of an image, and of an executable.
const ELF_BEGIN: &[u8] = b"\x7fELF";

/// How many bytes are looked at for those that stand in no text.
const LOOKED_AT: usize = 64;

/// The words of scripts after which a number comes.
static SCRIPT_WORDS: [&str; 10] = [
    "program", "image", "binary", "tape", "turn", "enter", "complete", "fail", "shown", "trace",
];

/// What a file holds.
#[derive(Clone, Copy, PartialEq, Eq)]
pub enum FileKind {
    Empty,
    Image,
    Executable,
    Script,
    Source,
    C,
    /// A text that may be of any kind.
    Text,
    /// Bytes that are no text.
    Other,
}

impl FileKind {
    /// Whether it is a text, or empty.
    pub fn is_text(self) -> bool {
        !matches!(
            self,
            FileKind::Image | FileKind::Executable | FileKind::Other
        )
    }
}

/// A file of some kind, as it is told where another kind is wanted: what it is, and the command that takes it.
#[derive(Clone, Copy)]
pub struct KindText<'a> {
    pub kind: FileKind,
    pub path: &'a str,
}

impl fmt::Display for KindText<'_> {
    fn fmt<W: fmt::Write>(&self, f: &mut fmt::Formatter<W>) -> fmt::Result {
        let (what, command, end) = match self.kind {
            FileKind::Empty => return f.write_str("the file is empty"),
            FileKind::Other => {
                return f.write_str("it is no image, no executable for RISC-V and no source");
            }
            FileKind::Image => ("an image", "bench exec", ""),
            FileKind::Executable => ("an executable", "bench exec", ""),
            FileKind::Script => ("a script", "bench replay", ""),
            FileKind::Source => ("a source", "bench exec", "; bench asm makes an image of it"),
            FileKind::C => (
                "C",
                "examples/c/build.sh",
                " /tmp/a.image builds what may be run",
            ),
            FileKind::Text => ("text", "bench exec", ", if it is a source"),
        };
        let path = self.path;
        write!(f, "this is {what}: {command} {path}{end}")
    }
}

/// The fault of a file of some kind where another kind is wanted.
pub fn kind_fault(alloc: Global, refusal: Refusal, path: &str, kind: FileKind) -> Fault {
    let text = format!(in alloc; "{}", KindText { kind, path });
    Fault::saying(refusal, text).at(alloc, path)
}

/// The first line of a text that is neither empty nor a comment, without blanks round it. A byte order mark is passed over.
fn first_line(text: &str) -> &str {
    let text = text.strip_prefix('\u{feff}').unwrap_or(text);
    for line in text.split('\n') {
        let line = line.trim_ascii();
        if !line.is_empty() && !line.starts_with('#') {
            return line;
        }
    }
    ""
}

/// The first word of a text, comments aside; empty where it has none.
fn first_word(text: &str) -> &str {
    first_line(text)
        .split_ascii_whitespace()
        .next()
        .unwrap_or("")
}

/// Whether a text is meant as a script: its first line that is no comment begins with a word of scripts, with as many words after it, or a
/// number, as a line of that kind has.
pub fn is_script(text: &str) -> bool {
    let mut words = first_line(text).split_ascii_whitespace();
    let Some(word) = words.next() else {
        return false;
    };
    let (second, third, more) = (words.next(), words.next(), words.next());
    match word {
        "cut" | "drain" | "files" => second.is_none(),
        "crash" => second.is_some() && third.is_none(),
        "file" => third.is_some() && more.is_none(),
        word => {
            let is_known = SCRIPT_WORDS.iter().any(|known| *known == word);
            is_known
                && second.is_some_and(|second| second.starts_with(|c: char| c.is_ascii_digit()))
        }
    }
}

/// Whether a line ends with a brace, outside comments and strings, as no line of assembly language does.
fn ends_with_brace(line: &str) -> bool {
    let code = line.split('#').next().unwrap_or("").trim_ascii_end();
    !code.contains('"') && (code.ends_with('{') || code.ends_with('}'))
}

/// Whether a text is one of C: a line ends with a brace, and there is a semicolon, or it includes a file.
fn is_c(text: &str) -> bool {
    let is_shell = text.starts_with("#!");
    let has_sign = text.contains(';') || text.contains("#include");
    !is_shell && has_sign && text.lines().any(ends_with_brace)
}

/// Whether a text is meant as a source: its first line that is no comment begins with a label, a directive or an instruction.
fn is_source(text: &str) -> bool {
    let word = first_word(text);
    word.contains(':') || word.starts_with('.') || form_of(word, 0).is_some()
}

/// The text with which bytes begin. None where that is none.
fn text_in_bytes(bytes: &[u8]) -> Option<&str> {
    if bytes.iter().take(LOOKED_AT).any(|byte| *byte < b'\t') {
        return None;
    }
    match str::from_utf8(bytes) {
        Ok(text) => Some(text),
        Err(error) if error.valid_up_to() > 0 => {
            str::from_utf8(bytes.get(..error.valid_up_to())?).ok()
        }
        Err(_) => None,
    }
}

/// What a file of these bytes, or of these first bytes, holds. An executable, as linkers write it, has sections, and an image none.
pub fn kind_of(bytes: &[u8]) -> FileKind {
    if bytes.starts_with(ELF_BEGIN) {
        return match value_at(bytes, 32, 4) {
            None | Some(0) => FileKind::Image,
            Some(_) => FileKind::Executable,
        };
    }
    match text_in_bytes(bytes) {
        Some("") => FileKind::Empty,
        Some(text) if is_script(text) => FileKind::Script,
        Some(text) if is_source(text) => FileKind::Source,
        Some(text) if is_c(text) => FileKind::C,
        Some(_) => FileKind::Text,
        None => FileKind::Other,
    }
}
