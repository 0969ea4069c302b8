//! The aids of a session of `debug`: a kernel that answers the calls, and the program's source.
use debug_info::SourceLines;

/// The source of a program's image, and the path of its file.
#[derive(Drop)]
pub struct Source {
    pub path: String,
    pub lines: SourceLines,
}

/// What a session has beside a program and its trace. With either aid a session has more commands, and says more of a trap.
#[derive(Drop)]
pub struct Aids {
    /// Whether a kernel answers the program's calls.
    pub is_live: bool,
    /// The source of the program's image.
    pub source: Option<Source>,
}

impl Aids {
    /// Whether the session has an aid.
    pub fn some(&self) -> bool {
        self.is_live || self.source.is_some()
    }

    /// The lines and labels of the source.
    pub fn lines(&self) -> Option<&SourceLines> {
        match &self.source {
            Some(source) => Some(&source.lines),
            None => None,
        }
    }

    /// The path of the source.
    pub fn path(&self) -> Option<&str> {
        match &self.source {
            Some(source) => Some(source.path.as_str()),
            None => None,
        }
    }
}
