//! An address with the nearest label of the source before it, as it is printed.
use debug_info::SourceLines;
use std::fmt;

/// An address. It prints as eight hexadecimal digits, and as a label with what comes after it, if one of the source is near.
#[derive(Clone, Copy)]
pub struct Labelled<'a> {
    pub at: u32,
    pub lines: Option<&'a SourceLines>,
}

impl fmt::Display for Labelled<'_> {
    fn fmt<W: fmt::Write>(&self, f: &mut fmt::Formatter<W>) -> fmt::Result {
        let at = self.at;
        write!(f, "{at:08x}")?;
        let near = match self.lines {
            Some(lines) => lines.label_before(at),
            None => None,
        };
        match near {
            Some((name, 0)) => write!(f, " {name}"),
            Some((name, offset)) => write!(f, " {name}+{offset}"),
            None => Ok(()),
        }
    }
}
