//! `Fill`: what a crash leaves of writes that were not complete.
use std::fmt;

/// What the ranges of writes in flight or failed hold after a crash. It prints as a `crash` line of a script writes it.
#[derive(Clone, Copy, Debug)]
pub enum Fill {
    /// The byte 00 throughout. A gate in flight is then closed.
    Zeros,
    /// The byte 01 throughout. A gate in flight is then open.
    Ones,
    /// The bytes 7f and ff in turn, which are no gate's.
    Mixed,
    /// What was there before.
    Unchanged,
}

impl Fill {
    /// The bytes that the ranges take again and again; none where they stay as they were.
    pub fn bytes(self) -> &'static [u8] {
        match self {
            Fill::Zeros => &[0x00],
            Fill::Ones => &[0x01],
            Fill::Mixed => &[0x7F, 0xFF],
            Fill::Unchanged => &[],
        }
    }

    /// The fill, as a `crash` line of a script writes it.
    pub fn text(self) -> &'static str {
        match self {
            Fill::Zeros => "00",
            Fill::Ones => "01",
            Fill::Mixed => "7fff",
            Fill::Unchanged => "-",
        }
    }
}

impl fmt::Display for Fill {
    fn fmt<W: fmt::Write>(&self, f: &mut fmt::Formatter<W>) -> fmt::Result {
        f.write_str(self.text())
    }
}
