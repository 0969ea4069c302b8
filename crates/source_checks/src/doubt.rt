//! What hardly does what is meant.
use crate::meanings::write_wanted;
use call_forms::Call;
use std::fmt;

/// Why something that assembles hardly does what is meant.
#[derive(Clone, Copy, Debug, PartialEq, Eq)]
pub enum Doubt {
    /// Words of data stand at an address that is no multiple of 4.
    Words { at: u32 },
    /// The stack pointer moves by no multiple of 4.
    StackPointer,
    /// There is no call of this number.
    Call { number: i64 },
    /// The number of this call is another call in RARS, of which this is said.
    OtherCall { call: Call, said: &'static str },
    /// The last instruction of text goes on to the next, and there is none.
    RunsOn,
}

impl fmt::Display for Doubt {
    fn fmt<W: fmt::Write>(&self, f: &mut fmt::Formatter<W>) -> fmt::Result {
        match self {
            Doubt::Words { at } => {
                let missing = 4 - *at % 4;
                write!(
                    f,
                    "these words stand at {at:08x}, no multiple of 4: lw and sw trap there; .space {missing} before them"
                )
            }
            Doubt::StackPointer => {
                f.write_str(
                    "sp is then no multiple of 4, and lw and sw trap by it; 16 is the least step that the ABI has",
                )
            }
            Doubt::Call { number } => {
                write!(f, "there is no call {number}; ")?;
                write_wanted(f, *number)
            }
            Doubt::OtherCall { call, said } => {
                let number = call.number();
                let name = call.form().name;
                write!(f, "call {number} is {name}{said}")
            }
            Doubt::RunsOn => {
                f.write_str(
                    "the program goes on past its last word, where nothing is; it ends by li a7,1 and ecall",
                )
            }
        }
    }
}
