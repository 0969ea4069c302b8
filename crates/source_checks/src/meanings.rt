//! Numbers of calls that mean something else in RARS and in Linux.
use call_forms::Call;
use std::fmt;

/// The registers of a call's arguments, a bit each.
pub const A0: u8 = 1;

pub const A1: u8 = 2;

pub const A2: u8 = 4;

/// When a call does what is hardly meant, by what stands next in text.
#[derive(Clone, Copy)]
pub enum When {
    Always,
    /// Where an instruction stands next, to which control would come from nowhere.
    GoesOn,
    /// Where no instruction stands next.
    Ends,
    /// Where no return stands next: else it is a function whose caller sets the arguments.
    NoReturn,
}

/// A call here whose number is another call in RARS. The arguments that are set for the call of RARS, those that are set for the call
/// here alone, and when there is doubt. Last what is said after "call N is NAME".
type Meaning = (Call, (u8, u8, When), &'static str);

/// The calls here whose numbers are others in RARS, and that are told from these by the arguments that a program sets.
static MEANINGS: [Meaning; 8] = [
    (
        Call::Exit,
        (0, 0, When::GoesOn),
        ", so that nothing is done after it; 1 of RARS prints a number: here by its digits, with write, 2",
    ),
    (
        Call::Open,
        (A0, A1 | A2, When::Always),
        "; 4 of RARS prints a string: here write, 2, with 1 in a0, the address in a1, the length in a2",
    ),
    (
        Call::Close,
        (0, A0, When::NoReturn),
        "; 5 of RARS reads a number: here by its digits, with read, 3",
    ),
    (
        Call::Wait,
        (A0 | A1, 0, When::Always),
        "; 8 of RARS reads a string: here read, 3, with 0 in a0, the address in a1, the most bytes in a2",
    ),
    (
        Call::GetPid,
        (A0, 0, When::Always),
        "; 9 of RARS gives memory: here .space in .data does",
    ),
    (
        Call::Seek,
        (0, A0 | A1, When::Ends),
        "; 10 of RARS is exit: here 1, with the status in a0",
    ),
    (
        Call::Sync,
        (A0, 0, When::Always),
        "; 11 of RARS prints a character: here write, 2, with 1 in a0, its address in a1, 1 in a2",
    ),
    (
        Call::Unlink,
        (0, A0 | A1, When::NoReturn),
        "; 12 of RARS reads a character: here read, 3, with 0 in a0, an address in a1, 1 in a2",
    ),
];

/// The calls here that do what a call of this number does in RARS or Linux.
static ELSEWHERE: [(i64, Call); 13] = [
    (35, Call::Unlink),
    (56, Call::Open),
    (57, Call::Close),
    (59, Call::Pipe),
    (62, Call::Seek),
    (81, Call::Sync),
    (82, Call::Sync),
    (172, Call::GetPid),
    (220, Call::Fork),
    (221, Call::Exec),
    (260, Call::Wait),
    (276, Call::Rename),
    (1024, Call::Open),
];

/// Writes which call is wanted in place of a number that is no call's, where that is known.
pub fn write_wanted<W: fmt::Write>(f: &mut fmt::Formatter<W>, number: i64) -> fmt::Result {
    for (other, call) in &ELSEWHERE {
        if *other == number {
            let name = call.form().name;
            let number = call.number();
            return write!(f, "{name} is {number}");
        }
    }
    f.write_str(match number {
        34 | 36 => "a number is written by its digits, with write, 2",
        214 => "there is .space in .data for memory",
        _ => "exit is 1, write 2, read 3",
    })
}

/// The call of a number, if there is one.
pub fn call_of(number: i64) -> Option<Call> {
    Call::of(u32::try_from(number).ok()?)
}

/// What is said of this call, and when, where these arguments are set for it, and these may be.
pub fn meaning_of(call: Call, set: u8, possible: u8) -> Option<(When, &'static str)> {
    for (other, (there, here, when), said) in &MEANINGS {
        if *other == call && set & *there == *there && possible & *here == 0 {
            return Some((*when, *said));
        }
    }
    None
}
