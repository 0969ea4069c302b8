//! The calls, and the row of each.
ghost use Rattle.std.specs.Prelude.{◌≡◌, ◌<◌, ◌⊎◌, IfSome, IfNone};
ghost use Rattle.call_forms.specs.Numbers.{number_of};

use crate::call::Argument::{Address, Descriptor, Length, Mode, Number, Offset, Room};

/// A system call, by the number that a program puts into a7.
#[derive(Clone, Copy, Debug, PartialEq, Eq)]
pub enum Call {
    Exit = 1,
    Write = 2,
    Read = 3,
    Open = 4,
    Close = 5,
    Pipe = 6,
    Fork = 7,
    Wait = 8,
    GetPid = 9,
    Seek = 10,
    Sync = 11,
    Unlink = 12,
    Rename = 13,
    Exec = 14,
}

/// What an argument is.
#[derive(Clone, Copy)]
pub enum Argument {
    Number,
    Descriptor,
    Mode,
    Offset,
    /// Where the bytes are that the call reads, or where those go that it stores.
    Address,
    /// How many bytes the call reads at the address, after those of a length before this one.
    Length,
    /// How many bytes at most the call stores at the address.
    Room,
}

/// What a call replies where it replies no error.
#[derive(Clone, Copy, PartialEq, Eq)]
pub enum Outcome {
    /// Nothing: the process ends.
    End,
    /// Nothing: the process goes on in another program.
    Entry,
    /// 0.
    Zero,
    /// How many bytes were moved.
    Count,
    Descriptor,
    Process,
    Offset,
}

/// How a call is written, and what it replies.
#[derive(Clone, Copy)]
pub struct CallForm {
    pub name: &'static str,
    /// What is in a0, a1 and a2, as far as the call takes arguments.
    pub arguments: &'static [Argument],
    pub outcome: Outcome,
}

fn row(name: &'static str, arguments: &'static [Argument], outcome: Outcome) -> CallForm {
    CallForm {
        name,
        arguments,
        outcome,
    }
}

impl Call {
    /// The call of a number, if there is one: they have the numbers from 1 to 14.
    pub fn of(number: u32) -> Option<Call>
        ensures number { IfSome result (λ call. number ≡ number_of call) }
        ensures none { IfNone result ((number ≡ 0) ⊎ (14 < number)) }
    {
        match number {
            1 => Some(Call::Exit),
            2 => Some(Call::Write),
            3 => Some(Call::Read),
            4 => Some(Call::Open),
            5 => Some(Call::Close),
            6 => Some(Call::Pipe),
            7 => Some(Call::Fork),
            8 => Some(Call::Wait),
            9 => Some(Call::GetPid),
            10 => Some(Call::Seek),
            11 => Some(Call::Sync),
            12 => Some(Call::Unlink),
            13 => Some(Call::Rename),
            14 => Some(Call::Exec),
            _ => None,
        }
    }

    /// The call of a name, if there is one.
    pub fn named(name: &str) -> Option<Call> {
        for number in 1..u32::MAX {
            let call = Call::of(number)?;
            if call.form().name == name {
                return Some(call);
            }
        }
        None
    }

    /// Its number.
    pub fn number(self) -> u32
        ensures { result ≡ number_of self }
    {
        self as u32
    }

    /// Its row.
    pub fn form(self) -> CallForm {
        match self {
            Call::Exit => row("exit", &[Number], Outcome::End),
            Call::Write => row("write", &[Descriptor, Address, Length], Outcome::Count),
            Call::Read => row("read", &[Descriptor, Address, Room], Outcome::Count),
            Call::Open => row("open", &[Address, Length, Mode], Outcome::Descriptor),
            Call::Close => row("close", &[Descriptor], Outcome::Zero),
            Call::Pipe => row("pipe", &[Address], Outcome::Zero),
            Call::Fork => row("fork", &[], Outcome::Process),
            Call::Wait => row("wait", &[Address], Outcome::Process),
            Call::GetPid => row("getpid", &[], Outcome::Process),
            Call::Seek => row("seek", &[Descriptor, Offset], Outcome::Offset),
            Call::Sync => row("sync", &[], Outcome::Zero),
            Call::Unlink => row("unlink", &[Address, Length], Outcome::Zero),
            Call::Rename => row("rename", &[Address, Length, Length], Outcome::Zero),
            Call::Exec => row("exec", &[Address, Length], Outcome::Entry),
        }
    }
}
