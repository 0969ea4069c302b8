//! Where a run stops.
ghost use Rattle.std.specs.Prelude.{◌≡◌};
ghost use Rattle.machine_model.specs.Numbers.{cause_number};

/// Why an instruction traps. The end of a process reports the number.
#[derive(Clone, Copy, Debug, PartialEq, Eq)]
pub enum Cause {
    /// The word means no instruction.
    Illegal = 1,
    /// A jump, or a branch that is taken, to an address that is no multiple of 4.
    MisalignedTarget = 2,
    /// A load or a store at an address that is no multiple of its width.
    MisalignedData = 3,
    /// A load or a store where no page is, or where the page lacks the right.
    PageFault = 4,
    /// No page at the program counter, or one that may not be executed.
    FetchFault = 5,
    /// EBREAK.
    Breakpoint = 6,
}

impl Cause {
    /// Its number, 1 to 6.
    pub fn number(self) -> u8
        ensures { result ≡ cause_number self }
    {
        self as u8
    }
}

/// Where a run stops.
#[derive(Clone, Copy, Debug, PartialEq, Eq)]
pub enum Stop {
    /// The run did as many instructions as it might.
    Limit,
    /// The machine stands at a call, ECALL.
    Call,
    /// The machine stands at an instruction that traps.
    Trap(Cause),
}
