//! What the reply of a refused call says.
ghost use Rattle.std.specs.Prelude.{◌≡◌, ◌-◌, ◌^◌};
ghost use Rattle.calls.specs.Errors.{code_of};

/// Why a call is refused. Its reply in a0 is this number, negated.
#[derive(Clone, Copy)]
pub enum Errno {
    NoSuchFile = 2,
    NotAnImage = 8,
    BadDescriptor = 9,
    NoChild = 10,
    BadAddress = 14,
    BadArgument = 22,
    TableFull = 23,
    TooManyDescriptors = 24,
    FileTooLarge = 27,
    NoReader = 32,
    NoSuchCall = 38,
}

impl Errno {
    /// The reply, in two's complement.
    pub fn reply(self) -> u32
        ensures { result ≡ 2 ^ 32 - code_of self }
    {
        u32::MAX - (self as u32 - 1)
    }
}
