//! The registers and the program counter.
ghost use Rattle.std.specs.Prelude.{◌≡◌, ◌%◌, slice_index};
ghost use Rattle.machine_model.specs.Effects.{put};

use formats::Reg;

/// The registers x0 to x31, of which x0 is always 0, and the program counter, always a multiple of 4.
#[derive(Clone, Copy, PartialEq, Eq)]
pub struct Regs {
    pub x: [u32; 32],
    pub pc: u32,
    ghost zero: { slice_index x 0 ≡ 0 },
    ghost aligned: { pc % 4 ≡ 0 },
}

impl Regs {
    #[inline]
    pub(crate) fn get(&self, register: Reg) -> u32
        ensures { result ≡ slice_index self.now.x register }
    {
        self.x[register.number() as usize]
    }

    /// Writes a register. A write to x0 is lost.
    #[inline]
    pub(crate) fn set(&mut self, rd: Reg, value: u32)
        ensures x { self.new.x ≡ put self.old.x rd value }
        ensures pc { self.new.pc ≡ self.old.pc }
    {
        if rd.number() != 0 {
            self.x[rd.number() as usize] = value;
        }
    }
}
