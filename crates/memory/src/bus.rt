//! The loads and stores of instructions: `Space` as a `Bus`.
use crate::part::is_aligned;
use crate::place::{part_of, place_of_shared};
use crate::space::Space;
use memory_model::{Bus, BusFault, Width};

impl Bus for Space {
    ghost memory = { λ s. s };

    #[inline]
    fn load(&self, at: u32, width: Width) -> Result<u32, BusFault> {
        if !is_aligned(at, width) {
            return Err(BusFault::Misaligned);
        }
        match part_of(&self.own, self.shared.as_slice(), at / 4) {
            Some((part, _)) => part.load(at, width),
            None => Err(BusFault::Unmapped),
        }
    }

    #[inline]
    fn store(&mut self, at: u32, width: Width, value: u32) -> Result<(), BusFault> {
        if !is_aligned(at, width) {
            return Err(BusFault::Misaligned);
        }
        if self.own.store(at, width, value) {
            return Ok(());
        }
        match place_of_shared(self.shared.as_slice(), at / 4) {
            Some(_) => Err(BusFault::NoRight),
            None => Err(BusFault::Unmapped),
        }
    }
}
