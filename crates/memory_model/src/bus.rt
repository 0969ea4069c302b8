//! A memory that instructions load from and store to.
ghost use Rattle.std.specs.Prelude.{◌≡◌, OnOk, OnErr};
ghost use Rattle.memory_model.specs.Memory.{Memory};
ghost use Rattle.memory_model.specs.Access.{loaded, access_fault, stored, or_fault, to_write};

use crate::access::{BusFault, Width};

/// A memory that instructions load from and store to. Each bus keeps these laws. A load gives the bytes that stand there,
/// little-endian and not extended. A store changes those bytes alone, and a refused store changes nothing. An access is refused
/// Misaligned exactly where the address is no multiple of the width. Else it is refused Unmapped or NoRight exactly where one of
/// its bytes is absent or lacks the right.
pub trait Bus {
    ghost memory: { Self → Memory };

    /// The bytes at an address, little-endian and not extended.
    fn load(&self, at: u32, width: Width) -> Result<u32, BusFault>
        ensures { result ≡ loaded (memory self.now) at width };

    /// Puts the low bytes of a value at an address, little-endian.
    fn store(&mut self, at: u32, width: Width, value: u32) -> Result<(), BusFault>
        ensures answer { result ≡ or_fault (access_fault to_write (memory self.old) at width) tt }
        ensures ok { OnOk result (memory self.new ≡ stored (memory self.old) at width value) }
        ensures err { OnErr result (memory self.new ≡ memory self.old) };
}
