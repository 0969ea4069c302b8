//! A second memory, of 64 bytes from address 0 on, with all rights. It keeps the laws of `Bus`, so that `exec` is tested over it.
ghost use Rattle.std.specs.Prelude.{◌≡◌, ◌+◌, ◌%◌, ◌==◌, ◌≤◌, length};
ghost use Rattle.memory_model.specs.Access.{size, low_bytes};
ghost use Rattle.memory_model.specs.Bytes.{value_in, put_in};
ghost use Rattle.library_tests.specs.FlatMemory.{memory_of_bytes};

use memory_model::{Bus, BusFault, Width};

/// Sixty-four bytes from address 0 on, each of which may be read, written and executed.
#[derive(Drop)]
pub struct FlatBus {
    pub bytes: [u8; 64],
}

fn is_aligned(at: u32, width: Width) -> bool
    ensures { result ≡ (at % size width == 0) }
{
    match width {
        Width::Byte => true,
        Width::Half => at % 2 == 0,
        Width::Word => at % 4 == 0,
    }
}

/// The first address after the bytes.
fn end(bytes: &[u8; 64]) -> u32
    ensures len { result ≡ length bytes.now }
    ensures value { result ≡ 64 }
{
    bytes.len() as u32
}

/// The number that the bytes at an address spell, little-endian.
fn read(bytes: &[u8; 64], at: u32, width: Width) -> u32
    requires { at + size width ≤ 64 }
    ensures { result ≡ value_in bytes.now at (size width) }
{
    let first = at as usize;
    match width {
        Width::Byte => u32::from(bytes[first]),
        Width::Half => u32::from(bytes[first]) + 256 * u32::from(bytes[first + 1]),
        Width::Word => {
            u32::from(bytes[first])
                + 256
                    * (u32::from(bytes[first + 1])
                        + 256 * (u32::from(bytes[first + 2]) + 256 * u32::from(bytes[first + 3])))
        }
    }
}

/// Puts the low bytes of a value at an address, little-endian.
fn write(bytes: &mut [u8; 64], at: u32, width: Width, value: u32)
    requires { at + size width ≤ 64 }
    ensures { bytes.new ≡ put_in bytes.old at (low_bytes (size width) value) }
{
    let first = at as usize;
    match width {
        Width::Byte => bytes[first] = (value % 256) as u8,
        Width::Half => {
            bytes[first] = (value % 256) as u8;
            bytes[first + 1] = (value / 256 % 256) as u8;
        }
        Width::Word => {
            bytes[first] = (value % 256) as u8;
            bytes[first + 1] = (value / 256 % 256) as u8;
            bytes[first + 2] = (value / 256 / 256 % 256) as u8;
            bytes[first + 3] = (value / 256 / 256 / 256 % 256) as u8;
        }
    }
}

impl Bus for FlatBus {
    ghost memory = { λ bus. memory_of_bytes bus.bytes };

    fn load(&self, at: u32, width: Width) -> Result<u32, BusFault> {
        if !is_aligned(at, width) {
            return Err(BusFault::Misaligned);
        }
        if at >= end(&self.bytes) {
            return Err(BusFault::Unmapped);
        }
        Ok(read(&self.bytes, at, width))
    }

    fn store(&mut self, at: u32, width: Width, value: u32) -> Result<(), BusFault> {
        if !is_aligned(at, width) {
            return Err(BusFault::Misaligned);
        }
        if at >= end(&self.bytes) {
            return Err(BusFault::Unmapped);
        }
        write(&mut self.bytes, at, width, value);
        Ok(())
    }
}
