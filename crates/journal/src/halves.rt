//! The two halves of a disk. `false` is half 0, `true` is half 1.
ghost use Rattle.std.specs.Prelude.{◌≡◌};
ghost use Rattle.disk_model.specs.Held.{selected_half, start_of, end_of};
ghost use Rattle.disk_model.specs.Storage.{selector};

/// The half that a disk's byte 0 selects by its lowest bit: even is half 0, odd is half 1.
pub fn half_of(byte: u8) -> bool
    ensures { result ≡ selected_half byte }
{
    byte % 2 == 1
}

/// The byte 0 that is written to select a half: 0 for half 0, 1 for half 1.
pub fn selector_of(half: bool) -> u8
    ensures { result ≡ selector half }
{
    if half { 1 } else { 0 }
}

/// The place of a half's first gate, in bytes from the disk's start.
pub fn first_gate(half: bool) -> u32
    ensures { result ≡ start_of half }
{
    if half { 1048576 } else { 64 }
}

/// The place after a half's last byte, in bytes from the disk's start. Each half has 1,048,512 bytes.
pub fn half_end(half: bool) -> u32
    ensures { result ≡ end_of half }
{
    if half { 2097088 } else { 1048576 }
}
