//! Writes to a disk that are complete at once.
use disk_model::Piece;
use faults::Fault;
use kernel::SimDisk;

/// The most bytes of one write.
const LONGEST: usize = 4096;

/// Writes a few bytes to a disk, which has them at once.
fn put_at(device: &mut SimDisk, at: u32, bytes: &[u8]) -> Result<(), Fault> {
    if device.submit(at, bytes).is_err() || device.complete(at).is_err() {
        return Err(Fault::OutOfMemory);
    }
    Ok(())
}

/// Writes a piece to a disk, which has it at once.
pub fn put(device: &mut SimDisk, piece: &Piece) -> Result<(), Fault> {
    put_at(device, piece.at, piece.bytes.as_slice())
}

/// Writes pieces to a disk.
pub fn put_all(device: &mut SimDisk, pieces: &[Piece]) -> Result<(), Fault> {
    for piece in pieces {
        put(device, piece)?;
    }
    Ok(())
}

/// Writes bytes to a disk from a place on, to their end.
pub fn put_bytes(device: &mut SimDisk, at: u32, bytes: &[u8]) -> Result<(), Fault> {
    let mut at = at;
    for part in bytes.chunks(LONGEST) {
        put_at(device, at, part)?;
        at = at.saturating_add(LONGEST as u32);
    }
    Ok(())
}
