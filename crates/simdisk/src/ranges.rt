//! Ranges of pieces: tests, searches, and the bytes of a crash.
ghost use Rattle.std.specs.Prelude.{◌≡◌, ◌≤◌, ◌<◌, ◌+◌, ◌++◌, false, ℕ, None, IfSome, IfNone, Some, slice_index_or, length};
ghost use Rattle.std.specs.List.{remove};
ghost use Rattle.disk_model.specs.declared.change.Piece.{Piece};
ghost use Rattle.disk_model.specs.Storage.{overwritten, piece_at, without, least_start};
ghost use Rattle.simdisk.specs.Room.{crashed, in_range, is_apart, filled};

use disk_model::Piece;

/// The place in the list of the first piece that begins there.
pub fn place_of(pieces: &[Piece], at: u32) -> Option<usize>
    ensures found { IfSome result (λ i. (i < length pieces.now) × ((d : Piece) → piece_at pieces.now at ≡ Some (slice_index_or pieces.now i d)) × (without pieces.now at ≡ remove pieces.now i)) }
    ensures none { IfNone result ((piece_at pieces.now at ≡ None) × (without pieces.now at ≡ pieces.now)) }
{
    pieces.iter().position(|piece| piece.at == at)
}

/// The first piece that begins there, taken out of the list.
pub fn take_out(pieces: &mut Vec<Piece>, at: u32) -> Option<Piece>
    ensures found { result ≡ piece_at pieces.old.items at }
    ensures rest { pieces.new.items ≡ without pieces.old.items at }
{
    let i = place_of(pieces, at)?;
    Some(pieces.remove(i))
}

/// The least place at which one of the pieces begins.
pub fn least_start_of(pieces: &[Piece]) -> Option<u32>
    ensures { result ≡ least_start pieces.now }
{
    let mut least: Option<u32> = None;
    for piece in pieces {
        least = match least {
            None => Some(piece.at),
            Some(at) => Some(at.min(piece.at)),
        };
    }
    least
}

/// Writes bytes over those of the disk from place `at` on.
pub fn overwrite(disk: &mut [u8], at: usize, bytes: &[u8])
    requires { at + length bytes.now ≤ length disk.old }
    ensures { disk.new ≡ overwritten disk.old at bytes.now }
{
    disk[at..at + bytes.len()].copy_from_slice(bytes);
}

/// Whether n bytes from a place on meet none of the pieces.
pub fn are_apart(pieces: &[Piece], at: usize, n: usize) -> bool
    requires { at + n ≤ 2097152 }
    ensures { result ≡ is_apart pieces.now at n }
{
    pieces.iter().all(|piece| {
        let from = piece.at as usize;
        at + n <= from || from + piece.bytes.as_slice().len() <= at
    })
}

/// Whether a place lies in the range of one of the pieces.
pub fn is_in_range(pieces: &[Piece], place: usize) -> bool
    ensures { result ≡ in_range pieces.now place }
{
    pieces.iter().any(|piece| {
        let from = piece.at as usize;
        from <= place && place < from + piece.bytes.as_slice().len()
    })
}

/// Whether a place lies in the range of a piece of either list.
#[tactic(auto, using(crate::proofs::Filling::in_both))]
fn is_in_either(in_flight: &[Piece], failed: &[Piece], place: usize) -> bool
    ensures { result ≡ in_range (in_flight.now ++ failed.now) place }
{
    is_in_range(in_flight, place) || is_in_range(failed, place)
}

/// A place before which no range has one: `most` where there are no pieces.
fn range_start(pieces: &[Piece], most: usize) -> usize
    ensures { (i : ℕ) → i < result → in_range pieces.now i ≡ false }
{
    let mut start = most;
    for piece in pieces {
        start = start.min(piece.at as usize);
    }
    start
}

/// A place from which on no piece's range has one.
fn range_end(pieces: &[Piece]) -> usize
    ensures { (i : ℕ) → result ≤ i → in_range pieces.now i ≡ false }
{
    let mut end = 0;
    for piece in pieces {
        end = end.max(piece.at as usize + piece.bytes.as_slice().len());
    }
    end
}

/// Gives each byte in the range of a piece, by rising place, the next byte of the fill, which begins again after its last.
fn fill_ranges(disk: &mut [u8], in_flight: &[Piece], failed: &[Piece], fill: &[u8])
    requires { 1 ≤ length fill.now }
    ensures { disk.new ≡ filled (in_flight.now ++ failed.now) fill.now 0 0 disk.old }
{
    let start = range_start(in_flight, disk.len()).min(range_start(failed, disk.len()));
    let end = range_end(in_flight).max(range_end(failed)).min(disk.len());
    let mut count = 0usize;
    for place in start..end {
        if is_in_either(in_flight, failed, place) {
            disk[place] = fill[count % fill.len()];
            count += 1;
        }
    }
}

/// Leaves the bytes of a disk as a crash leaves them for this fill; an empty fill leaves the old ones.
pub fn leave_crashed(disk: &mut [u8], in_flight: &[Piece], failed: &[Piece], fill: &[u8])
    ensures { disk.new ≡ crashed (record { disk = disk.old; in_flight = in_flight.now; failed = failed.now }) fill.now }
{
    if !fill.is_empty() {
        fill_ranges(disk, in_flight, failed, fill);
    }
}
