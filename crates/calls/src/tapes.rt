//! The tapes that processes read.
ghost use Rattle.std.specs.Prelude.{◌≡◌, IfOk, take, drop, slice_get, option_map};
ghost use Rattle.kernel_model.specs.State.{read_by};
ghost use Rattle.kernel_model.specs.World.{tapes_of, tape_count};
ghost use Rattle.calls.specs.Plans.{AreLeft};
ghost use Rattle.calls.specs.Places.{bytes_of};

use byte_list::Bytes;
use files::part_of;
use kernel_model::{TAPES, TapeRead};
use std::alloc::AllocError;
use std::marker::Model;
use std::sync::Arc;

/// The tapes, 0 to 7. Each has its bytes, which are shared with whoever gave them, and the place of the next one to be read.
pub struct TapeTable {
    tapes: Arc<Vec<Bytes>>,
    places: [usize; TAPES],
}

impl Drop for TapeTable {
    fn drop(self) {
        let TapeTable {
            tapes: _tapes,
            places: _,
        } = self;
    }
}

impl Model for TapeTable {
    ghost use Rattle.std.specs.Prelude.{◌≡◌, List, length};
    ghost use Rattle.kernel_model.specs.State.{TapeState};

    ghost Value = { List TapeState };

    ghost use Rattle.calls.specs.Places.{tapes_at};

    ghost view = { λ t. tapes_at t.tapes.value.items t.places };

    ghost invariant = { λ t. length t.places ≡ 8 };
}

/// The bytes of a tape; none where none were given.
fn bytes_of(tapes: &[Bytes], tape: usize) -> &[u8]
    ensures { result.now ≡ bytes_of tapes.now tape }
{
    match tapes.get(tape) {
        Some(bytes) => bytes.as_slice(),
        None => &[],
    }
}

impl TapeTable {
    /// The tapes with these bytes, of which none is read. Tapes that are not given are empty, and more than 8 are left out. Takes
    /// no memory.
    pub fn new(tapes: Arc<Vec<Bytes>>) -> TapeTable
        ensures { result ≡ tapes_of tape_count tapes.value.items }
    {
        TapeTable {
            tapes,
            places: [0; TAPES],
        }
    }

    /// The same tapes, as far as they are read, with the same bytes shared. It takes no block of memory.
    pub fn try_clone(&self) -> Result<TapeTable, AllocError>
        ensures { IfOk result (λ copy. copy ≡ self.now) }
    {
        Ok(TapeTable {
            tapes: Arc::try_clone(&self.tapes)?,
            places: self.places,
        })
    }

    /// At most n bytes of a tape, from its place on: fewer where the tape ends before. None where there is no such tape.
    pub fn read(&self, tape: u32, n: usize) -> Option<&[u8]>
        ensures { option_map (λ bytes. bytes.now) result
            ≡ option_map (λ tape. take n (drop tape.place tape.bytes)) (slice_get self.now tape) }
    {
        let tape = tape as usize;
        let place = *self.places.get(tape)?;
        Some(part_of(bytes_of(self.tapes.as_slice(), tape), place, n))
    }

    /// A tape goes on by so many bytes, which were read. Takes no memory.
    pub fn advance(&mut self, read: TapeRead)
        requires { AreLeft self.old read }
        ensures { self.new ≡ read_by self.old (Some read) }
    {
        let tape = read.tape as usize;
        if tape < TAPES {
            let end = bytes_of(self.tapes.as_slice(), tape).len();
            let place = self.places[tape];
            prove!(read.count <= end.saturating_sub(place));
            self.places[tape] = place + read.count;
        }
    }
}
