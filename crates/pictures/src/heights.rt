//! Where the rows that are drawn stand, in pixels from the top.
ghost use Rattle.std.specs.Prelude.{◌≡◌, ◌≤◌};
ghost use Rattle.pictures.specs.Rows.{row_top, rows_end, below};

use crate::window::Window;

/// Where the first row begins, in pixels from the top.
pub const TOP: u32 = 92;

/// The height of a row in pixels.
pub const ROW_HEIGHT: u32 = 34;

/// Where the drawn row at this place begins.
pub fn top_of(place: usize) -> u32
    requires { place ≤ 400 }
    ensures { result ≡ row_top place }
{
    TOP + ROW_HEIGHT * place as u32
}

impl Window {
    /// Where the rows end.
    pub fn end(&self) -> u32
        ensures { result ≡ rows_end self.now }
    {
        top_of(self.count)
    }

    /// So many pixels below the top of a row, or the end of the rows where that one is not drawn.
    pub fn below(&self, row: usize, pixels: u32) -> u32
        requires { pixels ≤ 34 }
        ensures { result ≡ below self.now row pixels }
    {
        match self.place_of(row) {
            Some(place) => top_of(place) + pixels,
            None => self.end(),
        }
    }
}
