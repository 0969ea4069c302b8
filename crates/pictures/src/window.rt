//! Which rows are drawn.
ghost use Rattle.std.specs.Prelude.{◌≡◌, ◌+◌, ◌<◌, ◌≤◌, ◌⊎◌, min, length, IfSome, IfNone};

use crate::picture::Row;

/// The most rows that a picture has.
pub const MOST_ROWS: usize = 400;

/// The rows that are drawn: so many from the first on.
#[derive(Clone, Copy)]
pub struct Window {
    pub first: usize,
    pub count: usize,
    ghost few: { count ≤ 400 },
}

/// The first rows, or as many that end with the one that is to be drawn in any case.
pub fn window_of(rows: usize, focus: usize) -> Window
    ensures count { result.count ≡ min rows 400 }
    ensures within { result.first + result.count ≤ rows }
    ensures begins { focus < 400 → result.first ≡ 0 }
    ensures focus { focus < rows → (result.first ≤ focus) × (focus < result.first + result.count) }
{
    let count = rows.min(MOST_ROWS);
    if focus < count {
        return Window { first: 0, count };
    }
    Window {
        first: (focus - count).saturating_add(1).min(rows - count),
        count,
    }
}

impl Window {
    /// The place of a row among those that are drawn.
    pub fn place_of(&self, row: usize) -> Option<usize>
        ensures place { IfSome result (λ place. (row ≡ self.now.first + place) × (place < self.now.count)) }
        ensures none { IfNone result ((row < self.now.first) ⊎ (self.now.first + self.now.count ≤ row)) }
    {
        if row < self.first || row - self.first >= self.count {
            return None;
        }
        Some(row - self.first)
    }

    /// The rows that are drawn, of all.
    pub fn of<'a>(&self, rows: &'a [Row]) -> &'a [Row]
        requires { self.now.first + self.now.count ≤ length rows.now }
        ensures { length result.now ≡ self.now.count }
    {
        &rows[self.first..self.first + self.count]
    }
}
