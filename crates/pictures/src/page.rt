//! Where everything stands on a picture.
ghost use Rattle.std.specs.Prelude.{◌+◌, ◌≤◌, vec_len, IfOk};

use crate::columns::{Columns, columns_of};
use crate::picture::Picture;
use crate::window::{Window, window_of};
use std::alloc::{AllocError, Global};

/// The rows that are drawn, and where the columns stand.
pub struct Page {
    pub window: Window,
    pub columns: Columns,
}

impl Drop for Page {
    fn drop(self) {
        let Page {
            window: _,
            columns: _columns,
        } = self;
    }
}

/// The page that a picture takes.
pub fn page_of(alloc: Global, picture: &Picture) -> Result<Page, AllocError>
    ensures { IfOk result (λ page. page.window.first + page.window.count ≤ vec_len picture.now.rows) }
{
    let window = window_of(picture.rows.len(), picture.focus);
    let columns = columns_of(alloc, picture, &window)?;
    Ok(Page { window, columns })
}
