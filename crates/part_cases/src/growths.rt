//! Makes calls in which the host may refuse memory: those that make an image and a machine (`images`), the debugger's
//! (`debugging`), and the dependencies' (`marks`). A call that is refused for want of memory is made once more, and has to come to
//! what it comes to where nothing is refused. Between the two calls, what is seen of a debugger or of the marks has to be as before
//! the first; a run keeps the steps that it did. `tools/refused-growths.py` refuses the growths of memory. Where none is refused,
//! each call is made once.
mod debugging;
mod images;
mod marks;

use anyhow::Error;
use std::alloc::Global;

/// Makes all these calls, and gives a line that says what was tried.
pub fn check_growths(alloc: Global) -> Result<String, Error> {
    images::check_image(alloc)?;
    debugging::check_debugger(alloc)?;
    marks::check_marks(alloc)?;
    Ok(String::from_str(alloc, "an image, two debuggers and five events")?)
}
