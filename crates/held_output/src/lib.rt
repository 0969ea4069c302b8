//! Output that is held back (buffered) until the changes on which it rests are committed. Read `Withheld` first: items in order,
//! each with the mark of its event, of which the longest committed prefix is released. `Trace` is what one process is told.
#![tactic(auto)]

mod marks;
mod replies;
mod trace;
mod withheld;

pub use trace::Trace;
pub use withheld::Withheld;
