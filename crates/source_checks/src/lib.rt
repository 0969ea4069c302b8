//! What is said of a source to whoever writes it: of each fault the line, the place and what would cure it, and of one that assembles
//! what hardly does what is meant. Read `check` first, then `faults` and `print_checked`, and `advice` for the one line of a fault. The
//! fault of a check is the source's first one, or it assembles to the image and the listing that are given. `faults` has all, in the
//! order of lines; which there are beside the first, and what is said of them, is tested.
#![tactic(auto)]

mod checking;
mod doubt;
mod foreign;
mod forms;
mod gathering;
mod line_faults;
mod meanings;
mod nearest;
mod place;
mod pointing;
mod printing;
mod registers;
mod rewriting;
mod saying;
mod source;
mod statements;
mod syntax;
mod telling;
mod wanted;
mod warnings;

pub use checking::{Checked, check};
pub use foreign::{Cure, FOREIGN};
pub use forms::{FORMS, Form, form_of};
pub use gathering::faults;
pub use printing::print_checked;
pub use registers::REGISTERS;
pub use saying::advice;
pub use warnings::Warning;
