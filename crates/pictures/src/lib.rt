//! Pictures of runs, as SVG text: when what may be seen. Read `Picture` first, then `draw`. Nothing here knows of a kernel.
//!
//! Texts are escaped, and read back as they were. Where lanes and rows stand, and how many are left out, is the definitions'.
#![tactic(auto)]

mod arrows;
mod changes;
mod columns;
mod cuts;
mod drawing;
mod elements;
mod escaping;
mod flights;
mod frame;
mod heights;
mod lanes;
mod notes;
mod outputs;
mod page;
mod picture;
mod rows;
mod widths;
mod window;

pub use drawing::draw;
pub use escaping::escaped;
pub use picture::{Arrow, Deed, Fate, FileChange, Flight, Output, Picture, Row};
pub use widths::width_of;
pub use window::MOST_ROWS;
