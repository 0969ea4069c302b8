//! The pipes of all processes: what each holds, in a ring, and how many descriptors stand for its ends. Read `PipeTable` first:
//! each step is exact on what the pipes hold, and no step but `open` takes memory. The law `steps_are_shown` joins that to all bytes
//! ever written and read.
#![tactic(auto)]

mod laws;
mod pipe;
mod table;

pub use kernel_model::PipeEnd;
pub use laws::{ends_grow_by_one, steps_are_shown};
pub use pipe::{PIPE_SIZE, Pipe};
pub use table::{MOST_PIPES, PipeTable};
