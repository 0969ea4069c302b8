//! Cases of what stands below the core. Machines run to many limits, each run compared with as many single instructions. Their
//! programs are self-modifying code (`written_code`, `overwriting`), random ones (`random`), and images (`images`). And calls are
//! made once more where a growth is refused (`growths`). Each function gives a line that says what was tried, or an error that says
//! where the first difference is.
#![tactic(auto)]

mod growths;
mod images;
mod limits;
mod numbers;
mod overwriting;
mod programs;
mod random;
mod replies;
mod written_code;

pub use growths::check_growths;
pub use images::check_image;
pub use random::check_random_programs;
pub use written_code::check_written_code;
