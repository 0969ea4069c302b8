//! A thread pool with work stealing, over one core. Read `Pool`, and then `Seat`. Each worker has a deque of loans, from which the
//! others steal. What goes into a deque comes out once or is still there (`Balanced`).
//!
//! The threads of `pool_crew` call `Seat::turn_on`: a worker takes its loan's result back, and its process goes on. At a seat without
//! a crew there is `Seat::turn`, or `fetch` and `hand_in`: results lie in one queue, with the same rule, until a worker that has the
//! lock settles them.
#![tactic(auto)]

mod crewing;
mod deques;
mod fault;
mod fetching;
mod going_on;
mod hand;
mod loans;
mod locking;
mod pools;
mod results;
mod seating;
mod seats;
mod settling;
mod told;
mod turning;

pub use crewing::pool_crew;
pub use fault::CrewFault;
pub use hand::Hand;
pub use pools::Pool;
pub use seats::Seat;
pub use settling::Settling;
pub use told::Told;
pub use turning::Pooled;
