//! A program's run, which `debug` and `gdb` move: forwards and back, up to breakpoints and watches. A trace answers the program's calls,
//! or a kernel does. Read `Timeline` first, then `Timeline::ahead`. What `changes` finds is proved; of all else only safety is.
#![tactic(auto)]

mod ahead;
mod back;
mod changes;
mod fault;
mod live;
mod location;
mod points;
mod stop;
mod timeline;

pub use ahead::{After, Way};
pub use changes::{back_by, last_change};
pub use fault::SessionFault;
pub use live::LiveKernel;
pub use location::{Location, read_held};
pub use points::{Follower, SetPoint};
pub use stop::{End, Stop};
pub use timeline::{Origin, Timeline};
