//! A run of programs that is replayed, call by call, on a core that was booted, and the key that tells it from others.
//!
//! Read `Replay` first. It does calls by `core_calls`, each with the instructions up to the next one, and `private` finds those that nobody
//! else can tell when they are made. Beside its core it keeps what the core forgets: what was written to pipes (`pipe_texts`), which replies
//! came (`reply_sums`), and the files since the last sync (`windows`), if they are wanted. `key_of` makes its key of all that.
#![tactic(auto)]

mod core_calls;
mod pipe_texts;
mod private;
mod replay;
mod reply_sums;
mod state_key;
mod windows;

pub use replay::{Called, Replay};
pub use state_key::key_of;
