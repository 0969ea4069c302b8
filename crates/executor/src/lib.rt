//! Runs a core to its end: worker threads, a thread that commits, and a console for one of its terminals, or for all. Read `Run`
//! first, and then `pool` and `run_threads`, whose threads it starts. Only safety is proved of it.
#![tactic(auto)]

mod run;
mod settings;

pub use run::Run;
pub use run_threads::RunFault;
pub use settings::Settings;
