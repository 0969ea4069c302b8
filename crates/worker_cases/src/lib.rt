//! Runs of one, two or eight programs by workers: at the seats of a pool in threads of their own, by turns at one desk, or to their
//! ends. A line says what each run comes to, also where a durable run has a file that refuses a call. Read `case` first. The lines
//! are the same whatever the schedule: how the workers take turns shows in none.
#![tactic(auto)]

mod by_crew;
mod case;
mod desk;
mod fault;
mod faults;
mod gated;
mod gates;
mod late;
mod lines;
mod looks;
mod nine;
mod programs;
mod quanta;
mod refusing;
mod stranger;
mod turns;
mod two_workers;
mod workers;

pub use lines::play_cases;
