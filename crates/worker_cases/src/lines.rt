//! `play_cases`: plays the cases one after the other, and gives a line for each.
use crate::case::{Case, play};
use crate::{quanta, refusing};
use anyhow::{Error, bail};
use std::sync::Wait;
use std::thread::Threads;

/// Each case with its name.
const CASES: [(&str, Case); 8] = [
    ("two workers", Case::ByCrew),
    ("a worker held", Case::Gated),
    ("turns at a seat", Case::Turns),
    ("idle workers", Case::Idle),
    ("two turns that fail", Case::Faults),
    ("nine processes", Case::Nine),
    ("a process lent elsewhere", Case::Late),
    ("a desk", Case::Desk),
];

/// Plays all cases, and gives a line for each. Refused where a case ends early, with its name.
pub fn play_cases<R: AllocGlobal + Threads + Wait + Sync>(rt: &R) -> Result<String, Error> {
    let alloc = rt.alloc();
    let mut lines = String::new(alloc);
    for (name, case) in CASES {
        if !lines.is_empty() {
            lines.push_str("\n")?;
        }
        if let Err(fault) = play(rt, alloc, case, &mut lines) {
            bail!("{name}: {fault}");
        }
    }
    lines.push_str("\n")?;
    if let Err(fault) = quanta::play(rt, alloc, &mut lines) {
        bail!("a quantum: {fault}");
    }
    lines.push_str("\n")?;
    if let Err(fault) = refusing::play(rt, alloc, &mut lines) {
        bail!("a file that refuses a call: {fault}");
    }
    Ok(lines)
}
