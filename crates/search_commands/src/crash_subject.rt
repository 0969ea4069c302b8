//! What `crashes` runs: a script, or programs.
use crash_points::Course;
use exec_reports::Family;
use run_files::Subject;
use scripts::Launch;
use std::alloc::{AllocError, Global};

/// What is run, and how, with what is known of its instructions.
#[derive(Drop)]
pub struct CrashSubject {
    pub launch: Launch,
    pub course: Course,
    pub family: Family,
}

impl CrashSubject {
    /// A script, by its steps; programs, or set-up lines alone, to the end, or to the limit.
    pub fn new(alloc: Global, subject: Subject, limit: u64) -> Result<CrashSubject, AllocError> {
        let Subject {
            launch,
            steps,
            programs,
        } = subject;
        let family = Family::new(alloc, programs, launch.programs().len())?;
        let course = if steps.is_empty() {
            Course::ToEnd { limit }
        } else {
            Course::Steps(steps)
        };
        Ok(CrashSubject {
            launch,
            course,
            family,
        })
    }
}
