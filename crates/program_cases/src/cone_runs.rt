//! Further runs from the boot of a script, as that of a cone. Their cores are looked at by running them (`TestCore`).
use anyhow::Error;
use core_cases::TestCore;
use kernel::Event;
use scripts::LastBoot;

/// A run before its first event.
pub fn boot_run(boot: &LastBoot<'_>) -> Result<TestCore, Error> {
    Ok(TestCore::of(boot.boot()?))
}

/// A run after these events, each of which it has to accept.
pub fn run_after(boot: &LastBoot<'_>, events: &[Event]) -> Result<TestCore, Error> {
    let mut run = boot_run(boot)?;
    for event in events {
        run.apply_once(*event)?;
    }
    Ok(run)
}
