//! Who stands at a sync, which ends what a crash may leave by other rules of commits than bench's.
use call_forms::Call;
use call_lines::call_at;
use kernel::Core;

/// Whether a process stands at a sync, which it is to make.
pub fn stands_at_sync(core: &Core, pid: u32) -> bool {
    match core.machine(pid) {
        Ok(machine) => call_at(machine) == Some(Call::Sync),
        Err(_) => false,
    }
}
