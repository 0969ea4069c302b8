//! The files since the last sync, where a search keeps them: by other rules than bench's a crash leaves what they allow.
use crash_lists::Window;
use kernel::Core;
use std::alloc::{AllocError, Global};

/// The window of a core that was just booted, if windows are kept.
pub fn first_window(alloc: Global, core: &Core, keeps: bool) -> Result<Option<Window>, AllocError> {
    if !keeps {
        return Ok(None);
    }
    let files = core.tables().files;
    Ok(Some(Window::new(alloc, core.changes(), files)?))
}

/// The same window once more, if there is one.
pub fn copy_of(alloc: Global, window: &Option<Window>) -> Result<Option<Window>, AllocError> {
    match window {
        Some(window) => Ok(Some(window.try_clone(alloc)?)),
        None => Ok(None),
    }
}

/// Notes a call that was just made, if windows are kept: a sync begins one, and another call may have changed files.
pub fn note_call(
    window: &mut Option<Window>,
    core: &Core,
    is_sync: bool,
) -> Result<(), AllocError> {
    let (changes, files) = (core.changes(), core.tables().files);
    match window {
        Some(window) => {
            if is_sync {
                window.begin_anew(changes, files)
            } else {
                window.note(changes, files)
            }
        }
        None => Ok(()),
    }
}
