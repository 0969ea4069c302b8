//! Rules of commits.

/// A rule of what a crash may leave, weaker from one to the next. `crash_models` defines each by its name.
#[derive(Clone, Copy, PartialEq, Eq)]
pub enum CrashModel {
    /// Names and lengths are as at one moment.
    Ordered,
    /// Names are as at one moment, each length as at a moment of its own up to that.
    Delayed,
    /// Each name, each length and each 512 bytes are as at a moment of their own.
    Posix,
}
