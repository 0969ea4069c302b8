//! Laws of files.
ghost use Rattle.elf32.specs.Files.{RoundTrips};
ghost use Rattle.elf32.specs.Sound.{SoundFiles};

/// A law: the file of a program that keeps the profile has no fault, and names that program. So `parse` reads what `write` writes,
/// memory aside.
pub fn round_trips()
    ensures { RoundTrips }
{}

/// A law: a file has no fault exactly where it may be loaded, and then `parse` reads it, memory aside. Its headers are those of
/// such a file, each of its segments may be loaded, and they have no page in common.
pub fn sound_files()
    ensures { SoundFiles }
{}
