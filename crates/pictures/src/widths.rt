//! How wide texts are. A viewer chooses the font, so these are the widths of a wide one, DejaVu Sans at 11 pixels, rounded up.
ghost use Rattle.std.specs.Prelude.{◌≤◌, length};

/// What stands at the end of a text that is cut.
pub const DOTS: &[u8] = b"..";

/// The width of a byte's character, in tenths of a pixel.
fn tenths_of(byte: u8) -> u32 {
    match byte {
        b' ' | b'.' | b',' | b':' | b';' | b'\'' | b'|' | b'/' | b'\\' | b'i' | b'j' | b'l' => 38,
        b'(' | b')' | b'[' | b']' | b'-' | b'!' | b'f' | b't' | b'r' => 46,
        b'c' | b'k' | b's' | b'v' | b'x' | b'y' | b'z' | b'_' | b'*' | b'?' => 65,
        b'm' | b'M' | b'W' | b'@' | b'%' => 110,
        b'w' | b'=' | b'+' | b'<' | b'>' | b'~' | b'#' | b'^' | b'&' => 92,
        b'A'..=b'Z' => 87,
        _ => 70,
    }
}

/// The width of a text in tenths of a pixel.
fn total_of(text: &[u8]) -> u32 {
    text.iter().fold(0u32, |width, byte| {
        width.saturating_add(tenths_of(*byte))
    })
}

/// The width of a text in pixels.
pub fn width_of(text: &[u8]) -> u32 {
    total_of(text).div_ceil(10)
}

/// How many bytes of a text are drawn where it has so many pixels of room: all of them, or as many as leave room for the dots.
pub fn fitting(text: &[u8], room: u32) -> usize
    ensures { result ≤ length text.now }
{
    if width_of(text) <= room {
        return text.len();
    }
    let room = room.saturating_mul(10);
    let mut width = total_of(DOTS);
    for (place, byte) in text.iter().enumerate() {
        width = width.saturating_add(tenths_of(*byte));
        if width > room {
            return place;
        }
    }
    text.len()
}
