//! The names of registers.
use crate::words::printed_decimal;
use formats::Reg;
use std::fmt::{self, Write};

/// The register of a name such as `x10`.
pub fn numbered_register(name: &str) -> Option<Reg> {
    match printed_decimal(name.strip_prefix("x")?) {
        Some(number) if number < 32 => Some(Reg::new(number as u8)),
        _ => None,
    }
}

/// The end of a word that was not written yet. None if something else was written.
#[derive(Clone, Copy)]
struct Unwritten<'a>(Option<&'a str>);

impl Write for Unwritten<'_> {
    fn write_str(&mut self, text: &str) -> fmt::Result {
        self.0 = self.0.and_then(|word| word.strip_prefix(text));
        Ok(())
    }
}

fn has_name(register: Reg, word: &str) -> bool {
    let mut unwritten = Unwritten(Some(word));
    unwritten.write(register).is_ok() && unwritten.0 == Some("")
}

/// The register of a name: the ABI name, as `a0`; `fp` for x8; or a numbered one.
pub fn register_named(word: &str) -> Option<Reg> {
    if word == "fp" {
        return Some(Reg::new(8));
    }
    for number in 0..32 {
        let register = Reg::new(number);
        if has_name(register, word) {
            return Some(register);
        }
    }
    numbered_register(word)
}
