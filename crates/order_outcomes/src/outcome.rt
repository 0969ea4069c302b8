//! What a run comes to where no process can go on, as one line.
use crash_outcomes::are_listed;
use input_reading::{decimal, printed_decimal};

/// What a run came to.
#[derive(PartialEq, Eq, PartialOrd, Ord, Drop)]
pub struct Outcome {
    pub text: String,
    /// The processes whose calls lead there.
    pub calls: Vec<u32>,
    /// Whether a process ran as far as it may, and came to no call.
    pub runs_on: bool,
}

/// Whether a process runs on in an outcome.
pub fn runs_on_in(text: &str) -> bool {
    match text.split_once(" shown ") {
        Some((ends, _rest)) => ends.split_once(":runs").is_some(),
        None => false,
    }
}

/// Whether a word says how a process stands.
fn is_standing(word: &str) -> bool {
    match word.strip_prefix("waits-pipe-") {
        Some(pipe) => printed_decimal(pipe).is_some(),
        None => word == "waits-child" || word == "runs" || printed_decimal(word).is_some(),
    }
}

/// Whether words are P:END, for process 1 and up.
fn are_ends(words: &str) -> bool {
    let mut process = 0u64;
    for word in words.split(' ') {
        process = process.saturating_add(1);
        match word.split_once(':') {
            Some((number, end)) if decimal(number) == Some(process) && is_standing(end) => {}
            _ => return false,
        }
    }
    true
}

/// Whether bytes are digits of as many bytes as half of them are.
fn are_digits(digits: &str) -> bool {
    !digits.is_empty()
        && digits.len() % 2 == 0
        && digits
            .bytes()
            .all(|byte| matches!(byte, b'0'..=b'9' | b'a'..=b'f'))
}

/// Whether a word is T:BYTES.
fn is_text(word: &str) -> bool {
    match word.split_once(':') {
        Some((terminal, digits)) => {
            matches!(terminal.as_bytes(), [b'0'..=b'7']) && are_digits(digits)
        }
        None => false,
    }
}

/// Whether a line has the form of an outcome, as `explored_runs` writes it.
pub fn is_outcome(line: &str) -> bool {
    let Some(line) = line.strip_prefix("ends ") else {
        return false;
    };
    let Some((ends, rest)) = line.split_once(" shown ") else {
        return false;
    };
    match rest.split_once(" files ") {
        Some((texts, files)) => {
            are_ends(ends) && (texts == "-" || texts.split(' ').all(is_text)) && are_listed(files)
        }
        None => false,
    }
}
