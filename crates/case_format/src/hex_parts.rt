//! Bytes in hexadecimal, in parts: `41+00*3` stands for 41 and three zeros.
use crate::lines::push_texts;
use anyhow::Error;
use std::alloc::AllocError;

/// A text, and how many times it stands there, as `TEXT*TIMES` or `TEXT` says.
pub fn repeated(part: &str) -> Result<(&str, u32), Error> {
    match part.split_once('*') {
        Some((text, times)) => Ok((text, times.parse::<u32>()?)),
        None => Ok((part, 1)),
    }
}

fn push_times(out: &mut String, digits: &str, times: u32) -> Result<(), AllocError> {
    for _ in 0..times {
        out.push_str(digits)?;
    }
    Ok(())
}

/// Adds the digits of parts, each as many times as it says.
pub fn push_parts(out: &mut String, parts: &str) -> Result<(), Error> {
    for part in parts.split('+') {
        let (digits, times) = repeated(part)?;
        push_times(out, digits, times)?;
    }
    Ok(())
}

/// Adds a line of texts and the digits of parts.
pub fn push_parts_line(out: &mut String, texts: &[&str], parts: &str) -> Result<(), Error> {
    push_texts(out, texts)?;
    push_parts(out, parts)?;
    push_texts(out, &["\n"])
}
