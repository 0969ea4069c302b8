//! What is said of a line that has no form.
use crate::foreign::cure_of;
use crate::forms::{is_known, names, written};
use crate::nearest::near;
use crate::place::{BYTE_ORDER_MARK, Place, begins_word, first_of};
use crate::pointing::push_char;
use crate::registers::{REGISTERS, is_register};
use crate::rewriting::quoted_number;
use crate::source::Source;
use crate::statements::tokens_of;
use crate::wanted::{form_at, wanted_after};
use std::alloc::{AllocError, Global};

/// What a number is.
const NUMBERS: &str =
    "a number is decimal, or hexadecimal after 0x, from -2147483648 to 4294967295";

/// What a string is.
const STRINGS: &str =
    "a string ends with \" on its line; it holds ASCII, and \\n \\t \\0 \\\\ \\\" for bytes";

/// What a sum is.
const SUMS: &str =
    "a number is added to a label alone, directly after it, as label+8; any other sum is written as its number";

/// What is said of a sum after `la`.
const LABEL_ALONE: &str = "la takes a label alone; addi adds a number to the register then";

/// What is said of a computation.
const COMPUTED: &str = "nothing is computed here: write the number itself";

/// What is said of a number that is repeated, as in `.word 0:10`.
const REPEATED: &str =
    "no number is repeated by a colon: .space makes zeros, and all others are written out";

/// What is said of an operand of `.text` and `.data`.
const SECTIONS: &str = "no operand follows it: text begins at 00010000, and data on the next page";

/// What is said of files that some editors write.
const CR_LF: &str =
    "lines have to end with LF (this one ends with CR LF): tr -d '\\r' <OLD >NEW, or the editor's setting";

const CR: &str =
    "lines have to end with LF (this one ends with CR): tr '\\r' '\\n' <OLD >NEW, or the editor's setting";

const MARKED: &str =
    "the file begins with a byte order mark (ef bb bf): tail -c +4 OLD >NEW, or the editor's setting";

/// The most bytes that a word has.
const LONGEST_WORD: usize = 64;

fn begins_number(word: &str) -> bool {
    word.starts_with(|c: char| c.is_ascii_digit() || c == '-')
}

/// Whether it names a label that is a number, as `1b` and `1f` of other assemblers do.
fn is_numbered_label(word: &str) -> bool {
    match word.strip_suffix(|c: char| c == 'b' || c == 'f') {
        Some(digits) => !digits.is_empty() && digits.bytes().all(|byte| byte.is_ascii_digit()),
        None => false,
    }
}

/// What is said of a line's end that is another one, and of the mark at a file's start.
fn file_advice(place: &Place<'_>) -> Option<&'static str> {
    match place.rest.chars().next()? {
        BYTE_ORDER_MARK => Some(MARKED),
        '\r' if place.rest.len() == 1 => Some(CR_LF),
        '\r' => Some(CR),
        _ => None,
    }
}

/// What is said of what begins no word, number, string or mark at all; None where something begins.
fn shape_advice(alloc: Global, place: &Place<'_>) -> Result<Option<String>, AllocError> {
    let found = place.found;
    let Some(c) = found.chars().next() else {
        return Ok(None);
    };
    let is_no_number = begins_number(found) && tokens_of(alloc, found)?.is_err();
    let said = match c {
        '\'' => return Ok(Some(character_advice(alloc, place.rest)?)),
        '%' => "%hi and %lo are not there; la rd,label puts the address of a label into a register",
        '/' | ';' => "a comment begins with #, and each statement has a line of its own",
        '*' | '=' | '<' | '>' | '&' | '|' | '^' | '~' | '!' => COMPUTED,
        '+' if place.name == "la" => LABEL_ALONE,
        '+' => SUMS,
        '$' => "a register is written without $, as a0",
        '"' if place.name == ".ascii" => STRINGS,
        c if !c.is_ascii() => "outside comments all is ASCII",
        _ if is_numbered_label(found) => {
            return Ok(Some(format!(in alloc;
                "{found} goes to a label that is a number; labels are names, as in again: and j again"
            )?));
        }
        _ if is_no_number => NUMBERS,
        _ if found.len() > LONGEST_WORD => "a word has at most 64 letters",
        c if is_stray(c) => {
            let mut text = String::new(alloc);
            push_char(&mut text, c)?;
            text.push_str(" stands nowhere in a source, outside comments")?;
            return Ok(Some(text));
        }
        _ => return Ok(None),
    };
    Ok(Some(String::from_str(alloc, said)?))
}

/// Whether a character begins nothing that a source has outside comments.
fn is_stray(c: char) -> bool {
    !c.is_ascii_alphanumeric() && !matches!(c, '_' | '.' | '-' | '"' | ',' | ':' | '(' | ')' | '#')
}

fn character_advice(alloc: Global, rest: &str) -> Result<String, AllocError> {
    let mut text = String::from_str(alloc, "a character is written as its number")?;
    if let Some((quoted, number)) = quoted_number(rest) {
        write!(text, ": {quoted} is {number}")?;
    }
    Ok(text)
}

/// What is said of a directive that is not there, or not there in text.
fn directive_advice(alloc: Global, name: &str) -> Result<String, AllocError> {
    if is_known(name) {
        return format!(in alloc; "{name} stands in .data alone");
    }
    match near(alloc, name, names(alloc, true)?.as_slice())? {
        Some(near) => format!(in alloc; "{name} is not known here; is it {near}?"),
        None => format!(in alloc;
            "{name} is not known here; there are .text .data .word .byte .ascii .space"
        ),
    }
}

/// What is said of the name of a statement.
fn name_advice(
    alloc: Global,
    source: &Source<'_>,
    place: &Place<'_>,
) -> Result<String, AllocError> {
    let name = place.name;
    if name.starts_with('.') {
        return directive_advice(alloc, name);
    }
    let mut text = format!(in alloc; "{name} is no instruction")?;
    let small = name.to_ascii_lowercase(alloc)?;
    if name.contains('.') && name != "fence.i" {
        text.push_str("; a label has letters, digits and _ alone")?;
    } else if is_known(small.as_str()) {
        write!(text, "; in small letters it is {small}")?;
    } else if source.has(name) {
        write!(text, ", but a label; j {name} goes there")?;
    } else {
        if let Some(near) = near(alloc, name, names(alloc, false)?.as_slice())? {
            let written = written(alloc, near)?;
            write!(text, "; is it {near}? {written}")?;
        }
        if place.code.trim_ascii() == name {
            write!(text, "; a label has a colon: {name}:")?;
        }
    }
    Ok(text)
}

/// What is said where a register is wanted.
fn register_advice(alloc: Global, place: &Place<'_>) -> Result<String, AllocError> {
    let (name, found) = (place.name, place.found);
    let mut text = format!(in alloc; "{found} is no register")?;
    let immediate = format!(in alloc; "{name}i")?;
    if !begins_number(found) {
        if let Some(near) = near(alloc, found, &REGISTERS)? {
            write!(text, "; is it {near}?")?;
        }
    } else if is_known(immediate.as_str()) {
        write!(text, "; {immediate} takes a number")?;
    } else {
        text.push_str(match found {
            _ if name == "sub" => "; addi takes a number, negated to subtract it",
            "0" => "; the register zero is 0",
            _ => "; li puts a number into one",
        })?;
    }
    Ok(text)
}

/// What is said of what stands in the place of the number before `(rs1)`, if it shows what is meant.
fn offset_advice(
    alloc: Global,
    wanted: &str,
    name: &str,
    found: &str,
) -> Result<Option<String>, AllocError> {
    if !wanted.ends_with("(rs1)") {
        return Ok(None);
    }
    if found == "(" {
        let text = String::from_str(alloc, "a number stands before (: 0(rs1)")?;
        return Ok(Some(text));
    }
    if is_register(found) {
        let text = format!(in alloc; "a number stands before the register: 0({found})")?;
        return Ok(Some(text));
    }
    if found.starts_with(begins_word) {
        let text = format!(in alloc;
            "for what stands at a label la rd,{found} first, then {name} with 0(rd)"
        )?;
        return Ok(Some(text));
    }
    Ok(None)
}

/// What is said of what is no number.
fn no_number_advice(
    alloc: Global,
    source: &Source<'_>,
    name: &str,
    found: &str,
) -> Result<String, AllocError> {
    let plain = name.strip_suffix('i').unwrap_or("");
    let mut text = format!(in alloc; "{found} is no number")?;
    if is_register(found) && name == "li" {
        text.push_str("; mv copies a register")?;
    } else if is_register(found) && is_known(plain) {
        write!(text, "; {plain} takes a register")?;
    } else if source.has(found) {
        write!(
            text,
            "; la rd,{found} puts the address of a label into a register"
        )?;
    } else if let Some((line, number)) = source.named_number(found) {
        write!(text, "; write {number}, by line {line}")?;
    } else if found.starts_with(begins_word) && !is_register(found) {
        text.push_str("; numbers have no names here")?;
    }
    Ok(text)
}

/// What is said where a number is wanted.
fn number_advice(
    alloc: Global,
    source: &Source<'_>,
    wanted: &str,
    place: &Place<'_>,
) -> Result<String, AllocError> {
    match offset_advice(alloc, wanted, place.name, place.found)? {
        Some(text) => Ok(text),
        None => no_number_advice(alloc, source, place.name, place.found),
    }
}

/// What is said of a label with a dot in it: with `_` for each dot inside it may be one.
fn dotted_advice(alloc: Global, found: &str) -> Result<String, AllocError> {
    let mut text = String::from_str(alloc, "a label has letters, digits and _ alone, as ")?;
    for c in found.trim_start_matches('.').chars() {
        text.push(if c == '.' { '_' } else { c })?;
    }
    Ok(text)
}

/// What is said where a label or a target is wanted.
fn label_advice(alloc: Global, place: &Place<'_>) -> Result<String, AllocError> {
    let found = place.found;
    if place.name == "la" && begins_number(found) {
        return format!(in alloc; "{found} is no label; li puts a number into a register");
    }
    if found.contains('.') {
        return dotted_advice(alloc, found);
    }
    format!(in alloc; "{found} is no label")
}

/// What is said where the form has ended.
fn end_advice(alloc: Global, name: &str, found: &str) -> Result<String, AllocError> {
    let said = match name {
        ".text" | ".data" => SECTIONS,
        "la" if found.starts_with('-') => LABEL_ALONE,
        _ if found.starts_with('-') => COMPUTED,
        _ => return format!(in alloc; "nothing stands after it, and {found} does"),
    };
    String::from_str(alloc, said)
}

fn is_mark(found: &str) -> bool {
    matches!(found, "," | "(" | ")" | ":")
}

/// What is said of a mark that is missing.
fn missing_advice(alloc: Global, missing: &str, found: &str) -> Result<String, AllocError> {
    format!(in alloc; "{missing} is missing before {found}")
}

/// What is said where the line ends and the form does not.
fn short_advice(alloc: Global, wanted: &str) -> Result<String, AllocError> {
    let missing = wanted.trim_end_matches(",..");
    format!(in alloc; "here the line ends, and {missing} is missing")
}

/// What is said of an operand, by what the form wants in its place.
fn operand_advice(
    alloc: Global,
    source: &Source<'_>,
    wanted: &str,
    place: &Place<'_>,
) -> Result<String, AllocError> {
    let is_mark = is_mark(place.found);
    match first_of(wanted).0 {
        _ if place.found.is_empty() => short_advice(alloc, wanted),
        "" if !matches!(place.name, "jal" | "jalr") || is_mark => {
            end_advice(alloc, place.name, place.found)
        }
        "" | "," if !is_mark => missing_advice(alloc, "a comma", place.found),
        "," if place.found == ":" => String::from_str(alloc, REPEATED),
        "," => missing_advice(alloc, ",", place.found),
        "(" => missing_advice(alloc, "(", place.found),
        ")" => missing_advice(alloc, ")", place.found),
        "number" => number_advice(alloc, source, wanted, place),
        "target" | "label" => label_advice(alloc, place),
        "\"text\"" => String::from_str(alloc, STRINGS),
        _ => register_advice(alloc, place),
    }
}

/// What is said of a line that begins with no name, or whose label is none.
fn start_advice(alloc: Global, found: &str) -> Result<String, AllocError> {
    if found.len() > 1 && found.contains('.') {
        return dotted_advice(alloc, found);
    }
    let mut text = String::from_str(
        alloc,
        "a line has a label and a statement, each by its name, and not ",
    )?;
    for c in found.chars() {
        push_char(&mut text, c)?;
    }
    if begins_number(found) {
        text.push_str("; labels are names, and no numbers")?;
    }
    Ok(text)
}

/// What is said of a line that has no form, at the place where it has none.
pub fn syntax_advice(
    alloc: Global,
    source: &Source<'_>,
    place: &Place<'_>,
) -> Result<String, AllocError> {
    let name = place.name;
    if let Some(said) = file_advice(place) {
        return String::from_str(alloc, said);
    }
    let is_before = place.operands.is_none() && place.found != name;
    if !is_before && let Some(cure) = cure_of(name) {
        return format!(in alloc; "{name} is not known here: {cure}");
    }
    if let Some(text) = shape_advice(alloc, place)? {
        return Ok(text);
    }
    if is_before || name.is_empty() {
        return start_advice(alloc, place.found);
    }
    match (form_at(place), place.operands) {
        (Some(form), Some(before)) => {
            let said = operand_advice(alloc, source, wanted_after(form, before), place)?;
            format!(in alloc; "{}; {said}", written(alloc, name)?)
        }
        _ => name_advice(alloc, source, place),
    }
}
