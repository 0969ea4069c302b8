//! Tests of `source_checks`: the forms of its table assemble, and what it writes in place of the words of other assemblers.
use source_checks::{Cure, FOREIGN, FORMS, REGISTERS, check, form_of, print_checked};
use std::alloc::{AllocError, Global};
use std::process::Abort;
use std::test::Fail;

/// What a word of a form stands for, by an example.
fn example_of(word: &str) -> &str {
    match word {
        "" => "",
        "number" | ".." => "1",
        "target" | "label" => "_start",
        "\"text\"" => "\"text\"",
        _ => "a0",
    }
}

fn is_mark(c: char) -> bool {
    matches!(c, ',' | '(' | ')')
}

/// An example of a statement: the marks of its operands as they stand, and something for each of their words.
fn example(alloc: Global, name: &str, operands: &str) -> Result<String, AllocError> {
    let mut text = format!(in alloc; "{name} ")?;
    let mut rest = operands;
    for _ in 0..operands.len() {
        let (word, _) = rest.split_once(is_mark).unwrap_or((rest, ""));
        text.push_str(example_of(word))?;
        rest = rest.get(word.len()..).unwrap_or("");
        let (mark, after) = rest.split_at_checked(1).unwrap_or(("", ""));
        text.push_str(mark)?;
        rest = after;
    }
    Ok(text)
}

/// What is printed of a source that is checked.
fn printed(alloc: Global, source: &str) -> Result<String, Fail> {
    let checked = check(alloc, source)?;
    let mut out = Vec::new(alloc);
    print_checked(alloc, "it.s", source, &checked, &mut out)?;
    Ok(String::from_utf8(out).map_err(|_| Fail::from("no text"))?)
}

/// What is printed of a source with a statement: of one that begins with a dot in data.
fn printed_with(alloc: Global, statement: &str) -> Result<String, Fail> {
    let source = if statement.starts_with('.') {
        format!(in alloc; "_start: ret\n.data\n{statement}\n")?
    } else {
        format!(in alloc; "_start: ret\n.data\n.text\n{statement}\nret\n")?
    };
    printed(alloc, source.as_str())
}

/// No fault is found where a statement stands.
fn assert_sound(rt: &(impl Abort + AllocGlobal), statement: &str) -> Result<(), Fail> {
    let came = printed_with(rt.alloc(), statement)?;
    assert_eq!(rt; came.as_str(), "no fault found\n", "{statement}");
    Ok(())
}

#[test]
fn each_form_has_an_example_that_assembles(rt: HostRuntime) -> Result<(), Fail> {
    for (names, operands) in &FORMS {
        for name in names.split(' ') {
            let example = example(rt.alloc(), name, *operands)?;
            assert_sound(&rt, example.as_str())?;
        }
    }
    Ok(())
}

#[test]
fn each_register_is_there(rt: HostRuntime) -> Result<(), Fail> {
    for name in &REGISTERS {
        let statement = format!(in rt.alloc(); "mv {name},{name}")?;
        assert_sound(&rt, statement.as_str())?;
    }
    Ok(())
}

/// Operands for a word of another assembler, if another statement is written in its place.
fn operands_for(cure: Cure) -> Option<&'static str> {
    match cure {
        Cure::Word(word, _) => form_of(word, 0),
        Cure::Alone(_) => Some(""),
        Cure::ZeroEnded => Some("\"text\""),
        Cure::Halves | Cure::Doubles => Some("number,number"),
        Cure::Section => Some("text"),
        Cure::Nothing(_) | Cure::Said(_) => None,
    }
}

#[test]
fn what_is_written_in_place_of_each_foreign_word_assembles(rt: HostRuntime) -> Result<(), Fail> {
    let alloc = rt.alloc();
    for (names, cure) in &FOREIGN {
        for name in names.split(' ') {
            let Some(operands) = operands_for(*cure) else {
                continue;
            };
            let foreign = example(alloc, name, operands)?;
            let came = printed_with(alloc, foreign.as_str())?;
            let (_, instead) = came.as_str().split_once("\nwrite | ").unwrap_or(("", ""));
            let (instead, _) = instead.split_once('\n').unwrap_or(("none", ""));
            assert_sound(&rt, instead)?;
        }
    }
    Ok(())
}
