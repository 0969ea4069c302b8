//! Tests the words of a command by its row of the table, and says what is wrong first.
use crate::options::TapePaths;
use crate::rows::{Argument, Row, Text};
use clap::ArgMatches;
use clap::parser::ValueSource;
use std::fmt;

/// What is wrong. It prints as that.
#[derive(Clone, Copy)]
pub enum Broken<'a> {
    /// An option, and its value, which its line does not allow.
    Value(Argument, &'a str),
    TapeTwice(usize),
    TwoInputs,
    InputTaken(Text),
    SamePath(Text, Text),
    /// Two arguments, with the words of their rule between them and after them.
    Pair(Argument, Text, Argument, Text),
    Words(Text),
}

/// Writes that two arguments do not go together, with the words of their rule between them and after them.
fn write_pair<W: fmt::Write>(
    f: &mut fmt::Formatter<W>,
    (one, other): (Argument, Argument),
    words: Text,
    more: Text,
) -> fmt::Result {
    if words != "needs" && one.is_option {
        f.write_str("the argument ")?;
    }
    write!(f, "{one} {words} {other}{more}")
}

impl fmt::Display for Broken<'_> {
    fn fmt<W: fmt::Write>(&self, f: &mut fmt::Formatter<W>) -> fmt::Result {
        match *self {
            Broken::Value(option, value) => {
                write!(f, "invalid value '{value}' for {option}: it has to be ")?;
                match option.range() {
                    Some((least, most)) => write!(f, "a decimal number from {least} to {most}"),
                    None => f.write_str(option.form),
                }
            }
            Broken::TapeTwice(tape) => write!(f, "tape {tape} is given twice"),
            Broken::TwoInputs => f.write_str("standard input is given to two tapes"),
            Broken::InputTaken(reader) => write!(
                f,
                "the argument '--tape -' cannot be used here: standard input has {reader}"
            ),
            Broken::SamePath(one, other) => write!(f, "<{one}> and <{other}> are the same path"),
            Broken::Pair(one, words, other, more) => write_pair(f, (one, other), words, more),
            Broken::Words(text) => f.write_str(text),
        }
    }
}

/// The value of an option, or a word; empty if there is none.
pub fn text<'a>(matches: &ArgMatches<'a>, name: &str) -> &'a str {
    matches.get_str(name).unwrap_or_default()
}

/// All values of an option, or all words of a name.
pub fn texts<'m, 'a>(matches: &'m ArgMatches<'a>, name: &str) -> &'m [&'a str] {
    matches.get_strs(name).unwrap_or_default()
}

/// Whether an option is on the command line.
pub fn has(matches: &ArgMatches<'_>, name: &str) -> bool {
    matches.value_source(name) == Some(ValueSource::CommandLine)
}

/// The first of some arguments that is given; of words, if there are several. The model that holds without `--model` is as good as none.
/// The names have blanks between them.
fn first(row: &Row, matches: &ArgMatches<'_>, names: &str) -> Option<Argument> {
    for name in names.split(' ') {
        let argument = row.argument(name)?;
        let is_given = has(matches, argument.name);
        let is_one = !argument.is_option && texts(matches, argument.name).len() == 1;
        let is_bench = name == "--model" && text(matches, "model") == "bench";
        if is_given && !is_one && !is_bench {
            return Some(argument);
        }
    }
    None
}

/// The first value of an option that its line does not allow.
fn value_broken<'a>(matches: &ArgMatches<'a>, option: &Argument) -> Option<Broken<'a>> {
    let mut values = texts(matches, option.name).iter();
    let value = values.find(|it| !option.takes(it))?;
    Some(Broken::Value(*option, value))
}

fn rule_broken(row: &Row, matches: &ArgMatches<'_>, rule: Text) -> Option<Broken<'static>> {
    if let Some(reader) = rule.strip_prefix("standard input has ") {
        let is_broken = TapePaths::read(matches).0.read_input();
        return is_broken.then_some(Broken::InputTaken(reader));
    }
    if let Some((one, other)) = rule.split_once(" differs from ") {
        let is_broken = text(matches, one) == text(matches, other);
        return is_broken.then_some(Broken::SamePath(one, other));
    }
    let (ones, rest) = rule.split_once(" [")?;
    let (words, others) = rest.split_once("] ")?;
    let more = others.trim_start_matches(|it: char| it != ',');
    let others = others.strip_suffix(more)?;
    let one = first(row, matches, ones)?;
    match (first(row, matches, others), words == "cannot be used with") {
        (Some(other), true) => Some(Broken::Pair(one, words, other, more)),
        (None, false) => Some(Broken::Pair(one, words, row.argument(others)?, more)),
        _ => None,
    }
}

/// What is wrong first: the value of an option, a tape, or a rule.
pub fn first_broken<'a>(row: &Row, matches: &ArgMatches<'a>) -> Option<Broken<'a>> {
    let mut values = row.arguments.iter();
    let value = values.find_map(|it| value_broken(matches, it));
    let mut rules = row.rules.iter();
    let rule = rules.find_map(|it| rule_broken(row, matches, it));
    value.or(TapePaths::read(matches).1).or(rule)
}
