//! What the table says of a command: its arguments and its rules, and the command as the library for command lines knows it.
use crate::options::{model_named, part_of, tape_of};
use crate::table::{COMMANDS, DISK_USAGE};
use clap::{Arg, ArgAction, Command};
use input_reading::decimal;
use std::alloc::{AllocError, Global};
use std::fmt;

pub type Text = &'static str;

/// An argument of a command: an option, or a word at its place. It prints as a refusal names it.
#[derive(Clone, Copy)]
pub struct Argument {
    pub name: Text,
    pub is_option: bool,
    /// Whether it has one value, or one each time that it is given, or none.
    pub action: ArgAction,
    /// How an option's value is called.
    value: Text,
    /// What the value has to be, if not any text. Of words, how one of them is called.
    pub form: Text,
    default: Option<Text>,
    help: Text,
}

#[derive(Drop)]
pub struct Row {
    pub name: Text,
    about: Text,
    example: Text,
    pub arguments: Vec<Argument>,
    pub rules: Vec<Text>,
}

impl Argument {
    /// The argument of a line. None of a line that is a rule.
    fn read(line: Text) -> Option<Argument> {
        let (written, help) = line.split_once(": ")?;
        let (written, default) = written.split_once(" [").unwrap_or((written, ""));
        let option = written.strip_prefix("--");
        let (name, value, action, form) = match (option, written.split_once("..")) {
            (None, None) => (written, "", ArgAction::Set, ""),
            (None, Some((name, form))) => (name, "", ArgAction::Append, form),
            (Some(option), _) => match option.split_once(" <") {
                None => (option, "", ArgAction::SetTrue, ""),
                Some((name, rest)) => {
                    let (value, form) = rest.split_once('>')?;
                    match form.strip_prefix("..") {
                        Some(form) => (name, value, ArgAction::Append, form),
                        None => (name, value, ArgAction::Set, form),
                    }
                }
            },
        };
        Some(Argument {
            name,
            is_option: option.is_some(),
            action,
            value,
            form: form.trim_start(),
            default: default.strip_suffix(']'),
            help,
        })
    }

    /// The least and the greatest number that its value may be, if it has to be a number.
    pub fn range(&self) -> Option<(u64, u64)> {
        let (least, most) = self.form.split_once("..")?;
        Some((decimal(least)?, decimal(most).unwrap_or(u64::MAX)))
    }

    /// Whether its value may be this one.
    pub fn takes(&self, value: &str) -> bool {
        match (self.value, self.range(), decimal(value)) {
            ("I/N", ..) => part_of(value).is_some(),
            ("NAME", ..) => model_named(value).is_some(),
            ("T=FILE", ..) => tape_of(value).is_some(),
            (_, Some((least, most)), Some(number)) => least <= number && number <= most,
            (_, range, _) => range.is_none(),
        }
    }

    /// The argument for the library. Its value is tested once all words are known.
    fn arg<'a>(&self, alloc: Global) -> Arg<'a> {
        let arg = Arg::new(alloc, self.name).help(self.help);
        let arg = match self.default {
            Some(default) => arg.default_value(default),
            None => arg,
        };
        let arg = match (self.is_option, self.action) {
            (false, ArgAction::Append) => arg.required(true).num_args(1..=usize::MAX),
            (false, _) => arg.required(true),
            (true, ArgAction::SetTrue) => arg.long(self.name),
            (true, _) => arg.long(self.name).value_name(self.value),
        };
        arg.action(self.action)
    }
}

impl fmt::Display for Argument {
    fn fmt<W: fmt::Write>(&self, f: &mut fmt::Formatter<W>) -> fmt::Result {
        let (name, value, form) = (self.name, self.value, self.form);
        match (self.is_option, self.action) {
            (false, ArgAction::Append) => write!(f, "more than one {form}"),
            (false, _) => write!(f, "<{name}>"),
            (true, ArgAction::SetTrue) => write!(f, "'--{name}'"),
            (true, _) => write!(f, "'--{name} <{value}>'"),
        }
    }
}

impl Row {
    /// The command of a paragraph of the table, which may name options of the commands before it.
    fn read(alloc: Global, before: &[Row], text: Text) -> Result<Row, AllocError> {
        let (head, lines) = text.split_once("\n  ").unwrap_or((text, ""));
        let (lines, example) = lines.rsplit_once("\n  ").unwrap_or((lines, ""));
        let (name, about) = head.split_once(": ").unwrap_or((head, ""));
        let mut row = Row {
            name,
            about,
            example,
            arguments: Vec::new(alloc),
            rules: Vec::new(alloc),
        };
        for line in lines.split("\n  ") {
            row.add(before, line)?;
        }
        Ok(row)
    }

    fn add(&mut self, before: &[Row], line: Text) -> Result<(), AllocError> {
        let Some((names, command)) = line.split_once(" as in ") else {
            return match Argument::read(line) {
                Some(argument) => Ok(self.arguments.push(argument)?),
                None => Ok(self.rules.push(line)?),
            };
        };
        for name in names.split(' ') {
            if let Some(argument) = row_named(before, command).and_then(|it| it.argument(name)) {
                self.arguments.push(argument)?;
            }
        }
        Ok(())
    }

    /// The argument of this name, which has `--` before it if it is an option.
    pub fn argument(&self, name: &str) -> Option<Argument> {
        let option = name.strip_prefix("--");
        let (name, is_option) = (option.unwrap_or(name), option.is_some());
        let mut arguments = self.arguments.iter();
        let found = arguments.find(|it| it.name == name && it.is_option == is_option);
        found.copied()
    }

    /// The command for the library, with its arguments.
    pub fn command<'a>(&self, alloc: Global) -> Result<Command<'a>, AllocError> {
        let mut arguments = Vec::new(alloc);
        for argument in self.arguments.as_slice() {
            arguments.push(argument.arg(alloc))?;
        }
        let whole = format!(in alloc; "bench {}", self.name)?;
        let command = Command::new(alloc, self.name)
            .about(self.about)
            .after_help(self.example);
        let command = command.bin_name(whole.as_str())?.args(arguments)?;
        if self.name == "disk" {
            return Ok(command.override_usage(DISK_USAGE));
        }
        Ok(command)
    }
}

pub fn table_rows(alloc: Global) -> Result<Vec<Row>, AllocError> {
    let mut rows = Vec::new(alloc);
    for text in COMMANDS.split("\n# ") {
        let row = Row::read(alloc, rows.as_slice(), text)?;
        rows.push(row)?;
    }
    Ok(rows)
}

pub fn row_named<'r>(rows: &'r [Row], name: &str) -> Option<&'r Row> {
    rows.iter().find(|row| row.name == name)
}
