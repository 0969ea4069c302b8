//! The statements.
ghost use Rattle.std.specs.Prelude.{◌≡◌, Ok, Err, MatchResult, true};
ghost use Rattle.asm_statements.specs.Statements.{label_read, with_no_more, numbers_read, ascii_read, space_read, directive_read, instruction_read, statement_read};

use crate::literal::Literal;
use crate::mnemonic::{Directive, Mnemonic};
use crate::names::{directive_named, mnemonic_named};
use crate::operands::{Operands, chosen, read_operands};
use crate::tokens::{is_colon, is_comma, is_label, is_string, number_of, text_at};
use asm_text::Token;

/// Where the name of a label stands in the source.
#[derive(Clone, Copy)]
pub struct Label {
    pub start: usize,
    pub end: usize,
}

/// A statement. The numbers and the string of `.word`, `.byte` and `.ascii` stay in the tokens of their line.
#[derive(Clone, Copy)]
pub enum Statement {
    Nothing,
    Text,
    Data,
    Words,
    Bytes,
    Ascii,
    /// How many bytes, and the place of that number in the source.
    Space(Literal, usize),
    Instruction(Mnemonic, Operands),
}

/// The label with which a line begins, if it has one, and the tokens after it. An error is the place of the wrong token.
pub fn split_label<'a>(
    source: &[u8],
    tokens: &'a [Token],
) -> Result<(Option<Label>, &'a [Token]), usize>
    ensures { MatchResult result
        (λ r. label_read source.now tokens.now ≡ Ok (r.0, r.1.now))
        (λ at. label_read source.now tokens.now ≡ Err at) }
{
    match tokens {
        [name, colon, rest @ ..] => {
            if !is_colon(&colon.kind) || colon.start != name.end {
                return Ok((None, tokens));
            }
            if !is_label(source, name) {
                return Err(name.start);
            }
            let label = Label {
                start: name.start,
                end: name.end,
            };
            Ok((Some(label), rest))
        }
        _ => Ok((None, tokens)),
    }
}

/// The statement that the tokens of a line make after its label. An error is the place of the first wrong token, or `end` where one
/// is missing.
pub fn read_statement(
    source: &[u8],
    in_data: bool,
    end: usize,
    tokens: &[Token],
) -> Result<Statement, usize>
    ensures { result ≡ statement_read source.now in_data end tokens.now }
{
    let [first, rest @ ..] = tokens else {
        return Ok(Statement::Nothing);
    };
    if !first.kind.is_word() {
        return Err(first.start);
    }
    let word = text_at(source, first.start, first.end);
    if let Some(directive) = directive_named(word) {
        return directive_statement(in_data, end, first.start, directive, rest);
    }
    match mnemonic_named(word) {
        Some(mnemonic) => instruction(source, end, chosen(mnemonic, rest), rest),
        None => Err(first.start),
    }
}

fn instruction(
    source: &[u8],
    end: usize,
    mnemonic: Mnemonic,
    tokens: &[Token],
) -> Result<Statement, usize>
    ensures { result ≡ instruction_read source.now end mnemonic tokens.now }
{
    let operands = read_operands(source, end, mnemonic, tokens)?;
    Ok(Statement::Instruction(mnemonic, operands))
}

/// A directive at a place of the source, with the tokens after it.
fn directive_statement(
    in_data: bool,
    end: usize,
    at: usize,
    directive: Directive,
    tokens: &[Token],
) -> Result<Statement, usize>
    ensures { result ≡ directive_read in_data end at directive tokens.now }
{
    match directive {
        Directive::Text => with_no_more(tokens, Statement::Text),
        Directive::Data => with_no_more(tokens, Statement::Data),
        Directive::Word => numbers(end, tokens, Statement::Words),
        Directive::Byte => {
            if in_data {
                numbers(end, tokens, Statement::Bytes)
            } else {
                Err(at)
            }
        }
        Directive::Ascii => { if in_data { ascii(end, tokens) } else { Err(at) } }
        Directive::Space => space(end, tokens),
    }
}

/// The statement, where no token is left.
fn with_no_more(tokens: &[Token], statement: Statement) -> Result<Statement, usize>
    ensures { result ≡ with_no_more tokens.now statement }
{
    match tokens {
        [] => Ok(statement),
        [token, ..] => Err(token.start),
    }
}

/// The statement, where the tokens are numbers with commas between them.
fn numbers(end: usize, tokens: &[Token], statement: Statement) -> Result<Statement, usize>
    ensures { result ≡ numbers_read true end tokens.now statement }
{
    let mut wanted = true;
    for token in tokens {
        if wanted {
            number_of(&token.kind).ok_or(token.start)?;
        } else if !is_comma(&token.kind) {
            return Err(token.start);
        }
        wanted = !wanted;
    }
    if wanted { Err(end) } else { Ok(statement) }
}

/// A string alone.
fn ascii(end: usize, tokens: &[Token]) -> Result<Statement, usize>
    ensures { result ≡ ascii_read end tokens.now }
{
    match tokens {
        [] => Err(end),
        [token, rest @ ..] => {
            if is_string(&token.kind) {
                with_no_more(rest, Statement::Ascii)
            } else {
                Err(token.start)
            }
        }
    }
}

/// A number alone.
fn space(end: usize, tokens: &[Token]) -> Result<Statement, usize>
    ensures { result ≡ space_read end tokens.now }
{
    match tokens {
        [] => Err(end),
        [token, rest @ ..] => {
            let size = number_of(&token.kind).ok_or(token.start)?;
            with_no_more(rest, Statement::Space(size, token.start))
        }
    }
}
