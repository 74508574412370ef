//! What words, numerals and quoted texts are by value.

ghost use Rattle.std.specs.Prelude.{◌≡◌, ◌+◌, ◌++◌, ◌≤◌, drop, length, IfOk};
ghost use Rattle.std.specs.List.{list_all};
ghost use Rattle.std.specs.Char.{is_ascii_digit};
ghost use Rattle.bas_dec.specs.Numeral.{numeral_of};
ghost use Rattle.bas_expr.specs.Words as words;

use bas_ast::Numeral;
use bas_base::Name;
use bas_dec::read_numeral;
use bas_text::StrVal;
use std::alloc::{AllocError, Global};

/// The words that join conditions.
#[derive(Clone, Copy, Debug, PartialEq, Eq)]
pub enum Connective {
    Not,
    And,
    Or,
}

/// The connective that a word spells, in any case.
pub fn connective_of_text(text: &[u8]) -> Option<Connective>
    ensures { result ≡ words.connective_of_text text.now }
{
    if text.eq_ignore_ascii_case(b"NOT") {
        Some(Connective::Not)
    } else if text.eq_ignore_ascii_case(b"AND") {
        Some(Connective::And)
    } else if text.eq_ignore_ascii_case(b"OR") {
        Some(Connective::Or)
    } else {
        None
    }
}

fn is_reserved(text: &[u8]) -> bool
    ensures { result ≡ words.is_reserved text.now }
{
    text.eq_ignore_ascii_case(b"NOT")
        || text.eq_ignore_ascii_case(b"ELSE")
        || text.eq_ignore_ascii_case(b"PRINT")
        || text.eq_ignore_ascii_case(b"REM")
        || text.eq_ignore_ascii_case(b"TAB")
}

/// The name that a word spells, where it is not reserved.
pub fn name_of_text(text: &[u8]) -> Option<Name>
    ensures { result ≡ words.name_of_text text.now }
{
    if is_reserved(text) {
        None
    } else {
        Name::of(text)
    }
}

fn has_digits_alone(text: &[u8]) -> bool
    ensures { result ≡ list_all is_ascii_digit text.now }
{
    text.iter().all(|c| c.is_ascii_digit())
}

/// The numeral that a text spells, where it is not too large.
pub fn numeral_of_text(text: &[u8]) -> Option<Numeral>
    ensures { result ≡ words.numeral_by text.now (numeral_of text.now) }
{
    match read_numeral(text) {
        bas_dec::Numeral::Value(value) => Some(Numeral {
            value,
            digits: has_digits_alone(text),
        }),
        bas_dec::Numeral::TooLarge => None,
        bas_dec::Numeral::NotNumeral => None,
    }
}

fn as_space(byte: u8) -> u8
    ensures { result ≡ words.as_space byte }
{
    if byte == b'\t' { b' ' } else { byte }
}

// The bytes from a place behind the opening quote on.
fn inside_quotes(alloc: Global, text: &[u8], from: usize) -> Result<Vec<u8>, AllocError>
    requires { length text.now ≤ 4096 }
    ensures { IfOk result (λ bytes. bytes.items ≡ words.inside_quotes (drop from text.now)) }
{
    let mut bytes = Vec::new(alloc);
    let mut at = from;
    let last = text.len().saturating_sub(1);
    'bytes: while at < last {
        if text[at] == b'"' {
            bytes.push(b'"')?;
            at += 2;
        } else {
            bytes.push(as_space(text[at]))?;
            at += 1;
        }
    }
    Ok(bytes)
}

/// The bytes that a text in quotes stands for.
pub fn text_in_quotes(alloc: Global, text: &[u8]) -> Result<StrVal, AllocError>
    requires { length text.now ≤ 4096 }
    ensures { IfOk result (λ string. string ≡ words.inside_quotes (drop 1 text.now)) }
{
    let bytes = inside_quotes(alloc, text, 1)?;
    match StrVal::of(alloc, bytes.as_slice()) {
        Ok(string) => Ok(string),
        Err(_) => Err(AllocError),
    }
}
