//! Numerals of digits alone.

ghost use Rattle.std.specs.Prelude.{◌≡◌, ◌<◌, length, IfSome};
ghost use Rattle.std.specs.List.{list_all, position};
ghost use Rattle.std.specs.Char.{is_ascii_digit};
ghost use Rattle.bas_declaration.specs.Digits as digits;

use bas_ast::{Decl, TypeSpec};
use bas_expr::TokenLine;
use bas_token::TokenKind;

/// The greatest number that digits stand for; what is greater is held as it.
pub const GREATEST: u32 = 4294967295;

fn held(text: &[u8]) -> u32
    ensures { result ≡ digits.held text.now }
{
    let mut value: u64 = 0;
    for digit in text {
        value = (value * 10 + digit.saturating_sub(b'0') as u64).min(GREATEST as u64);
    }
    value as u32
}

fn has_digits_alone(text: &[u8]) -> bool
    ensures { result ≡ list_all is_ascii_digit text.now }
{
    text.iter().all(|c| c.is_ascii_digit())
}

/// The number that a text of digits spells.
pub fn digits_of_text(text: &[u8]) -> Option<u32>
    ensures { result ≡ digits.digits_of_text text.now }
{
    if text.len() > 0 && has_digits_alone(text) {
        Some(held(text))
    } else {
        None
    }
}

fn point(text: &[u8]) -> Option<usize>
    ensures value { result ≡ position digits.is_point text.now }
    ensures within { IfSome result (λ p. p < length text.now) }
{
    text.iter().position(|c| *c == b'.')
}

fn whole(number: Option<u32>) -> Option<TypeSpec>
    ensures { result ≡ digits.whole_of number }
{
    match number {
        Some(whole) => Some(TypeSpec {
            whole,
            fraction: None,
        }),
        None => None,
    }
}

fn whole_and_fraction(whole: Option<u32>, fraction: Option<u32>) -> Option<TypeSpec>
    ensures { result ≡ digits.whole_and_fraction_of whole fraction }
{
    match (whole, fraction) {
        (Some(whole), Some(fraction)) => Some(TypeSpec {
            whole,
            fraction: Some(fraction),
        }),
        _ => None,
    }
}

/// `digits [ "." digits ]`
pub fn size_of_text(text: &[u8]) -> Option<TypeSpec>
    ensures { result ≡ digits.size_of_text text.now }
{
    match point(text) {
        None => whole(digits_of_text(text)),
        Some(point) => whole_and_fraction(
            digits_of_text(&text[..point]),
            digits_of_text(&text[point + 1..]),
        ),
    }
}

fn base_of_text(text: &[u8]) -> Option<Decl>
    ensures { result ≡ digits.base_of_text text.now }
{
    match text {
        [b'0'] => Some(Decl::OptionBaseZero),
        [b'1'] => Some(Decl::OptionBaseOne),
        _ => None,
    }
}

/// The digits at a place.
#[tactic(auto, unfolding(crate::specs::Digits::digits, bas_form::specs::Element::element_at))]
pub fn digits(line: &TokenLine<'_>, at: usize) -> Option<u32>
    ensures value { result ≡ digits.digits line.now at }
    ensures within { IfSome result (λ _. at < 4096) }
{
    match line.lexeme(at) {
        Some((TokenKind::Numeral, text)) => digits_of_text(text),
        _ => None,
    }
}

/// The digits of a type at a place.
#[tactic(auto, unfolding(crate::specs::Digits::size, bas_form::specs::Element::element_at))]
pub fn size(line: &TokenLine<'_>, at: usize) -> Option<TypeSpec>
    ensures value { result ≡ digits.size line.now at }
    ensures within { IfSome result (λ _. at < 4096) }
{
    match line.lexeme(at) {
        Some((TokenKind::Numeral, text)) => size_of_text(text),
        _ => None,
    }
}

/// The lowest index that an `OPTION` line gives, at a place.
#[tactic(auto, unfolding(crate::specs::Digits::base, bas_form::specs::Element::element_at))]
pub fn base(line: &TokenLine<'_>, at: usize) -> Option<Decl>
    ensures value { result ≡ digits.base line.now at }
    ensures within { IfSome result (λ _. at < 4096) }
{
    match line.lexeme(at) {
        Some((TokenKind::Numeral, text)) => base_of_text(text),
        _ => None,
    }
}
