//! The single tokens of lists, line numbers, and the tokens that end a statement.

ghost use Rattle.std.specs.Prelude.{◌≡◌, ◌<◌, IfSome};
ghost use Rattle.bas_expr.specs.Marks.{at_mark};
ghost use Rattle.bas_list.specs.Words as words;

use bas_ast::Sep;
use bas_base::Line;
use bas_declaration::digits::digits_of_text;
use bas_expr::TokenLine;
use bas_token::TokenKind;

fn separator_of_text(text: &[u8]) -> Option<Sep>
    ensures { result ≡ words.separator_of_text text.now }
{
    match text {
        [b','] => Some(Sep::Comma),
        [b';'] => Some(Sep::Semicolon),
        _ => None,
    }
}

/// The `,` or `;` at a place.
#[tactic(auto, unfolding(bas_expr::specs::Marks::mark, bas_form::specs::Element::element_at))]
pub fn separator(line: &TokenLine<'_>, at: usize) -> Option<Sep>
    ensures value { result ≡ at_mark words.separator_of line.now at }
    ensures within { IfSome result (λ _. at < 4096) }
{
    match line.lexeme(at) {
        Some((TokenKind::Sign, text)) => separator_of_text(text),
        _ => None,
    }
}

fn line_number_of_text(text: &[u8]) -> Option<Line>
    ensures { result ≡ words.line_number_of_text text.now }
{
    if text.len() > 8 {
        return None;
    }
    Line::of(digits_of_text(text)?)
}

/// The line number at a place: 1 to 8 digits that write 1 to 99999.
#[tactic(auto, unfolding(crate::specs::Words::line_number, bas_form::specs::Element::element_at))]
pub fn line_number(line: &TokenLine<'_>, at: usize) -> Option<Line>
    ensures value { result ≡ words.line_number line.now at }
    ensures within { IfSome result (λ _. at < 4096) }
{
    match line.lexeme(at) {
        Some((TokenKind::Numeral, text)) => line_number_of_text(text),
        _ => None,
    }
}

/// The remark or the `ELSE` at a place, which end a statement.
#[tactic(auto, unfolding(crate::specs::Words::ending, bas_form::specs::Element::element_at))]
pub fn ending(line: &TokenLine<'_>, at: usize) -> Option<()>
    ensures value { result ≡ words.ending line.now at }
    ensures within { IfSome result (λ _. at < 4096) }
{
    match line.lexeme(at) {
        Some((TokenKind::Remark, _)) => Some(()),
        Some((TokenKind::Word, text)) if text.eq_ignore_ascii_case(b"ELSE") => Some(()),
        _ => None,
    }
}
