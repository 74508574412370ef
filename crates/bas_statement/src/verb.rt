//! The words that statements are made of.

ghost use Rattle.std.specs.Prelude.{◌≡◌, ◌<◌, IfSome};
ghost use Rattle.bas_declaration.specs.Keywords.{at_word};
ghost use Rattle.bas_statement.specs.Verbs as verbs;

use bas_ast::Plain;
use bas_declaration::keyword::{Keyword, word_at};
use bas_expr::TokenLine;
use bas_token::TokenKind;

/// A word that a statement begins with.
#[derive(Clone, Copy)]
pub enum Verb {
    Let,
    Print,
    Line,
    Input,
    Read,
    Restore,
    Goto,
    Gosub,
    Go,
    Return,
    Stop,
    Exit,
    Call,
    Retry,
    Continue,
    Cause,
    Chain,
}

/// The word behind `GO`.
#[derive(Clone, Copy)]
pub enum Jump {
    To,
    Sub,
}

fn value_verb(text: &[u8]) -> Option<Verb>
    ensures { result ≡ verbs.value_verb text.now }
{
    if text.eq_ignore_ascii_case(b"LET") {
        Some(Verb::Let)
    } else if text.eq_ignore_ascii_case(b"PRINT") {
        Some(Verb::Print)
    } else if text.eq_ignore_ascii_case(b"LINE") {
        Some(Verb::Line)
    } else if text.eq_ignore_ascii_case(b"INPUT") {
        Some(Verb::Input)
    } else if text.eq_ignore_ascii_case(b"READ") {
        Some(Verb::Read)
    } else if text.eq_ignore_ascii_case(b"RESTORE") {
        Some(Verb::Restore)
    } else {
        None
    }
}

fn jump_verb(text: &[u8]) -> Option<Verb>
    ensures { result ≡ verbs.jump_verb text.now }
{
    if text.eq_ignore_ascii_case(b"GOTO") {
        Some(Verb::Goto)
    } else if text.eq_ignore_ascii_case(b"GOSUB") {
        Some(Verb::Gosub)
    } else if text.eq_ignore_ascii_case(b"GO") {
        Some(Verb::Go)
    } else if text.eq_ignore_ascii_case(b"RETURN") {
        Some(Verb::Return)
    } else if text.eq_ignore_ascii_case(b"STOP") {
        Some(Verb::Stop)
    } else if text.eq_ignore_ascii_case(b"EXIT") {
        Some(Verb::Exit)
    } else {
        None
    }
}

fn call_verb(text: &[u8]) -> Option<Verb>
    ensures { result ≡ verbs.call_verb text.now }
{
    if text.eq_ignore_ascii_case(b"CALL") {
        Some(Verb::Call)
    } else if text.eq_ignore_ascii_case(b"RETRY") {
        Some(Verb::Retry)
    } else if text.eq_ignore_ascii_case(b"CONTINUE") {
        Some(Verb::Continue)
    } else if text.eq_ignore_ascii_case(b"CAUSE") {
        Some(Verb::Cause)
    } else if text.eq_ignore_ascii_case(b"CHAIN") {
        Some(Verb::Chain)
    } else {
        None
    }
}

/// The word that a text spells, in any case.
pub fn verb_of_text(text: &[u8]) -> Option<Verb>
    ensures { result ≡ verbs.verb_of_text text.now }
{
    if let Some(verb) = value_verb(text) {
        return Some(verb);
    }
    match jump_verb(text) {
        Some(verb) => Some(verb),
        None => call_verb(text),
    }
}

/// The word at a place.
#[tactic(auto, unfolding(crate::specs::Verbs::verb, bas_form::specs::Element::element_at))]
pub fn verb_at(line: &TokenLine<'_>, at: usize) -> Option<Verb>
    ensures value { result ≡ verbs.verb line.now at }
    ensures within { IfSome result (λ _. at < 4096) }
{
    match line.lexeme(at) {
        Some((TokenKind::Word, text)) => verb_of_text(text),
        _ => None,
    }
}

/// What `EXIT` leaves, by the word at a place, behind it.
pub fn exit_word(line: &TokenLine<'_>, at: usize) -> Option<Plain>
    ensures value { result ≡ at_word verbs.exit_word line.now at }
    ensures within { IfSome result (λ _. at < 4096) }
{
    match word_at(line, at) {
        Some(Keyword::Do) => Some(Plain::ExitDo),
        Some(Keyword::For) => Some(Plain::ExitFor),
        Some(Keyword::Sub) => Some(Plain::ExitSub),
        Some(Keyword::Function) => Some(Plain::ExitFunction),
        Some(Keyword::Handler) => Some(Plain::ExitHandler),
        _ => None,
    }
}

/// `"TO" | "SUB"`
pub fn jump_word(line: &TokenLine<'_>, at: usize) -> Option<Jump>
    ensures value { result ≡ at_word verbs.jump_word line.now at }
    ensures within { IfSome result (λ _. at < 4096) }
{
    match word_at(line, at) {
        Some(Keyword::To) => Some(Jump::To),
        Some(Keyword::Sub) => Some(Jump::Sub),
        _ => None,
    }
}
