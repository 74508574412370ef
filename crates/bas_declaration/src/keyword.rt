//! The words that lines of constructs, procedures and declarations are made of.

ghost use Rattle.std.specs.Prelude.{◌≡◌, ◌<◌, IfSome};
ghost use Rattle.bas_declaration.specs.Keywords as words;

use bas_ast::{DeclaredKind, Part, ProcedureKind};
use bas_expr::TokenLine;
use bas_token::TokenKind;

/// A word that has a meaning in such a line.
#[derive(Clone, Copy, Debug, PartialEq, Eq)]
pub enum Keyword {
    If,
    Then,
    Elseif,
    Else,
    For,
    To,
    Step,
    Next,
    Do,
    Loop,
    While,
    Until,
    End,
    Select,
    Case,
    Is,
    When,
    Exception,
    In,
    Use,
    Handler,
    External,
    Sub,
    Function,
    Def,
    Program,
    Module,
    Option,
    Base,
    Arithmetic,
    Decimal,
    Fixed,
    Dim,
    Declare,
    Public,
    Share,
    Private,
    Numeric,
    String,
}

/// The word before the condition of a loop.
#[derive(Clone, Copy, Debug, PartialEq, Eq)]
pub enum LoopWord {
    While,
    Until,
}

fn loop_word(text: &[u8]) -> Option<Keyword>
    ensures { result ≡ words.loop_word text.now }
{
    if text.eq_ignore_ascii_case(b"IF") {
        Some(Keyword::If)
    } else if text.eq_ignore_ascii_case(b"THEN") {
        Some(Keyword::Then)
    } else if text.eq_ignore_ascii_case(b"ELSEIF") {
        Some(Keyword::Elseif)
    } else if text.eq_ignore_ascii_case(b"ELSE") {
        Some(Keyword::Else)
    } else if text.eq_ignore_ascii_case(b"FOR") {
        Some(Keyword::For)
    } else if text.eq_ignore_ascii_case(b"TO") {
        Some(Keyword::To)
    } else if text.eq_ignore_ascii_case(b"STEP") {
        Some(Keyword::Step)
    } else if text.eq_ignore_ascii_case(b"NEXT") {
        Some(Keyword::Next)
    } else if text.eq_ignore_ascii_case(b"DO") {
        Some(Keyword::Do)
    } else if text.eq_ignore_ascii_case(b"LOOP") {
        Some(Keyword::Loop)
    } else if text.eq_ignore_ascii_case(b"WHILE") {
        Some(Keyword::While)
    } else if text.eq_ignore_ascii_case(b"UNTIL") {
        Some(Keyword::Until)
    } else {
        None
    }
}

fn block_word(text: &[u8]) -> Option<Keyword>
    ensures { result ≡ words.block_word text.now }
{
    if text.eq_ignore_ascii_case(b"END") {
        Some(Keyword::End)
    } else if text.eq_ignore_ascii_case(b"SELECT") {
        Some(Keyword::Select)
    } else if text.eq_ignore_ascii_case(b"CASE") {
        Some(Keyword::Case)
    } else if text.eq_ignore_ascii_case(b"IS") {
        Some(Keyword::Is)
    } else if text.eq_ignore_ascii_case(b"WHEN") {
        Some(Keyword::When)
    } else if text.eq_ignore_ascii_case(b"EXCEPTION") {
        Some(Keyword::Exception)
    } else if text.eq_ignore_ascii_case(b"IN") {
        Some(Keyword::In)
    } else if text.eq_ignore_ascii_case(b"USE") {
        Some(Keyword::Use)
    } else if text.eq_ignore_ascii_case(b"HANDLER") {
        Some(Keyword::Handler)
    } else {
        None
    }
}

fn unit_word(text: &[u8]) -> Option<Keyword>
    ensures { result ≡ words.unit_word text.now }
{
    if text.eq_ignore_ascii_case(b"EXTERNAL") {
        Some(Keyword::External)
    } else if text.eq_ignore_ascii_case(b"SUB") {
        Some(Keyword::Sub)
    } else if text.eq_ignore_ascii_case(b"FUNCTION") {
        Some(Keyword::Function)
    } else if text.eq_ignore_ascii_case(b"DEF") {
        Some(Keyword::Def)
    } else if text.eq_ignore_ascii_case(b"PROGRAM") {
        Some(Keyword::Program)
    } else if text.eq_ignore_ascii_case(b"MODULE") {
        Some(Keyword::Module)
    } else {
        None
    }
}

fn declaring_word(text: &[u8]) -> Option<Keyword>
    ensures { result ≡ words.declaring_word text.now }
{
    if text.eq_ignore_ascii_case(b"OPTION") {
        Some(Keyword::Option)
    } else if text.eq_ignore_ascii_case(b"BASE") {
        Some(Keyword::Base)
    } else if text.eq_ignore_ascii_case(b"ARITHMETIC") {
        Some(Keyword::Arithmetic)
    } else if text.eq_ignore_ascii_case(b"DECIMAL") {
        Some(Keyword::Decimal)
    } else if text.eq_ignore_ascii_case(b"FIXED") {
        Some(Keyword::Fixed)
    } else if text.eq_ignore_ascii_case(b"DIM") {
        Some(Keyword::Dim)
    } else if text.eq_ignore_ascii_case(b"DECLARE") {
        Some(Keyword::Declare)
    } else if text.eq_ignore_ascii_case(b"PUBLIC") {
        Some(Keyword::Public)
    } else if text.eq_ignore_ascii_case(b"SHARE") {
        Some(Keyword::Share)
    } else if text.eq_ignore_ascii_case(b"PRIVATE") {
        Some(Keyword::Private)
    } else if text.eq_ignore_ascii_case(b"NUMERIC") {
        Some(Keyword::Numeric)
    } else if text.eq_ignore_ascii_case(b"STRING") {
        Some(Keyword::String)
    } else {
        None
    }
}

/// The word that a text spells, in any case.
pub fn keyword_of_text(text: &[u8]) -> Option<Keyword>
    ensures { result ≡ words.keyword_of_text text.now }
{
    if let Some(word) = loop_word(text) {
        return Some(word);
    }
    if let Some(word) = block_word(text) {
        return Some(word);
    }
    match unit_word(text) {
        Some(word) => Some(word),
        None => declaring_word(text),
    }
}

/// The word at a place.
#[tactic(auto, unfolding(crate::specs::Keywords::keyword, bas_expr::specs::Words::connective, bas_form::specs::Element::element_at))]
pub fn word_at(line: &TokenLine<'_>, at: usize) -> Option<Keyword>
    ensures value { result ≡ words.keyword line.now at }
    ensures within { IfSome result (λ _. at < 4096) }
{
    if let Some(_) = line.connective(at) {
        return None;
    }
    match line.lexeme(at) {
        Some((TokenKind::Word, text)) => keyword_of_text(text),
        _ => None,
    }
}

/// The word at a place, where it spells this text in any case.
#[tactic(auto, unfolding(crate::specs::Keywords::spells, bas_form::specs::Element::element_at))]
pub fn spells(line: &TokenLine<'_>, at: usize, wanted: &[u8]) -> Option<()>
    ensures value { result ≡ words.spells wanted.now line.now at }
    ensures within { IfSome result (λ _. at < 4096) }
{
    match line.lexeme(at) {
        Some((TokenKind::Word, text)) if text.eq_ignore_ascii_case(wanted) => Some(()),
        _ => None,
    }
}

/// The `THEN` at a place.
pub fn then_word(line: &TokenLine<'_>, at: usize) -> Option<()>
    ensures value { result ≡ words.at_word words.then_word line.now at }
    ensures within { IfSome result (λ _. at < 4096) }
{
    match word_at(line, at) {
        Some(Keyword::Then) => Some(()),
        _ => None,
    }
}

/// The `TO` at a place.
pub fn to_word(line: &TokenLine<'_>, at: usize) -> Option<()>
    ensures value { result ≡ words.at_word words.to_word line.now at }
    ensures within { IfSome result (λ _. at < 4096) }
{
    match word_at(line, at) {
        Some(Keyword::To) => Some(()),
        _ => None,
    }
}

/// The `STEP` at a place.
pub fn step_word(line: &TokenLine<'_>, at: usize) -> Option<()>
    ensures value { result ≡ words.at_word words.step_word line.now at }
    ensures within { IfSome result (λ _. at < 4096) }
{
    match word_at(line, at) {
        Some(Keyword::Step) => Some(()),
        _ => None,
    }
}

/// The `CASE` at a place.
pub fn case_word(line: &TokenLine<'_>, at: usize) -> Option<()>
    ensures value { result ≡ words.at_word words.case_word line.now at }
    ensures within { IfSome result (λ _. at < 4096) }
{
    match word_at(line, at) {
        Some(Keyword::Case) => Some(()),
        _ => None,
    }
}

/// The `ELSE` at a place.
pub fn else_word(line: &TokenLine<'_>, at: usize) -> Option<()>
    ensures value { result ≡ words.at_word words.else_word line.now at }
    ensures within { IfSome result (λ _. at < 4096) }
{
    match word_at(line, at) {
        Some(Keyword::Else) => Some(()),
        _ => None,
    }
}

/// The `IS` at a place.
pub fn is_word(line: &TokenLine<'_>, at: usize) -> Option<()>
    ensures value { result ≡ words.at_word words.is_word line.now at }
    ensures within { IfSome result (λ _. at < 4096) }
{
    match word_at(line, at) {
        Some(Keyword::Is) => Some(()),
        _ => None,
    }
}

/// The `EXCEPTION` at a place.
pub fn exception_word(line: &TokenLine<'_>, at: usize) -> Option<()>
    ensures value { result ≡ words.at_word words.exception_word line.now at }
    ensures within { IfSome result (λ _. at < 4096) }
{
    match word_at(line, at) {
        Some(Keyword::Exception) => Some(()),
        _ => None,
    }
}

/// The `IN` at a place.
pub fn in_word(line: &TokenLine<'_>, at: usize) -> Option<()>
    ensures value { result ≡ words.at_word words.in_word line.now at }
    ensures within { IfSome result (λ _. at < 4096) }
{
    match word_at(line, at) {
        Some(Keyword::In) => Some(()),
        _ => None,
    }
}

/// The `USE` at a place.
pub fn use_word(line: &TokenLine<'_>, at: usize) -> Option<()>
    ensures value { result ≡ words.at_word words.use_word line.now at }
    ensures within { IfSome result (λ _. at < 4096) }
{
    match word_at(line, at) {
        Some(Keyword::Use) => Some(()),
        _ => None,
    }
}

/// The `BASE` at a place.
pub fn base_word(line: &TokenLine<'_>, at: usize) -> Option<()>
    ensures value { result ≡ words.at_word words.base_word line.now at }
    ensures within { IfSome result (λ _. at < 4096) }
{
    match word_at(line, at) {
        Some(Keyword::Base) => Some(()),
        _ => None,
    }
}

/// The `ARITHMETIC` at a place.
pub fn arithmetic_word(line: &TokenLine<'_>, at: usize) -> Option<()>
    ensures value { result ≡ words.at_word words.arithmetic_word line.now at }
    ensures within { IfSome result (λ _. at < 4096) }
{
    match word_at(line, at) {
        Some(Keyword::Arithmetic) => Some(()),
        _ => None,
    }
}

/// The `DECIMAL` at a place.
pub fn decimal_word(line: &TokenLine<'_>, at: usize) -> Option<()>
    ensures value { result ≡ words.at_word words.decimal_word line.now at }
    ensures within { IfSome result (λ _. at < 4096) }
{
    match word_at(line, at) {
        Some(Keyword::Decimal) => Some(()),
        _ => None,
    }
}

/// The `FIXED` at a place.
pub fn fixed_word(line: &TokenLine<'_>, at: usize) -> Option<()>
    ensures value { result ≡ words.at_word words.fixed_word line.now at }
    ensures within { IfSome result (λ _. at < 4096) }
{
    match word_at(line, at) {
        Some(Keyword::Fixed) => Some(()),
        _ => None,
    }
}

/// The `PUBLIC` at a place.
pub fn public_word(line: &TokenLine<'_>, at: usize) -> Option<()>
    ensures value { result ≡ words.at_word words.public_word line.now at }
    ensures within { IfSome result (λ _. at < 4096) }
{
    match word_at(line, at) {
        Some(Keyword::Public) => Some(()),
        _ => None,
    }
}

/// The `EXTERNAL` at a place.
pub fn external_word(line: &TokenLine<'_>, at: usize) -> Option<()>
    ensures value { result ≡ words.at_word words.external_word line.now at }
    ensures within { IfSome result (λ _. at < 4096) }
{
    match word_at(line, at) {
        Some(Keyword::External) => Some(()),
        _ => None,
    }
}

/// `"WHILE" | "UNTIL"`
pub fn turn_word(line: &TokenLine<'_>, at: usize) -> Option<LoopWord>
    ensures value { result ≡ words.at_word words.turn_word line.now at }
    ensures within { IfSome result (λ _. at < 4096) }
{
    match word_at(line, at) {
        Some(Keyword::While) => Some(LoopWord::While),
        Some(Keyword::Until) => Some(LoopWord::Until),
        _ => None,
    }
}

/// `"SUB" | "FUNCTION"`
pub fn procedure_word(line: &TokenLine<'_>, at: usize) -> Option<ProcedureKind>
    ensures value { result ≡ words.at_word words.procedure_word line.now at }
    ensures within { IfSome result (λ _. at < 4096) }
{
    match word_at(line, at) {
        Some(Keyword::Sub) => Some(ProcedureKind::Sub),
        Some(Keyword::Function) => Some(ProcedureKind::Function),
        _ => None,
    }
}

/// `"NUMERIC" | "STRING"`
pub fn kind_word(line: &TokenLine<'_>, at: usize) -> Option<DeclaredKind>
    ensures value { result ≡ words.at_word words.kind_word line.now at }
    ensures within { IfSome result (λ _. at < 4096) }
{
    match word_at(line, at) {
        Some(Keyword::Numeric) => Some(DeclaredKind::Numeric),
        Some(Keyword::String) => Some(DeclaredKind::String),
        _ => None,
    }
}

/// What `END` closes, where the word at a place, behind it, says so.
pub fn closed_word(line: &TokenLine<'_>, at: usize) -> Option<Part>
    ensures value { result ≡ words.at_word words.closed_word line.now at }
    ensures within { IfSome result (λ _. at < 4096) }
{
    match word_at(line, at) {
        Some(Keyword::If) => Some(Part::EndIf),
        Some(Keyword::Select) => Some(Part::EndSelect),
        Some(Keyword::When) => Some(Part::EndWhen),
        Some(Keyword::Handler) => Some(Part::EndHandler),
        Some(Keyword::Sub) => Some(Part::EndSub),
        Some(Keyword::Function) => Some(Part::EndFunction),
        Some(Keyword::Module) => Some(Part::EndModule),
        _ => None,
    }
}
