//! The tokens of a line, as the readers of the grammar see them.

ghost use Rattle.std.specs.Prelude.{◌≡◌, ◌<◌, ◌≤◌, length, All, IfOk, IfSome, slice_get};
ghost use Rattle.std.specs.Option.{option_map};
ghost use Rattle.bas_expr.specs.Lexemes.{lexemes};
ghost use Rattle.bas_expr.specs.Marks as marks;
ghost use Rattle.bas_expr.specs.Words as words;
ghost use Rattle.bas_expr.specs.TokenLine.{LiesIn};

use crate::mark::{Mark, mark_of_text};
use crate::word::{Connective, connective_of_text, name_of_text, numeral_of_text, text_in_quotes};
use bas_ast::{FactorSign, Numeral, Rel, Sign, TermSign, is_supplied};
use bas_base::Name;
use bas_text::StrVal;
use bas_token::{Token, TokenKind};
use std::alloc::{AllocError, Global};
use std::marker::Model;

/// A line and its tokens. Contracts see the kind and the text of each token.
#[derive(Drop)]
pub struct TokenLine<'a> {
    line: &'a [u8],
    tokens: &'a [Token],
}

impl<'a> Model for TokenLine<'a> {
    ghost use Rattle.std.specs.Prelude.{List};
    ghost use Rattle.bas_expr.specs.Lexemes.{Lexeme};
    ghost use Rattle.bas_expr.specs.TokenLine.{shown, IsLine};

    ghost Value = { List Lexeme };

    ghost view = { shown };

    ghost invariant = { IsLine };
}

impl<'a> TokenLine<'a> {
    /// A line of at most 4,096 bytes and tokens that lie in it.
    pub fn new(line: &'a [u8], tokens: &'a [Token]) -> TokenLine<'a>
        requires lie { All (LiesIn line.now) tokens.now }
        requires few { length tokens.now ≤ 4096 }
        requires short { length line.now ≤ 4096 }
        ensures { result ≡ lexemes line.now tokens.now }
    {
        TokenLine { line, tokens }
    }

    /// The number of tokens.
    pub fn len(&self) -> usize
        ensures value { result ≡ length self.now }
        ensures small { result ≤ 4096 }
    {
        self.tokens.len()
    }

    /// The kind and the text of the token at a place.
    pub fn lexeme(&self, at: usize) -> Option<(TokenKind, &'a [u8])>
        ensures value { option_map (λ l. (l.0, l.1.now)) result ≡ slice_get self.now at }
        ensures within { IfSome result (λ _. at < 4096) }
        ensures short { IfSome result (λ l. length l.1.now ≤ 4096) }
    {
        let token = self.tokens.get(at)?;
        Some((
            token.kind,
            &self.line[token.from as usize..token.to as usize],
        ))
    }

    /// The mark at a place.
    #[tactic(auto, unfolding(crate::specs::Marks::mark, bas_form::specs::Element::element_at))]
    fn mark(&self, at: usize) -> Option<Mark>
        ensures value { result ≡ marks.mark self.now at }
        ensures within { IfSome result (λ _. at < 4096) }
    {
        match self.lexeme(at) {
            Some((TokenKind::Sign, text)) => mark_of_text(text),
            _ => None,
        }
    }

    /// The `(` at a place.
    pub fn opening(&self, at: usize) -> Option<()>
        ensures value { result ≡ marks.at_mark marks.opening self.now at }
        ensures within { IfSome result (λ _. at < 4096) }
    {
        self.mark(at)?.opening()
    }

    /// The `)` at a place.
    pub fn closing(&self, at: usize) -> Option<()>
        ensures value { result ≡ marks.at_mark marks.closing self.now at }
        ensures within { IfSome result (λ _. at < 4096) }
    {
        self.mark(at)?.closing()
    }

    /// The comma at a place.
    pub fn comma(&self, at: usize) -> Option<()>
        ensures value { result ≡ marks.at_mark marks.comma self.now at }
        ensures within { IfSome result (λ _. at < 4096) }
    {
        self.mark(at)?.comma()
    }

    /// The colon at a place.
    pub fn colon(&self, at: usize) -> Option<()>
        ensures value { result ≡ marks.at_mark marks.colon self.now at }
        ensures within { IfSome result (λ _. at < 4096) }
    {
        self.mark(at)?.colon()
    }

    /// The `#` at a place.
    pub fn hash(&self, at: usize) -> Option<()>
        ensures value { result ≡ marks.at_mark marks.hash self.now at }
        ensures within { IfSome result (λ _. at < 4096) }
    {
        self.mark(at)?.hash()
    }

    /// The `^` at a place.
    pub(crate) fn caret(&self, at: usize) -> Option<()>
        ensures value { result ≡ marks.at_mark marks.caret self.now at }
        ensures within { IfSome result (λ _. at < 4096) }
    {
        self.mark(at)?.caret()
    }

    /// The sign of an expression at a place.
    pub fn sign(&self, at: usize) -> Option<Sign>
        ensures value { result ≡ marks.at_mark marks.sign_of self.now at }
        ensures within { IfSome result (λ _. at < 4096) }
    {
        self.mark(at)?.sign()
    }

    /// What stands between two terms, at a place.
    pub(crate) fn term_sign(&self, at: usize) -> Option<TermSign>
        ensures value { result ≡ marks.at_mark marks.term_sign_of self.now at }
        ensures within { IfSome result (λ _. at < 4096) }
    {
        self.mark(at)?.term_sign()
    }

    /// What stands between two factors, at a place.
    pub fn factor_sign(&self, at: usize) -> Option<FactorSign>
        ensures value { result ≡ marks.at_mark marks.factor_sign_of self.now at }
        ensures within { IfSome result (λ _. at < 4096) }
    {
        self.mark(at)?.factor_sign()
    }

    /// The relation at a place.
    pub fn rel(&self, at: usize) -> Option<Rel>
        ensures value { result ≡ marks.at_mark marks.rel_of self.now at }
        ensures within { IfSome result (λ _. at < 4096) }
    {
        self.mark(at)?.rel()
    }

    /// The name at a place, of whatever it names.
    #[tactic(auto, unfolding(crate::specs::Words::any_name, bas_form::specs::Element::element_at))]
    pub(crate) fn name(&self, at: usize) -> Option<Name>
        ensures value { result ≡ words.any_name self.now at }
        ensures within { IfSome result (λ _. at < 4096) }
    {
        match self.lexeme(at) {
            Some((TokenKind::Word, text)) => name_of_text(text),
            _ => None,
        }
    }

    /// The name at a place, where it names no supplied function.
    pub fn own_name(&self, at: usize) -> Option<Name>
        ensures value { result ≡ words.own_name self.now at }
        ensures within { IfSome result (λ _. at < 4096) }
    {
        let name = self.name(at)?;
        if is_supplied(name.bytes()) {
            None
        } else {
            Some(name)
        }
    }

    /// The numeral at a place, where it is not too large.
    #[tactic(auto, unfolding(crate::specs::Words::numeral, bas_form::specs::Element::element_at))]
    pub fn numeral(&self, at: usize) -> Option<Numeral>
        ensures value { result ≡ words.numeral self.now at }
        ensures within { IfSome result (λ _. at < 4096) }
    {
        match self.lexeme(at) {
            Some((TokenKind::Numeral, text)) => numeral_of_text(text),
            _ => None,
        }
    }

    /// The bytes that the quoted text at a place stands for.
    #[tactic(auto, unfolding(crate::specs::Words::quoted, bas_form::specs::Element::element_at))]
    pub fn quoted(&self, alloc: Global, at: usize) -> Result<Option<StrVal>, AllocError>
        ensures value { IfOk result (λ o. o ≡ words.quoted self.now at) }
        ensures within { IfOk result (λ o. IfSome o (λ _. at < 4096)) }
    {
        match self.lexeme(at) {
            Some((TokenKind::Quoted, text)) => Ok(Some(text_in_quotes(alloc, text)?)),
            _ => Ok(None),
        }
    }

    /// The connective at a place.
    #[tactic(auto, unfolding(crate::specs::Words::connective, bas_form::specs::Element::element_at))]
    pub fn connective(&self, at: usize) -> Option<Connective>
        ensures value { result ≡ words.connective self.now at }
        ensures within { IfSome result (λ _. at < 4096) }
    {
        match self.lexeme(at) {
            Some((TokenKind::Word, text)) => connective_of_text(text),
            _ => None,
        }
    }

    /// The `NOT` at a place.
    pub(crate) fn negation(&self, at: usize) -> Option<()>
        ensures value { result ≡ words.negation self.now at }
        ensures within { IfSome result (λ _. at < 4096) }
    {
        match self.connective(at) {
            Some(Connective::Not) => Some(()),
            _ => None,
        }
    }

    /// The `AND` at a place.
    pub(crate) fn and_word(&self, at: usize) -> Option<()>
        ensures value { result ≡ words.and_word self.now at }
        ensures within { IfSome result (λ _. at < 4096) }
    {
        match self.connective(at) {
            Some(Connective::And) => Some(()),
            _ => None,
        }
    }

    /// The `OR` at a place.
    pub(crate) fn or_word(&self, at: usize) -> Option<()>
        ensures value { result ≡ words.or_word self.now at }
        ensures within { IfSome result (λ _. at < 4096) }
    {
        match self.connective(at) {
            Some(Connective::Or) => Some(()),
            _ => None,
        }
    }
}
