//! The words of one-line `IF` and `ON`, remarks, and where a line ends.

ghost use Rattle.std.specs.Prelude.{◌≡◌, ◌<◌, IfOk, IfSome, map};
ghost use Rattle.bas_text.specs.Trim.{as_space};
ghost use Rattle.bas_declaration.specs.Keywords.{at_word};
ghost use Rattle.bas_line.specs.Words as words;
ghost use Rattle.bas_line.specs.Itemizing as itemizing;

use bas_base::Seq;
use bas_declaration::keyword::{Keyword, word_at};
use bas_expr::TokenLine;
use bas_token::TokenKind;
use std::alloc::{AllocError, Global};

/// The `IF` at a place.
pub fn if_word(line: &TokenLine<'_>, at: usize) -> Option<()>
    ensures value { result ≡ at_word words.if_word line.now at }
    ensures within { IfSome result (λ _. at < 4096) }
{
    match word_at(line, at)? {
        Keyword::If => Some(()),
        _ => None,
    }
}

/// The `!` of the remark at a place.
#[tactic(auto, unfolding(crate::specs::Words::exclaimed, bas_form::specs::Element::element_at))]
fn exclaimed(line: &TokenLine<'_>, at: usize) -> Option<()>
    ensures { result ≡ words.exclaimed line.now at }
{
    match line.lexeme(at) {
        Some((TokenKind::Remark, text)) if text.first() == Some(&b'!') => Some(()),
        _ => None,
    }
}

/// Whether the line ends at a place.
#[tactic(auto, unfolding(crate::specs::Itemizing::line_ends))]
pub fn line_ends(line: &TokenLine<'_>, at: usize) -> bool
    ensures { result ≡ itemizing.line_ends line.now at }
{
    at == line.len() || exclaimed(line, at).is_some()
}

fn space_for_tab(byte: u8) -> u8
    ensures { result ≡ as_space byte }
{
    if byte == b'\t' { b' ' } else { byte }
}

fn spaced(alloc: Global, text: &[u8]) -> Result<Seq<u8>, AllocError>
    ensures { IfOk result (λ bytes. bytes ≡ map as_space text.now) }
{
    let mut bytes = Vec::new(alloc);
    for at in 0..text.len() {
        bytes.push(space_for_tab(text[at]))?;
    }
    Ok(Seq::of(bytes))
}

fn behind_rem(alloc: Global, text: &[u8]) -> Result<Option<Seq<u8>>, AllocError>
    ensures { IfOk result (λ o. o ≡ words.behind_rem text.now) }
{
    match text.get(..3) {
        Some(word) if word.eq_ignore_ascii_case(b"REM") => Ok(Some(spaced(alloc, &text[3..])?)),
        _ => Ok(None),
    }
}

/// The bytes of the remark at a place, where it begins with `REM`.
#[tactic(auto, unfolding(crate::specs::Words::rem, bas_form::specs::Element::element_at))]
pub fn rem(alloc: Global, line: &TokenLine<'_>, at: usize) -> Result<Option<Seq<u8>>, AllocError>
    ensures { IfOk result (λ o. o ≡ words.rem line.now at) }
{
    match line.lexeme(at) {
        Some((TokenKind::Remark, text)) => behind_rem(alloc, text),
        _ => Ok(None),
    }
}
