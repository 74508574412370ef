//! The word `DATA` and what stands behind it.

ghost use Rattle.std.specs.Prelude.{◌≡◌, ℕ, ◌≤◌, ◌<◌, length, take, IfOk, IfSome};
ghost use Rattle.bas_data.specs.Data as form;
ghost use Rattle.bas_data.specs.Reading as reading;

use bas_base::Seq;
use bas_form::{ByteClass, byte_end, past};
use bas_text::{Datum, data_items};
use std::alloc::{AllocError, Global};

/// The place behind the word `DATA`, where it is the first word of the line.
#[tactic(auto, unfolding(crate::specs::Reading::data_word))]
pub fn data_word(line: &[u8]) -> Option<usize>
    ensures value { result ≡ reading.data_word line.now }
    ensures within { IfSome result (λ behind. behind ≤ length line.now) }
{
    let from = past(line, 0, ByteClass::Space);
    let word = line.get(from..from + 4)?;
    if !word.eq_ignore_ascii_case(b"DATA") {
        return None;
    }
    let behind = from + 4;
    match (
        byte_end(line, behind, ByteClass::WordPart),
        byte_end(line, behind, ByteClass::Dollar),
    ) {
        (None, None) => Some(behind),
        _ => None,
    }
}

/// The first place of a `!` outside quotes, or the text's length.
fn items_end(text: &[u8]) -> usize
    ensures value { result ≡ reading.first_end text.now (length text.now) }
    ensures within { result ≤ length text.now }
{
    let mut quoted = false;
    for at in 0..text.len() {
        if text[at] == b'!' && !quoted {
            return at;
        }
        if text[at] == b'"' {
            quoted = !quoted;
        }
    }
    text.len()
}

/// Whether nothing stands at a place, or a byte and behind it bytes of a remark.
fn rest_ends(text: &[u8], at: usize) -> bool
    requires { at ≤ length text.now }
    ensures { result ≡ reading.rest_ends text.now at }
{
    if at == text.len() {
        return true;
    }
    past(text, at + 1, ByteClass::InRemark) == text.len()
}

/// The data of a text behind the word `DATA`, with a `!` outside quotes and what stands behind it left out.
/// `None` comes exactly where the text is no list of data.
#[tactic(auto, unfolding(crate::specs::Reading::data_of))]
pub fn data(alloc: Global, text: &[u8]) -> Result<Option<Seq<Datum>>, AllocError>
    ensures { IfOk result (λ found. found ≡ reading.data_of text.now) }
{
    let end = items_end(text);
    if !rest_ends(text, end) {
        return Ok(None);
    }
    match data_items(alloc, &text[..end])? {
        Some(items) => Ok(Some(Seq::of(items))),
        None => Ok(None),
    }
}
