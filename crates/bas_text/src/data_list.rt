//! The items of a list of data.

ghost use Rattle.std.specs.Prelude.{◌≡◌, ℕ, ◌+◌, ◌≤◌, ◌<◌, ◌++◌, ◌∷◌, List, map, length, All, IfOk, IfSome, IfNone, MatchOption, OnOk};
ghost use Rattle.bas_text.specs.Trim.{as_space, trim_right, between};
ghost use Rattle.bas_text.specs.Reading as reading;
ghost use Rattle.bas_text.specs.DataItems.{datum, item, next_item, AreItems, IsLongItem, ReadsMore, HasLong, IsQuotedString};
ghost use Rattle.bas_form.specs.Reader.{all_from};
ghost use Rattle.bas_text.specs.declared.data_list.Datum.{Datum};

use crate::byte_string::{MAX_STRING_LEN, StrVal};
use bas_form::{ByteClass, byte_end, past, piece_end};
use std::alloc::{AllocError, Global};

/// One item of a list of data: its text, and whether it was written in quotes.
#[derive(Debug, Drop)]
pub struct Datum {
    /// Whether the item was written in quotes, so that it is no number.
    pub quoted: bool,
    /// The bytes of the item, with one quote for each doubled quote inside quotes.
    pub text: StrVal,
}

fn as_space(byte: u8) -> u8
    ensures { result ≡ as_space byte }
{
    if byte == b'\t' { b' ' } else { byte }
}

/// Puts the bytes from one place to another behind `out`, with a space for each tab.
fn copy_bytes(text: &[u8], from: usize, to: usize, out: &mut Vec<u8>) -> Result<(), AllocError>
    requires ordered { from ≤ to }
    requires inside { to ≤ length text.now }
    ensures copied { OnOk result (out.new.items ≡ out.old.items ++ map as_space (between text.now from to)) }
{
    for at in from..to {
        out.push(as_space(text[at]))?;
    }
    Ok(())
}

/// The place after the last byte before `to` that is no space.
fn trimmed_end(text: &[u8], from: usize, to: usize) -> usize
    requires ordered { from ≤ to }
    requires inside { to ≤ length text.now }
    ensures trimmed { trim_right (map as_space (between text.now from to)) ≡ map as_space (between text.now from result) }
    ensures low { from ≤ result }
    ensures high { result ≤ to }
{
    let mut end = to;
    while end > from && ByteClass::Space.has(text[end - 1]) {
        end -= 1;
    }
    end
}

/// Puts what the pieces of quoted text from a place on stand for behind `out`, with the quotes
/// between them, and answers the place after the pieces.
fn copy_pieces(text: &[u8], from: usize, out: &mut Vec<u8>) -> Result<usize, AllocError>
    requires { from ≤ length text.now }
    ensures copied { OnOk result (out.new.items ≡ out.old.items ++ reading.more_bytes text.now from) }
    ensures value { IfOk result (λ end. end ≡ reading.pieces_past text.now from) }
    ensures within { IfOk result (λ end. end ≤ length text.now) }
{
    let mut at = from;
    while let Some(end) = piece_end(text, at) {
        copy_bytes(text, at, end - 1, out)?;
        at = end;
    }
    Ok(at)
}

/// What the quoted text at a place stands for, and the place after it.
fn quoted_text(
    alloc: Global,
    text: &[u8],
    at: usize,
) -> Result<Option<(Vec<u8>, usize)>, AllocError>
    ensures value { IfOk result (λ found. MatchOption found (reading.quoted_text text.now at ≡ None) (λ f. reading.quoted_text text.now at ≡ Some (f.0.items, f.1))) }
    ensures within { IfOk result (λ found. IfSome found (λ f. f.1 ≤ length text.now)) }
{
    let Some(first) = piece_end(text, at) else {
        return Ok(None);
    };
    let mut out = Vec::new(alloc);
    copy_bytes(text, at + 1, first - 1, &mut out)?;
    let end = copy_pieces(text, first, &mut out)?;
    Ok(Some((out, end)))
}

/// The string that a whole text in quotes stands for, with one quote for each doubled one and a space for
/// each tab, or `None` where the text is not from quote to quote.
pub fn quoted_string(alloc: Global, text: &[u8]) -> Result<Option<StrVal>, AllocError>
    ensures found { IfOk result (λ found. IfSome found (λ string. IsQuotedString text.now string)) }
    ensures only { (string : List ℕ) → IsQuotedString text.now string → IfOk result (λ found. MatchOption found ⊥ (λ f. f ≡ string)) }
{
    let Some((bytes, stop)) = quoted_text(alloc, text, 0)? else {
        return Ok(None);
    };
    if stop == text.len() {
        Ok(StrVal::from_vec(bytes))
    } else {
        Ok(None)
    }
}

/// The bytes of the item at a place.
#[derive(Drop)]
struct Written {
    quoted: bool,
    bytes: Vec<u8>,
    end: usize,
}

/// The item at a place.
fn written_item(alloc: Global, text: &[u8], at: usize) -> Result<Written, AllocError>
    requires { at ≤ length text.now }
    ensures value { IfOk result (λ w. item text.now at ≡ Some (datum w.quoted w.bytes.items, w.end)) }
    ensures within { IfOk result (λ w. w.end ≤ length text.now) }
{
    let from = past(text, at, ByteClass::Space);
    if let Some((bytes, end)) = quoted_text(alloc, text, from)? {
        return Ok(Written {
            quoted: true,
            bytes,
            end: past(text, end, ByteClass::Space),
        });
    }
    let end = past(text, from, ByteClass::DataPart);
    let mut bytes = Vec::new(alloc);
    copy_bytes(text, from, trimmed_end(text, from, end), &mut bytes)?;
    Ok(Written {
        quoted: false,
        bytes,
        end,
    })
}

/// The datum at a place and the place after it, or nothing where the item is too long for a string.
fn datum_at(alloc: Global, text: &[u8], at: usize) -> Result<Option<(Datum, usize)>, AllocError>
    requires { at ≤ length text.now }
    ensures found { IfOk result (λ found. IfSome found (λ f. item text.now at ≡ Some f)) }
    ensures short { IfOk result (λ found. IfSome found (λ f. length f.0.text ≤ MAX_STRING_LEN)) }
    ensures long { IfOk result (λ found. IfNone found (IsLongItem text.now at)) }
    ensures within { IfOk result (λ found. IfSome found (λ f. f.1 ≤ length text.now)) }
{
    let Written { quoted, bytes, end } = written_item(alloc, text, at)?;
    match StrVal::from_vec(bytes) {
        Some(text) => Ok(Some((Datum { quoted, text }, end))),
        None => Ok(None),
    }
}

/// Puts the items behind commas from a place on behind `items`, and answers the place after them, or
/// nothing where one is too long for a string.
fn more_items(
    alloc: Global,
    text: &[u8],
    from: usize,
    items: &mut Vec<Datum>,
) -> Result<Option<usize>, AllocError>
    requires { from ≤ length text.now }
    ensures found { IfOk result (λ found. IfSome found (λ end. ReadsMore text.now from items.old.items items.new.items end)) }
    ensures long { IfOk result (λ found. IfNone found (HasLong (all_from (next_item text.now) (length text.now) from).0)) }
{
    let mut at = from;
    while let Some(start) = byte_end(text, at, ByteClass::Comma) {
        let Some((datum, end)) = datum_at(alloc, text, start)? else {
            return Ok(None);
        };
        items.push(datum)?;
        at = end;
    }
    Ok(Some(at))
}

/// The items of a list of data: what stands between commas, without spaces around it. An item in quotes
/// has a quote for each doubled one; one without has no quote, and no byte of 128 to 255. `None` comes
/// exactly where the text is no such list of strings.
pub fn data_items(alloc: Global, text: &[u8]) -> Result<Option<Vec<Datum>>, AllocError>
    ensures found { IfOk result (λ found. IfSome found (λ items. AreItems text.now items.items)) }

    // No other list of items is the text's, and where there is one it is answered.
    ensures only { (items : List Datum) → AreItems text.now items → IfOk result (λ found. MatchOption found ⊥ (λ f. f.items ≡ items)) }
{
    let Some((first, next)) = datum_at(alloc, text, 0)? else {
        return Ok(None);
    };
    let mut items = Vec::new(alloc);
    items.push(first)?;
    let Some(end) = more_items(alloc, text, next, &mut items)? else {
        return Ok(None);
    };
    if end == text.len() {
        Ok(Some(items))
    } else {
        Ok(None)
    }
}
