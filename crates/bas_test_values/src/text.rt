//! Strings and lists of data.

use crate::cases::{after, check};
use bas_text::{Datum, StrVal, TextFault, data_items, quoted_string};
use std::alloc::Global;

/// Each text with its items, each behind a bar, and `q` before one in quotes; or `none`.
static TEXTS: [(&str, &str); 27] = [
    ("", "|"),
    ("   ", "|"),
    ("1", "|1"),
    ("  1  ", "|1"),
    ("1,", "|1|"),
    (",", "||"),
    ("1,2,3", "|1|2|3"),
    (" 1 , 2 ", "|1|2"),
    ("red cap, blue", "|red cap|blue"),
    ("a  b ", "|a  b"),
    ("-1.5E3", "|-1.5E3"),
    ("\"\"", "|q"),
    ("\"a\"", "|qa"),
    (" \"a\" ", "|qa"),
    ("\" a \"", "|q a "),
    ("\"a,b\",c", "|qa,b|c"),
    ("\"a\"\"b\"", "|qa\"b"),
    ("\"\"\"\"", "|q\""),
    ("\"a\" b", "none"),
    ("\"a\"\"b", "none"),
    ("\"a", "none"),
    ("a\"b", "none"),
    ("a\"b\"", "none"),
    ("it's", "|it's"),
    ("a!b", "|a!b"),
    ("a\tb\t", "|a b"),
    ("\"a\tb\"", "|qa b"),
];

/// The same of bytes past 127, which stand in quotes alone, and of control bytes, which stand nowhere.
static BYTES: [(&[u8], &[u8]); 3] = [
    (&[34, 200, 34], &[124, 113, 200]),
    (&[200], b"none"),
    (&[34, 7, 34], b"none"),
];

/// Each text in quotes, and its string.
static STRINGS: [(&str, &str); 1] = [("\"say \"\"yes\"\"\"", "say \"yes\"")];

/// Each text that is no string.
static NO_STRINGS: [&str; 2] = ["\"a\" ", "\"a\"\"b"];

fn after_item<'a>(text: &'a [u8], item: &Datum) -> Option<&'a [u8]> {
    let front: &[u8] = if item.quoted { b"|q" } else { b"|" };
    after(after(text, front)?, item.text.bytes())
}

// Whether these are the items, each behind a bar, and `q` before one in quotes.
fn are_items(items: &[Datum], wanted: &[u8]) -> bool {
    let mut left = wanted;
    for item in items {
        match after_item(left, item) {
            Some(rest) => left = rest,
            None => return false,
        }
    }
    left.is_empty()
}

fn has_items(alloc: Global, text: &[u8], wanted: &[u8]) -> bool {
    match data_items(alloc, text) {
        Ok(Some(items)) => are_items(items.as_slice(), wanted),
        Ok(None) => wanted == b"none".as_slice(),
        Err(_) => false,
    }
}

#[test]
fn texts_have_their_items(rt: HostRuntime) {
    for (text, wanted) in &TEXTS {
        let found = has_items(rt.alloc(), text.as_bytes(), wanted.as_bytes());
        check(&rt, text, found);
    }
}

#[test]
fn bytes_past_127_stand_in_quotes_alone(rt: HostRuntime) {
    for (text, wanted) in &BYTES {
        assert!(rt; has_items(rt.alloc(), text, wanted));
    }
}

fn string_is(alloc: Global, text: &[u8], wanted: &[u8]) -> bool {
    match quoted_string(alloc, text) {
        Ok(Some(string)) => string.bytes() == wanted,
        _ => false,
    }
}

fn has_no_string(alloc: Global, text: &[u8]) -> bool {
    match quoted_string(alloc, text) {
        Ok(found) => found.is_none(),
        Err(_) => false,
    }
}

#[test]
fn text_in_quotes_is_a_string(rt: HostRuntime) {
    for (text, wanted) in &STRINGS {
        let found = string_is(rt.alloc(), text.as_bytes(), wanted.as_bytes());
        check(&rt, text, found);
    }
    for text in &NO_STRINGS {
        check(&rt, text, has_no_string(rt.alloc(), text.as_bytes()));
    }
}

// The string of so many bytes.
fn string_of(alloc: Global, count: usize) -> Result<StrVal, TextFault> {
    let bytes = vec![in alloc; 7u8; count]?;
    StrVal::of(alloc, &bytes)
}

fn length_of(alloc: Global, count: usize) -> Option<usize> {
    match string_of(alloc, count) {
        Ok(string) => Some(string.bytes().len()),
        Err(_) => None,
    }
}

fn is_too_long(alloc: Global, count: usize) -> bool {
    match string_of(alloc, count) {
        Ok(_) => false,
        Err(fault) => fault == TextFault::TooLong,
    }
}

// Whether so many letters are no items.
fn has_no_items(alloc: Global, count: usize) -> bool {
    match vec![in alloc; b'A'; count] {
        Ok(letters) => has_items(alloc, &letters, b"none"),
        Err(_) => false,
    }
}

// Whether an item of so many bytes stands in quotes, as it is made to.
fn is_quoted(alloc: Global, count: usize) -> bool {
    match string_of(alloc, count) {
        Ok(text) => Datum { quoted: true, text }.quoted,
        Err(_) => false,
    }
}

#[test]
fn strings_end_at_their_longest(rt: HostRuntime) {
    assert!(rt; length_of(rt.alloc(), 65_535) == Some(65_535));
    assert!(rt; is_too_long(rt.alloc(), 65_536));
    assert!(rt; has_no_items(rt.alloc(), 65_536));
    assert!(rt; is_quoted(rt.alloc(), 65_535));
}
