//! Strings: what each operation gives, on tables of values that another program made.

use crate::cases::check;
use bas_text::{StrVal, TextFault};
use std::alloc::Global;
use std::cmp::Ordering;
use std::process::Abort;

/// Each string, a first and a last place, and its part between them.
static PARTS: [(&str, i64, i64, &str); 29] = [
    (
        "abc",
        -9_223_372_036_854_775_808,
        9_223_372_036_854_775_807,
        "abc",
    ),
    (
        "abc",
        9_223_372_036_854_775_807,
        -9_223_372_036_854_775_808,
        "",
    ),
    ("", 0, 1, ""),
    ("", 1, 1, ""),
    ("abc", -1, -1, ""),
    ("abc", -1, 0, ""),
    ("abc", -1, 1, "a"),
    ("abc", -1, 3, "abc"),
    ("abc", -1, 4, "abc"),
    ("abc", 1, -1, ""),
    ("abc", 1, 0, ""),
    ("abc", 1, 1, "a"),
    ("abc", 1, 3, "abc"),
    ("abc", 1, 4, "abc"),
    ("abc", 2, -1, ""),
    ("abc", 2, 0, ""),
    ("abc", 2, 1, ""),
    ("abc", 2, 3, "bc"),
    ("abc", 2, 4, "bc"),
    ("abc", 3, -1, ""),
    ("abc", 3, 0, ""),
    ("abc", 3, 1, ""),
    ("abc", 3, 3, "c"),
    ("abc", 3, 4, "c"),
    ("abc", 4, -1, ""),
    ("abc", 4, 0, ""),
    ("abc", 4, 1, ""),
    ("abc", 4, 3, ""),
    ("abc", 4, 4, ""),
];

/// Each string, the string looked for, the place to look from, and the place found.
static PLACES: [(&str, &str, i64, u32); 35] = [
    ("abc", "", 9_223_372_036_854_775_807, 0),
    ("abc", "", -9_223_372_036_854_775_808, 1),
    ("", "", -1, 1),
    ("", "", 1, 1),
    ("", "", 2, 0),
    ("", "a", 1, 0),
    ("a", "a", -1, 1),
    ("a", "a", 2, 0),
    ("a", "aa", 1, 0),
    ("aba", "", 0, 1),
    ("aba", "", 1, 1),
    ("aba", "", 2, 2),
    ("aba", "", 3, 3),
    ("aba", "", 4, 4),
    ("aba", "", 5, 0),
    ("aba", "a", 0, 1),
    ("aba", "a", 1, 1),
    ("aba", "a", 2, 3),
    ("aba", "a", 3, 3),
    ("aba", "a", 4, 0),
    ("aba", "a", 5, 0),
    ("aba", "ab", 0, 1),
    ("aba", "ab", 1, 1),
    ("aba", "ab", 2, 0),
    ("aba", "ab", 3, 0),
    ("aba", "ab", 4, 0),
    ("aba", "ab", 5, 0),
    ("aabaab", "aab", 1, 1),
    ("aabaab", "aab", 2, 4),
    ("aabaab", "aab", 4, 4),
    ("aabaab", "aab", 5, 0),
    ("aabaab", "abab", 1, 0),
    ("aabaab", "abab", 2, 0),
    ("aabaab", "abab", 4, 0),
    ("aabaab", "abab", 5, 0),
];

/// Strings in rising order, each less than every later one.
static RISING: [&str; 11] = ["", " ", "A", "AB", "B", "Z", "a", "aa", "ab", "b", "\u{e9}"];

/// Each string with its capitals and its small letters.
static LETTERS: [(&str, &str, &str); 5] = [
    ("", "", ""),
    ("azAZ", "AZAZ", "azaz"),
    ("`{@[", "`{@[", "`{@["),
    ("a1 B_", "A1 B_", "a1 b_"),
    ("\u{e9}E", "\u{e9}E", "\u{e9}e"),
];

/// Each string, without the spaces at its front, and without those at its end.
static TRIMS: [(&str, &str, &str); 7] = [
    ("", "", ""),
    ("   ", "", ""),
    ("ab", "ab", "ab"),
    ("  a b ", "a b ", "  a b"),
    ("\t a", "\t a", "\t a"),
    ("a \t", "a \t", "a \t"),
    (" \n ", "\n ", " \n"),
];

/// A string repeated and joined with another one repeated: each with its number of times, and the
/// length of the whole, or None where it is too long.
static LENGTHS: [(&str, u64, &str, u64, Option<usize>); 13] = [
    ("ab", 3, "a", 1, Some(7)),
    ("ab", 0, "a", 0, Some(0)),
    ("", 18_446_744_073_709_551_615, "", 1, Some(0)),
    ("a", 65_535, "", 1, Some(65_535)),
    ("", 1, "a", 65_535, Some(65_535)),
    ("a", 65_534, "a", 1, Some(65_535)),
    ("a", 65_535, "a", 1, None),
    ("a", 65_536, "", 1, None),
    ("ab", 32_767, "", 1, Some(65_534)),
    ("ab", 32_767, "a", 1, Some(65_535)),
    ("ab", 32_768, "", 1, None),
    ("a", 18_446_744_073_709_551_615, "", 1, None),
    ("ab", 9_223_372_036_854_775_808, "", 1, None),
];

/// A letter so many times, searched for so many of it and then another string: the place from which
/// the search begins, and the place found.
static LONG_PLACES: [(u64, &str, i64, u32); 5] = [
    (32_767, "b", 1, 0),
    (32_767, "", 32_769, 32_769),
    (32_767, "", 32_770, 0),
    (0, "", 65_536, 65_536),
    (0, "", 65_537, 0),
];

fn string(alloc: Global, text: &str) -> Result<StrVal, TextFault> {
    StrVal::of(alloc, text.as_bytes())
}

fn is(found: Option<StrVal>, wanted: &str) -> bool {
    match found {
        Some(text) => text.bytes() == wanted.as_bytes(),
        None => false,
    }
}

fn part_is(alloc: Global, text: &str, m: i64, n: i64, wanted: &str) -> bool {
    match string(alloc, text) {
        Ok(whole) => is(whole.part(alloc, m, n).ok(), wanted),
        Err(_) => false,
    }
}

fn place_of(alloc: Global, text: &str, looked_for: &str, from: i64) -> Option<u32> {
    let a = string(alloc, text).ok()?;
    let b = string(alloc, looked_for).ok()?;
    Some(a.position(&b, from))
}

fn order_of(alloc: Global, a: &str, b: &str) -> Option<Ordering> {
    let first = string(alloc, a).ok()?;
    let second = string(alloc, b).ok()?;
    Some(first.compare(&second))
}

fn upper_is(alloc: Global, text: &str, wanted: &str) -> bool {
    match string(alloc, text) {
        Ok(whole) => is(whole.upper(alloc).ok(), wanted),
        Err(_) => false,
    }
}

fn lower_is(alloc: Global, text: &str, wanted: &str) -> bool {
    match string(alloc, text) {
        Ok(whole) => is(whole.lower(alloc).ok(), wanted),
        Err(_) => false,
    }
}

fn left_is(alloc: Global, text: &str, wanted: &str) -> bool {
    match string(alloc, text) {
        Ok(whole) => is(whole.trim_left(alloc).ok(), wanted),
        Err(_) => false,
    }
}

fn right_is(alloc: Global, text: &str, wanted: &str) -> bool {
    match string(alloc, text) {
        Ok(whole) => is(whole.trim_right(alloc).ok(), wanted),
        Err(_) => false,
    }
}

fn times(alloc: Global, text: &str, n: u64) -> Result<StrVal, TextFault> {
    let once = string(alloc, text)?;
    once.repeat(alloc, n)
}

fn whole(alloc: Global, a: &str, m: u64, b: &str, n: u64) -> Result<StrVal, TextFault> {
    let first = times(alloc, a, m)?;
    let second = times(alloc, b, n)?;
    first.join(alloc, &second)
}

// Whether a string is so long, or, where that is None, was too long to be made.
fn is_of_length(made: Result<StrVal, TextFault>, wanted: Option<usize>) -> bool {
    match made {
        Ok(text) => wanted == Some(text.bytes().len()),
        Err(TextFault::TooLong) => wanted.is_none(),
        Err(TextFault::Memory) => false,
    }
}

// The place of so many letters and then another string in the longest string of that letter.
fn long_place_of(alloc: Global, count: u64, last: &str, from: i64) -> Option<u32> {
    let text = times(alloc, "a", 65_535).ok()?;
    let b = whole(alloc, "a", count, last, 1).ok()?;
    Some(text.position(&b, from))
}

#[test]
fn parts_are_cut(rt: HostRuntime) {
    for (text, m, n, wanted) in &PARTS {
        let found = part_is(rt.alloc(), text, *m, *n, wanted);
        assert!(rt; found, "{text} {m} {n}");
    }
}

#[test]
fn places_are_found(rt: HostRuntime) {
    for (text, looked_for, from, wanted) in &PLACES {
        let found = place_of(rt.alloc(), text, looked_for, *from);
        assert!(rt; found == Some(*wanted), "{text} {looked_for} {from}");
    }
}

#[test]
fn long_strings_are_searched(rt: HostRuntime) {
    for (count, last, from, wanted) in &LONG_PLACES {
        let found = long_place_of(rt.alloc(), *count, last, *from);
        assert!(rt; found == Some(*wanted), "{count} {from}");
    }
}

// Ends the test where the string does not stand to each as its place stands to theirs.
fn check_order(rt: &impl Abort, alloc: Global, i: usize, a: &str) {
    for (j, b) in RISING.iter().enumerate() {
        let found = order_of(alloc, a, b);
        assert!(rt; found == Some(i.cmp(&j)), "{a} {b}");
    }
}

#[test]
fn strings_are_in_order(rt: HostRuntime) {
    for (i, a) in RISING.iter().enumerate() {
        check_order(&rt, rt.alloc(), i, a);
    }
}

#[test]
fn letters_change_case(rt: HostRuntime) {
    for (text, capitals, small) in &LETTERS {
        check(&rt, text, upper_is(rt.alloc(), text, capitals));
        check(&rt, text, lower_is(rt.alloc(), text, small));
    }
}

#[test]
fn spaces_are_trimmed(rt: HostRuntime) {
    for (text, front, end) in &TRIMS {
        check(&rt, text, left_is(rt.alloc(), text, front));
        check(&rt, text, right_is(rt.alloc(), text, end));
    }
}

#[test]
fn joined_and_repeated_strings_end_at_their_longest(rt: HostRuntime) {
    for (a, m, b, n, wanted) in &LENGTHS {
        let is_right = is_of_length(whole(rt.alloc(), a, *m, b, *n), *wanted);
        assert!(rt; is_right, "{a} {m} {b} {n}");
    }
    assert!(rt; is(whole(rt.alloc(), "ab", 2, "c", 1).ok(), "ababc"));
}
