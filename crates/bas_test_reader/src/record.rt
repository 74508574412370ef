//! Each alternative, read as a whole line, and refused where a token is missing or another.

use crate::cases::check;
use crate::kind::{check_family, item_of};
use bas_ast::{LineItem, Plain, Simple};
use std::alloc::Global;

/// Each text, and whether it is a statement that gives or takes values.
static TRANSFERS: [(&str, bool); 47] = [
    ("PRINT #1", true),
    ("PRINT #1:", true),
    ("print #1: A; B, TAB(3); \"x\"", true),
    ("PRINT #", false),
    ("PRINT #1 A", false),
    ("PRINT #1, A", false),
    ("PRINT A", false),
    ("PRINT USING \"##\": A", true),
    ("PRINT USING F$: A, B; C;", true),
    ("PRINT #1, USING F$: A;", true),
    ("PRINT USING F$", false),
    ("PRINT USING F$:", false),
    ("PRINT USING F$: A,", false),
    ("PRINT USING F$: A;;", false),
    ("PRINT #1 USING F$: A", false),
    ("PRINT #1, F$: A", false),
    ("INPUT #1: A, B$(2)", true),
    ("INPUT #1, IF MISSING THEN EXIT DO: A", true),
    ("INPUT #1 A", false),
    ("INPUT #1, SAME: A", false),
    ("INPUT A", false),
    ("LINE INPUT #1: A$", true),
    ("LINE INPUT #1, IF THERE THEN 100: A$", true),
    ("LINE #1: A$", false),
    ("READ #1: A", true),
    ("READ #1, SAME: A", true),
    ("READ #1, KEY = K$, IF MISSING THEN 200: A, B$", true),
    ("READ #1, IF MISSING THEN EXIT FOR: A", true),
    ("READ #1 A", false),
    ("READ #1, : A", false),
    ("READ #1, SAME A", false),
    ("READ #1, IF MISSING THEN EXIT SUB: A", false),
    ("READ #1, IF MISSING 200: A", false),
    ("READ #1, IF THEN 200: A", false),
    ("READ #1, IF MISSING THEN 0: A", false),
    ("READ #1, IF MISSING THEN 200, SAME: A", false),
    ("READ #1, IF MISSING THEN EXIT: A", false),
    ("READ A", false),
    ("WRITE #1: A, B + 1", true),
    ("WRITE #1, RECORD 4, IF THERE THEN EXIT DO: \"x\"", true),
    ("WRITE #1", false),
    ("WRITE #1:", false),
    ("WRITE #1: A,", false),
    ("WRITE A", false),
    ("REWRITE #1, SAME: A", true),
    ("REWRITE #1: A; B", false),
    ("LET A = 1", false),
];

/// Each text, and whether it opens a file.
static OPENINGS: [(&str, bool); 27] = [
    ("OPEN #1: NAME \"a\"", true),
    ("OPEN #N: NAME NAME", true),
    ("OPEN #1: NAME A$, ORGANIZATION STREAM", true),
    ("OPEN #1: NAME A$, ORGANIZATION SEQUENTIAL", true),
    ("OPEN #1: NAME A$, ORGANIZATION RELATIVE", true),
    ("OPEN #1: NAME A$, ORGANIZATION KEYED", true),
    ("OPEN #1: NAME A$, RECTYPE DISPLAY", true),
    ("OPEN #1: NAME A$, RECTYPE INTERNAL", true),
    ("OPEN #1: NAME A$, ACCESS INPUT", true),
    ("OPEN #1: NAME A$, ACCESS OUTPUT", true),
    ("OPEN #1: NAME A$, ACCESS OUTIN", true),
    ("OPEN #1: NAME A$, CREATE NEW", true),
    ("OPEN #1: NAME A$, CREATE OLD", true),
    ("OPEN #1: NAME A$, CREATE NEWOLD", true),
    ("OPEN #1: NAME A$, RECSIZE 80", true),
    ("OPEN #1: NAME A$, RECSIZE 99999999999999999999", true),
    ("OPEN #1: NAME A$, CREATE OLD, ACCESS INPUT", true),
    ("OPEN #1: \"a\"", false),
    ("OPEN #1 NAME \"a\"", false),
    ("OPEN #1: NAME \"a\" ACCESS INPUT", false),
    ("OPEN #1: NAME ACCESS INPUT", false),
    ("OPEN #1: NAME A$, ORGANIZATION INTERNAL", false),
    ("OPEN #1: NAME A$, RECTYPE STREAM", false),
    ("OPEN #1: NAME A$, ACCESS NEW", false),
    ("OPEN #1: NAME A$, CREATE INPUT", false),
    ("OPEN #1: NAME A$, RECSIZE 8.0", false),
    ("OPEN #1: NAME A$, RECSIZE N", false),
];

/// Each text, and whether it closes or sets a file, or deletes in it.
static SETTINGS: [(&str, bool); 23] = [
    ("CLOSE #N + 1", true),
    ("CLOSE 1", false),
    ("SET #1: POINTER BEGIN", true),
    ("SET #1: POINTER END", true),
    ("SET #1: POINTER NEXT", true),
    ("SET #1: POINTER SAME", true),
    ("SET #1: POINTER RECORD N + 1", true),
    ("SET #1: POINTER KEY = \"a\"", true),
    ("SET #1: POINTER KEY >= K$", true),
    ("SET #1: POINTER KEY > K$", true),
    ("SET #1: POINTER", false),
    ("SET #1: BEGIN", false),
    ("SET #1 POINTER BEGIN", false),
    ("SET #1: POINTER RECORD", false),
    ("SET #1: POINTER KEY \"a\"", false),
    ("SET #1: POINTER KEY < \"a\"", false),
    ("SET #1: POINTER KEY => \"a\"", false),
    ("SET #1: POINTER NEWEST", false),
    ("DELETE #1", true),
    ("DELETE #1, KEY = \"a\", IF MISSING THEN EXIT DO", true),
    ("DELETE #1, IF MISSING THEN 30, NEXT", false),
    ("DELETE #1: A", false),
    ("DELETE 1", false),
];

/// Each text, the number of its values behind the first, and whether a `;` ends it.
static FORMATTED: [(&str, usize, bool); 4] = [
    ("PRINT USING F$: A", 0, false),
    ("PRINT USING F$: A;", 0, true),
    ("PRINT USING F$: A; B", 1, false),
    ("PRINT #1, USING F$: A, B; C;", 2, true),
];

// The number of the values behind the first that a format is used for, and whether a `;` ends them.
fn formatted(item: &LineItem) -> Option<(usize, bool)> {
    let LineItem::Simple(simple) = item else {
        return None;
    };
    match simple.get() {
        Simple::Plain(
            Plain::PrintUsing {
                rest,
                semicolon,
                ..
            },
        ) => Some((rest.items().len(), *semicolon)),
        _ => None,
    }
}

fn formatted_line(alloc: Global, line: &[u8]) -> Option<(usize, bool)> {
    match item_of(alloc, line) {
        Ok(item) => formatted(&item),
        Err(_) => None,
    }
}

#[test]
fn lines_are_transfers(rt: HostRuntime) {
    check_family(&rt, rt.alloc(), "channel statement", &TRANSFERS);
}

#[test]
fn lines_are_openings(rt: HostRuntime) {
    check_family(&rt, rt.alloc(), "channel statement", &OPENINGS);
}

#[test]
fn lines_are_settings(rt: HostRuntime) {
    check_family(&rt, rt.alloc(), "channel statement", &SETTINGS);
}

#[test]
fn values_are_formatted(rt: HostRuntime) {
    for (line, more, last) in &FORMATTED {
        let found = formatted_line(rt.alloc(), line.as_bytes());
        check(&rt, line, found == Some((*more, *last)));
    }
}
