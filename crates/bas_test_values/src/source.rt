//! Files and the lines that they have; lines and their numbers.

use crate::cases::{after, check};
use bas_base::Seq;
use bas_source::{logical_lines, numbered};
use std::alloc::Global;

/// Each file, and its logical lines, each behind a `|`.
static FILES: [(&str, &str); 13] = [
    ("", ""),
    ("\n\n  \n\t\n", ""),
    ("10 END", "|10 END"),
    ("10 END\n", "|10 END"),
    ("10 PRINT\r\n20 END\r\n", "|10 PRINT|20 END"),
    ("10 PRINT\t1\n20 END\r", "|10 PRINT 1|20 END\r"),
    ("10 PRINT\r\r\n20 END", "|10 PRINT\r|20 END"),
    (
        "10 LET A = 1 + &\n  & 2\n20 END\n",
        "|10 LET A = 1 +    2|20 END",
    ),
    ("10 GO&\n&TO 20\n20 END", "|10 GOTO 20|20 END"),
    ("10 PRINT \"a&  \n\n   \n& b\"\n", "|10 PRINT \"a   b\""),
    ("10 A&\n&\n&B\n", "|10 AB"),
    ("10 A &\n20 END\n", "|10 A &|20 END"),
    ("10 A\n& 20 END\n", "|10 A|& 20 END"),
];

/// Each line, its number, or 0 where it has none, and what stands behind it.
static LINES: [(&str, u32, &str); 9] = [
    ("10 END", 10, " END"),
    ("10END", 10, "END"),
    ("00000010", 10, ""),
    ("000000010 END", 0, ""),
    ("99999 END", 99999, " END"),
    ("100000 END", 0, ""),
    ("0 END", 0, ""),
    (" 10 END", 0, ""),
    ("END", 0, ""),
];

fn after_line<'a>(text: &'a [u8], line: &[u8]) -> Option<&'a [u8]> {
    after(after(text, b"|")?, line)
}

// Whether these are the lines, each behind a `|`.
fn are_lines(lines: &[Seq<u8>], wanted: &[u8]) -> bool {
    let mut left = wanted;
    for line in lines {
        match after_line(left, line.items()) {
            Some(rest) => left = rest,
            None => return false,
        }
    }
    left.is_empty()
}

fn has_lines(alloc: Global, file: &str, wanted: &str) -> bool {
    match logical_lines(alloc, file.as_bytes()) {
        Ok(lines) => are_lines(lines.as_slice(), wanted.as_bytes()),
        Err(_) => false,
    }
}

fn number_and_rest(line: &[u8]) -> (u32, &[u8]) {
    match numbered(line) {
        Some((number, rest)) => (number.number(), rest),
        None => (0, &[]),
    }
}

#[test]
fn files_have_their_lines(rt: HostRuntime) {
    for (file, lines) in &FILES {
        check(&rt, file, has_lines(rt.alloc(), file, lines));
    }
}

#[test]
fn lines_have_their_numbers(rt: HostRuntime) {
    for (line, number, rest) in &LINES {
        let found = number_and_rest(line.as_bytes());
        check(&rt, line, found.0 == *number && found.1 == rest.as_bytes());
    }
}
