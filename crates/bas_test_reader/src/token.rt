//! Lines and their tokens.

use crate::cases::{Text, check_text};
use bas_token::{Token, TokenFault, TokenKind, tokens};
use std::alloc::Global;

/// Each line with its tokens: a letter for the kind, and the places; or `?` and the place of a bad byte.
static LINES: [(&str, &str); 66] = [
    ("", ""),
    ("   ", ""),
    ("A", "W0-1 "),
    ("LET A = 1", "W0-3 W4-5 S6-7 N8-9 "),
    ("LETA=1", "W0-4 S4-5 N5-6 "),
    ("A$B", "W0-2 W2-3 "),
    ("A$$", "?2"),
    ("A1_$", "W0-4 "),
    ("_A", "?0"),
    ("$", "?0"),
    ("1A", "N0-1 W1-2 "),
    ("ABCDEFGHIJKLMNOPQRSTUVWXYZ12345", "W0-31 "),
    ("ABCDEFGHIJKLMNOPQRSTUVWXYZ123456", "W0-32 "),
    ("><", "S0-2 "),
    ("<>", "S0-2 "),
    ("=<", "S0-2 "),
    ("=>", "S0-2 "),
    ("<=", "S0-2 "),
    (">=", "S0-2 "),
    ("==", "S0-1 S1-2 "),
    ("<<", "S0-1 S1-2 "),
    ("<=>", "S0-2 S2-3 "),
    ("< =", "S0-1 S2-3 "),
    (
        "+-*/^&(),;:#",
        "S0-1 S1-2 S2-3 S3-4 S4-5 S5-6 S6-7 S7-8 S8-9 S9-10 S10-11 S11-12 ",
    ),
    ("%", "?0"),
    ("A @", "?2"),
    ("1E5", "N0-3 "),
    ("1e5", "N0-3 "),
    ("1E", "N0-1 W1-2 "),
    ("1E+", "N0-1 W1-2 S2-3 "),
    ("1E+3", "N0-4 "),
    ("1E-30", "N0-5 "),
    ("1.E+3", "N0-5 "),
    ("1.", "N0-2 "),
    ("1.5", "N0-3 "),
    (".5", "N0-2 "),
    (".5.5", "N0-2 N2-4 "),
    ("1.5.5", "N0-3 N3-5 "),
    ("1.5.", "?3"),
    (".", "?0"),
    ("1..", "?2"),
    (".E5", "?0"),
    ("-2^2", "S0-1 N1-2 S2-3 N3-4 "),
    ("007", "N0-3 "),
    ("\"\"", "Q0-2 "),
    ("\"a\"", "Q0-3 "),
    ("\"a\"\"b\"", "Q0-6 "),
    ("\"a\"\"b", "?3"),
    ("\"a", "?0"),
    ("A\"", "?1"),
    ("\"\"\"\"", "Q0-4 "),
    ("\"a\" \"b\"", "Q0-3 Q4-7 "),
    ("\"a!b\"", "Q0-5 "),
    ("!", "R0-1 "),
    ("! all the rest", "R0-14 "),
    ("A ! \"", "W0-1 R2-5 "),
    ("REM", "R0-3 "),
    ("rem x", "R0-5 "),
    ("  Rem", "R2-5 "),
    ("REM\"x", "R0-5 "),
    ("REMARK", "W0-6 "),
    ("REM$", "W0-4 "),
    ("REM_1", "W0-5 "),
    ("A REM", "W0-1 W2-5 "),
    ("RE M", "W0-2 W3-4 "),
    ("A\tB", "W0-1 W2-3 "),
];

/// The same of bytes past 127, which stand in quotes and remarks alone, and of control bytes, which stand nowhere.
static BYTES: [(&[u8], &str); 6] = [
    (&[34, 200, 34], "Q0-3 "),
    (&[33, 200], "R0-2 "),
    (&[65, 32, 200], "?2"),
    (&[34, 7, 34], "?0"),
    (&[33, 13], "?0"),
    (&[65, 127], "?1"),
];

fn letter_of(kind: TokenKind) -> &'static str {
    match kind {
        TokenKind::Word => "W",
        TokenKind::Numeral => "N",
        TokenKind::Quoted => "Q",
        TokenKind::Sign => "S",
        TokenKind::Remark => "R",
    }
}

fn put_token(text: &mut Text, token: &Token) {
    text.put(letter_of(token.kind));
    text.put_number(i128::from(token.from));
    text.put("-");
    text.put_number(i128::from(token.to));
    text.put(" ");
}

fn put_fault(text: &mut Text, fault: &TokenFault) {
    match fault {
        TokenFault::BadToken { at } => {
            text.put("?");
            text.put_number(i128::from(*at));
        }
        TokenFault::Memory => text.put("no memory"),
    }
}

fn put_tokens(text: &mut Text, found: &[Token]) {
    for token in found {
        put_token(text, token);
    }
}

fn shown(alloc: Global, line: &[u8]) -> Text {
    let mut text = Text::new(alloc);
    if line.len() > 4096 {
        text.put("too long");
        return text;
    }
    match tokens(alloc, line) {
        Ok(found) => put_tokens(&mut text, found.as_slice()),
        Err(fault) => put_fault(&mut text, &fault),
    }
    text
}

#[test]
fn lines_have_their_tokens(rt: HostRuntime) {
    for (line, wanted) in &LINES {
        check_text(&rt, line, &shown(rt.alloc(), line.as_bytes()), wanted);
    }
}

#[test]
fn bytes_have_their_places(rt: HostRuntime) {
    for (line, wanted) in &BYTES {
        check_text(&rt, wanted, &shown(rt.alloc(), line), wanted);
    }
}
