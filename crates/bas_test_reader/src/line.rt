//! Lines and what they are.

use crate::cases::check;
use crate::kind::{item_of, kind_of};
use bas_ast::LineItem;
use std::alloc::Global;

/// Each line with what it is.
static LINES: [(&str, &str); 54] = [
    ("", "nothing"),
    ("  ! and no more", "nothing"),
    ("!", "nothing"),
    ("\u{1}", "none"),
    ("REM", "rem"),
    ("rem a \"remark", "rem"),
    ("REMARK", "none"),
    ("DATA", "decl"),
    ("DATA 1, \"a!b\" ! c", "decl"),
    ("DATA \"a", "none"),
    ("LET A = 1", "plain"),
    ("LET A, B(1) = 1 ! set", "plain"),
    ("LET A = 1 2", "none"),
    ("A = 1", "none"),
    ("LET A = 1 REM", "none"),
    ("PRINT", "print"),
    ("PRINT USING", "print"),
    ("PRINT USING; A", "print"),
    ("PRINT USING A: B", "using"),
    ("PRINT USING (A): B; C;", "using"),
    ("PRINT USING A:", "none"),
    ("PRINT #1, USING A: B", "using"),
    ("PRINT #1: A", "plain"),
    ("PRINT #1 A", "none"),
    ("INPUT PROMPT \"x\": A", "plain"),
    ("INPUT PROMPT, A", "plain"),
    ("INPUT PROMPT (1), A", "plain"),
    ("INPUT PROMPT \"x\" A", "none"),
    ("READ #1: A", "plain"),
    ("READ #1 A", "none"),
    ("GO TO 100", "plain"),
    ("GOTO 100000", "none"),
    ("IF A = 1 THEN", "part"),
    ("IF A = 1 THEN ! so", "part"),
    ("IF A = 1 THEN 100", "if"),
    ("IF A = 1 THEN PRINT A ELSE 200", "if"),
    ("IF A = 1 THEN PRINT USING A: B ELSE STOP ! so", "if"),
    ("IF A = 1 THEN 100 ELSE", "none"),
    ("IF A = 1 THEN 100 200", "none"),
    ("IF A = 1 PRINT A", "none"),
    ("IF A = 1 THEN IF B = 1 THEN 100", "none"),
    ("ON A GOTO 100, 200", "on goto"),
    ("ON A GO SUB 100 ELSE PRINT", "on gosub"),
    ("ON A GOTO 100, 200 ELSE 300", "none"),
    ("ON A GOTO", "none"),
    ("ON A STOP", "none"),
    ("ELSE", "part"),
    ("ELSE PRINT", "none"),
    ("END IF ! done", "part"),
    ("END WHILE", "none"),
    ("FOR I = 1 TO 9 STEP 2", "part"),
    ("DIM A(9), B$ * 8", "decl"),
    ("DIM A(", "none"),
    ("DIM A REM", "none"),
];

fn is_remark_of(item: &LineItem, wanted: &[u8]) -> bool {
    match item {
        LineItem::Rem(bytes) => bytes.items() == wanted,
        _ => false,
    }
}

fn is_remark_line(alloc: Global, line: &[u8], wanted: &[u8]) -> bool {
    match item_of(alloc, line) {
        Ok(item) => is_remark_of(&item, wanted),
        Err(_) => false,
    }
}

#[test]
fn lines_are_what_the_grammar_says(rt: HostRuntime) {
    for (line, wanted) in &LINES {
        check(
            &rt,
            line,
            kind_of(rt.alloc(), line.as_bytes()).form == *wanted,
        );
    }
}

#[test]
fn a_remark_keeps_its_bytes(rt: HostRuntime) {
    assert!(rt; is_remark_line(rt.alloc(), b"REM\ta \"b ", b" a \"b "));
}
