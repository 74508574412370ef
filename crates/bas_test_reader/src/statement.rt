//! Each alternative, read as a whole line, and refused where a token is missing or another.

use crate::cases::check;
use crate::kind::{check_family, kind_of};
use bas_token::{Token, tokens};
use std::alloc::Global;

/// Each text, and whether it is a statement.
static STATEMENTS: [(&str, bool); 66] = [
    ("LET A = 1", true),
    ("let a(i, 2), b$ = \"x\" & c$", true),
    ("LET LET = READ", true),
    ("LET A 1", false),
    ("LET A =", false),
    ("LET = 1", false),
    ("LET PRINT = 1", false),
    ("LET TAB = 1", false),
    ("A = 1", false),
    ("PRINT", true),
    ("PRINT A; TAB(3); \"x\",", true),
    ("PRINT USING", true),
    ("PRINT USING, A", true),
    ("PRINT USING A: B", false),
    ("PRINT A B", false),
    ("PRINT TAB", false),
    ("PRINT #1: A", false),
    ("INPUT A, B$(2)", true),
    ("INPUT PROMPT \"x\": A", true),
    ("INPUT PROMPT", true),
    ("INPUT PROMPT, A", true),
    ("INPUT PROMPT(1), A", true),
    ("INPUT PROMPT (1): A", true),
    ("INPUT PROMPT (1) + 2: A", true),
    ("INPUT PROMPT \"x\", A", false),
    ("INPUT PROMPT A:", false),
    ("INPUT 1", false),
    ("INPUT", false),
    ("LINE INPUT A$", true),
    ("LINE INPUT PROMPT A$: B$", true),
    ("LINE INPUT", false),
    ("LINE A$", false),
    ("READ A, B", true),
    ("READ #1: A", false),
    ("READ A,", false),
    ("RESTORE", true),
    ("RESTORE 100", true),
    ("RESTORE 100000", false),
    ("GOTO 10", true),
    ("GO TO 10", true),
    ("GOTO 0", false),
    ("GOTO A", false),
    ("GO 10", false),
    ("GOSUB 99999", true),
    ("GO SUB 10", true),
    ("GOSUB", false),
    ("RETURN", true),
    ("RETURN 1", false),
    ("STOP", true),
    ("EXIT DO", true),
    ("EXIT FOR", true),
    ("EXIT SUB", true),
    ("EXIT FUNCTION", true),
    ("EXIT HANDLER", true),
    ("EXIT IF", false),
    ("EXIT", false),
    ("CALL S", true),
    ("CALL S(A, #1, \"x\", B())", false),
    ("CALL S(A, #1, \"x\", F(2))", true),
    ("CALL S()", false),
    ("RETRY", true),
    ("CONTINUE", true),
    ("CAUSE EXCEPTION 100 + A", true),
    ("CAUSE 100", false),
    ("CHAIN \"p\" WITH (1, A$)", true),
    ("CHAIN \"p\" (1)", false),
];

/// Each text, and which statement it begins with.
static KINDS: [(&str, &str); 7] = [
    ("GOTO 10", "GOTO"),
    ("GO TO 10", "GOTO"),
    ("go sub 00010", "GOSUB"),
    ("GO 10", "none"),
    ("INPUT PROMPT (1): A", "prompt"),
    ("INPUT PROMPT(1), A", "no prompt"),
    ("INPUT PROMPT A:", "no prompt"),
];

// The statement that the longest beginning of the line is, cut behind one of the tokens.
fn longest_of(alloc: Global, line: &[u8], tokens: &[Token]) -> &'static str {
    for token in tokens.iter().rev() {
        let Some(front) = line.get(..usize::from(token.to)) else {
            return "no token";
        };
        let statement = kind_of(alloc, front).statement;
        if statement != "none" {
            return statement;
        }
    }
    "none"
}

fn longest(alloc: Global, line: &[u8]) -> &'static str {
    if line.len() > 4096 {
        return "too long";
    }
    match tokens(alloc, line) {
        Ok(found) => longest_of(alloc, line, found.as_slice()),
        Err(_) => "no tokens",
    }
}

#[test]
fn lines_are_of_their_kind(rt: HostRuntime) {
    for (line, wanted) in &KINDS {
        check(&rt, line, longest(rt.alloc(), line.as_bytes()) == *wanted);
    }
}

#[test]
fn lines_are_statements(rt: HostRuntime) {
    check_family(&rt, rt.alloc(), "statement", &STATEMENTS);
}
