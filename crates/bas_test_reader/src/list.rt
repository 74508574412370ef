//! Each list, as the end of a line, and refused where a token is missing or another.

use crate::cases::check;
use crate::kind::kind_of;
use std::alloc::Global;

/// What a text is read as.
#[derive(Clone, Copy)]
enum List {
    Targets,
    Values,
    Enclosed,
    Print,
    Number,
    Ending,
}

/// Each text, what it is read as, and whether it is one.
static LISTS: [(&str, List, bool); 33] = [
    ("A", List::Targets, true),
    ("a(1, B + 2), C$(I)", List::Targets, true),
    ("A, B, LET", List::Targets, true),
    ("A,", List::Targets, false),
    ("A()", List::Targets, false),
    ("ABS", List::Targets, false),
    ("TAB", List::Targets, false),
    ("A(1)(2:3)", List::Targets, false),
    ("1, A + 2, \"x\"", List::Values, true),
    ("1,, 2", List::Values, false),
    ("#1", List::Values, false),
    ("(1, A)", List::Enclosed, true),
    ("()", List::Enclosed, false),
    ("(1", List::Enclosed, false),
    ("", List::Print, true),
    (";", List::Print, true),
    ("A; B, ; \"x\",", List::Print, true),
    ("tab(3); A(1)", List::Print, true),
    ("A B", List::Print, false),
    ("TAB", List::Print, false),
    ("TAB(1, 2)", List::Print, false),
    ("A: B", List::Print, false),
    ("1", List::Number, true),
    ("99999", List::Number, true),
    ("00000010", List::Number, true),
    ("000000010", List::Number, false),
    ("0", List::Number, false),
    ("100000", List::Number, false),
    ("10.", List::Number, false),
    ("1E1", List::Number, false),
    ("! A", List::Ending, true),
    ("else", List::Ending, true),
    ("ELSEIF", List::Ending, false),
];

/// The line that has the list between these, and the form of it.
fn around(list: List) -> (&'static str, &'static str, &'static str) {
    match list {
        List::Targets => ("READ ", "", "plain"),
        List::Values => ("WRITE #1: ", "", "plain"),
        List::Enclosed => ("CHAIN \"p\" WITH ", "", "plain"),
        List::Print => ("PRINT ", "", "print"),
        List::Number => ("GOTO ", "", "plain"),
        List::Ending => ("IF A = 1 THEN STOP ", " STOP", "if"),
    }
}

// Whether the text is such a list, where memory is left to ask.
fn is_list(alloc: Global, text: &str, list: List) -> Option<bool> {
    let (front, behind, form) = around(list);
    let line = format!(in alloc; "{front}{text}{behind}").ok()?;
    Some(kind_of(alloc, line.as_bytes()).form == form)
}

#[test]
fn lines_are_lists(rt: HostRuntime) {
    for (text, list, wanted) in &LISTS {
        check(&rt, text, is_list(rt.alloc(), text, *list) == Some(*wanted));
    }
}
