//! Lengths of lists, and the channels among formals.

use crate::text::{Row, fault_of, first_other};
use std::alloc::{AllocError, Global};
use std::test::Fail;

/// The text before a list of names, the text behind it, and the line of the list.
const LISTS: [(&str, &str, u32); 18] = [
    ("10 CALL P(", ")\n20 END\n", 10),
    (
        "10 DECLARE EXTERNAL FUNCTION F\n20 PRINT F(",
        ")\n30 END\n",
        20,
    ),
    ("10 IF A = 1 THEN CALL P(", ")\n20 END\n", 10),
    ("10 LET ", " = 1\n20 END\n", 10),
    ("10 INPUT ", "\n20 END\n", 10),
    ("10 READ ", "\n20 END\n", 10),
    ("10 INPUT #1: ", "\n20 END\n", 10),
    ("10 READ #1: ", "\n20 END\n", 10),
    ("10 WRITE #1: ", "\n20 END\n", 10),
    ("10 REWRITE #1: ", "\n20 END\n", 10),
    ("10 CHAIN \"P\" WITH (", ")\n20 END\n", 10),
    ("10 PROGRAM P(", ")\n20 END\n", 10),
    ("10 EXTERNAL FUNCTION F(", ")\n20 END FUNCTION\n", 10),
    ("10 PRINT 1\n20 SUB P(", ")\n30 END SUB\n40 END\n", 20),
    ("10 DEF F(", ") = 1\n20 END\n", 10),
    (
        "10 DECLARE EXTERNAL FUNCTION F\n20 DEF G = 1 - ABS(F(",
        "))\n30 END\n",
        20,
    ),
    (
        "10 DECLARE EXTERNAL FUNCTION F\n20 DO WHILE F(",
        ") = 1\n30 LOOP\n40 END\n",
        20,
    ),
    (
        "10 DECLARE EXTERNAL FUNCTION F\n20 DO\n30 LOOP UNTIL 1 < F(",
        ")\n40 END\n",
        30,
    ),
];

/// The text before a list of names that may have any length, and the text behind it.
const OTHERS: [(&str, &str); 4] = [
    ("10 PRINT ", "\n20 END\n"),
    ("10 DIM ", "\n20 END\n"),
    ("10 DECLARE NUMERIC ", "\n20 END\n"),
    ("10 DECLARE EXTERNAL SUB ", "\n20 END\n"),
];

/// Channels among formals.
const CHANNELS: [Row; 9] = [
    ("10 EXTERNAL SUB P(#1, X, #99, #2)\n20 END SUB\n", 0, 0),
    (
        "10 SUB P(#1)\n20 END SUB\n30 SUB Q(#1)\n40 END SUB\n50 END\n",
        0,
        0,
    ),
    ("10 EXTERNAL SUB P(#0)\n20 END SUB\n", 10, 20),
    ("10 EXTERNAL SUB P(#100)\n20 END SUB\n", 10, 20),
    ("10 EXTERNAL SUB P(#99999999999)\n20 END SUB\n", 10, 20),
    ("10 EXTERNAL SUB P(#2, #2)\n20 END SUB\n", 10, 20),
    ("10 EXTERNAL SUB P(#1, X, #01)\n20 END SUB\n", 10, 20),
    ("10 PRINT 1\n20 SUB P(#0)\n30 END SUB\n40 END\n", 20, 20),
    (
        "10 MODULE M\n20 EXTERNAL SUB P(#3, #3)\n30 END SUB\n40 END MODULE\n",
        20,
        20,
    ),
];

// A text with the names A1, A2, .. in a list of so many.
fn with_names(alloc: Global, before: &str, count: u8, behind: &str) -> Result<Vec<u8>, AllocError> {
    let mut text = Vec::new(alloc);
    text.extend_from_slice(before.as_bytes())?;
    for number in 0..u32::from(count) {
        let name = format!(in alloc; "A{number},")?;
        text.extend_from_slice(name.as_bytes())?;
    }
    text.extend_from_slice(b"A")?;
    text.extend_from_slice(behind.as_bytes())?;
    Ok(text)
}

// The fault of a text with one name more than that in a list.
fn fault_with(
    alloc: Global,
    before: &str,
    count: u8,
    behind: &str,
) -> Result<(u32, u8), AllocError> {
    let text = with_names(alloc, before, count, behind)?;
    Ok(fault_of(alloc, &text))
}

#[test]
fn lists_have_255_entries_at_most(rt: HostRuntime) -> Result<(), Fail> {
    for (before, behind, line) in LISTS {
        let longest = fault_with(rt.alloc(), before, 254, behind)?;
        assert_eq!(rt; longest, (0, 0), "{before}");
        let longer = fault_with(rt.alloc(), before, 255, behind)?;
        assert_eq!(rt; longer, (line, 20), "{before}");
    }
    Ok(())
}

#[test]
fn other_lists_may_be_longer(rt: HostRuntime) -> Result<(), Fail> {
    for (before, behind) in OTHERS {
        let found = fault_with(rt.alloc(), before, 255, behind)?;
        assert_eq!(rt; found, (0, 0), "{before}");
    }
    Ok(())
}

#[test]
fn formal_channels_are_1_to_99_each_once(rt: HostRuntime) {
    assert_eq!(rt; first_other(rt.alloc(), &CHANNELS), None);
}
