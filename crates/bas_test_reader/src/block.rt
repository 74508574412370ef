//! Files, and how many units or which fault they have.

use crate::cases::{Text, check_text};
use crate::file::count_of;
use std::alloc::Global;
use std::process::Abort;

/// Each file, and how many units it has.
static UNITS: [(&str, &str); 9] = [
    ("10 END\n", "1"),
    ("10 REM one\n20 PROGRAM P\n30 END\n40 REM two\n", "1"),
    (
        "10 LET A = 1 + &\n& 2\n20 PR&\n&INT \"a&\n&b\"\n30 END\n",
        "1",
    ),
    ("10 PRINT 1\r\n20 END\r\n", "1"),
    ("10 END\n20 END\n", "2"),
    (
        "10 MODULE M\n20 LET A = 1\n30 EXTERNAL SUB S\n40 END SUB\n50 REM\n60 END MODULE\n",
        "1",
    ),
    (
        "10 EXTERNAL FUNCTION F(X)\n20 LET F = X\n30 END FUNCTION\n",
        "1",
    ),
    (
        "10 WHEN EXCEPTION IN\n20 WHEN EXCEPTION IN\n30 USE\n40 END WHEN\n50 USE\n60 END WHEN\n70 END\n",
        "1",
    ),
    (
        "10 SELECT CASE A\n20 REM\n30 CASE ELSE\n40 END SELECT\n50 END\n",
        "1",
    ),
];

/// Each file, and its fault.
static FAULTS: [(&str, &str); 23] = [
    (
        "10 IF A = 0 THEN\n20 DO\n30 END IF\n40 LOOP\n50 END\n",
        "BadNest(Line { number: 30 })",
    ),
    ("10 DO\n20 PRINT 1\n", "Unclosed(Line { number: 10 })"),
    ("", "NoUnit"),
    ("10 REM\n20 ! a remark\n30\n", "NoUnit"),
    ("10 PRINT 1\n10 END\n", "OutOfOrder(Line { number: 10 })"),
    ("10 PRINT 1\n9 END\n", "OutOfOrder(Line { number: 9 })"),
    ("PRINT 1\n", "Unnumbered(1)"),
    ("10 PRINT 1\n\n 20 END\n", "Unnumbered(2)"),
    ("0 END\n", "Unnumbered(1)"),
    ("10 PRONT 1\n", "BadLine(Line { number: 10 })"),
    ("10 LET PRINT = 1\n20 END\n", "BadLine(Line { number: 10 })"),
    (
        "10 LOOP\n20 PRONT\n30 END\n",
        "BadLine(Line { number: 20 })",
    ),
    ("10 PRONT\n5 END\n", "BadLine(Line { number: 10 })"),
    ("10 PRINT 1\n5 PRONT\n", "OutOfOrder(Line { number: 5 })"),
    ("10 END\n20 PRINT 1\n", "Unclosed(Line { number: 20 })"),
    (
        "10 EXTERNAL SUB S\n20 END FUNCTION\n",
        "BadNest(Line { number: 20 })",
    ),
    (
        "10 WHEN EXCEPTION IN\n20 END WHEN\n30 END\n",
        "BadNest(Line { number: 20 })",
    ),
    (
        "10 SELECT CASE A\n20 PRINT\n30 END SELECT\n40 END\n",
        "BadNest(Line { number: 20 })",
    ),
    (
        "10 IF A = 1 THEN\n20 ELSE\n30 ELSEIF A = 2 THEN\n40 END IF\n50 END\n",
        "BadNest(Line { number: 30 })",
    ),
    (
        "10 DO\n20 SUB S\n30 END SUB\n40 LOOP\n50 END\n",
        "BadNest(Line { number: 20 })",
    ),
    (
        "10 DO\n20 DEF F(X) = X\n30 LOOP\n40 END\n",
        "BadNest(Line { number: 20 })",
    ),
    (
        "10 FOR I = 1 TO 2\n20 DO\n30 NEXT I\n40 LOOP\n50 END\n",
        "BadNest(Line { number: 30 })",
    ),
    (
        "10 REM first\n20 FOR I = 1 TO 2\n30 NEXT I\n",
        "Unclosed(Line { number: 10 })",
    ),
];

/// The bytes of a line, and what its file is read as.
static LENGTHS: [(usize, &str); 2] = [(4096, "1"), (4097, "TooLong(2)")];

/// How many blocks stand one in the other, and what their file is read as.
static DEPTHS: [(u32, &str); 2] = [(64, "1"), (65, "BadNest(Line { number: 164 })")];

// The number of the file's units, or its fault.
fn shown(alloc: Global, file: &str) -> Text {
    let mut text = Text::new(alloc);
    match count_of(alloc, file.as_bytes()) {
        Ok(count) => text.put_number(count as i128),
        Err(fault) => text.put_value(&fault),
    }
    text
}

fn check_files(rt: &impl Abort, alloc: Global, cases: &[(&str, &str)]) {
    for (file, wanted) in cases {
        check_text(rt, file, &shown(alloc, file), wanted);
    }
}

// A line of so many bytes, behind another one.
fn with_line_of(alloc: Global, bytes: usize) -> Text {
    let mut file = Text::new(alloc);
    file.put("10 REM\n20 END");
    for _ in 6..bytes {
        file.put(" ");
    }
    file
}

// So many blocks, one in the other.
fn with_blocks(alloc: Global, blocks: u32) -> Text {
    let mut file = Text::new(alloc);
    for number in 100..100u32.saturating_add(blocks) {
        file.put_line(number, "DO");
    }
    for number in 300..300u32.saturating_add(blocks) {
        file.put_line(number, "LOOP");
    }
    file.put_line(999, "END");
    file
}

#[test]
fn files_have_units(rt: HostRuntime) {
    check_files(&rt, rt.alloc(), &UNITS);
}

#[test]
fn files_have_faults(rt: HostRuntime) {
    check_files(&rt, rt.alloc(), &FAULTS);
}

#[test]
fn lines_have_4096_bytes_at_most(rt: HostRuntime) {
    for (bytes, wanted) in &LENGTHS {
        let file = with_line_of(rt.alloc(), *bytes);
        check_text(&rt, wanted, &shown(rt.alloc(), file.as_str()), wanted);
    }
}

#[test]
fn blocks_are_64_deep_at_most(rt: HostRuntime) {
    for (blocks, wanted) in &DEPTHS {
        let file = with_blocks(rt.alloc(), *blocks);
        check_text(&rt, wanted, &shown(rt.alloc(), file.as_str()), wanted);
    }
}
