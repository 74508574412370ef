//! Which fault of several is told.

use crate::text::{Row, first_other};

/// Lines that break two rules: the least is told.
const RULES: [Row; 13] = [
    ("10 DIM A(3)\n20 DIM A(0)\n30 END\n", 20, 1),
    ("10 PRINT A(1) + \"x\"\n20 END\n", 10, 3),
    ("10 LET A(1) = \"x\"\n20 END\n", 10, 2),
    ("10 DEF F = \"x\" & F(1)\n20 END\n", 10, 3),
    ("10 PRINT ABS(1, 2) + A(1)\n20 END\n", 10, 12),
    ("10 IF A = 1 THEN GOSUB 15 ELSE GOTO 15\n20 END\n", 10, 4),
    ("10 IF A = 1 THEN EXIT DO ELSE GOSUB 15\n20 END\n", 10, 5),
    ("10 IF A = 1 THEN RETRY ELSE EXIT FOR\n20 END\n", 10, 6),
    ("10 WRITE #1, IF MISSING THEN 15: 1\n20 END\n", 10, 4),
    ("10 READ #1, IF THERE THEN EXIT DO: A\n20 END\n", 10, 6),
    ("10 OPEN #A$: NAME \"x\", RECSIZE 1\n20 END\n", 10, 3),
    ("10 DECLARE NUMERIC A(0)*39\n20 END\n", 10, 13),
    ("10 PROGRAM P(#1, #1)\n20 END\n", 10, 20),
];

/// Units with two lines that break rules: the first is told.
const LINES: [Row; 13] = [
    ("10 RETRY\n20 EXIT DO\n30 END\n", 10, 7),
    ("10 PRINT A(1)\n20 LET A = \"x\"\n30 END\n", 10, 23),
    ("10 DIM A(0)\n20 DIM A(3)\n30 END\n", 10, 14),
    ("10 GOSUB 15\n20 GOTO 15\n30 END\n", 10, 5),
    ("10 RESTORE 10\n20 GOTO 15\n30 END\n", 10, 17),
    (
        "10 DO\n20 PRINT -\"a\"\n30 LOOP UNTIL A = \"a\"\n40 GOTO 15\n50 END\n",
        20,
        3,
    ),
    (
        "10 DO\n20 LET A = 1\n30 LOOP UNTIL A = \"a\"\n40 GOTO 15\n50 END\n",
        30,
        3,
    ),
    (
        "10 SUB P\n20 RETRY\n30 END SUB\n40 GOTO 15\n50 END\n",
        20,
        7,
    ),
    (
        "10 MODULE M\n20 LET A = 1\n30 EXTERNAL SUB P(#0)\n40 END SUB\n50 EXTERNAL SUB Q\n60 LET A = \"x\"\n70 END SUB\n80 END MODULE\n",
        30,
        20,
    ),
    (
        "10 MODULE M\n20 CHAIN \"P\"\n30 EXTERNAL SUB P\n40 LET A = \"x\"\n50 END SUB\n60 END MODULE\n",
        20,
        22,
    ),
    (
        "10 IF A = 1 THEN\n20 PRINT 1\n30 ELSEIF A = \"x\" THEN\n40 RETRY\n50 END IF\n60 END\n",
        30,
        3,
    ),
    ("10 FOR I = 1 TO 2\n20 EXIT DO\n30 NEXT J\n40 END\n", 20, 6),
    (
        "10 HANDLER H\n20 END HANDLER\n30 HANDLER H\n40 EXIT DO\n50 END HANDLER\n60 END\n",
        30,
        8,
    ),
];

#[test]
fn the_least_rule_of_a_line_is_told(rt: HostRuntime) {
    assert_eq!(rt; first_other(rt.alloc(), &RULES), None);
}

#[test]
fn the_first_line_is_told(rt: HostRuntime) {
    assert_eq!(rt; first_other(rt.alloc(), &LINES), None);
}
