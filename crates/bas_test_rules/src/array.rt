//! Arrays: that they are declared, their subscripts, and where a whole one may stand.

use crate::text::{Row, first_other};

/// Elements as targets, and elements of substrings.
const DECLARED: [Row; 14] = [
    (
        "10 DIM A(3, 4), B$(2)\n20 LET A(1, 2) = A(3, 4)\n30 PRINT B$(1)(2:3)\n40 END\n",
        0,
        0,
    ),
    (
        "10 DIM A(3)\n20 SUB P\n30 LET A(1) = 2\n40 END SUB\n50 END\n",
        0,
        0,
    ),
    (
        "10 DECLARE PUBLIC NUMERIC R(3)\n20 LET R(1) = 2\n30 END\n",
        0,
        0,
    ),
    (
        "10 MODULE M\n20 SHARE NUMERIC A(3)\n30 EXTERNAL SUB P\n40 LET A(1) = 2\n50 END SUB\n60 END MODULE\n",
        0,
        0,
    ),
    (
        "10 MODULE M\n20 DIM A(3)\n30 EXTERNAL SUB P\n40 LET A(1) = 2\n50 END SUB\n60 END MODULE\n",
        40,
        2,
    ),
    ("10 LET A(1) = 2\n20 END\n", 10, 2),
    ("10 READ A(1)\n20 DATA 1\n30 END\n", 10, 2),
    ("10 INPUT A$, B$(2)\n20 END\n", 10, 2),
    ("10 LINE INPUT #1: A$(1)\n20 END\n", 10, 2),
    ("10 READ #1: A, B(1)\n20 END\n", 10, 2),
    ("10 PRINT A$(1)(2:3)\n20 END\n", 10, 2),
    ("10 DECLARE NUMERIC A\n20 LET A(1) = 2\n30 END\n", 20, 2),
    ("10 DEF F(X) = X\n20 LET F(1) = 2\n30 END\n", 20, 2),
    (
        "10 MODULE M\n20 DECLARE PUBLIC NUMERIC R(3)\n30 LET R(1) = 2\n40 EXTERNAL SUB P\n50 LET R(1) = 2\n60 END SUB\n70 END MODULE\n",
        50,
        2,
    ),
];

/// Arrays with another number of subscripts.
const SUBSCRIPTS: [Row; 7] = [
    ("10 DIM A(3)\n20 PRINT A(1, 2)\n30 END\n", 20, 2),
    ("10 DIM A(3, 4)\n20 LET A(1) = 2\n30 END\n", 20, 2),
    ("10 DIM A(2, 2, 2)\n20 LET B = 1 - A(1, 1)\n30 END\n", 20, 2),
    ("10 DIM A$(3)\n20 PRINT A$(1, 1)(1:2)\n30 END\n", 20, 2),
    (
        "10 DIM A(3)\n20 PRINT A(1)\n30 IF A(A(1), 2) = 1 THEN 40\n40 END\n",
        30,
        2,
    ),
    (
        "10 EXTERNAL SUB P(A(,))\n20 LET A(1, 2) = 3\n30 PRINT A(1)\n40 END SUB\n",
        30,
        2,
    ),
    (
        "10 MODULE M\n20 SHARE NUMERIC A(3)\n30 EXTERNAL SUB P\n40 LET A(1, 2) = 3\n50 END SUB\n60 END MODULE\n",
        40,
        2,
    ),
];

/// Whole arrays as operands and targets.
const OPERANDS: [Row; 14] = [
    ("10 DIM A(3)\n20 PRINT A\n30 END\n", 20, 2),
    ("10 DIM A(3)\n20 LET A = 1\n30 END\n", 20, 2),
    ("10 LET A = 1\n20 DIM A(3)\n30 END\n", 10, 2),
    ("10 DIM A(3)\n20 LET B = 1 + A\n30 END\n", 20, 2),
    ("10 DIM A(3)\n20 IF A = 1 THEN 30\n30 END\n", 20, 2),
    ("10 DIM A(3)\n20 PRINT A(A)\n30 END\n", 20, 2),
    ("10 DIM A(3)\n20 READ B, A\n30 END\n", 20, 2),
    ("10 DIM A$(3)\n20 PRINT A$(1:2)\n30 END\n", 20, 2),
    ("10 DIM A(3)\n20 FOR I = 1 TO A\n30 NEXT I\n40 END\n", 20, 2),
    ("10 DIM A(3)\n20 CALL P((A))\n30 END\n", 20, 2),
    ("10 DIM A(3)\n20 CHAIN \"P\" WITH (A)\n30 END\n", 20, 2),
    ("10 DIM A(3)\n20 WRITE #1: 1, A\n30 END\n", 20, 2),
    ("10 EXTERNAL SUB P(A())\n20 LET A = 1\n30 END SUB\n", 20, 2),
    (
        "10 SUB P(A$(,))\n20 PRINT A$ & \"a\"\n30 END SUB\n40 END\n",
        20,
        2,
    ),
];

/// Whole arrays as arguments.
const ARGUMENTS: [Row; 11] = [
    ("10 DIM A(3), B$(2, 2)\n20 CALL P(A, B$)\n30 END\n", 0, 0),
    (
        "10 DECLARE EXTERNAL FUNCTION F\n20 DIM A(3)\n30 PRINT F(A)\n40 END\n",
        0,
        0,
    ),
    (
        "10 DIM A(3), B$(2, 2)\n20 PRINT LBOUND(A); UBOUND(A, 1); UBOUND(B$, 2)\n30 END\n",
        0,
        0,
    ),
    (
        "10 EXTERNAL SUB P(A$())\n20 PRINT UBOUND(A$)\n30 CALL P(A$)\n40 END SUB\n",
        0,
        0,
    ),
    ("10 DIM A(3)\n20 PRINT ABS(A)\n30 END\n", 20, 2),
    ("10 DIM A$(3)\n20 PRINT LEN(A$)\n30 END\n", 20, 2),
    ("10 PRINT LBOUND(X)\n20 END\n", 10, 2),
    ("10 DIM A(3)\n20 PRINT UBOUND(A(1))\n30 END\n", 20, 2),
    ("10 DIM A(3)\n20 PRINT LBOUND((A))\n30 END\n", 20, 2),
    ("10 DIM A(3)\n20 PRINT UBOUND(A, A)\n30 END\n", 20, 2),
    ("10 DEF F = 1\n20 PRINT LBOUND(F)\n30 END\n", 20, 2),
];

#[test]
fn an_array_is_declared(rt: HostRuntime) {
    assert_eq!(rt; first_other(rt.alloc(), &DECLARED), None);
}

#[test]
fn an_array_has_its_subscripts(rt: HostRuntime) {
    assert_eq!(rt; first_other(rt.alloc(), &SUBSCRIPTS), None);
}

#[test]
fn a_whole_array_is_no_operand(rt: HostRuntime) {
    assert_eq!(rt; first_other(rt.alloc(), &OPERANDS), None);
}

#[test]
fn a_whole_array_is_an_argument(rt: HostRuntime) {
    assert_eq!(rt; first_other(rt.alloc(), &ARGUMENTS), None);
}
