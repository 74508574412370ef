//! Calls of procedures whose formals the unit tells, and of supplied functions.

use crate::text::{Row, first_other};

/// Numbers of arguments.
const COUNTS: [Row; 16] = [
    ("10 CALL P(1, 2)\n20 SUB P(X)\n30 END SUB\n40 END\n", 10, 11),
    ("10 CALL P\n20 SUB P(X)\n30 END SUB\n40 END\n", 10, 11),
    ("10 CALL P(1)\n20 SUB P\n30 END SUB\n40 END\n", 10, 11),
    ("10 PRINT F\n20 DEF F(X) = X\n30 END\n", 10, 11),
    ("10 PRINT F(1, 2)\n20 DEF F(X) = X\n30 END\n", 10, 11),
    (
        "10 FUNCTION F\n20 LET F = 1\n30 END FUNCTION\n40 PRINT F(1)\n50 END\n",
        40,
        11,
    ),
    (
        "10 FUNCTION F(X)\n20 LET F = F\n30 END FUNCTION\n40 END\n",
        20,
        11,
    ),
    (
        "10 MODULE M\n20 CALL P\n30 EXTERNAL SUB P(X)\n40 END SUB\n50 END MODULE\n",
        20,
        11,
    ),
    (
        "10 MODULE M\n20 EXTERNAL FUNCTION F(X)\n30 LET F = X\n40 END FUNCTION\n50 EXTERNAL SUB P\n60 PRINT F(1, 2)\n70 END SUB\n80 END MODULE\n",
        60,
        11,
    ),
    (
        "10 MODULE M\n20 EXTERNAL SUB P(X)\n30 END SUB\n40 EXTERNAL SUB Q\n50 CALL P(1, 2)\n60 SUB P(X, Y)\n70 END SUB\n80 END SUB\n90 END MODULE\n",
        0,
        0,
    ),
    (
        "10 CALL P(1, 2)\n20 PRINT F(1); F(2); G\n30 SUB P(X, Y)\n40 END SUB\n50 DEF F(X) = X\n60 DEF G = 1\n70 END\n",
        0,
        0,
    ),
    ("10 CALL P(1, 2)\n20 CALL P\n30 END\n", 0, 0),
    (
        "10 DECLARE EXTERNAL FUNCTION F\n20 PRINT F(1); F(1, 2); F\n30 END\n",
        0,
        0,
    ),
    ("10 EXTERNAL SUB P(X)\n20 CALL P\n30 END SUB\n", 0, 0),
    ("10 DEF F(X) = X\n20 LET A = 1 + ABS(F)\n30 END\n", 20, 11),
    (
        "10 MODULE M\n20 DECLARE EXTERNAL SUB P\n30 CALL P(1, 2)\n40 EXTERNAL SUB P(X)\n50 END SUB\n60 END MODULE\n",
        30,
        11,
    ),
];

/// Scalars, with their types and lengths.
const SCALARS: [Row; 14] = [
    (
        "10 DECLARE NUMERIC V*8.2\n20 CALL P(V)\n30 SUB P(X)\n40 DECLARE NUMERIC X*8.2\n50 END SUB\n60 END\n",
        0,
        0,
    ),
    (
        "10 DECLARE NUMERIC V*8.2\n20 CALL P(V)\n30 SUB P(X)\n40 DECLARE NUMERIC X*10.2\n50 END SUB\n60 END\n",
        20,
        11,
    ),
    (
        "10 DECLARE NUMERIC V*8.2\n20 CALL P(V)\n30 SUB P(X)\n40 END SUB\n50 END\n",
        20,
        11,
    ),
    (
        "10 CALL P(V)\n20 SUB P(X)\n30 DECLARE NUMERIC X*8.2\n40 END SUB\n50 END\n",
        10,
        11,
    ),
    (
        "10 DECLARE NUMERIC V*8.2\n20 CALL P((V))\n30 CALL P(V + 1)\n40 SUB P(X)\n50 END SUB\n60 END\n",
        0,
        0,
    ),
    (
        "10 DECLARE NUMERIC V*8.2\n20 PRINT F(V)\n30 DEF F(X) = X\n40 END\n",
        0,
        0,
    ),
    (
        "10 CALL P(F)\n20 DEF F = 1\n30 SUB P(X)\n40 DECLARE NUMERIC X*8.2\n50 END SUB\n60 END\n",
        0,
        0,
    ),
    (
        "10 DECLARE STRING A$*10\n20 CALL P(A$)\n30 SUB P(B$)\n40 DECLARE STRING B$*10\n50 END SUB\n60 END\n",
        0,
        0,
    ),
    (
        "10 DECLARE STRING A$*10\n20 CALL P(A$)\n30 SUB P(B$)\n40 END SUB\n50 END\n",
        20,
        11,
    ),
    (
        "10 DECLARE STRING A$*10\n20 CALL P(A$(1:2))\n30 CALL P(\"a\")\n40 SUB P(B$)\n50 END SUB\n60 END\n",
        0,
        0,
    ),
    (
        "10 OPTION ARITHMETIC FIXED*8.2\n20 CALL P(V)\n30 SUB P(X)\n40 END SUB\n50 END\n",
        0,
        0,
    ),
    (
        "10 OPTION ARITHMETIC FIXED*8.2\n20 CALL P(V)\n30 SUB P(X)\n40 DECLARE NUMERIC X*8.2\n50 END SUB\n60 END\n",
        0,
        0,
    ),
    (
        "10 OPTION ARITHMETIC FIXED*8.2\n20 DECLARE NUMERIC V\n30 CALL P(V)\n40 SUB P(X)\n50 END SUB\n60 END\n",
        30,
        11,
    ),
    (
        "10 MODULE M\n20 SHARE NUMERIC V*8.2\n30 CALL P(V)\n40 EXTERNAL SUB P(X)\n50 END SUB\n60 END MODULE\n",
        30,
        11,
    ),
];

/// Arrays, elements and channels.
const ARRAYS: [Row; 17] = [
    (
        "10 DIM A(3), B(5 TO 6)\n20 CALL P(A)\n30 CALL P(B)\n40 SUB P(X())\n50 END SUB\n60 END\n",
        0,
        0,
    ),
    (
        "10 DIM A(3)\n20 CALL P(A)\n30 SUB P(X(,))\n40 END SUB\n50 END\n",
        20,
        11,
    ),
    (
        "10 DIM A(3)\n20 CALL P(A)\n30 SUB P(X)\n40 END SUB\n50 END\n",
        20,
        11,
    ),
    ("10 CALL P(A)\n20 SUB P(X())\n30 END SUB\n40 END\n", 10, 11),
    ("10 CALL P(1)\n20 SUB P(X())\n30 END SUB\n40 END\n", 10, 11),
    (
        "10 DIM A(3)*8.2\n20 CALL P(A)\n30 SUB P(X())\n40 END SUB\n50 END\n",
        20,
        11,
    ),
    (
        "10 DIM A(3)\n20 CALL P(A(1))\n30 SUB P(X)\n40 END SUB\n50 END\n",
        0,
        0,
    ),
    (
        "10 DIM A(3)*8.2\n20 CALL P(A(1))\n30 SUB P(X)\n40 END SUB\n50 END\n",
        20,
        11,
    ),
    (
        "10 DIM A(3)\n20 PRINT F(A)\n30 DEF F(X()) = X(1)\n40 END\n",
        0,
        0,
    ),
    (
        "10 DIM A(3)\n20 PRINT F(A)\n30 DEF F(X) = X\n40 END\n",
        20,
        11,
    ),
    (
        "10 CALL P(#1)\n20 CALL P(#A + 1)\n30 SUB P(#2)\n40 END SUB\n50 END\n",
        0,
        0,
    ),
    ("10 CALL P(#1)\n20 SUB P(X)\n30 END SUB\n40 END\n", 10, 11),
    ("10 CALL P(1)\n20 SUB P(#1)\n30 END SUB\n40 END\n", 10, 11),
    (
        "10 CALL P(1, #1)\n20 SUB P(X, Y)\n30 END SUB\n40 END\n",
        10,
        11,
    ),
    (
        "10 DIM A(3)\n20 PRINT F(A)\n30 DEF F(X(,)) = X(1, 1)\n40 END\n",
        20,
        11,
    ),
    ("10 PRINT F(#1)\n20 DEF F(X) = X\n30 END\n", 10, 11),
    (
        "10 PRINT F(#1)\n20 FUNCTION F(#2)\n30 LET F = 1\n40 END FUNCTION\n50 END\n",
        0,
        0,
    ),
];

/// Numbers of arguments of supplied functions.
const SUPPLIED: [Row; 18] = [
    (
        "10 PRINT RND; MAXNUM; EXTYPE; EXLINE; MAX(1, 2); POS(\"a\", \"b\"); POS(\"a\", \"b\", 1)\n20 END\n",
        0,
        0,
    ),
    (
        "10 DIM A(3), B(3, 3)\n20 PRINT LBOUND(A); LBOUND(A, 1); UBOUND(B, 2)\n30 END\n",
        0,
        0,
    ),
    ("10 PRINT ABS\n20 END\n", 10, 12),
    ("10 PRINT ABS(1, 2)\n20 END\n", 10, 12),
    ("10 PRINT MOD(1)\n20 END\n", 10, 12),
    ("10 PRINT ROUND(1)\n20 END\n", 10, 12),
    ("10 PRINT MAX(1, 2, 3)\n20 END\n", 10, 12),
    ("10 PRINT RND(1)\n20 END\n", 10, 12),
    ("10 PRINT MAXNUM(1)\n20 END\n", 10, 12),
    ("10 PRINT EXTYPE(1)\n20 END\n", 10, 12),
    ("10 PRINT EXLINE(1)\n20 END\n", 10, 12),
    ("10 PRINT POS(\"a\")\n20 END\n", 10, 12),
    ("10 PRINT POS(\"a\", \"b\", 1, 2)\n20 END\n", 10, 12),
    ("10 LET A$ = REPEAT$(\"a\")\n20 END\n", 10, 12),
    ("10 PRINT LEN(1, 2)\n20 END\n", 10, 12),
    ("10 PRINT UCASE$\n20 END\n", 10, 12),
    ("10 DIM A(3, 3)\n20 PRINT UBOUND(A)\n30 END\n", 20, 12),
    ("10 DIM A(3)\n20 PRINT LBOUND(A, 1, 2)\n30 END\n", 20, 12),
];

#[test]
fn a_call_has_its_count_of_arguments(rt: HostRuntime) {
    assert_eq!(rt; first_other(rt.alloc(), &COUNTS), None);
}

#[test]
fn scalars_fit_their_formals(rt: HostRuntime) {
    assert_eq!(rt; first_other(rt.alloc(), &SCALARS), None);
}

#[test]
fn arrays_and_channels_fit_their_formals(rt: HostRuntime) {
    assert_eq!(rt; first_other(rt.alloc(), &ARRAYS), None);
}

#[test]
fn a_supplied_function_has_its_count_of_arguments(rt: HostRuntime) {
    assert_eq!(rt; first_other(rt.alloc(), &SUPPLIED), None);
}
