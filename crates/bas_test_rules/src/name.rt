//! What a name is: its declarations, and what it may be used as.

use crate::text::{Row, first_other};

/// Names that have two declarations.
const TWICE: [Row; 14] = [
    ("10 DIM A(3)\n20 DIM A(4)\n30 END\n", 20, 1),
    ("10 DIM A(3)\n20 dim a(4)\n30 END\n", 20, 1),
    ("10 DIM A(3), A(4)\n20 END\n", 10, 1),
    ("10 DIM A(3), A$(3)\n20 END\n", 0, 0),
    (
        "10 DECLARE NUMERIC X\n20 DECLARE STRING X$\n30 DECLARE NUMERIC X*4.2\n40 END\n",
        30,
        1,
    ),
    (
        "10 DECLARE PUBLIC NUMERIC R\n20 DECLARE NUMERIC R\n30 END\n",
        20,
        1,
    ),
    ("10 DECLARE EXTERNAL SUB P, Q, P\n20 END\n", 10, 1),
    (
        "10 DECLARE EXTERNAL FUNCTION F\n20 REM\n30 DECLARE EXTERNAL FUNCTION F\n40 END\n",
        30,
        1,
    ),
    (
        "10 SUB P\n20 END SUB\n30 SUB P\n40 END SUB\n50 END\n",
        30,
        1,
    ),
    (
        "10 DEF F(X) = X\n20 FUNCTION F(Y)\n30 LET F = Y\n40 END FUNCTION\n50 END\n",
        20,
        1,
    ),
    (
        "10 MODULE M\n20 SHARE NUMERIC A\n30 PUBLIC NUMERIC A\n40 END MODULE\n",
        30,
        1,
    ),
    (
        "10 MODULE M\n20 SHARE NUMERIC A\n30 EXTERNAL SUB P\n40 DIM A(3)\n50 END SUB\n60 END MODULE\n",
        0,
        0,
    ),
    ("10 DIM A(3)\n20 DO\n30 DIM A(3)\n40 LOOP\n50 END\n", 30, 1),
    (
        "10 DIM X\n20 LET X = 1\n30 DECLARE NUMERIC X\n40 END\n",
        30,
        1,
    ),
];

/// Names of two kinds.
const KINDS: [Row; 13] = [
    ("10 DIM A(3)\n20 DEF A(X) = X\n30 END\n", 20, 1),
    ("10 DEF F(X) = X\n20 DIM F(3)\n30 END\n", 20, 1),
    (
        "10 DECLARE EXTERNAL FUNCTION F\n20 DEF F(X) = X\n30 END\n",
        20,
        1,
    ),
    (
        "10 DECLARE EXTERNAL SUB P\n20 DECLARE EXTERNAL FUNCTION P\n30 END\n",
        20,
        1,
    ),
    (
        "10 SUB P\n20 END SUB\n30 FUNCTION P\n40 LET P = 1\n50 END FUNCTION\n60 END\n",
        30,
        1,
    ),
    (
        "10 DECLARE NUMERIC P\n20 SUB P\n30 END SUB\n40 END\n",
        20,
        1,
    ),
    ("10 SUB P\n20 END SUB\n30 DIM P(3)\n40 END\n", 30, 1),
    (
        "10 SUB P\n20 END SUB\n30 DECLARE EXTERNAL SUB P\n40 END\n",
        30,
        1,
    ),
    ("10 DECLARE EXTERNAL SUB P\n20 LET P = 1\n30 END\n", 20, 1),
    ("10 CALL P\n20 LET P = 1\n30 END\n", 0, 0),
    ("10 PROGRAM P\n20 LET P = 1\n30 END\n", 0, 0),
    (
        "10 HANDLER H\n20 END HANDLER\n30 LET H = 1\n40 DIM H$(3)\n50 END\n",
        0,
        0,
    ),
    (
        "10 MODULE M\n20 LET P = 1\n30 EXTERNAL SUB P\n40 END SUB\n50 END MODULE\n",
        0,
        0,
    ),
];

/// Formals, and the one `DECLARE` that each may have.
const FORMALS: [Row; 13] = [
    (
        "10 EXTERNAL SUB P(X)\n20 DECLARE NUMERIC X*4.2\n30 END SUB\n",
        0,
        0,
    ),
    (
        "10 EXTERNAL SUB P(X())\n20 DECLARE NUMERIC X*4.2\n30 END SUB\n",
        0,
        0,
    ),
    ("10 PROGRAM P(A)\n20 DECLARE NUMERIC A*4.2\n30 END\n", 0, 0),
    (
        "10 EXTERNAL SUB P(X)\n20 DECLARE NUMERIC X\n30 DECLARE NUMERIC X\n40 END SUB\n",
        30,
        1,
    ),
    (
        "10 EXTERNAL SUB P(X)\n20 DECLARE NUMERIC X, X\n30 END SUB\n",
        20,
        1,
    ),
    ("10 EXTERNAL SUB P(X)\n20 DIM X\n30 END SUB\n", 20, 1),
    (
        "10 EXTERNAL SUB P(X())\n20 DECLARE NUMERIC X(3)\n30 END SUB\n",
        20,
        1,
    ),
    (
        "10 EXTERNAL SUB P(X)\n20 DECLARE PUBLIC NUMERIC X\n30 END SUB\n",
        20,
        1,
    ),
    ("10 EXTERNAL SUB P(X)\n20 DEF X = 1\n30 END SUB\n", 20, 1),
    ("10 EXTERNAL SUB P(X, X)\n20 END SUB\n", 10, 1),
    ("10 DEF F(X, X) = X\n20 END\n", 10, 1),
    ("10 PROGRAM P(A, A)\n20 END\n", 10, 1),
    ("10 EXTERNAL FUNCTION F(F)\n20 END FUNCTION\n", 10, 1),
];

/// What is declared in a function or an internal procedure.
const INTERNAL: [Row; 12] = [
    (
        "10 SUB P(X)\n20 DECLARE NUMERIC X*4.2\n30 END SUB\n40 END\n",
        0,
        0,
    ),
    (
        "10 FUNCTION F(X$)\n20 DECLARE STRING X$*8\n30 LET F = LEN(X$)\n40 END FUNCTION\n50 END\n",
        0,
        0,
    ),
    (
        "10 DIM A(3)\n20 SUB P(A)\n30 LET A = 1\n40 END SUB\n50 END\n",
        0,
        0,
    ),
    (
        "10 SUB P(X)\n20 DECLARE NUMERIC Y\n30 END SUB\n40 END\n",
        20,
        1,
    ),
    (
        "10 SUB P(X)\n20 DECLARE NUMERIC X, Y\n30 END SUB\n40 END\n",
        20,
        1,
    ),
    ("10 SUB P(X)\n20 DIM Y(3)\n30 END SUB\n40 END\n", 20, 1),
    ("10 SUB P(X)\n20 DIM X\n30 END SUB\n40 END\n", 20, 1),
    (
        "10 SUB P(X)\n20 DECLARE EXTERNAL FUNCTION G\n30 END SUB\n40 END\n",
        20,
        1,
    ),
    (
        "10 SUB P(X)\n20 DECLARE PUBLIC NUMERIC R\n30 END SUB\n40 END\n",
        20,
        1,
    ),
    (
        "10 SUB P(X)\n20 PUBLIC NUMERIC R\n30 END SUB\n40 END\n",
        20,
        1,
    ),
    (
        "10 FUNCTION F\n20 DECLARE NUMERIC F\n30 LET F = 1\n40 END FUNCTION\n50 END\n",
        20,
        1,
    ),
    (
        "10 EXTERNAL FUNCTION F(X)\n20 DECLARE NUMERIC F\n30 LET F = X\n40 END FUNCTION\n",
        20,
        1,
    ),
];

/// The name of a `SUB`, used as a variable.
const SUBS: [Row; 12] = [
    ("10 LET P = 1\n20 SUB P\n30 END SUB\n40 END\n", 20, 1),
    ("10 SUB P\n20 END SUB\n30 LET P = 1\n40 END\n", 30, 1),
    ("10 SUB P\n20 PRINT P\n30 END SUB\n40 END\n", 20, 1),
    ("10 SUB P\n20 END SUB\n30 READ P\n40 END\n", 30, 1),
    (
        "10 SUB P\n20 END SUB\n30 IF A = 1 THEN LET B = 1 - P\n40 END\n",
        30,
        1,
    ),
    (
        "10 SUB P\n20 END SUB\n30 FOR P = 1 TO 2\n40 NEXT P\n50 END\n",
        30,
        1,
    ),
    (
        "10 SUB Q\n20 PRINT P\n30 END SUB\n40 SUB R\n50 PRINT P\n60 END SUB\n70 SUB P\n80 END SUB\n90 END\n",
        70,
        1,
    ),
    (
        "10 SUB P\n20 END SUB\n30 SUB Q\n40 PRINT P\n50 END SUB\n60 SUB R\n70 PRINT P\n80 END SUB\n90 END\n",
        40,
        1,
    ),
    (
        "10 SUB Q\n20 PRINT P\n30 END SUB\n40 SUB P\n50 END SUB\n60 SUB R\n70 PRINT P\n80 END SUB\n90 END\n",
        40,
        1,
    ),
    (
        "10 SUB P\n20 END SUB\n30 HANDLER H\n40 PRINT P\n50 END HANDLER\n60 END\n",
        40,
        1,
    ),
    (
        "10 SUB P\n20 END SUB\n30 SUB Q(P)\n40 PRINT P\n50 END SUB\n60 END\n",
        0,
        0,
    ),
    (
        "10 SUB P\n20 END SUB\n30 CALL P\n40 LET P$ = \"a\"\n50 END\n",
        0,
        0,
    ),
];

/// The name of a function, used as a target.
const TARGETS: [Row; 13] = [
    ("10 DEF F = 1\n20 LET F = 2\n30 END\n", 20, 16),
    ("10 LET F = 2\n20 DEF F = 1\n30 END\n", 10, 16),
    (
        "10 DECLARE EXTERNAL FUNCTION G\n20 READ A, G\n30 END\n",
        20,
        16,
    ),
    (
        "10 DECLARE EXTERNAL FUNCTION G$\n20 LINE INPUT G$\n30 END\n",
        20,
        16,
    ),
    (
        "10 DECLARE EXTERNAL FUNCTION G\n20 INPUT #1: G\n30 END\n",
        20,
        16,
    ),
    (
        "10 FUNCTION F(X)\n20 LET F = X\n30 END FUNCTION\n40 LET F = 1\n50 END\n",
        40,
        16,
    ),
    (
        "10 FUNCTION F\n20 LET F = 1\n30 END FUNCTION\n40 FUNCTION G\n50 LET F = 1\n60 END FUNCTION\n70 END\n",
        50,
        16,
    ),
    (
        "10 FUNCTION F$(X)\n20 LET F$ = \"a\"\n30 END FUNCTION\n40 PRINT F$(1:2)\n50 END\n",
        40,
        16,
    ),
    (
        "10 EXTERNAL FUNCTION F$(X)\n20 LET F$ = \"ab\"\n30 PRINT F$(1:1)\n40 END FUNCTION\n",
        30,
        16,
    ),
    (
        "10 MODULE M\n20 EXTERNAL FUNCTION F\n30 LET F = 1\n40 END FUNCTION\n50 EXTERNAL SUB P\n60 LET F = 2\n70 END SUB\n80 END MODULE\n",
        60,
        16,
    ),
    (
        "10 EXTERNAL FUNCTION F(X)\n20 SUB P\n30 LET F = X\n40 END SUB\n50 END FUNCTION\n",
        0,
        0,
    ),
    (
        "10 EXTERNAL FUNCTION F\n20 READ F, A\n30 DATA 1, 2\n40 END FUNCTION\n",
        0,
        0,
    ),
    (
        "10 EXTERNAL FUNCTION F(X)\n20 FUNCTION G\n30 LET F = X\n40 LET G = 1\n50 END FUNCTION\n60 END FUNCTION\n",
        0,
        0,
    ),
];

/// Names with arguments.
const CALLED: [Row; 14] = [
    ("10 PRINT A(1)\n20 END\n", 10, 23),
    ("10 PRINT A$(1)\n20 END\n", 10, 23),
    (
        "10 DECLARE NUMERIC A\n20 LET B = 1 + A(1)\n30 END\n",
        20,
        23,
    ),
    ("10 IF A(1) = 1 THEN 20\n20 END\n", 10, 23),
    ("10 DEF F(X) = X(1)\n20 END\n", 10, 23),
    ("10 SUB P(X)\n20 END SUB\n30 PRINT P(1)\n40 END\n", 30, 23),
    ("10 DECLARE EXTERNAL SUB P\n20 PRINT P(1)\n30 END\n", 20, 23),
    (
        "10 MODULE M\n20 EXTERNAL SUB P(X)\n30 PRINT P(1)\n40 END SUB\n50 END MODULE\n",
        30,
        23,
    ),
    (
        "10 MODULE M\n20 DECLARE EXTERNAL FUNCTION G\n30 PRINT G(1)\n40 EXTERNAL SUB P\n50 PRINT G(1)\n60 END SUB\n70 END MODULE\n",
        50,
        23,
    ),
    (
        "10 DECLARE EXTERNAL FUNCTION G\n20 SUB P\n30 PRINT G(1)\n40 END SUB\n50 END\n",
        0,
        0,
    ),
    (
        "10 MODULE M\n20 PRINT F(1)\n30 EXTERNAL FUNCTION F(X)\n40 LET F = X\n50 END FUNCTION\n60 END MODULE\n",
        0,
        0,
    ),
    (
        "10 EXTERNAL FUNCTION F(X)\n20 LET F = F(X)\n30 END FUNCTION\n",
        0,
        0,
    ),
    (
        "10 EXTERNAL FUNCTION F(X)\n20 DECLARE EXTERNAL FUNCTION F\n30 LET F = F(X)\n40 END FUNCTION\n",
        0,
        0,
    ),
    (
        "10 PRINT F(1)\n20 DECLARE EXTERNAL FUNCTION F\n30 END\n",
        0,
        0,
    ),
];

/// Names after `CALL`.
const CALLS: [Row; 8] = [
    ("10 DEF F = 1\n20 CALL F\n30 END\n", 20, 23),
    (
        "10 CALL F(1)\n20 FUNCTION F(X)\n30 LET F = X\n40 END FUNCTION\n50 END\n",
        10,
        23,
    ),
    (
        "10 DECLARE EXTERNAL FUNCTION F\n20 CALL F\n30 END\n",
        20,
        23,
    ),
    (
        "10 MODULE M\n20 EXTERNAL FUNCTION F\n30 LET F = 1\n40 END FUNCTION\n50 EXTERNAL SUB P\n60 CALL F\n70 END SUB\n80 END MODULE\n",
        60,
        23,
    ),
    (
        "10 DEF F = 1\n20 ON F GOTO 30 ELSE CALL F\n30 END\n",
        20,
        23,
    ),
    ("10 DECLARE EXTERNAL SUB P\n20 CALL P\n30 END\n", 0, 0),
    ("10 CALL P(1, A$, #2, B)\n20 END\n", 0, 0),
    ("10 SUB P\n20 CALL P\n30 END SUB\n40 CALL P\n50 END\n", 0, 0),
];

#[test]
fn a_name_has_one_declaration(rt: HostRuntime) {
    assert_eq!(rt; first_other(rt.alloc(), &TWICE), None);
}

#[test]
fn a_name_has_one_kind(rt: HostRuntime) {
    assert_eq!(rt; first_other(rt.alloc(), &KINDS), None);
}

#[test]
fn a_formal_has_one_declare(rt: HostRuntime) {
    assert_eq!(rt; first_other(rt.alloc(), &FORMALS), None);
}

#[test]
fn internal_procedures_declare_their_formals(rt: HostRuntime) {
    assert_eq!(rt; first_other(rt.alloc(), &INTERNAL), None);
}

#[test]
fn the_name_of_a_sub_is_no_variable(rt: HostRuntime) {
    assert_eq!(rt; first_other(rt.alloc(), &SUBS), None);
}

#[test]
fn a_function_is_set_inside_it(rt: HostRuntime) {
    assert_eq!(rt; first_other(rt.alloc(), &TARGETS), None);
}

#[test]
fn a_name_with_arguments_is_known(rt: HostRuntime) {
    assert_eq!(rt; first_other(rt.alloc(), &CALLED), None);
}

#[test]
fn call_names_no_function(rt: HostRuntime) {
    assert_eq!(rt; first_other(rt.alloc(), &CALLS), None);
}
