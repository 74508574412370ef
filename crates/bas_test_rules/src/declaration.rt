//! Types and bounds, options, lines of data, and the declarations of modules and programs.

use crate::text::{Row, first_other};

/// Types of numbers.
const NUMBERS: [Row; 15] = [
    (
        "10 DECLARE NUMERIC A*20.18, B*38, C*0.18, D*1, E(3)*8.2\n20 END\n",
        0,
        0,
    ),
    ("10 OPTION ARITHMETIC FIXED*8\n20 END\n", 0, 0),
    ("10 DECLARE NUMERIC X*2.19\n20 END\n", 10, 13),
    ("10 DECLARE NUMERIC X*39\n20 END\n", 10, 13),
    ("10 DECLARE NUMERIC X*21.18\n20 END\n", 10, 13),
    ("10 DECLARE NUMERIC X*0\n20 END\n", 10, 13),
    ("10 DECLARE NUMERIC X*99999999999\n20 END\n", 10, 13),
    ("10 DECLARE NUMERIC X*8.2, Y*2.19\n20 END\n", 10, 13),
    ("10 DIM A(3)*39\n20 END\n", 10, 13),
    ("10 DECLARE PUBLIC NUMERIC R*39\n20 END\n", 10, 13),
    (
        "10 MODULE M\n20 SHARE NUMERIC A*2.19\n30 END MODULE\n",
        20,
        13,
    ),
    (
        "10 EXTERNAL SUB P(X)\n20 DECLARE NUMERIC X*39\n30 END SUB\n",
        20,
        13,
    ),
    ("10 OPTION ARITHMETIC FIXED*0.0\n20 END\n", 10, 13),
    ("10 OPTION ARITHMETIC FIXED*20.19\n20 END\n", 10, 13),
    (
        "10 SUB P(X)\n20 DECLARE NUMERIC X*39\n30 END SUB\n40 END\n",
        20,
        13,
    ),
];

/// Types of strings.
const STRINGS: [Row; 10] = [
    ("10 DECLARE STRING A$*1, B$*65535, C$(3)*8\n20 END\n", 0, 0),
    ("10 DIM A$*8\n20 END\n", 0, 0),
    ("10 DECLARE STRING A$*0\n20 END\n", 10, 13),
    ("10 DECLARE STRING A$*65536\n20 END\n", 10, 13),
    ("10 DECLARE STRING A$*99999999999\n20 END\n", 10, 13),
    ("10 DECLARE STRING A$*8.0\n20 END\n", 10, 13),
    ("10 DECLARE STRING A$*8, B$*8.2\n20 END\n", 10, 13),
    ("10 DIM A$*0\n20 END\n", 10, 13),
    ("10 DIM A$(3)*8.0\n20 END\n", 10, 13),
    (
        "10 MODULE M\n20 PUBLIC STRING A$*0\n30 END MODULE\n",
        20,
        13,
    ),
];

/// Bounds that fall, and those that do not.
const BOUNDS: [Row; 13] = [
    (
        "10 DIM A(5 TO 5), B(-3 TO -1), C(1), D(-3 TO 3, 0 TO 1)\n20 END\n",
        0,
        0,
    ),
    ("10 OPTION BASE 0\n20 DIM A(0), B(1, 0)\n30 END\n", 0, 0),
    (
        "10 MODULE M\n20 OPTION BASE 0\n30 EXTERNAL SUB P\n40 DIM A(0)\n50 END SUB\n60 END MODULE\n",
        0,
        0,
    ),
    ("10 DIM A(5 TO 4)\n20 END\n", 10, 14),
    ("10 DIM A(-1 TO -3)\n20 END\n", 10, 14),
    ("10 DIM A(0)\n20 END\n", 10, 14),
    ("10 OPTION BASE 1\n20 DIM A(0)\n30 END\n", 20, 14),
    ("10 OPTION BASE 0\n20 DIM A(-1)\n30 END\n", 20, 14),
    ("10 DIM A(3, 5 TO 4)\n20 END\n", 10, 14),
    ("10 DECLARE NUMERIC A(3), B(5 TO 4)\n20 END\n", 10, 14),
    ("10 DECLARE PUBLIC NUMERIC R(0)\n20 END\n", 10, 14),
    (
        "10 MODULE M\n20 PUBLIC STRING A$(0)\n30 END MODULE\n",
        20,
        14,
    ),
    (
        "10 MODULE M\n20 SHARE NUMERIC A(5 TO 4)\n30 END MODULE\n",
        20,
        14,
    ),
];

/// How far bounds may be from 0, and how many elements and dimensions an array may have.
const LIMITS: [Row; 15] = [
    (
        "10 DIM A(1000000), B(-1000000 TO -1), C(1000, 1000), D(100, 100, 100)\n20 END\n",
        0,
        0,
    ),
    (
        "10 DIM A(1000000 TO 1000000), B(-1000000 TO -1000000)\n20 END\n",
        0,
        0,
    ),
    ("10 OPTION BASE 0\n20 DIM A(999999)\n30 END\n", 0, 0),
    ("10 EXTERNAL SUB P(A(,,))\n20 END SUB\n", 0, 0),
    ("10 DIM A(1000001)\n20 END\n", 10, 14),
    ("10 DIM A(1000000 TO 1000001)\n20 END\n", 10, 14),
    ("10 DIM A(-1000001 TO -1000000)\n20 END\n", 10, 14),
    ("10 DIM A(-1000000 TO 0)\n20 END\n", 10, 14),
    ("10 OPTION BASE 0\n20 DIM A(1000000)\n30 END\n", 20, 14),
    ("10 DIM A(1000, 1001)\n20 END\n", 10, 14),
    ("10 DIM A(100, 100, 101)\n20 END\n", 10, 14),
    ("10 DIM A(99999999999999999999)\n20 END\n", 10, 14),
    ("10 DIM A(2, 2, 2, 2)\n20 END\n", 10, 14),
    ("10 EXTERNAL SUB P(A(,,,))\n20 END SUB\n", 10, 14),
    ("10 SUB P(A(,,,))\n20 END SUB\n30 END\n", 10, 14),
];

/// Where `OPTION` stands.
const OPTIONS: [Row; 16] = [
    (
        "10 OPTION BASE 0\n20 OPTION ARITHMETIC DECIMAL\n30 END\n",
        0,
        0,
    ),
    (
        "10 PROGRAM P\n20 OPTION ARITHMETIC FIXED*8.2\n30 OPTION BASE 1\n40 END\n",
        0,
        0,
    ),
    ("10 LET A = 1\n20 OPTION BASE 0\n30 END\n", 0, 0),
    ("10 REM\n20 OPTION BASE 0\n30 END\n", 0, 0),
    ("10 REM\n20 PROGRAM P\n30 OPTION BASE 0\n40 END\n", 0, 0),
    ("10 EXTERNAL SUB P\n20 OPTION BASE 0\n30 END SUB\n", 0, 0),
    ("10 LET A = 1\n20 REM\n30 OPTION BASE 0\n40 END\n", 30, 15),
    ("10 REM\n20 REM\n30 OPTION BASE 0\n40 END\n", 30, 15),
    (
        "10 OPTION BASE 0\n20 PRINT 1\n30 OPTION ARITHMETIC DECIMAL\n40 END\n",
        30,
        15,
    ),
    (
        "10 EXTERNAL SUB P(X)\n20 DECLARE NUMERIC X\n30 OPTION BASE 0\n40 END SUB\n",
        30,
        15,
    ),
    (
        "10 MODULE M\n20 OPTION BASE 0\n30 EXTERNAL SUB P\n40 OPTION ARITHMETIC DECIMAL\n50 END SUB\n60 END MODULE\n",
        40,
        15,
    ),
    (
        "10 PRINT 1\n20 SUB P\n30 OPTION BASE 0\n40 END SUB\n50 END\n",
        30,
        15,
    ),
    ("10 OPTION BASE 0\n20 OPTION BASE 0\n30 END\n", 20, 15),
    ("10 OPTION BASE 0\n20 OPTION BASE 1\n30 END\n", 20, 15),
    (
        "10 OPTION ARITHMETIC DECIMAL\n20 OPTION ARITHMETIC FIXED*8.2\n30 END\n",
        20,
        15,
    ),
    (
        "10 MODULE M\n20 SHARE NUMERIC A\n30 OPTION BASE 0\n40 END MODULE\n",
        30,
        15,
    ),
];

/// Lines of data that `RESTORE` names.
const RESTORED: [Row; 12] = [
    ("10 RESTORE 20\n20 DATA 1\n30 END\n", 0, 0),
    ("10 RESTORE\n20 END\n", 0, 0),
    (
        "10 SUB P\n20 RESTORE 40\n30 END SUB\n40 DATA 1\n50 END\n",
        0,
        0,
    ),
    (
        "10 RESTORE 30\n20 SUB P\n30 DATA 1\n40 END SUB\n50 END\n",
        0,
        0,
    ),
    (
        "10 RESTORE 30\n20 IF A = 1 THEN\n30 DATA 1\n40 END IF\n50 END\n",
        0,
        0,
    ),
    (
        "10 MODULE M\n20 DATA 1\n30 EXTERNAL SUB P\n40 RESTORE 20\n50 END SUB\n60 END MODULE\n",
        0,
        0,
    ),
    ("10 RESTORE 10\n20 DATA 1\n30 END\n", 10, 17),
    ("10 RESTORE 15\n20 DATA 1\n30 END\n", 10, 17),
    ("10 RESTORE 20\n20 REM\n30 DATA 1\n40 END\n", 10, 17),
    ("10 RESTORE 20\n20 END\n", 10, 17),
    ("10 IF A = 1 THEN RESTORE 30\n20 DATA 1\n30 END\n", 10, 17),
    (
        "10 ON A GOTO 30 ELSE RESTORE 30\n20 DATA 1\n30 END\n",
        10,
        17,
    ),
];

/// Where `PUBLIC`, `SHARE` and `PRIVATE` stand.
const MODULES: [Row; 15] = [
    (
        "10 MODULE M\n20 PUBLIC NUMERIC A*4.2\n30 SHARE STRING B$(3)\n40 PRIVATE p, F\n50 EXTERNAL SUB P\n60 END SUB\n70 EXTERNAL FUNCTION F\n80 END FUNCTION\n90 END MODULE\n",
        0,
        0,
    ),
    ("10 DECLARE PUBLIC NUMERIC A\n20 END\n", 0, 0),
    ("10 PUBLIC NUMERIC A\n20 END\n", 10, 18),
    ("10 SHARE NUMERIC A\n20 END\n", 10, 18),
    ("10 PRIVATE P\n20 END\n", 10, 18),
    (
        "10 EXTERNAL SUB P\n20 SHARE NUMERIC A\n30 END SUB\n",
        20,
        18,
    ),
    ("10 EXTERNAL SUB P\n20 PRIVATE P\n30 END SUB\n", 20, 18),
    (
        "10 MODULE M\n20 EXTERNAL SUB P\n30 SHARE NUMERIC A\n40 END SUB\n50 END MODULE\n",
        30,
        18,
    ),
    (
        "10 MODULE M\n20 EXTERNAL SUB P\n30 PUBLIC NUMERIC A\n40 END SUB\n50 END MODULE\n",
        30,
        18,
    ),
    (
        "10 MODULE M\n20 EXTERNAL SUB P\n30 PRIVATE P\n40 END SUB\n50 END MODULE\n",
        30,
        18,
    ),
    (
        "10 MODULE M\n20 PRIVATE Q\n30 EXTERNAL SUB P\n40 END SUB\n50 END MODULE\n",
        20,
        18,
    ),
    (
        "10 MODULE M\n20 PRIVATE P, Q\n30 EXTERNAL SUB P\n40 END SUB\n50 END MODULE\n",
        20,
        18,
    ),
    (
        "10 MODULE M\n20 PRIVATE Q\n30 EXTERNAL SUB P\n40 SUB Q\n50 END SUB\n60 END SUB\n70 END MODULE\n",
        20,
        18,
    ),
    ("10 MODULE M\n20 PRIVATE P\n30 END MODULE\n", 20, 18),
    (
        "10 MODULE M\n20 PRIVATE P\n30 EXTERNAL SUB P\n40 END SUB\n50 EXTERNAL SUB P\n60 END SUB\n70 END MODULE\n",
        0,
        0,
    ),
];

/// Formals of programs.
const PROGRAMS: [Row; 6] = [
    ("10 PROGRAM P(A, B$)\n20 PRINT A; B$\n30 END\n", 0, 0),
    ("10 PROGRAM P\n20 END\n", 0, 0),
    ("10 EXTERNAL SUB P(A(), #1)\n20 END SUB\n", 0, 0),
    ("10 PROGRAM P(A())\n20 END\n", 10, 24),
    ("10 PROGRAM P(#1)\n20 END\n", 10, 24),
    ("10 PROGRAM P(A, B$(,))\n20 END\n", 10, 24),
];

#[test]
fn types_of_numbers_keep_their_bounds(rt: HostRuntime) {
    assert_eq!(rt; first_other(rt.alloc(), &NUMBERS), None);
}

#[test]
fn types_of_strings_are_lengths(rt: HostRuntime) {
    assert_eq!(rt; first_other(rt.alloc(), &STRINGS), None);
}

#[test]
fn bounds_do_not_fall(rt: HostRuntime) {
    assert_eq!(rt; first_other(rt.alloc(), &BOUNDS), None);
}

#[test]
fn arrays_keep_their_limits(rt: HostRuntime) {
    assert_eq!(rt; first_other(rt.alloc(), &LIMITS), None);
}

#[test]
fn options_come_first(rt: HostRuntime) {
    assert_eq!(rt; first_other(rt.alloc(), &OPTIONS), None);
}

#[test]
fn restore_names_a_line_of_data(rt: HostRuntime) {
    assert_eq!(rt; first_other(rt.alloc(), &RESTORED), None);
}

#[test]
fn a_module_is_declared_before_its_procedures(rt: HostRuntime) {
    assert_eq!(rt; first_other(rt.alloc(), &MODULES), None);
}

#[test]
fn formals_of_a_program_are_scalars(rt: HostRuntime) {
    assert_eq!(rt; first_other(rt.alloc(), &PROGRAMS), None);
}
