//! Kinds: numbers and strings, each where it is wanted.

use crate::text::{Row, first_other};

/// Operators and their operands.
const OPERATORS: [Row; 13] = [
    (
        "10 LET A = -1 + 2 * (3 - A) / 4 ^ 2\n20 LET B$ = \"a\" & B$ & STR$(+A)\n30 END\n",
        0,
        0,
    ),
    ("10 PRINT 1 + \"b\"\n20 END\n", 10, 3),
    ("10 PRINT A$ - 1\n20 END\n", 10, 3),
    ("10 PRINT \"a\" * 2\n20 END\n", 10, 3),
    ("10 PRINT 2 / A$\n20 END\n", 10, 3),
    ("10 PRINT 2 ^ A$\n20 END\n", 10, 3),
    ("10 PRINT -\"a\"\n20 END\n", 10, 3),
    ("10 PRINT +A$\n20 END\n", 10, 3),
    ("10 PRINT \"a\" & 1\n20 END\n", 10, 3),
    ("10 PRINT A & \"a\"\n20 END\n", 10, 3),
    ("10 PRINT 1 + 2 & \"b\"\n20 END\n", 10, 3),
    ("10 PRINT (\"a\" & \"b\") + 1\n20 END\n", 10, 3),
    (
        "10 LET A = 1\n20 PRINT A; \"a\"; A * 2\n30 PRINT A; A * (1 + (A$ & \"a\"))\n40 END\n",
        30,
        3,
    ),
];

/// Both sides of relations.
const RELATIONS: [Row; 11] = [
    (
        "10 IF A$ = \"x\" AND NOT A < 1 OR (B$ >= A$) THEN 20\n20 END\n",
        0,
        0,
    ),
    ("10 IF A$ = 1 THEN 20\n20 END\n", 10, 3),
    ("10 IF A = 1 AND A$ < 2 THEN 20\n20 END\n", 10, 3),
    ("10 IF A = 1 OR NOT 1 <> \"a\" THEN 20\n20 END\n", 10, 3),
    (
        "10 IF A = 1 OR (B = 2 AND B > \"c\") THEN 20\n20 END\n",
        10,
        3,
    ),
    ("10 IF A$ = 1 THEN\n20 END IF\n30 END\n", 10, 3),
    (
        "10 IF A = 1 THEN\n20 ELSEIF A = \"x\" THEN\n30 END IF\n40 END\n",
        20,
        3,
    ),
    ("10 DO WHILE A$ < 1\n20 LOOP\n30 END\n", 10, 3),
    ("10 DO UNTIL A$ < 1\n20 LOOP\n30 END\n", 10, 3),
    ("10 DO\n20 LOOP UNTIL 1 > A$\n30 END\n", 20, 3),
    ("10 DO\n20 LOOP WHILE \"a\" <= A\n30 END\n", 20, 3),
];

/// Subscripts, and the ends of substrings.
const PLACES: [Row; 7] = [
    (
        "10 DIM A(3), B$(2)\n20 LET A(LEN(A$)) = 1\n30 PRINT B$(A(1))(A(2):3)\n40 END\n",
        0,
        0,
    ),
    ("10 DIM A(3)\n20 PRINT A(\"1\")\n30 END\n", 20, 3),
    ("10 DIM A(3, 3)\n20 LET A(1, A$) = 1\n30 END\n", 20, 3),
    ("10 PRINT A$(1:\"2\")\n20 END\n", 10, 3),
    ("10 PRINT A$(B$:2)\n20 END\n", 10, 3),
    ("10 PRINT A(1:2)\n20 END\n", 10, 3),
    ("10 DIM A(3)\n20 LET B$ = A(1)(1:2)\n30 END\n", 20, 3),
];

/// Targets, and the operands of `IF` and `ON` statements.
const TARGETS: [Row; 11] = [
    (
        "10 LET A, B = 1\n20 LET A$, B$ = \"a\"\n30 READ A, B$\n40 INPUT A, B$\n50 LINE INPUT A$, B$\n60 DATA 1, 2\n70 END\n",
        0,
        0,
    ),
    ("10 LET A = \"x\"\n20 END\n", 10, 3),
    ("10 LET A$ = 1\n20 END\n", 10, 3),
    ("10 LET A, B$ = 1\n20 END\n", 10, 3),
    ("10 LET A$, B = \"x\"\n20 END\n", 10, 3),
    ("10 LINE INPUT A\n20 END\n", 10, 3),
    ("10 LINE INPUT A$, B\n20 END\n", 10, 3),
    ("10 LINE INPUT #1: A\n20 END\n", 10, 3),
    ("10 IF A = 1 THEN LET B = \"x\"\n20 END\n", 10, 3),
    (
        "10 IF A = 1 THEN LET B = 1 ELSE LET B = \"x\"\n20 END\n",
        10,
        3,
    ),
    ("10 ON A GOTO 20 ELSE LET A$ = 1\n20 END\n", 10, 3),
];

/// Prompts, formats, and other operands of statements.
const STATEMENTS: [Row; 13] = [
    (
        "10 INPUT PROMPT A$: A\n20 PRINT USING A$ & \"#\": A, A$; A;\n30 PRINT TAB(A); A$\n40 CAUSE EXCEPTION A\n50 END\n",
        0,
        0,
    ),
    ("10 INPUT PROMPT 1: A\n20 END\n", 10, 3),
    ("10 LINE INPUT PROMPT A: A$\n20 END\n", 10, 3),
    ("10 PRINT USING 1: 2\n20 END\n", 10, 3),
    ("10 PRINT #1, USING A: 2\n20 END\n", 10, 3),
    ("10 PRINT TAB(\"3\"); 1\n20 END\n", 10, 3),
    ("10 CHAIN 1\n20 END\n", 10, 3),
    ("10 CAUSE EXCEPTION \"1\"\n20 END\n", 10, 3),
    ("10 ON A$ GOTO 20\n20 END\n", 10, 3),
    ("10 ON \"a\" GOSUB 20\n20 END\n", 10, 3),
    ("10 FOR I = \"a\" TO 3\n20 NEXT I\n30 END\n", 10, 3),
    ("10 FOR I = 1 TO A$\n20 NEXT I\n30 END\n", 10, 3),
    ("10 FOR I = 1 TO 3 STEP \"1\"\n20 NEXT I\n30 END\n", 10, 3),
];

/// Channels, the names of files, and setters.
const RECORDS: [Row; 13] = [
    (
        "10 OPEN #A + 1: NAME A$ & \"x\", RECSIZE 20\n20 WRITE #1, RECORD A: A, A$\n30 READ #A, KEY > A$: B, B$\n40 END\n",
        0,
        0,
    ),
    ("10 OPEN #1: NAME 1\n20 END\n", 10, 3),
    ("10 OPEN #A$: NAME \"x\"\n20 END\n", 10, 3),
    ("10 CLOSE #\"1\"\n20 END\n", 10, 3),
    ("10 PRINT #A$: 1\n20 END\n", 10, 3),
    ("10 INPUT #A$: B\n20 END\n", 10, 3),
    ("10 READ #A$: B\n20 END\n", 10, 3),
    ("10 WRITE #A$: 1\n20 END\n", 10, 3),
    ("10 DELETE #A$\n20 END\n", 10, 3),
    ("10 CALL P(#A$)\n20 END\n", 10, 3),
    ("10 READ #1, RECORD \"1\": A\n20 END\n", 10, 3),
    ("10 REWRITE #1, KEY = 1: A\n20 END\n", 10, 3),
    ("10 SET #1: POINTER KEY >= A\n20 END\n", 10, 3),
];

/// Declared names, and values of functions.
const DECLARED: [Row; 12] = [
    (
        "10 DECLARE NUMERIC A, B(3)\n20 DECLARE STRING A$, B$(3)*4\n30 DIM C, C$, D(3), D$(4)\n40 DEF F$(X$) = X$\n50 END\n",
        0,
        0,
    ),
    ("10 DECLARE NUMERIC A$\n20 END\n", 10, 3),
    ("10 DECLARE STRING A\n20 END\n", 10, 3),
    ("10 DECLARE STRING A$, B\n20 END\n", 10, 3),
    ("10 DECLARE PUBLIC STRING A(3)\n20 END\n", 10, 3),
    ("10 MODULE M\n20 PUBLIC NUMERIC A$\n30 END MODULE\n", 20, 3),
    ("10 MODULE M\n20 SHARE STRING A\n30 END MODULE\n", 20, 3),
    ("10 DEF F = \"x\"\n20 END\n", 10, 3),
    ("10 DEF F$(X) = X\n20 END\n", 10, 3),
    (
        "10 FUNCTION F\n20 LET F = \"x\"\n30 END FUNCTION\n40 END\n",
        20,
        3,
    ),
    ("10 DEF F$ = \"a\"\n20 PRINT 1 + F$\n30 END\n", 20, 3),
    (
        "10 DECLARE EXTERNAL FUNCTION F$\n20 PRINT 1 + F$(2)\n30 END\n",
        20,
        3,
    ),
];

/// Arguments of internal procedures and of a module's own.
const ARGUMENTS: [Row; 6] = [
    (
        "10 CALL P(1, \"x\")\n20 SUB P(X, Y$)\n30 END SUB\n40 END\n",
        0,
        0,
    ),
    ("10 CALL P(\"x\")\n20 SUB P(X)\n30 END SUB\n40 END\n", 10, 3),
    ("10 CALL P(A)\n20 SUB P(X$)\n30 END SUB\n40 END\n", 10, 3),
    (
        "10 DIM A$(3)\n20 CALL P(A$)\n30 SUB P(X())\n40 END SUB\n50 END\n",
        20,
        3,
    ),
    ("10 DEF F(X) = X\n20 PRINT F(\"a\")\n30 END\n", 20, 3),
    (
        "10 MODULE M\n20 CALL P(\"x\")\n30 EXTERNAL SUB P(X)\n40 END SUB\n50 END MODULE\n",
        20,
        3,
    ),
];

/// Arguments and values of supplied functions.
const SUPPLIED: [Row; 13] = [
    (
        "10 PRINT LEN(UCASE$(\"a\")) + VAL(STR$(1)) + POS(\"a\", \"b\", 1) + ORD(CHR$(65))\n20 END\n",
        0,
        0,
    ),
    ("10 PRINT ABS(\"a\")\n20 END\n", 10, 3),
    ("10 PRINT MOD(1, A$)\n20 END\n", 10, 3),
    ("10 PRINT ROUND(A$, 1)\n20 END\n", 10, 3),
    ("10 PRINT LEN(1)\n20 END\n", 10, 3),
    ("10 PRINT CHR$(\"a\")\n20 END\n", 10, 3),
    ("10 PRINT POS(\"a\", 1)\n20 END\n", 10, 3),
    ("10 PRINT POS(\"a\", \"b\", \"c\")\n20 END\n", 10, 3),
    ("10 PRINT STR$(A$)\n20 END\n", 10, 3),
    ("10 PRINT REPEAT$(1, 2)\n20 END\n", 10, 3),
    ("10 PRINT 1 + LTRIM$(A$)\n20 END\n", 10, 3),
    ("10 PRINT \"a\" & RND\n20 END\n", 10, 3),
    ("10 DIM A(3)\n20 PRINT LBOUND(A, \"1\")\n30 END\n", 20, 3),
];

/// Constants of `CASE`.
const CASES: [Row; 15] = [
    (
        "10 SELECT CASE A\n20 CASE 1, 3 TO 5, IS > 7\n30 CASE -5 TO -3, 4 TO 4, 1.5 TO 1.50, 0 TO -0, 1E1 TO 10\n40 CASE ELSE\n50 END SELECT\n60 END\n",
        0,
        0,
    ),
    (
        "10 SELECT CASE A$\n20 CASE \"a\" TO \"ab\", IS >= \"x\"\n30 CASE \"B\" TO \"a\", \"\" TO \"\"\n40 END SELECT\n50 END\n",
        0,
        0,
    ),
    (
        "10 SELECT CASE A\n20 CASE \"x\"\n30 END SELECT\n40 END\n",
        20,
        10,
    ),
    (
        "10 SELECT CASE A$\n20 CASE 1\n30 END SELECT\n40 END\n",
        20,
        10,
    ),
    (
        "10 SELECT CASE A$\n20 CASE IS < 1\n30 END SELECT\n40 END\n",
        20,
        10,
    ),
    (
        "10 SELECT CASE A\n20 CASE 1 TO \"b\"\n30 END SELECT\n40 END\n",
        20,
        10,
    ),
    (
        "10 SELECT CASE A\n20 CASE 1\n30 CASE 2, 3, \"x\"\n40 END SELECT\n50 END\n",
        30,
        10,
    ),
    (
        "10 SELECT CASE LEN(A$)\n20 CASE \"x\"\n30 END SELECT\n40 END\n",
        20,
        10,
    ),
    (
        "10 SELECT CASE STR$(1) & \"b\"\n20 CASE 1\n30 END SELECT\n40 END\n",
        20,
        10,
    ),
    (
        "10 SELECT CASE A\n20 CASE 1\n30 SELECT CASE A$\n40 CASE 1\n50 END SELECT\n60 END SELECT\n70 END\n",
        40,
        10,
    ),
    (
        "10 SELECT CASE A\n20 CASE 5 TO 3\n30 END SELECT\n40 END\n",
        20,
        10,
    ),
    (
        "10 SELECT CASE A\n20 CASE -3 TO -5\n30 END SELECT\n40 END\n",
        20,
        10,
    ),
    (
        "10 SELECT CASE A\n20 CASE 1, 1.51 TO 1.5\n30 END SELECT\n40 END\n",
        20,
        10,
    ),
    (
        "10 SELECT CASE A$\n20 CASE \"ab\" TO \"a\"\n30 END SELECT\n40 END\n",
        20,
        10,
    ),
    (
        "10 SELECT CASE A$\n20 CASE \"a\" TO \"B\"\n30 END SELECT\n40 END\n",
        20,
        10,
    ),
];

#[test]
fn operands_have_the_kind_of_their_operator(rt: HostRuntime) {
    assert_eq!(rt; first_other(rt.alloc(), &OPERATORS), None);
}

#[test]
fn relations_have_one_kind(rt: HostRuntime) {
    assert_eq!(rt; first_other(rt.alloc(), &RELATIONS), None);
}

#[test]
fn subscripts_are_numbers(rt: HostRuntime) {
    assert_eq!(rt; first_other(rt.alloc(), &PLACES), None);
}

#[test]
fn targets_have_the_kind_of_their_value(rt: HostRuntime) {
    assert_eq!(rt; first_other(rt.alloc(), &TARGETS), None);
}

#[test]
fn statements_have_the_kinds_that_they_want(rt: HostRuntime) {
    assert_eq!(rt; first_other(rt.alloc(), &STATEMENTS), None);
}

#[test]
fn channels_are_numbers_and_files_have_texts_as_names(rt: HostRuntime) {
    assert_eq!(rt; first_other(rt.alloc(), &RECORDS), None);
}

#[test]
fn declared_names_have_their_kind(rt: HostRuntime) {
    assert_eq!(rt; first_other(rt.alloc(), &DECLARED), None);
}

#[test]
fn arguments_have_the_kind_of_their_formal(rt: HostRuntime) {
    assert_eq!(rt; first_other(rt.alloc(), &ARGUMENTS), None);
}

#[test]
fn supplied_functions_have_their_kinds(rt: HostRuntime) {
    assert_eq!(rt; first_other(rt.alloc(), &SUPPLIED), None);
}

#[test]
fn case_constants_have_the_kind_of_the_selector(rt: HostRuntime) {
    assert_eq!(rt; first_other(rt.alloc(), &CASES), None);
}
