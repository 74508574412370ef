//! Lines that a jump or a `GOSUB` may name.

use crate::text::{Row, first_other};

/// Jumps to lines of the same block or one around it.
const REACHED: [Row; 13] = [
    ("10 GOTO 20\n20 GOTO 10\n30 GOTO 30\n40 END\n", 0, 0),
    ("10 GOTO 20\n20 REM here\n30 GOTO 40\n40\n50 END\n", 0, 0),
    ("10 GOTO 20\n20 END\n", 0, 0),
    ("10 GOTO 20\n20 IF A = 1 THEN\n30 END IF\n40 END\n", 0, 0),
    ("10 GOTO 20\n20 FOR I = 1 TO 2\n30 NEXT I\n40 END\n", 0, 0),
    ("10 GOTO 20\n20 DO\n30 GOTO 40\n40 LOOP\n50 END\n", 0, 0),
    (
        "10 GOTO 20\n20 SELECT CASE A\n30 CASE 1\n40 GOTO 20\n50 END SELECT\n60 END\n",
        0,
        0,
    ),
    (
        "10 WHEN EXCEPTION IN\n20 GOTO 10\n30 USE\n40 GOTO 60\n50 END WHEN\n60 GOTO 10\n70 END\n",
        0,
        0,
    ),
    (
        "10 WHEN EXCEPTION USE H\n20 GOTO 10\n30 END WHEN\n40 HANDLER H\n50 END HANDLER\n60 END\n",
        0,
        0,
    ),
    (
        "10 DO\n20 FOR I = 1 TO 2\n30 IF A = 1 THEN\n40 GOTO 10\n50 GOTO 20\n60 GOTO 30\n70 GOTO 90\n80 END IF\n90 NEXT I\n100 LOOP\n110 END\n",
        0,
        0,
    ),
    (
        "10 DO\n20 IF A = 1 THEN\n30 GOTO 50\n40 END IF\n50 LOOP\n60 DO\n70 GOTO 80\n80 LOOP\n90 END\n",
        0,
        0,
    ),
    (
        "10 HANDLER H\n20 LET A = 1\n30 DO\n40 GOTO 20\n50 LOOP\n60 END HANDLER\n70 END\n",
        0,
        0,
    ),
    (
        "10 SUB P\n20 DO\n30 GOTO 20\n40 LOOP\n50 END SUB\n60 END\n",
        0,
        0,
    ),
];

/// Jumps to lines that are never counted, or that are not there.
const DECLARED: [Row; 13] = [
    ("10 GOTO 15\n20 END\n", 10, 4),
    ("10 GOTO 20\n20 DATA 1\n30 END\n", 10, 4),
    ("10 GOTO 20\n20 DIM A(3)\n30 END\n", 10, 4),
    ("10 GOTO 20\n20 DECLARE EXTERNAL SUB P\n30 END\n", 10, 4),
    ("10 OPTION BASE 0\n20 GOTO 10\n30 END\n", 20, 4),
    ("10 GOTO 20\n20 DEF F = 1\n30 END\n", 10, 4),
    ("10 GOTO 20\n20 SUB P\n30 END SUB\n40 END\n", 10, 4),
    ("10 GOTO 30\n20 SUB P\n30 END SUB\n40 END\n", 10, 4),
    (
        "10 GOTO 20\n20 FUNCTION F\n30 LET F = 1\n40 END FUNCTION\n50 END\n",
        10,
        4,
    ),
    ("10 GOTO 20\n20 HANDLER H\n30 END HANDLER\n40 END\n", 10, 4),
    ("10 PROGRAM P\n20 GOTO 10\n30 END\n", 20, 4),
    ("10 EXTERNAL SUB P\n20 GOTO 30\n30 END SUB\n", 20, 4),
    ("10 MODULE M\n20 GOTO 30\n30 END MODULE\n", 20, 4),
];

/// Jumps to lines that divide or close blocks, and to lines of other branches.
const PARTS: [Row; 13] = [
    ("10 IF A = 1 THEN\n20 GOTO 30\n30 END IF\n40 END\n", 20, 4),
    (
        "10 IF A = 1 THEN\n20 GOTO 30\n30 ELSE\n40 END IF\n50 END\n",
        20,
        4,
    ),
    (
        "10 IF A = 1 THEN\n20 GOTO 30\n30 ELSEIF A = 2 THEN\n40 END IF\n50 END\n",
        20,
        4,
    ),
    (
        "10 IF A = 1 THEN\n20 ELSEIF A = 2 THEN\n30 GOTO 20\n40 END IF\n50 END\n",
        30,
        4,
    ),
    (
        "10 GOTO 30\n20 IF A = 1 THEN\n30 ELSEIF A = 2 THEN\n40 END IF\n50 END\n",
        10,
        4,
    ),
    (
        "10 IF A = 1 THEN\n20 GOTO 40\n30 ELSEIF A = 2 THEN\n40 LET A = 3\n50 END IF\n60 END\n",
        20,
        4,
    ),
    (
        "10 SELECT CASE A\n20 CASE 1\n30 GOTO 20\n40 END SELECT\n50 END\n",
        30,
        4,
    ),
    (
        "10 SELECT CASE A\n20 CASE 1\n30 LET A = 1\n40 CASE ELSE\n50 GOTO 30\n60 END SELECT\n70 END\n",
        50,
        4,
    ),
    (
        "10 SELECT CASE A\n20 CASE 1\n30 END SELECT\n40 GOTO 30\n50 END\n",
        40,
        4,
    ),
    (
        "10 SELECT CASE A\n20 REM\n30 CASE 1\n40 GOTO 20\n50 END SELECT\n60 END\n",
        40,
        4,
    ),
    (
        "10 WHEN EXCEPTION IN\n20 PRINT 1\n30 USE\n40 GOTO 20\n50 END WHEN\n60 END\n",
        40,
        4,
    ),
    (
        "10 WHEN EXCEPTION IN\n20 GOTO 40\n30 USE\n40 PRINT 1\n50 END WHEN\n60 END\n",
        20,
        4,
    ),
    (
        "10 WHEN EXCEPTION IN\n20 GOTO 30\n30 USE\n40 END WHEN\n50 END\n",
        20,
        4,
    ),
];

/// Jumps into blocks.
const BLOCKS: [Row; 8] = [
    ("10 GOTO 30\n20 DO\n30 LET A = 1\n40 LOOP\n50 END\n", 10, 4),
    ("10 GOTO 30\n20 DO\n30 LOOP\n40 END\n", 10, 4),
    ("10 GOTO 30\n20 FOR I = 1 TO 2\n30 NEXT I\n40 END\n", 10, 4),
    (
        "10 IF A = 1 THEN\n20 PRINT 1\n30 END IF\n40 GOTO 20\n50 END\n",
        40,
        4,
    ),
    (
        "10 DO\n20 GOTO 40\n30 DO\n40 PRINT 1\n50 LOOP\n60 LOOP\n70 END\n",
        20,
        4,
    ),
    (
        "10 DO\n20 LET A = 1\n30 LOOP\n40 DO\n50 GOTO 20\n60 LOOP\n70 END\n",
        50,
        4,
    ),
    (
        "10 WHEN EXCEPTION USE H\n20 PRINT 1\n30 END WHEN\n40 GOTO 20\n50 HANDLER H\n60 END HANDLER\n70 END\n",
        40,
        4,
    ),
    (
        "10 SELECT CASE A\n20 CASE 1\n30 PRINT 1\n40 END SELECT\n50 GOTO 30\n60 END\n",
        50,
        4,
    ),
];

/// Jumps to another body, and out of or into a handler that stands apart.
const BODIES: [Row; 9] = [
    ("10 SUB P\n20 GOTO 40\n30 END SUB\n40 END\n", 20, 4),
    (
        "10 GOTO 30\n20 SUB P\n30 PRINT 1\n40 END SUB\n50 END\n",
        10,
        4,
    ),
    (
        "10 SUB P\n20 PRINT 1\n30 END SUB\n40 SUB Q\n50 GOTO 20\n60 END SUB\n70 END\n",
        50,
        4,
    ),
    (
        "10 MODULE M\n20 PRINT 1\n30 EXTERNAL SUB P\n40 GOTO 20\n50 END SUB\n60 END MODULE\n",
        40,
        4,
    ),
    (
        "10 MODULE M\n20 GOTO 40\n30 EXTERNAL SUB P\n40 PRINT 1\n50 END SUB\n60 END MODULE\n",
        20,
        4,
    ),
    ("10 HANDLER H\n20 GOTO 40\n30 END HANDLER\n40 END\n", 20, 4),
    (
        "10 GOTO 30\n20 HANDLER H\n30 PRINT 1\n40 END HANDLER\n50 END\n",
        10,
        4,
    ),
    (
        "10 HANDLER H\n20 PRINT 1\n30 END HANDLER\n40 HANDLER G\n50 GOTO 20\n60 END HANDLER\n70 END\n",
        50,
        4,
    ),
    (
        "10 SUB P\n20 PRINT 1\n30 HANDLER H\n40 GOTO 20\n50 END HANDLER\n60 END SUB\n70 END\n",
        40,
        4,
    ),
];

/// The statements that jump.
const FORMS: [Row; 15] = [
    (
        "10 IF A = 1 THEN 20 ELSE 30\n20 ON A GOTO 10, 20 ELSE GOTO 30\n30 READ #1, IF MISSING THEN 40: A\n40 WRITE #1, IF THERE THEN 10: A\n50 END\n",
        0,
        0,
    ),
    ("10 GO TO 15\n20 END\n", 10, 4),
    ("10 IF A = 1 THEN 25\n20 END\n", 10, 4),
    ("10 IF A = 1 THEN 20 ELSE 25\n20 END\n", 10, 4),
    ("10 IF A = 1 THEN GOTO 25\n20 END\n", 10, 4),
    ("10 IF A = 1 THEN PRINT 1 ELSE GOTO 25\n20 END\n", 10, 4),
    ("10 ON A GOTO 20, 25\n20 END\n", 10, 4),
    ("10 ON A GOTO 20 ELSE GOTO 25\n20 END\n", 10, 4),
    ("10 READ #1, IF MISSING THEN 15: A\n20 END\n", 10, 4),
    ("10 INPUT #1, IF MISSING THEN 15: A\n20 END\n", 10, 4),
    ("10 LINE INPUT #1, IF MISSING THEN 15: A$\n20 END\n", 10, 4),
    ("10 REWRITE #1, IF MISSING THEN 15: 1\n20 END\n", 10, 4),
    ("10 DELETE #1, IF MISSING THEN 15\n20 END\n", 10, 4),
    ("10 WRITE #1, IF THERE THEN 15: 1\n20 END\n", 10, 4),
    (
        "10 IF A = 1 THEN READ #1, IF MISSING THEN 15: B\n20 END\n",
        10,
        4,
    ),
];

/// Lines that `GOSUB` names.
const GOSUBS: [Row; 17] = [
    (
        "10 GOSUB 20\n20 REM\n30 GOSUB 10\n40 ON A GOSUB 10, 50\n50 END\n",
        0,
        0,
    ),
    ("10 DO\n20 GOSUB 10\n30 LOOP\n40 END\n", 0, 0),
    (
        "10 HANDLER H\n20 GOSUB 40\n30 END HANDLER\n40 LET A = 1\n50 END\n",
        0,
        0,
    ),
    ("10 SUB P\n20 GOSUB 20\n30 END SUB\n40 END\n", 0, 0),
    ("10 GOSUB 15\n20 END\n", 10, 5),
    ("10 GOSUB 20\n20 DATA 1\n30 END\n", 10, 5),
    ("10 GOSUB 20\n20 DEF F = 1\n30 END\n", 10, 5),
    ("10 GOSUB 30\n20 DO\n30 LET A = 1\n40 LOOP\n50 END\n", 10, 5),
    ("10 DO\n20 GOSUB 20\n30 LOOP\n40 END\n", 20, 5),
    ("10 GOSUB 30\n20 FOR I = 1 TO 2\n30 NEXT I\n40 END\n", 10, 5),
    (
        "10 WHEN EXCEPTION IN\n20 GOSUB 20\n30 USE\n40 END WHEN\n50 END\n",
        20,
        5,
    ),
    ("10 HANDLER H\n20 GOSUB 20\n30 END HANDLER\n40 END\n", 20, 5),
    (
        "10 GOSUB 30\n20 SUB P\n30 PRINT 1\n40 END SUB\n50 END\n",
        10,
        5,
    ),
    ("10 SUB P\n20 GOSUB 40\n30 END SUB\n40 END\n", 20, 5),
    ("10 ON A GOSUB 20, 25\n20 END\n", 10, 5),
    ("10 IF A = 1 THEN GO SUB 25\n20 END\n", 10, 5),
    ("10 ON A GOTO 20 ELSE GOSUB 25\n20 END\n", 10, 5),
];

/// Jumps in front of two loops, and inside the inner one.
const LOOPS: [Row; 13] = [
    (
        "10 GOTO 70\n20 DO\n30 DO\n40 GOTO 10\n50 LOOP\n60 LOOP\n70 END\n",
        0,
        0,
    ),
    (
        "10 GOTO 70\n20 DO\n30 DO\n40 GOTO 20\n50 LOOP\n60 LOOP\n70 END\n",
        0,
        0,
    ),
    (
        "10 GOTO 70\n20 DO\n30 DO\n40 GOTO 30\n50 LOOP\n60 LOOP\n70 END\n",
        0,
        0,
    ),
    (
        "10 GOTO 70\n20 DO\n30 DO\n40 GOTO 40\n50 LOOP\n60 LOOP\n70 END\n",
        0,
        0,
    ),
    (
        "10 GOTO 70\n20 DO\n30 DO\n40 GOTO 50\n50 LOOP\n60 LOOP\n70 END\n",
        0,
        0,
    ),
    (
        "10 GOTO 70\n20 DO\n30 DO\n40 GOTO 60\n50 LOOP\n60 LOOP\n70 END\n",
        0,
        0,
    ),
    (
        "10 GOTO 70\n20 DO\n30 DO\n40 GOTO 70\n50 LOOP\n60 LOOP\n70 END\n",
        0,
        0,
    ),
    (
        "10 GOTO 15\n20 DO\n30 DO\n40 EXIT DO\n50 LOOP\n60 LOOP\n70 END\n",
        10,
        4,
    ),
    (
        "10 GOTO 30\n20 DO\n30 DO\n40 EXIT DO\n50 LOOP\n60 LOOP\n70 END\n",
        10,
        4,
    ),
    (
        "10 GOTO 40\n20 DO\n30 DO\n40 EXIT DO\n50 LOOP\n60 LOOP\n70 END\n",
        10,
        4,
    ),
    (
        "10 GOTO 50\n20 DO\n30 DO\n40 EXIT DO\n50 LOOP\n60 LOOP\n70 END\n",
        10,
        4,
    ),
    (
        "10 GOTO 60\n20 DO\n30 DO\n40 EXIT DO\n50 LOOP\n60 LOOP\n70 END\n",
        10,
        4,
    ),
    (
        "10 EXIT DO\n20 DO\n30 DO\n40 GOTO 45\n50 LOOP\n60 LOOP\n70 END\n",
        10,
        6,
    ),
];

#[test]
fn a_jump_goes_to_a_line_around_it(rt: HostRuntime) {
    assert_eq!(rt; first_other(rt.alloc(), &REACHED), None);
}

#[test]
fn a_jump_goes_to_a_counted_line(rt: HostRuntime) {
    assert_eq!(rt; first_other(rt.alloc(), &DECLARED), None);
}

#[test]
fn a_jump_goes_to_no_other_branch(rt: HostRuntime) {
    assert_eq!(rt; first_other(rt.alloc(), &PARTS), None);
}

#[test]
fn a_jump_goes_into_no_block(rt: HostRuntime) {
    assert_eq!(rt; first_other(rt.alloc(), &BLOCKS), None);
}

#[test]
fn a_jump_stays_in_its_body(rt: HostRuntime) {
    assert_eq!(rt; first_other(rt.alloc(), &BODIES), None);
}

#[test]
fn all_jumps_are_tested(rt: HostRuntime) {
    assert_eq!(rt; first_other(rt.alloc(), &FORMS), None);
}

#[test]
fn gosub_goes_to_the_top_of_its_body(rt: HostRuntime) {
    assert_eq!(rt; first_other(rt.alloc(), &GOSUBS), None);
}

#[test]
fn a_jump_leaves_loops_and_enters_none(rt: HostRuntime) {
    assert_eq!(rt; first_other(rt.alloc(), &LOOPS), None);
}
