//! What stands in a loop, a procedure or a handler alone, handlers by their names, and counters of loops.

use crate::text::{Row, first_other};

/// Exits from loops.
const LOOPS: [Row; 14] = [
    (
        "10 DO\n20 FOR I = 1 TO 2\n30 EXIT DO\n40 EXIT FOR\n50 NEXT I\n60 LOOP\n70 END\n",
        0,
        0,
    ),
    (
        "10 DO\n20 WHEN EXCEPTION IN\n30 EXIT DO\n40 USE\n50 EXIT DO\n60 END WHEN\n70 LOOP\n80 END\n",
        0,
        0,
    ),
    (
        "10 DO\n20 READ #1, IF MISSING THEN EXIT DO: A\n30 LOOP\n40 FOR I = 1 TO 2\n50 WRITE #1, IF THERE THEN EXIT FOR: I\n60 NEXT I\n70 END\n",
        0,
        0,
    ),
    ("10 EXIT DO\n20 END\n", 10, 6),
    ("10 FOR I = 1 TO 2\n20 EXIT DO\n30 NEXT I\n40 END\n", 20, 6),
    ("10 DO\n20 EXIT FOR\n30 LOOP\n40 END\n", 20, 6),
    ("10 DO\n20 LOOP\n30 EXIT DO\n40 END\n", 30, 6),
    ("10 HANDLER H\n20 EXIT DO\n30 END HANDLER\n40 END\n", 20, 6),
    ("10 IF A = 1 THEN EXIT DO\n20 END\n", 10, 6),
    ("10 ON A GOTO 20 ELSE EXIT FOR\n20 END\n", 10, 6),
    ("10 READ #1, IF MISSING THEN EXIT DO: A\n20 END\n", 10, 6),
    (
        "10 DO\n20 DELETE #1, IF MISSING THEN EXIT FOR\n30 LOOP\n40 END\n",
        20,
        6,
    ),
    (
        "10 DO\n20 WRITE #1, IF THERE THEN EXIT FOR: 1\n30 LOOP\n40 END\n",
        20,
        6,
    ),
    (
        "10 IF A = 1 THEN READ #1, IF MISSING THEN EXIT DO: B\n20 END\n",
        10,
        6,
    ),
];

/// Exits from procedures.
const PROCEDURES: [Row; 10] = [
    (
        "10 EXTERNAL SUB P\n20 IF A = 1 THEN\n30 EXIT SUB\n40 END IF\n50 HANDLER H\n60 EXIT SUB\n70 END HANDLER\n80 END SUB\n",
        0,
        0,
    ),
    (
        "10 FUNCTION F\n20 LET F = 1\n30 EXIT FUNCTION\n40 END FUNCTION\n50 SUB P\n60 EXIT SUB\n70 END SUB\n80 END\n",
        0,
        0,
    ),
    (
        "10 MODULE M\n20 EXTERNAL SUB P\n30 EXIT SUB\n40 END SUB\n50 EXTERNAL FUNCTION F\n60 EXIT FUNCTION\n70 END FUNCTION\n80 END MODULE\n",
        0,
        0,
    ),
    ("10 EXIT SUB\n20 END\n", 10, 6),
    ("10 EXIT FUNCTION\n20 END\n", 10, 6),
    (
        "10 MODULE M\n20 EXIT SUB\n30 EXTERNAL SUB P\n40 END SUB\n50 END MODULE\n",
        20,
        6,
    ),
    ("10 EXTERNAL SUB P\n20 EXIT FUNCTION\n30 END SUB\n", 20, 6),
    (
        "10 EXTERNAL FUNCTION F\n20 EXIT SUB\n30 END FUNCTION\n",
        20,
        6,
    ),
    (
        "10 EXTERNAL SUB P\n20 FUNCTION F\n30 EXIT SUB\n40 END FUNCTION\n50 END SUB\n",
        30,
        6,
    ),
    (
        "10 EXTERNAL FUNCTION F\n20 SUB P\n30 IF A = 1 THEN EXIT FUNCTION\n40 END SUB\n50 END FUNCTION\n",
        30,
        6,
    ),
];

/// `RETRY`, `CONTINUE` and `EXIT HANDLER`.
const RESUMED: [Row; 13] = [
    (
        "10 WHEN EXCEPTION IN\n20 USE\n30 RETRY\n40 CONTINUE\n50 EXIT HANDLER\n60 END WHEN\n70 END\n",
        0,
        0,
    ),
    (
        "10 HANDLER H\n20 RETRY\n30 DO\n40 CONTINUE\n50 LOOP\n60 IF A = 1 THEN EXIT HANDLER\n70 END HANDLER\n80 END\n",
        0,
        0,
    ),
    (
        "10 WHEN EXCEPTION IN\n20 USE\n30 WHEN EXCEPTION IN\n40 RETRY\n50 USE\n60 END WHEN\n70 END WHEN\n80 END\n",
        0,
        0,
    ),
    ("10 RETRY\n20 END\n", 10, 7),
    ("10 CONTINUE\n20 END\n", 10, 7),
    ("10 EXIT HANDLER\n20 END\n", 10, 7),
    (
        "10 WHEN EXCEPTION IN\n20 CONTINUE\n30 USE\n40 RETRY\n50 END WHEN\n60 END\n",
        20,
        7,
    ),
    (
        "10 WHEN EXCEPTION IN\n20 USE\n30 END WHEN\n40 RETRY\n50 END\n",
        40,
        7,
    ),
    (
        "10 WHEN EXCEPTION USE H\n20 EXIT HANDLER\n30 END WHEN\n40 HANDLER H\n50 END HANDLER\n60 END\n",
        20,
        7,
    ),
    ("10 SUB P\n20 RETRY\n30 END SUB\n40 END\n", 20, 7),
    ("10 IF A = 1 THEN PRINT 1 ELSE RETRY\n20 END\n", 10, 7),
    ("10 ON A GOTO 20 ELSE CONTINUE\n20 END\n", 10, 7),
    (
        "10 SUB P\n20 HANDLER H\n30 RETRY\n40 END HANDLER\n50 END SUB\n60 END\n",
        0,
        0,
    ),
];

/// Handlers by their names.
const HANDLERS: [Row; 10] = [
    (
        "10 WHEN EXCEPTION USE h\n20 END WHEN\n30 HANDLER H\n40 END HANDLER\n50 WHEN EXCEPTION USE H\n60 END WHEN\n70 END\n",
        0,
        0,
    ),
    (
        "10 SUB P\n20 WHEN EXCEPTION USE H\n30 END WHEN\n40 HANDLER H\n50 END HANDLER\n60 END SUB\n70 HANDLER H\n80 END HANDLER\n90 END\n",
        0,
        0,
    ),
    ("10 WHEN EXCEPTION USE H\n20 END WHEN\n30 END\n", 10, 8),
    (
        "10 WHEN EXCEPTION USE G\n20 END WHEN\n30 HANDLER H\n40 END HANDLER\n50 END\n",
        10,
        8,
    ),
    (
        "10 HANDLER H\n20 END HANDLER\n30 SUB P\n40 WHEN EXCEPTION USE H\n50 END WHEN\n60 END SUB\n70 END\n",
        40,
        8,
    ),
    (
        "10 SUB P\n20 HANDLER H\n30 END HANDLER\n40 END SUB\n50 WHEN EXCEPTION USE H\n60 END WHEN\n70 END\n",
        50,
        8,
    ),
    (
        "10 SUB H\n20 END SUB\n30 WHEN EXCEPTION USE H\n40 END WHEN\n50 END\n",
        30,
        8,
    ),
    (
        "10 HANDLER H\n20 END HANDLER\n30 HANDLER H\n40 END HANDLER\n50 END\n",
        30,
        8,
    ),
    (
        "10 HANDLER H\n20 END HANDLER\n30 HANDLER G\n40 END HANDLER\n50 HANDLER h\n60 END HANDLER\n70 END\n",
        50,
        8,
    ),
    (
        "10 DO\n20 WHEN EXCEPTION USE H\n30 END WHEN\n40 LOOP\n50 END\n",
        20,
        8,
    ),
];

/// Counters of loops.
const COUNTERS: [Row; 15] = [
    (
        "10 FOR I = 1 TO 2\n20 NEXT i\n30 FOR I = 2 TO 1 STEP -1\n40 FOR J = I TO 2\n50 NEXT J\n60 NEXT I\n70 END\n",
        0,
        0,
    ),
    (
        "10 SUB P(X)\n20 DECLARE NUMERIC X*8.2\n30 FOR X = 1 TO 2\n40 NEXT X\n50 END SUB\n60 END\n",
        0,
        0,
    ),
    (
        "10 FOR I = 1 TO 2\n20 NEXT I\n30 SUB P\n40 FOR I = 1 TO 2\n50 NEXT I\n60 END SUB\n70 END\n",
        0,
        0,
    ),
    ("10 FOR I = 1 TO 2\n20 NEXT J\n30 END\n", 20, 9),
    ("10 FOR I = 1 TO 2\n20 NEXT I$\n30 END\n", 20, 9),
    (
        "10 FOR I = 1 TO 2\n20 FOR J = 1 TO 2\n30 NEXT I\n40 NEXT J\n50 END\n",
        30,
        9,
    ),
    (
        "10 FOR I = 1 TO 2\n20 FOR I = 1 TO 2\n30 NEXT I\n40 NEXT I\n50 END\n",
        20,
        9,
    ),
    (
        "10 FOR I = 1 TO 2\n20 DO\n30 FOR J = 1 TO 2\n40 FOR I = 1 TO 2\n50 NEXT I\n60 NEXT J\n70 LOOP\n80 NEXT I\n90 END\n",
        40,
        9,
    ),
    (
        "10 FOR I = 1 TO 2\n20 WHEN EXCEPTION IN\n30 USE\n40 FOR I = 1 TO 2\n50 NEXT I\n60 END WHEN\n70 NEXT I\n80 END\n",
        40,
        9,
    ),
    ("10 FOR A$ = 1 TO 2\n20 NEXT A$\n30 END\n", 10, 9),
    ("10 DIM A(3)\n20 FOR A = 1 TO 2\n30 NEXT A\n40 END\n", 20, 9),
    (
        "10 EXTERNAL SUB P(A())\n20 FOR A = 1 TO 2\n30 NEXT A\n40 END SUB\n",
        20,
        9,
    ),
    (
        "10 DEF F = 1\n20 FOR F = 1 TO 2\n30 NEXT F\n40 END\n",
        20,
        9,
    ),
    (
        "10 FUNCTION F\n20 FOR F = 1 TO 2\n30 NEXT F\n40 END FUNCTION\n50 END\n",
        20,
        9,
    ),
    (
        "10 DECLARE EXTERNAL FUNCTION F\n20 FOR F = 1 TO 2\n30 NEXT F\n40 END\n",
        20,
        9,
    ),
];

#[test]
fn an_exit_stands_in_its_loop(rt: HostRuntime) {
    assert_eq!(rt; first_other(rt.alloc(), &LOOPS), None);
}

#[test]
fn an_exit_stands_in_its_procedure(rt: HostRuntime) {
    assert_eq!(rt; first_other(rt.alloc(), &PROCEDURES), None);
}

#[test]
fn what_resumes_stands_in_a_handler(rt: HostRuntime) {
    assert_eq!(rt; first_other(rt.alloc(), &RESUMED), None);
}

#[test]
fn a_handler_has_a_name_of_its_own(rt: HostRuntime) {
    assert_eq!(rt; first_other(rt.alloc(), &HANDLERS), None);
}

#[test]
fn a_counter_is_a_number_of_one_loop(rt: HostRuntime) {
    assert_eq!(rt; first_other(rt.alloc(), &COUNTERS), None);
}
