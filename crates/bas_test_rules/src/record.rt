//! Statements with a channel, and where `CHAIN` stands.

use crate::text::{Row, first_other};

/// What `OPEN` is given.
const OPENED: [Row; 14] = [
    (
        "10 OPEN #1: NAME \"x\"\n20 OPEN #2: NAME \"y\", ACCESS INPUT, CREATE OLD, RECSIZE 16\n30 END\n",
        0,
        0,
    ),
    (
        "10 OPEN #1: NAME \"x\", RECTYPE INTERNAL, ORGANIZATION SEQUENTIAL, RECSIZE 1024\n20 OPEN #2: NAME \"y\", RECTYPE DISPLAY\n30 END\n",
        0,
        0,
    ),
    (
        "10 OPEN #1: NAME \"x\", ORGANIZATION STREAM, RECTYPE INTERNAL\n20 OPEN #2: NAME \"y\", RECTYPE INTERNAL, ORGANIZATION RELATIVE\n30 OPEN #3: NAME \"z\", ORGANIZATION KEYED, RECTYPE INTERNAL\n40 END\n",
        0,
        0,
    ),
    (
        "10 OPEN #1: NAME \"x\", ORGANIZATION STREAM\n20 END\n",
        10,
        19,
    ),
    (
        "10 OPEN #1: NAME \"x\", ORGANIZATION RELATIVE\n20 END\n",
        10,
        19,
    ),
    (
        "10 OPEN #1: NAME \"x\", ORGANIZATION KEYED, RECTYPE DISPLAY\n20 END\n",
        10,
        19,
    ),
    (
        "10 OPEN #1: NAME \"x\", ORGANIZATION SEQUENTIAL, ORGANIZATION SEQUENTIAL\n20 END\n",
        10,
        19,
    ),
    (
        "10 OPEN #1: NAME \"x\", RECTYPE DISPLAY, RECTYPE INTERNAL\n20 END\n",
        10,
        19,
    ),
    (
        "10 OPEN #1: NAME \"x\", ACCESS INPUT, ACCESS OUTPUT\n20 END\n",
        10,
        19,
    ),
    (
        "10 OPEN #1: NAME \"x\", CREATE NEW, ACCESS INPUT, CREATE OLD\n20 END\n",
        10,
        19,
    ),
    (
        "10 OPEN #1: NAME \"x\", RECSIZE 20, RECSIZE 20\n20 END\n",
        10,
        19,
    ),
    ("10 OPEN #1: NAME \"x\", RECSIZE 15\n20 END\n", 10, 19),
    ("10 OPEN #1: NAME \"x\", RECSIZE 1025\n20 END\n", 10, 19),
    (
        "10 IF A = 1 THEN OPEN #1: NAME \"x\", RECSIZE 99999999999\n20 END\n",
        10,
        19,
    ),
];

/// `IF MISSING` and `IF THERE`.
const AWAITED: [Row; 10] = [
    (
        "10 READ #1, NEXT, IF MISSING THEN 40: A\n20 INPUT #1, IF MISSING THEN 40: A\n30 LINE INPUT #1, IF MISSING THEN 40: A$\n40 END\n",
        0,
        0,
    ),
    (
        "10 REWRITE #1, SAME, IF MISSING THEN 30: 1\n20 DELETE #1, KEY = \"a\", IF MISSING THEN 30\n30 WRITE #1, RECORD 1, IF THERE THEN 40: 1\n40 END\n",
        0,
        0,
    ),
    ("10 READ #1, IF THERE THEN 20: A\n20 END\n", 10, 21),
    ("10 INPUT #1, IF THERE THEN 20: A\n20 END\n", 10, 21),
    ("10 LINE INPUT #1, IF THERE THEN 20: A$\n20 END\n", 10, 21),
    ("10 REWRITE #1, IF THERE THEN 20: 1\n20 END\n", 10, 21),
    ("10 DELETE #1, IF THERE THEN 20\n20 END\n", 10, 21),
    ("10 WRITE #1, IF MISSING THEN 20: 1\n20 END\n", 10, 21),
    (
        "10 DO\n20 READ #1, IF THERE THEN EXIT DO: A\n30 LOOP\n40 END\n",
        20,
        21,
    ),
    (
        "10 IF A = 1 THEN WRITE #1, IF MISSING THEN 20: 1\n20 END\n",
        10,
        21,
    ),
];

/// Where `CHAIN` stands.
const CHAINED: [Row; 7] = [
    ("10 CHAIN \"P\" WITH (1, A$)\n20 END\n", 0, 0),
    ("10 EXTERNAL SUB P\n20 CHAIN \"P\"\n30 END SUB\n", 0, 0),
    (
        "10 MODULE M\n20 EXTERNAL SUB P\n30 CHAIN \"P\"\n40 END SUB\n50 END MODULE\n",
        0,
        0,
    ),
    ("10 MODULE M\n20 CHAIN \"P\"\n30 END MODULE\n", 20, 22),
    (
        "10 MODULE M\n20 IF A = 1 THEN CHAIN \"P\"\n30 END MODULE\n",
        20,
        22,
    ),
    (
        "10 MODULE M\n20 DO\n30 CHAIN \"P\"\n40 LOOP\n50 END MODULE\n",
        30,
        22,
    ),
    (
        "10 MODULE M\n20 WHEN EXCEPTION IN\n30 USE\n40 CHAIN \"P\"\n50 END WHEN\n60 END MODULE\n",
        40,
        22,
    ),
];

#[test]
fn open_has_attributes_that_go_together(rt: HostRuntime) {
    assert_eq!(rt; first_other(rt.alloc(), &OPENED), None);
}

#[test]
fn what_is_awaited_can_come(rt: HostRuntime) {
    assert_eq!(rt; first_other(rt.alloc(), &AWAITED), None);
}

#[test]
fn chain_stands_in_no_initial_part(rt: HostRuntime) {
    assert_eq!(rt; first_other(rt.alloc(), &CHAINED), None);
}
