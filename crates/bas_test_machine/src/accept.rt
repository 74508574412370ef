//! Files that are accepted, and the refusals of others.

use bas_accept::{accepted, first_program};
use std::alloc::{AllocError, Global};
use std::test::Fail;

/// A program with a `PROGRAM` line, a remark, a loop and its jumps.
const GOOD: &str =
    "10 PROGRAM P\n20 REM a loop\n30 DO\n40 EXIT DO\n50 LOOP\n60 GOTO 30\n70 END\n80 ! behind\n";

/// Each file, and how it is refused.
const REFUSED: [(&str, &str); 7] = [
    ("10 GOTO 15\n20 END\n", "Rule(4, Line { number: 10 })"),
    ("10 EXIT DO\n20 END\n", "Rule(6, Line { number: 10 })"),
    (
        "10 IF A = 0 THEN\n20 DO\n30 END IF\n40 LOOP\n50 END\n",
        "Source(BadNest(Line { number: 30 }))",
    ),
    (
        "10 PRINT \"A\"\n20 END\n",
        "Source(BadLine(Line { number: 10 }))",
    ),
    (
        "10 END\n20 PRINT 1\n30 END\n",
        "Source(BadLine(Line { number: 20 }))",
    ),
    (
        "10 GOTO 15\n20 PRINT \"A\"\n30 END\n",
        "Source(BadLine(Line { number: 20 }))",
    ),
    ("10 REM\n", "Source(NoUnit)"),
];

// The refusal of a file, as it is shown.
fn refusal_of(alloc: Global, file: &[u8]) -> Result<String, AllocError> {
    match accepted(alloc, file).err() {
        Some(refusal) => format!(in alloc; "{refusal:?}"),
        None => format!(in alloc; "none"),
    }
}

// How many units the file has, and whether a program is among them; none where it is refused.
fn count_of(alloc: Global, file: &[u8]) -> Option<(usize, bool)> {
    match accepted(alloc, file) {
        Ok(units) => Some((units.len(), first_program(&units).is_some())),
        Err(_) => None,
    }
}

#[test]
fn a_program_is_accepted(rt: HostRuntime) -> Result<(), Fail> {
    assert!(rt; count_of(rt.alloc(), GOOD.as_bytes()) == Some((1, true)));
    Ok(())
}

#[test]
fn files_are_refused(rt: HostRuntime) -> Result<(), Fail> {
    for (file, refusal) in REFUSED {
        let found = refusal_of(rt.alloc(), file.as_bytes())?;
        assert!(rt; found.as_bytes() == refusal.as_bytes(), "{file}");
    }
    Ok(())
}
