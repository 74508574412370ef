//! What is built, and the first line of a file that is not.

use crate::text::{condition_at, item_at, plain_at, program_of, units_in, value_at};
use bas_base::Line;
use bas_unbuilt::{
    is_built_condition, is_built_expression, is_built_line, is_built_statement, unbuilt_line,
};
use std::test::Fail;

/// Expressions, and whether they and their conditions are built.
const EXPRESSIONS: [(&str, bool); 6] = [
    ("A", true),
    ("A$", false),
    ("rnd", false),
    ("RNDS", true),
    ("A + A", true),
    ("A + A & A", false),
];

/// Files, and the number of the first line that is not built.
const FILES: [(&str, Option<u32>); 7] = [
    ("10 DO\n20 EXIT DO\n30 LOOP\n40 END\n", None),
    ("10 DO\n20 STOP\n30 LOOP\n40 END\n", Some(20)),
    (
        "10 SELECT CASE A$\n15 CASE 1\n20 STOP\n30 END SELECT\n40 END\n",
        Some(10),
    ),
    (
        "10 DO\n20 EXIT DO\n30 LOOP UNTIL A$ = A$\n40 END\n",
        Some(30),
    ),
    ("5 PROGRAM P\n10 REM A\n40 END\n", None),
    ("5 PROGRAM P(X)\n10\n40 END\n", Some(5)),
    (
        "10 DO\n20 EXIT DO\n30 LOOP\n40 END\n50 EXTERNAL SUB P\n60 END SUB\n",
        Some(50),
    ),
];

#[test]
fn expressions_and_conditions(rt: HostRuntime) -> Result<(), Fail> {
    let alloc = rt.alloc();
    for (text, built) in EXPRESSIONS {
        let file = format!(in alloc;
            "10 LET X = {text}\n20 DO WHILE {text} = {text}\n30 LOOP\n40 END\n"
        )?;
        let units = units_in(alloc, file.as_str())?;
        let program = program_of(units.as_slice())?;
        assert_eq!(rt; is_built_expression(value_at(program, 0)?), built, "{text}");
        assert_eq!(rt;
            is_built_condition(condition_at(program, 1)?),
            built,
            "{text}"
        );
    }
    Ok(())
}

#[test]
fn lines(rt: HostRuntime) -> Result<(), Fail> {
    let units = units_in(rt.alloc(), "10 REM A\n20\n30 EXIT DO\n40 END\n")?;
    let program = program_of(units.as_slice())?;
    assert!(rt; is_built_line(item_at(program, 0)?));
    assert!(rt; is_built_line(item_at(program, 1)?));
    assert!(rt; is_built_statement(plain_at(program, 2)?));
    Ok(())
}

#[test]
fn first_line_of_a_file(rt: HostRuntime) -> Result<(), Fail> {
    for (text, wanted) in FILES {
        let units = units_in(rt.alloc(), text)?;
        let found = unbuilt_line(units.as_slice()).map(Line::number);
        assert_eq!(rt; found, wanted, "{text}");
    }
    Ok(())
}
