//! Units that are checked, and the refusals of others.

use crate::text::{UNREAD, unit_in};
use bas_ast::Unit;
use bas_base::Name;
use bas_check::{CheckFault, check};
use std::alloc::Global;
use std::test::Fail;

/// A unit of each kind that keeps all rules, and its name.
const CHECKED: [(&str, &str); 4] = [
    ("10 PRINT 1\n20 END\n", "MAIN"),
    ("10 PROGRAM P\n20 END\n", "P"),
    ("10 EXTERNAL SUB S(A)\n20 LET A = A + 1\n30 END SUB\n", "S"),
    (
        "10 MODULE M\n20 PUBLIC NUMERIC A\n30 LET A = 1\n40 END MODULE\n",
        "M",
    ),
];

/// A unit of each kind that breaks a rule, with the line and the rule.
const REFUSED: [(&str, u32, u8); 3] = [
    ("10 PRINT 1\n20 RETRY\n30 GOTO 15\n40 END\n", 20, 7),
    (
        "10 EXTERNAL SUB S(A)\n20 LET A = \"x\"\n30 END SUB\n",
        20,
        3,
    ),
    ("10 MODULE M\n20 CHAIN \"P\"\n30 END MODULE\n", 20, 22),
];

// The name of a unit.
fn name_of(unit: &Unit) -> Option<Name> {
    match unit {
        Unit::Program(program) => Some(program.name),
        Unit::Procedure(procedure) => procedure.name(),
        Unit::Module(module) => module.name(),
    }
}

// The name of the unit that is lent when it is checked, or none where it is refused.
fn checked_name(alloc: Global, text: &str) -> Option<Name> {
    let unit = unit_in(alloc, text.as_bytes())?;
    let checked = check(alloc, unit).ok()?;
    name_of(checked.unit())
}

// The line and the rule of a refusal.
fn told(fault: CheckFault) -> (u32, u8) {
    match fault {
        CheckFault::Rule { line, rule } => (line.number(), rule),
        CheckFault::Memory => UNREAD,
    }
}

// The line and the rule by which a unit is refused, or 0 and 0 where it is not.
fn refusal_of(alloc: Global, text: &str) -> (u32, u8) {
    let Some(unit) = unit_in(alloc, text.as_bytes()) else {
        return UNREAD;
    };
    match check(alloc, unit).err() {
        Some(fault) => told(fault),
        None => (0, 0),
    }
}

#[test]
fn a_checked_unit_is_lent(rt: HostRuntime) -> Result<(), Fail> {
    for (text, wanted) in CHECKED {
        let name = checked_name(rt.alloc(), text).ok_or("refused")?;
        assert_eq!(rt; name.bytes(), wanted.as_bytes(), "{text}");
    }
    Ok(())
}

#[test]
fn other_units_are_refused(rt: HostRuntime) {
    for (text, line, rule) in REFUSED {
        assert_eq!(rt; refusal_of(rt.alloc(), text), (line, rule), "{text}");
    }
}
