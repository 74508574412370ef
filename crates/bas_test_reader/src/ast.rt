//! A tree of each family, read from text, and the accessors on it.

use crate::cases::{Text, check, check_text};
use crate::expr::{cond_of, expr_of, nested};
use crate::kind::item_of;
use bas_ast::{Expr, Unit};
use bas_block::units_of;
use std::alloc::Global;

/// Each expression, whether it is an operand alone, and the value that its digits alone have.
static DIGITS: [(&str, bool, Option<(i128, u8)>); 3] = [
    ("12", true, Some((12, 0))),
    ("12.", true, None),
    ("-12", false, None),
];

/// Each line, and whether it is a remark.
static LINES: [(&str, bool); 4] = [
    (
        "IF NOT 1 = 1 THEN READ #1, NEXT, IF MISSING THEN 100: A ELSE 100",
        false,
    ),
    ("", true),
    ("REM !", true),
    ("DIM A(-1 TO 3)*8.2", false),
];

/// Each file, and the names of its units, each with the line at which its first statement begins where it is
/// a program that has one.
static UNITS: [(&str, &str); 2] = [
    (
        "10 PROGRAM Rates\n20 END\n30 EXTERNAL SUB Rates(#1)\n40 END SUB\n50 MODULE Rates\n60 END MODULE\n",
        "RATES RATES RATES ",
    ),
    ("30 DO WHILE 1 = 1\n40 LOOP\n50 END\n", "MAIN30 "),
];

// Whether the text is an operand alone, where it is an expression.
fn is_alone(alloc: Global, text: &str) -> Option<bool> {
    match expr_of(alloc, text.as_bytes()) {
        Ok((e, _)) => Some(e.lone_primary().is_some()),
        Err(_) => None,
    }
}

fn digits(e: &Expr) -> Option<(i128, u8)> {
    Some(e.digits()?.parts())
}

// The value that the digits of an expression alone have.
fn digits_of(alloc: Global, text: &str) -> Option<(i128, u8)> {
    match expr_of(alloc, text.as_bytes()) {
        Ok((e, _)) => digits(&e),
        Err(_) => None,
    }
}

#[test]
fn digits_of_an_expression(rt: HostRuntime) {
    for (text, alone, wanted) in &DIGITS {
        check(&rt, text, is_alone(rt.alloc(), text) == Some(*alone));
        check(&rt, text, digits_of(rt.alloc(), text) == *wanted);
    }
}

// Whether one digit in so many parentheses is an expression that has not only digits.
fn nests(alloc: Global, times: usize) -> bool {
    let text = nested(alloc, times, "1");
    match expr_of(alloc, text.as_str().as_bytes()) {
        Ok((e, _)) => e.digits().is_none(),
        Err(_) => false,
    }
}

#[test]
fn deep_expressions_are_dropped(rt: HostRuntime) {
    assert!(rt; nests(rt.alloc(), 64));
}

// The tokens of a comparison behind so many words `NOT`, where that is a condition.
fn tokens_behind(alloc: Global, words: u32) -> Option<usize> {
    let mut text = Text::new(alloc);
    for _ in 0..words {
        text.put("NOT ");
    }
    text.put("1=1");
    match cond_of(alloc, text.as_str().as_bytes()) {
        Ok((_, end)) => Some(end),
        Err(_) => None,
    }
}

#[test]
fn deep_conditions_are_dropped(rt: HostRuntime) {
    assert!(rt; tokens_behind(rt.alloc(), 1000) == Some(1003));
}

// Whether the line is a remark, where it has an item.
fn is_remark(alloc: Global, line: &str) -> Option<bool> {
    match item_of(alloc, line.as_bytes()) {
        Ok(item) => Some(item.is_remark()),
        Err(_) => None,
    }
}

#[test]
fn lines_and_remarks(rt: HostRuntime) {
    for (line, wanted) in &LINES {
        check(&rt, line, is_remark(rt.alloc(), line) == Some(*wanted));
    }
}

// The number of the line at which the program's first statement begins.
fn first_line(unit: &Unit) -> Option<u32> {
    let Unit::Program(program) = unit else {
        return None;
    };
    let stmt = program.body.stmts.as_slice().first()?;
    Some(stmt.first_line().number())
}

// The name of a unit, and the line at which its first statement begins, if it is a program.
fn put_unit(text: &mut Text, unit: &Unit) {
    match unit.name() {
        Some(name) => text.put_bytes(name.bytes()),
        None => text.put("no name"),
    }
    if let Some(line) = first_line(unit) {
        text.put_number(i128::from(line));
    }
    text.put(" ");
}

fn put_units(text: &mut Text, units: &[Unit]) {
    for unit in units {
        put_unit(text, unit);
    }
}

fn shown(alloc: Global, file: &str) -> Text {
    let mut text = Text::new(alloc);
    match units_of(alloc, file.as_bytes()) {
        Ok(units) => put_units(&mut text, units.as_slice()),
        Err(_) => text.put("no units"),
    }
    text
}

#[test]
fn units_have_names_and_loops_begin_at_their_first_lines(rt: HostRuntime) {
    for (file, wanted) in &UNITS {
        check_text(&rt, file, &shown(rt.alloc(), file), wanted);
    }
}
