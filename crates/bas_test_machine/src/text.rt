//! Programs and their parts, read from text.

use bas_ast::{Cond, Expr, LineItem, Loopc, Part, Plain, Program, Simple, Stmt, Unit};
use bas_block::units_of;
use std::alloc::Global;
use std::test::Fail;

/// The units of a text.
pub fn units_in(alloc: Global, text: &str) -> Result<Vec<Unit>, Fail> {
    match units_of(alloc, text.as_bytes()) {
        Ok(units) => Ok(units),
        Err(_) => Err(Fail::from("no units")),
    }
}

/// The program that the first unit is.
pub fn program_of(units: &[Unit]) -> Result<&Program, Fail> {
    match units.first() {
        Some(Unit::Program(program)) => Ok(program),
        _ => Err(Fail::from("no program")),
    }
}

/// What stands on a line, by its place in the program.
pub fn item_at(program: &Program, at: usize) -> Result<&LineItem, Fail> {
    match program.body.stmts.as_slice().get(at) {
        Some(Stmt::Single(line)) => Ok(&line.item),
        _ => Err(Fail::from("no line alone")),
    }
}

/// The statement of a line, by its place in the program.
pub fn plain_at(program: &Program, at: usize) -> Result<&Plain, Fail> {
    match item_at(program, at)? {
        LineItem::Simple(simple) => match simple.get() {
            Simple::Plain(plain) => Ok(plain),
            _ => Err(Fail::from("no plain statement")),
        },
        _ => Err(Fail::from("no statement")),
    }
}

/// The value of a `LET` line, by its place in the program.
pub fn value_at(program: &Program, at: usize) -> Result<&Expr, Fail> {
    match plain_at(program, at)? {
        Plain::Let(_, value) => Ok(value),
        _ => Err(Fail::from("no value")),
    }
}

/// The condition of a `DO WHILE` line, by its place in the program.
pub fn condition_at(program: &Program, at: usize) -> Result<&Cond, Fail> {
    let Some(Stmt::Nest { sections, .. }) = program.body.stmts.as_slice().get(at) else {
        return Err(Fail::from("no construct"));
    };
    let section = sections.as_slice().first().ok_or("no section")?;
    match &section.head.item {
        LineItem::Part(part) => match part.get() {
            Part::Do(Some(Loopc::While(condition))) => Ok(condition),
            _ => Err(Fail::from("no condition")),
        },
        _ => Err(Fail::from("no line of a construct")),
    }
}
