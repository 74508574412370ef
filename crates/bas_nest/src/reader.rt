//! The units of a file, line by line.

ghost use Rattle.std.specs.Prelude.{◌≡◌, ℕ, IfOk, map};
ghost use Rattle.std.specs.Option.{option_map};
ghost use Rattle.bas_ast.specs.BlockTree.{block_tree, item_tree, line_tree, stmt_tree};
ghost use Rattle.bas_ast.specs.UnitTree.{procedure_tree, unit_tree};
ghost use Rattle.bas_nest.specs.Constructs as constructs;
ghost use Rattle.bas_nest.specs.Reading as reading;
ghost use Rattle.bas_nest.specs.Units.{main_name};
ghost use Rattle.bas_nest.specs.States.{level_tree, open_tree, owner_tree, reading_tree};

use crate::body::in_body;
use crate::construct::{Role, program_name, role_of};
use crate::ending::in_module;
use crate::stack::Stack;
use crate::state::{Body, Level, Open, Owner, Reading};
use bas_ast::{Block, NumLine, Procedure, Stmt, Unit};
use bas_base::{Line, Name, Seq};
use sqlite_items::Items;
use std::alloc::{AllocError, Global};

type Read = Result<Option<Reading>, AllocError>;

// Remarks as the first statements of a program.
#[tactic(auto, using(crate::proofs::Trees::waited_next))]
fn waited(alloc: Global, waiting: Seq<NumLine>) -> Result<Items<Stmt>, AllocError>
    ensures { IfOk result (λ stmts. map stmt_tree stmts ≡ reading.waited (map line_tree waiting)) }
{
    let mut stmts = Items::new(alloc);
    for line in waiting.into_items() {
        stmts.push(Stmt::Single(line))?;
    }
    Ok(stmts)
}

fn first_of_waiting(waiting: &Seq<NumLine>, line: &NumLine) -> Line
    ensures { result ≡ reading.first_of_waiting (map line_tree waiting.now) (line_tree line.now) }
{
    match waiting.items().first() {
        Some(first) => first.line,
        None => line.line,
    }
}

// A body begins in which nothing stands yet.
fn began(alloc: Global, units: Seq<Unit>, owner: Owner) -> Reading
    ensures { reading_tree result ≡ reading.began (map unit_tree units) (owner_tree owner) }
{
    Reading {
        units,
        opened: Open::Within(Body {
            owner,
            stmts: Items::new(alloc),
            levels: Stack::new(alloc),
        }),
    }
}

// The name of a program that has no PROGRAM line.
fn main_name() -> Name
    ensures { result ≡ main_name }
{
    match Name::of(b"MAIN") {
        Some(name) => name,
        None => unreachable!(),
    }
}

// The line begins a program that has no PROGRAM line.
fn begins_main(alloc: Global, units: Seq<Unit>, waiting: Seq<NumLine>, line: NumLine) -> Read
    ensures { IfOk result (λ r. option_map reading_tree r ≡ reading.begins_main (map unit_tree units) (map line_tree waiting) (line_tree line)) }
{
    let first = first_of_waiting(&waiting, &line);
    let stmts = waited(alloc, waiting)?;
    let owner = Owner::Program {
        name: main_name(),
        head: None,
        first,
    };
    let levels = Stack::new(alloc);
    let body = Body {
        owner,
        stmts,
        levels,
    };
    in_body(alloc, units, body, line)
}

// A PROGRAM line.
fn begins_program(alloc: Global, units: Seq<Unit>, line: NumLine) -> Option<Reading>
    ensures { option_map reading_tree result ≡ reading.begins_program (map unit_tree units) (line_tree line) (constructs.program_name (item_tree line.item)) }
{
    match program_name(&line.item) {
        None => None,
        Some(name) => {
            let first = line.line;
            let head = Some(line);
            Some(began(alloc, units, Owner::Program { name, head, first }))
        }
    }
}

// The line begins a unit.
fn begins_unit(alloc: Global, units: Seq<Unit>, waiting: Seq<NumLine>, line: NumLine) -> Read
    ensures { IfOk result (λ r. option_map reading_tree r ≡ reading.begins_unit (map unit_tree units) (map line_tree waiting) (line_tree line) (constructs.role_of (item_tree line.item))) }
{
    match role_of(&line.item) {
        Role::BeginsProgram => Ok(begins_program(alloc, units, line)),
        Role::BeginsSub | Role::BeginsFunction => {
            Ok(Some(began(alloc, units, Owner::Procedure { head: line })))
        }
        Role::BeginsModule => Ok(Some(began(alloc, units, Owner::Initial { head: line }))),
        _ => begins_main(alloc, units, waiting, line),
    }
}

// The line is empty, or holds a remark alone.
fn is_remark(line: &NumLine) -> bool
    ensures { result ≡ constructs.is_remark (constructs.role_of (item_tree line.now.item)) }
{
    match role_of(&line.item) {
        Role::Remark => true,
        _ => false,
    }
}

// The line where nothing is open.
#[tactic(auto, using(crate::proofs::Trees::lines_more))]
fn outside(alloc: Global, units: Seq<Unit>, waiting: Seq<NumLine>, line: NumLine) -> Read
    ensures { IfOk result (λ r. option_map reading_tree r ≡ reading.outside (map unit_tree units) (map line_tree waiting) (line_tree line)) }
{
    if !is_remark(&line) {
        return begins_unit(alloc, units, waiting, line);
    }
    let mut waiting = waiting.into_items();
    waiting.push(line)?;
    let opened = Open::Outside {
        waiting: Seq::of(waiting),
    };
    Ok(Some(Reading { units, opened }))
}

// The line behind a procedure of a module.
fn between(
    alloc: Global,
    units: Seq<Unit>,
    part: NumLine,
    initial: Block,
    procs: Seq<Procedure>,
    line: NumLine,
) -> Read
    ensures { IfOk result (λ r. option_map reading_tree r ≡ reading.between (map unit_tree units) (line_tree part) (block_tree initial) (map procedure_tree procs) (line_tree line)) }
{
    if !is_remark(&line) {
        return in_module(alloc, units, part, initial, procs, line);
    }
    let opened = Open::Between {
        part,
        initial,
        procs,
    };
    Ok(Some(Reading { units, opened }))
}

/// What is read after one more line, or `None` where no nesting takes it. A line is stored in constant time
/// on average; the first of a program without `PROGRAM` takes the remarks that wait with it, and `None`
/// drops what was read.
pub fn line_read(alloc: Global, before: Reading, line: NumLine) -> Read
    ensures { IfOk result (λ r. option_map reading_tree r ≡ reading.line_read (reading_tree before) (line_tree line)) }
{
    let Reading { units, opened } = before;
    match opened {
        Open::Outside { waiting } => outside(alloc, units, waiting, line),
        Open::Within(body) => in_body(alloc, units, body, line),
        Open::Between {
            part,
            initial,
            procs,
        } => between(alloc, units, part, initial, procs, line),
    }
}

/// Nothing is read yet.
pub fn nothing_read(alloc: Global) -> Reading
    ensures { reading_tree result ≡ reading.nothing_read }
{
    Reading {
        units: Seq::of(Vec::new(alloc)),
        opened: Open::Outside {
            waiting: Seq::of(Vec::new(alloc)),
        },
    }
}

fn opener(level: &Level) -> Line
    ensures { result ≡ reading.opener (level_tree level.now).sections (level_tree level.now).head }
{
    match level.sections.as_slice().first() {
        Some(section) => section.head.line,
        None => level.head.line,
    }
}

fn first_line(owner: &Owner) -> Line
    ensures { result ≡ reading.first_line (owner_tree owner.now) }
{
    match owner {
        Owner::Program { first, .. } => *first,
        Owner::Procedure { head } | Owner::Initial { head } | Owner::Member { head, .. } =>
            head.line,
    }
}

/// The line that opened the innermost of what is open, if anything is.
#[tactic(auto, using(crate::proofs::Trees::innermost_top, crate::proofs::Trees::innermost_none))]
pub fn unclosed(opened: &Open) -> Option<Line>
    ensures { result ≡ reading.unclosed (open_tree opened.now) }
{
    match opened {
        Open::Outside { .. } => None,
        Open::Between { part, .. } => Some(part.line),
        Open::Within(body) => match body.levels.top() {
            Some(level) => Some(opener(level)),
            None => Some(first_line(&body.owner)),
        },
    }
}
