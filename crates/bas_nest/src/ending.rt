//! Lines that end a body, a unit or a part of a module.

ghost use Rattle.std.specs.Prelude.{◌≡◌, IfOk, map};
ghost use Rattle.std.specs.Option.{option_map};
ghost use Rattle.bas_ast.specs.BlockTree.{block_tree, item_tree, line_tree};
ghost use Rattle.bas_ast.specs.UnitTree.{procedure_tree, unit_tree};
ghost use Rattle.bas_nest.specs.Constructs as constructs;
ghost use Rattle.bas_nest.specs.Reading as reading;
ghost use Rattle.bas_nest.specs.States.{open_tree, owner_tree, reading_tree};

use crate::construct::{Role, begins_procedure, closes_procedure, role_of};
use crate::stack::Stack;
use crate::state::{Body, Open, Owner, Reading};
use bas_ast::{Block, Module, NumLine, Procedure, Program, Unit};
use bas_base::{Name, Seq};
use sqlite_items::Items;
use std::alloc::{AllocError, Global};

type Read = Result<Option<Reading>, AllocError>;

// The unit is whole, behind those before it.
#[tactic(auto, using(crate::proofs::Trees::units_more))]
fn with_unit(alloc: Global, units: Seq<Unit>, unit: Unit) -> Result<Reading, AllocError>
    ensures { IfOk result (λ r. reading_tree r ≡ reading.with_unit (map unit_tree units) (unit_tree unit)) }
{
    let mut units = units.into_items();
    units.push(unit)?;
    Ok(Reading {
        units: Seq::of(units),
        opened: Open::Outside {
            waiting: Seq::of(Vec::new(alloc)),
        },
    })
}

// A procedure of the module begins with the line.
fn member(
    alloc: Global,
    part: NumLine,
    initial: Block,
    procs: Seq<Procedure>,
    head: NumLine,
) -> Open
    ensures { open_tree result ≡ reading.member (line_tree part) (block_tree initial) (map procedure_tree procs) (line_tree head) }
{
    Open::Within(Body {
        owner: Owner::Member {
            part,
            initial,
            procs,
            head,
        },
        stmts: Items::new(alloc),
        levels: Stack::new(alloc),
    })
}

/// The line behind a procedure of a module, or behind its initial part.
#[tactic(auto, unfolding(bas_ast::specs::UnitTree::unit_tree))]
pub fn in_module(
    alloc: Global,
    units: Seq<Unit>,
    part: NumLine,
    initial: Block,
    procs: Seq<Procedure>,
    line: NumLine,
) -> Read
    ensures { IfOk result (λ r. option_map reading_tree r ≡ reading.in_module (map unit_tree units) (line_tree part) (block_tree initial) (map procedure_tree procs) (line_tree line)) }
{
    let role = role_of(&line.item);
    if begins_procedure(role) {
        let opened = member(alloc, part, initial, procs, line);
        return Ok(Some(Reading { units, opened }));
    }
    let Role::EndsModule = role else {
        return Ok(None);
    };
    let module = Module {
        head: part,
        initial,
        procs,
        end: line,
    };
    Ok(Some(with_unit(alloc, units, Unit::Module(module))?))
}

#[tactic(auto, unfolding(bas_ast::specs::UnitTree::unit_tree))]
fn ends_program(
    alloc: Global,
    units: Seq<Unit>,
    name: Name,
    head: Option<NumLine>,
    body: Block,
    line: NumLine,
) -> Read
    ensures { IfOk result (λ r. option_map reading_tree r ≡ reading.ends_program (map unit_tree units) name (option_map line_tree head) (block_tree body) (line_tree line) (constructs.role_of (item_tree line.item))) }
{
    let Role::EndsProgram = role_of(&line.item) else {
        return Ok(None);
    };
    let program = Program {
        name,
        head,
        body,
        end: line,
    };
    Ok(Some(with_unit(alloc, units, Unit::Program(program))?))
}

#[tactic(auto, unfolding(bas_ast::specs::UnitTree::unit_tree))]
fn ends_procedure(
    alloc: Global,
    units: Seq<Unit>,
    head: NumLine,
    body: Block,
    line: NumLine,
) -> Read
    ensures { IfOk result (λ r. option_map reading_tree r ≡ reading.ends_procedure (map unit_tree units) (line_tree head) (block_tree body) (line_tree line)) }
{
    if !closes_procedure(role_of(&head.item), role_of(&line.item)) {
        return Ok(None);
    }
    let procedure = Procedure {
        head,
        body,
        end: line,
    };
    Ok(Some(with_unit(alloc, units, Unit::Procedure(procedure))?))
}

#[tactic(auto, using(crate::proofs::Trees::procs_more))]
fn ends_member(
    units: Seq<Unit>,
    part: NumLine,
    initial: Block,
    procs: Seq<Procedure>,
    head: NumLine,
    body: Block,
    line: NumLine,
) -> Read
    ensures { IfOk result (λ r. option_map reading_tree r ≡ reading.ends_member (map unit_tree units) (line_tree part) (block_tree initial) (map procedure_tree procs) (line_tree head) (block_tree body) (line_tree line)) }
{
    if !closes_procedure(role_of(&head.item), role_of(&line.item)) {
        return Ok(None);
    }
    let mut procs = procs.into_items();
    procs.push(Procedure {
        head,
        body,
        end: line,
    })?;
    let opened = Open::Between {
        part,
        initial,
        procs: Seq::of(procs),
    };
    Ok(Some(Reading { units, opened }))
}

/// The line that ends a body.
pub fn ends_body(alloc: Global, units: Seq<Unit>, owner: Owner, body: Block, line: NumLine) -> Read
    ensures { IfOk result (λ r. option_map reading_tree r ≡ reading.ends_body (map unit_tree units) (owner_tree owner) (block_tree body) (line_tree line)) }
{
    match owner {
        Owner::Program { name, head, .. } => ends_program(alloc, units, name, head, body, line),
        Owner::Procedure { head } => ends_procedure(alloc, units, head, body, line),
        Owner::Initial { head } => in_module(
            alloc,
            units,
            head,
            body,
            Seq::of(Vec::new(alloc)),
            line,
        ),
        Owner::Member {
            part,
            initial,
            procs,
            head,
        } => ends_member(units, part, initial, procs, head, body, line),
    }
}
