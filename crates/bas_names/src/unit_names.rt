//! What all bodies of a unit see.

ghost use Rattle.std.specs.Prelude.{◌++◌, map, IfOk};
ghost use Rattle.bas_ast.specs.BlockTree.{block_tree};
ghost use Rattle.bas_ast.specs.UnitTree.{procedure_tree, unit_tree};
ghost use Rattle.bas_scope.specs.Bodies.{on_lines, outer_in as outer_in_unit, outer_of, public_on, shared_on};
ghost use Rattle.bas_scope.specs.Lines.{gathered};
ghost use Rattle.bas_scope.specs.Scope.{InModule, procedure_entry};
ghost use Rattle.bas_names.specs.Tables.{Has, HasOuter, options_told};

use crate::declaration::{put_publics, put_shared};
use crate::entry::Table;
use crate::lines::own_lines;
use crate::options::{UnitOptions, options_of};
use crate::procedure::put_procedures;
use bas_ast::{Block, Procedure, Unit};
use std::alloc::{AllocError, Global};

/// What all bodies of a unit see: its options, and the variables and procedures of a module.
#[derive(Debug, Drop)]
pub struct UnitNames {
    pub options: UnitOptions,
    /// Those of `PUBLIC` before those of `SHARE`.
    pub variables: Table,
    pub procedures: Table,
}

fn variables_of(alloc: Global, options: UnitOptions, initial: &Block) -> Result<Table, AllocError>
    ensures { let o = options_told options in
        IfOk result (λ table. Has table (on_lines (public_on o) (block_tree initial.now) ++ on_lines (shared_on o) (block_tree initial.now))) }
{
    let lines = own_lines(alloc, initial)?;
    let mut table = Table::new(alloc);
    put_publics(&mut table, options, lines.as_slice())?;
    put_shared(&mut table, options, lines.as_slice())?;
    Ok(table)
}

fn procedures_of(
    alloc: Global,
    options: UnitOptions,
    procedures: &[Procedure],
) -> Result<Table, AllocError>
    ensures { IfOk result (λ table. Has table (gathered (λ p. procedure_entry (options_told options) InModule p.head.item p.body) (map procedure_tree procedures.now))) }
{
    let mut table = Table::new(alloc);
    put_procedures(alloc, &mut table, options, procedures)?;
    Ok(table)
}

#[tactic(auto, unfolding(bas_ast::specs::UnitTree::unit_tree))]
fn outer_in(alloc: Global, options: UnitOptions, unit: &Unit) -> Result<UnitNames, AllocError>
    ensures { IfOk result (λ names. HasOuter names (outer_in_unit (options_told options) (unit_tree unit.now))) }
{
    match unit {
        Unit::Module(part) => Ok(UnitNames {
            options,
            variables: variables_of(alloc, options, &part.initial)?,
            procedures: procedures_of(alloc, options, part.procs.items())?,
        }),
        _ => Ok(UnitNames {
            options,
            variables: Table::new(alloc),
            procedures: Table::new(alloc),
        }),
    }
}

/// What all bodies of a unit see, with the options that it sets.
pub fn names_of_unit(alloc: Global, unit: &Unit) -> Result<UnitNames, AllocError>
    ensures { IfOk result (λ names. HasOuter names (outer_of (unit_tree unit.now))) }
{
    let options = options_of(alloc, unit)?;
    outer_in(alloc, options, unit)
}
