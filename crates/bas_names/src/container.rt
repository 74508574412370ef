//! The names of a program, an external procedure or an initial part.

ghost use Rattle.std.specs.Prelude.{◌++◌, IfOk};
ghost use Rattle.std.specs.Option.{option_map};
ghost use Rattle.bas_ast.specs.Tree.{Block as BlockTree};
ghost use Rattle.bas_ast.specs.BlockTree.{block_tree, item_tree, line_tree};
ghost use Rattle.bas_scope.specs.Bodies.{head_item};
ghost use Rattle.bas_scope.specs.Lines.{own_lines};
ghost use Rattle.bas_scope.specs.Scope.{Outer, formal_entries, outer_names, own_function};
ghost use Rattle.bas_names.specs.Tables.{Declares, HasBefore, HasOuter, Puts};

use crate::declaration::put_declared;
use crate::declared::Declared;
use crate::entry::Table;
use crate::external::put_own_function;
use crate::formals::put_formals;
use crate::lines::own_lines;
use crate::procedure::put_internals;
use crate::unit_names::UnitNames;
use bas_ast::{Block, LineItem, NumLine};
use bas_scope::formals_on;
use std::alloc::{AllocError, Global};

fn put_head(
    alloc: Global,
    table: &mut Table,
    unit: &UnitNames,
    declared: &Declared,
    head: &LineItem,
) -> Result<(), AllocError>
    ensures { IfOk result (λ _. (outer : Outer) (block : BlockTree) → HasOuter unit.now outer → Declares declared.now (own_lines block)
        → Puts table.old table.new (formal_entries outer.options (item_tree head.now) block ++ own_function outer (item_tree head.now))) }
{
    put_formals(table, unit.options, declared, formals_on(head))?;
    put_own_function(alloc, table, &unit.procedures, head)?;
    Ok(())
}

fn put_head_line(
    alloc: Global,
    table: &mut Table,
    unit: &UnitNames,
    declared: &Declared,
    head: Option<&NumLine>,
) -> Result<(), AllocError>
    ensures { let item = head_item (option_map (λ line. line_tree line.now) head.entry) in
        IfOk result (λ _. (outer : Outer) (block : BlockTree) → HasOuter unit.now outer → Declares declared.now (own_lines block)
        → Puts table.old table.new (formal_entries outer.options item block ++ own_function outer item)) }
{
    match head {
        Some(line) => put_head(alloc, table, unit, declared, &line.item),
        None => Ok(()),
    }
}

/// The names of a program, an external procedure or an initial part, from its first line, where it
/// has one, and its block. They go before the variables of the module, which stay in their own table.
pub fn container_table(
    alloc: Global,
    unit: &UnitNames,
    head: Option<&NumLine>,
    block: &Block,
) -> Result<Table, AllocError>
    ensures { IfOk result (λ table. (outer : Outer) → HasOuter unit.now outer → HasBefore table unit.now.variables (outer_names outer (head_item (option_map (λ line. line_tree line.now) head.entry)) (block_tree block.now))) }
{
    let lines = own_lines(alloc, block)?;
    let declared = Declared::on(alloc, lines.as_slice())?;
    let mut table = Table::new(alloc);
    put_head_line(alloc, &mut table, unit, &declared, head)?;
    put_declared(alloc, &mut table, unit, lines.as_slice())?;
    put_internals(alloc, &mut table, unit.options, block)?;
    Ok(table)
}
