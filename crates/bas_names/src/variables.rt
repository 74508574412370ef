//! The variables that declarations declare.

ghost use Rattle.std.specs.Prelude.{[], ◌∷◌, map, IfOk};
ghost use Rattle.bas_ast.specs.DeclarationTree.{declared_tree};
ghost use Rattle.bas_scope.specs.Shapes.{declared_cell};
ghost use Rattle.bas_scope.specs.Scope.{Home, Variable, variables};
ghost use Rattle.bas_names.specs.Tables.{Puts, options_told};

use crate::entry::{Entry, Table};
use crate::options::UnitOptions;
use crate::shapes::shape_of;
use bas_ast::DeclaredItem;
use std::alloc::AllocError;

fn put_variable(
    table: &mut Table,
    options: UnitOptions,
    item: &DeclaredItem,
) -> Result<(), AllocError>
    ensures { let declared = declared_tree item.now in
        IfOk result (λ _. (home : Home) → Puts table.old table.new ((declared.name, Variable home (declared_cell (options_told options) declared)) ∷ [])) }
{
    let dimensions = item.bounds.items().len();
    let shape = shape_of(options, item.name, Some(item), dimensions);
    table.put(item.name, Entry::Variable(shape))?;
    Ok(())
}

/// Puts declared variables behind what a table has.
pub fn put_variables(
    table: &mut Table,
    options: UnitOptions,
    items: &[DeclaredItem],
) -> Result<(), AllocError>
    ensures { IfOk result (λ _. (home : Home) → Puts table.old table.new (variables (options_told options) home (map declared_tree items.now))) }
{
    for item in items {
        put_variable(table, options, item)?;
    }
    Ok(())
}
