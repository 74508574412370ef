//! External procedures: the module's own where it has one of the name, else those of another unit.

ghost use Rattle.std.specs.Prelude.{◌≡◌, [], ◌∷◌, map, IfOk};
ghost use Rattle.bas_ast.specs.BlockTree.{item_tree};
ghost use Rattle.bas_scope.specs.Scope.{
  Meaning,
  Outer,
  elsewhere as elsewhere_of,
  external as external_of,
  own_function as own_function_of,
  within,
};
ghost use Rattle.bas_face.specs.declared.face.CallKind.TheVariants as call;
ghost use Rattle.bas_scope.specs.Senses.{sense};
ghost use Rattle.bas_names.specs.Names.{entry_sense};
ghost use Rattle.bas_names.specs.Tables.{Has, Puts};

use crate::entry::{Entry, Table};
use bas_ast::{LineItem, Part};
use bas_base::Name;
use bas_face::CallKind;
use std::alloc::{AllocError, Global};

fn elsewhere(kind: CallKind) -> Entry
    ensures { entry_sense result ≡ sense (elsewhere_of kind) }
{
    match kind {
        CallKind::Sub => Entry::Sub(None),
        CallKind::Function => Entry::Function(None, false),
    }
}

fn external(
    alloc: Global,
    procedures: &Table,
    kind: CallKind,
    name: &Name,
) -> Result<Entry, AllocError>
    ensures { IfOk result (λ entry. (outer : Outer) → Has procedures.now outer.procedures → entry_sense entry ≡ sense (external_of outer kind name.now)) }
{
    match procedures.copy(alloc, name)? {
        Some(entry) => Ok(entry),
        None => Ok(elsewhere(kind)),
    }
}

/// A function whose value may be set; other entries as they are.
pub fn settable(entry: Entry) -> Entry
    ensures { (meaning : Meaning) → entry_sense entry ≡ sense meaning → entry_sense result ≡ sense (within meaning) }
{
    match entry {
        Entry::Function(formals, _) => Entry::Function(formals, true),
        other => other,
    }
}

fn put_external(
    alloc: Global,
    table: &mut Table,
    procedures: &Table,
    kind: CallKind,
    name: Name,
) -> Result<(), AllocError>
    ensures { IfOk result (λ _. (outer : Outer) → Has procedures.now outer.procedures → Puts table.old table.new ((name, external_of outer kind name) ∷ [])) }
{
    let entry = external(alloc, procedures, kind, &name)?;
    table.put(name, entry)?;
    Ok(())
}

/// Puts external procedures behind what a table has.
pub fn put_externals(
    alloc: Global,
    table: &mut Table,
    procedures: &Table,
    kind: CallKind,
    names: &[Name],
) -> Result<(), AllocError>
    ensures { IfOk result (λ _. (outer : Outer) → Has procedures.now outer.procedures → Puts table.old table.new (map (λ name. (name, external_of outer kind name)) names.now)) }
{
    for name in names {
        put_external(alloc, table, procedures, kind, *name)?;
    }
    Ok(())
}

fn put_function(
    alloc: Global,
    table: &mut Table,
    procedures: &Table,
    name: Name,
) -> Result<(), AllocError>
    ensures { IfOk result (λ _. (outer : Outer) → Has procedures.now outer.procedures → Puts table.old table.new ((name, within (external_of outer call.Function name)) ∷ [])) }
{
    let entry = external(alloc, procedures, CallKind::Function, &name)?;
    table.put(name, settable(entry))?;
    Ok(())
}

/// Puts the function that an external body is of behind what a table has.
#[tactic(auto, unfolding(bas_ast::specs::BlockTree::item_tree, bas_ast::specs::PartTree::part_tree))]
pub fn put_own_function(
    alloc: Global,
    table: &mut Table,
    procedures: &Table,
    head: &LineItem,
) -> Result<(), AllocError>
    ensures { IfOk result (λ _. (outer : Outer) → Has procedures.now outer.procedures → Puts table.old table.new (own_function_of outer (item_tree head.now))) }
{
    match head {
        LineItem::Part(part) => match part.get() {
            Part::ExternalFunction(name, _) => put_function(alloc, table, procedures, *name),
            _ => Ok(()),
        },
        _ => Ok(()),
    }
}
