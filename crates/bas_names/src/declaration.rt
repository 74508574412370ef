//! What the declarations of a body declare.

ghost use Rattle.std.specs.Prelude.{IfOk};
ghost use Rattle.bas_ast.specs.Tree.{DeclareExternal, OfDecl};
ghost use Rattle.bas_ast.specs.BlockTree.{item_tree};
ghost use Rattle.bas_ast.specs.DeclarationTree.{decl_tree, procedure_kind_tree};
ghost use Rattle.bas_scope.specs.Bodies.{public_on, shared_on};
ghost use Rattle.bas_scope.specs.Lines.{gathered};
ghost use Rattle.bas_scope.specs.Scope.{Outer, declared_on};
ghost use Rattle.bas_names.specs.Lent.{line_trees};
ghost use Rattle.bas_names.specs.Tables.{Has, HasOuter, Puts, options_told};

use crate::entry::Table;
use crate::external::put_externals;
use crate::options::UnitOptions;
use crate::unit_names::UnitNames;
use crate::variables::put_variables;
use bas_ast::{Decl, LineItem, NumLine, ProcedureKind};
use bas_base::Name;
use bas_face::CallKind;
use std::alloc::{AllocError, Global};

fn put_of_kind(
    alloc: Global,
    table: &mut Table,
    procedures: &Table,
    kind: ProcedureKind,
    names: &[Name],
) -> Result<(), AllocError>
    ensures { IfOk result (λ _. (outer : Outer) → Has procedures.now outer.procedures → Puts table.old table.new (declared_on outer (OfDecl (DeclareExternal (procedure_kind_tree kind) names.now)))) }
{
    match kind {
        ProcedureKind::Sub => put_externals(alloc, table, procedures, CallKind::Sub, names),
        ProcedureKind::Function => {
            put_externals(alloc, table, procedures, CallKind::Function, names)
        }
    }
}

#[tactic(auto, unfolding(bas_ast::specs::DeclarationTree::decl_tree))]
fn put_declaration(
    alloc: Global,
    table: &mut Table,
    unit: &UnitNames,
    decl: &Decl,
) -> Result<(), AllocError>
    ensures { IfOk result (λ _. (outer : Outer) → HasOuter unit.now outer → Puts table.old table.new (declared_on outer (OfDecl (decl_tree decl.now)))) }
{
    match decl {
        Decl::Dim(items)
        | Decl::Declare(_, items)
        | Decl::Public(_, items)
        | Decl::Share(_, items)
        | Decl::DeclarePublic(_, items) => put_variables(table, unit.options, items.items.items()),
        Decl::DeclareExternal(kind, names) => {
            put_of_kind(alloc, table, &unit.procedures, *kind, names.items())
        }
        _ => Ok(()),
    }
}

#[tactic(auto, unfolding(bas_ast::specs::BlockTree::item_tree))]
fn put_line(
    alloc: Global,
    table: &mut Table,
    unit: &UnitNames,
    item: &LineItem,
) -> Result<(), AllocError>
    ensures { IfOk result (λ _. (outer : Outer) → HasOuter unit.now outer → Puts table.old table.new (declared_on outer (item_tree item.now))) }
{
    match item {
        LineItem::Decl(decl) => put_declaration(alloc, table, unit, decl.get()),
        _ => Ok(()),
    }
}

/// Puts what lines declare for their body behind what a table has.
pub fn put_declared(
    alloc: Global,
    table: &mut Table,
    unit: &UnitNames,
    lines: &[&NumLine],
) -> Result<(), AllocError>
    ensures { IfOk result (λ _. (outer : Outer) → HasOuter unit.now outer → Puts table.old table.new (gathered (λ line. declared_on outer line.item) (line_trees lines.now))) }
{
    for line in lines {
        put_line(alloc, table, unit, &line.item)?;
    }
    Ok(())
}

#[tactic(auto, unfolding(bas_ast::specs::BlockTree::item_tree, bas_ast::specs::DeclarationTree::decl_tree))]
fn put_public(table: &mut Table, options: UnitOptions, item: &LineItem) -> Result<(), AllocError>
    ensures { IfOk result (λ _. Puts table.old table.new (public_on (options_told options) (item_tree item.now))) }
{
    match item {
        LineItem::Decl(decl) => match decl.get() {
            Decl::Public(_, items) => put_variables(table, options, items.items.items()),
            _ => Ok(()),
        },
        _ => Ok(()),
    }
}

/// Puts the variables that `PUBLIC` declares for a module behind what a table has.
pub fn put_publics(
    table: &mut Table,
    options: UnitOptions,
    lines: &[&NumLine],
) -> Result<(), AllocError>
    ensures { IfOk result (λ _. Puts table.old table.new (gathered (λ line. public_on (options_told options) line.item) (line_trees lines.now))) }
{
    for line in lines {
        put_public(table, options, &line.item)?;
    }
    Ok(())
}

#[tactic(auto, unfolding(bas_ast::specs::BlockTree::item_tree, bas_ast::specs::DeclarationTree::decl_tree))]
fn put_share(table: &mut Table, options: UnitOptions, item: &LineItem) -> Result<(), AllocError>
    ensures { IfOk result (λ _. Puts table.old table.new (shared_on (options_told options) (item_tree item.now))) }
{
    match item {
        LineItem::Decl(decl) => match decl.get() {
            Decl::Share(_, items) => put_variables(table, options, items.items.items()),
            _ => Ok(()),
        },
        _ => Ok(()),
    }
}

/// Puts the variables that `SHARE` declares for a module behind what a table has.
pub fn put_shared(
    table: &mut Table,
    options: UnitOptions,
    lines: &[&NumLine],
) -> Result<(), AllocError>
    ensures { IfOk result (λ _. Puts table.old table.new (gathered (λ line. shared_on (options_told options) line.item) (line_trees lines.now))) }
{
    for line in lines {
        put_share(table, options, &line.item)?;
    }
    Ok(())
}
