//! The procedures of a unit, with the shapes of their formals.

ghost use Rattle.std.specs.Prelude.{◌≡◌, map, IfOk};
ghost use Rattle.bas_ast.specs.Tree.{Block as BlockTree, Nest, NumLine as LineTree};
ghost use Rattle.bas_ast.specs.BlockTree.{block_tree, item_tree, line_tree, sections_tree, stmt_tree, stmts_tree};
ghost use Rattle.bas_ast.specs.UnitTree.{procedure_tree};
ghost use Rattle.bas_scope.specs.Lines.{gathered, own_lines};
ghost use Rattle.bas_scope.specs.Scope.{
  Home,
  definition_on,
  inner_of,
  internals_of,
  known as known_of,
  procedure_entry,
  within,
};
ghost use Rattle.bas_scope.specs.Senses.{sense, shape_written};
ghost use Rattle.bas_names.specs.Names.{entry_sense};
ghost use Rattle.bas_names.specs.Tables.{Declares, Puts, options_told};

use crate::declared::Declared;
use crate::entry::{Entry, Table};
use crate::external::settable;
use crate::formals::formal_shapes;
use crate::lines::{opens_procedure, own_lines};
use crate::options::UnitOptions;
use bas_ast::{Block, LineItem, NumLine, Part, Procedure, Section, Stmt};
use bas_base::Seq;
use bas_face::CallKind;
use bas_scope::{WrittenShape, formals_on, procedure_on};
use std::alloc::{AllocError, Global};

fn known(kind: CallKind, formals: Seq<WrittenShape>) -> Entry
    ensures { (home : Home) → entry_sense result ≡ sense (known_of home kind (map shape_written formals)) }
{
    match kind {
        CallKind::Sub => Entry::Sub(Some(formals)),
        CallKind::Function => Entry::Function(Some(formals), false),
    }
}

/// Puts the procedure that a line begins behind what a table has.
pub fn put_procedure(
    alloc: Global,
    table: &mut Table,
    options: UnitOptions,
    declared: &Declared,
    head: &LineItem,
) -> Result<(), AllocError>
    ensures { IfOk result (λ _. (home : Home) (block : BlockTree) → Declares declared.now (own_lines block) → Puts table.old table.new (procedure_entry (options_told options) home (item_tree head.now) block)) }
{
    if let Some((name, kind)) = procedure_on(head) {
        let formals = formal_shapes(alloc, options, declared, formals_on(head))?;
        table.put(name, known(kind, formals))?;
    }
    Ok(())
}

/// Puts the procedure that a line begins, as it is seen inside of it.
pub fn put_within(
    alloc: Global,
    table: &mut Table,
    options: UnitOptions,
    declared: &Declared,
    head: &LineItem,
) -> Result<(), AllocError>
    ensures { IfOk result (λ _. (home : Home) (block : BlockTree) → Declares declared.now (own_lines block) → Puts table.old table.new (map (λ x. (x.0, within x.1)) (procedure_entry (options_told options) home (item_tree head.now) block))) }
{
    if let Some((name, kind)) = procedure_on(head) {
        let formals = formal_shapes(alloc, options, declared, formals_on(head))?;
        table.put(name, settable(known(kind, formals)))?;
    }
    Ok(())
}

fn put_with_block(
    alloc: Global,
    table: &mut Table,
    options: UnitOptions,
    head: &LineItem,
    block: &Block,
) -> Result<(), AllocError>
    ensures { IfOk result (λ _. (home : Home) → Puts table.old table.new (procedure_entry (options_told options) home (item_tree head.now) (block_tree block.now))) }
{
    let lines = own_lines(alloc, block)?;
    let declared = Declared::on(alloc, lines.as_slice())?;
    put_procedure(alloc, table, options, &declared, head)
}

#[tactic(auto, unfolding(bas_ast::specs::BlockTree::item_tree, bas_ast::specs::PartTree::part_tree))]
fn put_definition(
    alloc: Global,
    table: &mut Table,
    options: UnitOptions,
    line: &NumLine,
) -> Result<(), AllocError>
    ensures { let tree = line_tree line.now in
        IfOk result (λ _. (home : Home) → Puts table.old table.new (gathered (λ inner. procedure_entry (options_told options) home inner.0.item inner.1) (definition_on tree tree.item))) }
{
    match &line.item {
        LineItem::Part(part) => match part.get() {
            Part::Def(_, _, _) => {
                put_procedure(alloc, table, options, &Declared::new(alloc), &line.item)
            }
            _ => Ok(()),
        },
        _ => Ok(()),
    }
}

fn put_first(
    alloc: Global,
    table: &mut Table,
    options: UnitOptions,
    sections: &[Section],
) -> Result<(), AllocError>
    ensures { IfOk result (λ _. (home : Home) (close : LineTree) → Puts table.old table.new (gathered (λ inner. procedure_entry (options_told options) home inner.0.item inner.1) (inner_of (Nest (sections_tree sections.now) close)))) }
{
    if let Some(section) = sections.first() {
        if opens_procedure(&section.head.item) {
            put_with_block(alloc, table, options, &section.head.item, &section.body)?;
        }
    }
    Ok(())
}

fn put_internal(
    alloc: Global,
    table: &mut Table,
    options: UnitOptions,
    stmt: &Stmt,
) -> Result<(), AllocError>
    ensures { IfOk result (λ _. (home : Home) → Puts table.old table.new (gathered (λ inner. procedure_entry (options_told options) home inner.0.item inner.1) (inner_of (stmt_tree stmt.now)))) }
{
    match stmt {
        Stmt::Single(line) => put_definition(alloc, table, options, line),
        Stmt::Nest { sections, .. } => put_first(alloc, table, options, sections.as_slice()),
    }
}

fn put_internals_in(
    alloc: Global,
    table: &mut Table,
    options: UnitOptions,
    stmts: &[Stmt],
) -> Result<(), AllocError>
    ensures { IfOk result (λ _. (home : Home) → Puts table.old table.new (gathered (λ inner. procedure_entry (options_told options) home inner.0.item inner.1) (internals_of (stmts_tree stmts.now)))) }
{
    for stmt in stmts {
        put_internal(alloc, table, options, stmt)?;
    }
    Ok(())
}

/// Puts the internal procedures of a body behind what a table has.
pub fn put_internals(
    alloc: Global,
    table: &mut Table,
    options: UnitOptions,
    block: &Block,
) -> Result<(), AllocError>
    ensures { IfOk result (λ _. (home : Home) → Puts table.old table.new (gathered (λ inner. procedure_entry (options_told options) home inner.0.item inner.1) (internals_of (block_tree block.now)))) }
{
    put_internals_in(alloc, table, options, block.stmts.as_slice())
}

/// Puts the procedures of a module behind what a table has.
pub fn put_procedures(
    alloc: Global,
    table: &mut Table,
    options: UnitOptions,
    procedures: &[Procedure],
) -> Result<(), AllocError>
    ensures { IfOk result (λ _. (home : Home) → Puts table.old table.new (gathered (λ p. procedure_entry (options_told options) home p.head.item p.body) (map procedure_tree procedures.now))) }
{
    for procedure in procedures {
        put_with_block(alloc, table, options, &procedure.head.item, &procedure.body)?;
    }
    Ok(())
}
