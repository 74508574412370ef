//! The names of an internal procedure: its formals, and itself as it is seen inside of it.

ghost use Rattle.std.specs.Prelude.{◌≡◌, [], IfOk};
ghost use Rattle.bas_ast.specs.BlockTree.{item_tree, line_tree, section_tree};
ghost use Rattle.bas_scope.specs.Lines.{gathered, own_lines};
ghost use Rattle.bas_scope.specs.Scope.{Inner, definition_on, inner_names};
ghost use Rattle.bas_names.specs.Tables.{Declares, Has, options_told};

use crate::declared::Declared;
use crate::entry::Table;
use crate::formals::put_formals;
use crate::lines::own_lines;
use crate::options::UnitOptions;
use crate::procedure::put_within;
use bas_ast::{LineItem, NumLine, Part, Section};
use bas_scope::formals_on;
use std::alloc::{AllocError, Global};

fn inside_table(
    alloc: Global,
    options: UnitOptions,
    declared: &Declared,
    head: &LineItem,
) -> Result<Table, AllocError>
    ensures { IfOk result (λ table. (inner : Inner) → inner.0.item ≡ item_tree head.now → Declares declared.now (own_lines inner.1) → Has table (inner_names (options_told options) inner [])) }
{
    let mut table = Table::new(alloc);
    put_formals(&mut table, options, declared, formals_on(head))?;
    put_within(alloc, &mut table, options, declared, head)?;
    Ok(table)
}

/// The names of an internal procedure with lines of its own. Its container's are not among them.
pub fn internal_table(
    alloc: Global,
    options: UnitOptions,
    section: &Section,
) -> Result<Table, AllocError>
    ensures { IfOk result (λ table. Has table (inner_names (options_told options) (section_tree section.now) [])) }
{
    let lines = own_lines(alloc, &section.body)?;
    let declared = Declared::on(alloc, lines.as_slice())?;
    inside_table(alloc, options, &declared, &section.head.item)
}

/// The names of the definition on a line of `DEF`; none on another line.
#[tactic(auto, unfolding(bas_ast::specs::BlockTree::item_tree, bas_ast::specs::PartTree::part_tree))]
pub fn definition_table(
    alloc: Global,
    options: UnitOptions,
    line: &NumLine,
) -> Result<Table, AllocError>
    ensures { let tree = line_tree line.now in
        IfOk result (λ table. Has table (gathered (λ inner. inner_names (options_told options) inner []) (definition_on tree tree.item))) }
{
    match &line.item {
        LineItem::Part(part) => match part.get() {
            Part::Def(_, _, _) => {
                inside_table(alloc, options, &Declared::new(alloc), &line.item)
            }
            _ => Ok(Table::new(alloc)),
        },
        _ => Ok(Table::new(alloc)),
    }
}
