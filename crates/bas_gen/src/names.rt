//! The variables of a block get their slots, in the order of the text.

ghost use Rattle.std.specs.Prelude.{map};
ghost use Rattle.std.specs.Option.{option_map};
ghost use Rattle.bas_ast.specs.ExpressionTree.{target_tree};
ghost use Rattle.bas_ast.specs.StatementTree.{plain_tree, pitem_tree};
ghost use Rattle.bas_ast.specs.PartTree.{loopc_tree};
ghost use Rattle.bas_ast.specs.BlockTree.{
  item_tree,
  stmt_tree,
  block_tree,
  section_tree,
  sections_tree,
  stmts_tree,
};
ghost use Rattle.bas_carry.specs.Slots.{
  in_targets,
  in_item,
  in_plain,
  in_loopc,
  in_line,
  in_stmt,
  in_sections,
  in_block,
};
ghost use Rattle.bas_genexpr.specs.Numbering.{Numbers};
ghost use Rattle.bas_gen.specs.Kinds.{in_section};

use crate::line::{LineKind, PlainKind, kind_of, loop_condition, plain_kind_of};
use bas_ast::{Block, LineItem, Loopc, Pitem, Plain, Section, Stmt, Target};
use bas_genexpr::{GenFault, Slots, number_condition, number_expression};

fn number_targets(slots: &mut Slots, targets: &[Target]) -> Result<(), GenFault>
    ensures { Numbers result slots.old slots.new (in_targets (map target_tree targets.now)) }
{
    for target in targets {
        slots.add(target.name)?;
    }
    Ok(())
}

fn number_pitem(slots: &mut Slots, item: &Pitem) -> Result<(), GenFault>
    ensures { Numbers result slots.old slots.new (in_item (Some (pitem_tree item.now))) }
{
    match item {
        Pitem::Expr(e) => number_expression(slots, e),
        Pitem::Tab(_) => Ok(()),
    }
}

fn number_item(slots: &mut Slots, item: &Option<Pitem>) -> Result<(), GenFault>
    ensures { Numbers result slots.old slots.new (in_item (option_map pitem_tree item.now)) }
{
    match item {
        Some(item) => number_pitem(slots, item),
        None => Ok(()),
    }
}

fn number_plain(slots: &mut Slots, plain: &Plain) -> Result<(), GenFault>
    ensures { Numbers result slots.old slots.new (in_plain (plain_tree plain.now)) }
{
    match plain_kind_of(plain) {
        PlainKind::Let(targets, e) => {
            number_targets(slots, targets.targets.items())?;
            number_expression(slots, e)
        }
        PlainKind::Print(list) => number_item(slots, &list.first),
        PlainKind::Goto(_) => Ok(()),
        PlainKind::ExitDo => Ok(()),
        PlainKind::Other => Ok(()),
    }
}

fn number_loopc(slots: &mut Slots, loopc: &Option<Loopc>) -> Result<(), GenFault>
    ensures { Numbers result slots.old slots.new (in_loopc (option_map loopc_tree loopc.now)) }
{
    match loopc {
        Some(loopc) => number_condition(slots, loop_condition(loopc)),
        None => Ok(()),
    }
}

fn number_line(slots: &mut Slots, item: &LineItem) -> Result<(), GenFault>
    ensures { Numbers result slots.old slots.new (in_line (item_tree item.now)) }
{
    match kind_of(item) {
        LineKind::Alone(plain) => number_plain(slots, plain),
        LineKind::If(c) => number_condition(slots, c),
        LineKind::Elseif(c) => number_condition(slots, c),
        LineKind::Do(loopc) => number_loopc(slots, loopc),
        LineKind::Loop(loopc) => number_loopc(slots, loopc),
        LineKind::Else => Ok(()),
        LineKind::End => Ok(()),
        LineKind::Remark => Ok(()),
        LineKind::Other => Ok(()),
    }
}

/// Gives slots to the variables of a block.
#[cycle(names)]
pub fn number_block(slots: &mut Slots, block: &Block) -> Result<(), GenFault>
    ensures { Numbers result slots.old slots.new (in_block (block_tree block.now)) }
{
    number_stmts(slots, block.stmts.as_slice())
}

#[cycle(names)]
fn number_stmts(slots: &mut Slots, stmts: &[Stmt]) -> Result<(), GenFault>
    ensures { Numbers result slots.old slots.new (in_block (stmts_tree stmts.now)) }
{
    for next in stmts {
        number_stmt(slots, next)?;
    }
    Ok(())
}

#[cycle(names)]
fn number_stmt(slots: &mut Slots, stmt: &Stmt) -> Result<(), GenFault>
    ensures { Numbers result slots.old slots.new (in_stmt (stmt_tree stmt.now)) }
{
    match stmt {
        Stmt::Single(line) => number_line(slots, &line.item),
        Stmt::Nest { sections, end } => {
            number_sections(slots, sections.as_slice())?;
            number_line(slots, &end.item)
        }
    }
}

#[cycle(names)]
fn number_section(slots: &mut Slots, section: &Section) -> Result<(), GenFault>
    ensures { Numbers result slots.old slots.new (in_section (section_tree section.now)) }
{
    number_line(slots, &section.head.item)?;
    number_block(slots, &section.body)
}

#[cycle(names)]
fn number_sections(slots: &mut Slots, sections: &[Section]) -> Result<(), GenFault>
    ensures { Numbers result slots.old slots.new (in_sections (sections_tree sections.now)) }
{
    for section in sections {
        number_section(slots, section)?;
    }
    Ok(())
}
