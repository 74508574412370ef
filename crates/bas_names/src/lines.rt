//! The lines of a body and of a unit, lent in the order of the text.

ghost use Rattle.std.specs.Prelude.{◌≡◌, ◌++◌, ◌∷◌, [], ◌&&◌, not, if◌then◌else◌, map, IfOk};
ghost use Rattle.bas_ast.specs.BlockTree.{
  block_tree,
  item_tree,
  line_tree,
  section_tree,
  sections_tree,
  stmt_tree,
  stmts_tree,
};
ghost use Rattle.bas_ast.specs.Tree.{ProgramUnit, ModuleUnit};
ghost use Rattle.bas_ast.specs.UnitTree.{module_tree, procedure_tree, program_tree, unit_tree};
ghost use Rattle.bas_scope.specs.Lines.{
  gathered,
  lines_of_block,
  lines_of_sections,
  lines_of_stmt,
  opens_procedure as opens_procedure_of,
  own_lines as own_lines_of,
  procedure_lines,
  unit_lines as unit_lines_of,
};
ghost use Rattle.bas_names.specs.Lent.{line_trees};

use bas_ast::{Block, LineItem, Module, NumLine, Part, Procedure, Program, Section, Stmt, Unit};
use std::alloc::{AllocError, Global};

/// Whether a line begins an internal procedure with lines of its own.
#[tactic(auto, unfolding(bas_ast::specs::BlockTree::item_tree, bas_ast::specs::PartTree::part_tree))]
pub fn opens_procedure(item: &LineItem) -> bool
    ensures { result ≡ opens_procedure_of (item_tree item.now) }
{
    match item {
        LineItem::Part(part) => matches!(part.get(), Part::Sub(_, _) | Part::Function(_, _)),
        _ => false,
    }
}

#[cycle(gathers)]
fn push_block<'a>(
    lines: &mut Vec<&'a NumLine>,
    inside: bool,
    block: &'a Block,
) -> Result<(), AllocError>
    ensures { IfOk result (λ _. line_trees lines.new.items ≡ line_trees lines.old.items ++ lines_of_block inside (block_tree block.now)) }
{
    push_stmts(lines, inside, block.stmts.as_slice())
}

#[cycle(gathers)]
fn push_stmts<'a>(
    lines: &mut Vec<&'a NumLine>,
    inside: bool,
    stmts: &'a [Stmt],
) -> Result<(), AllocError>
    ensures { IfOk result (λ _. line_trees lines.new.items ≡ line_trees lines.old.items ++ lines_of_block inside (stmts_tree stmts.now)) }
{
    for next in stmts {
        push_stmt(lines, inside, next)?;
    }
    Ok(())
}

#[cycle(gathers)]
fn push_stmt<'a>(
    lines: &mut Vec<&'a NumLine>,
    inside: bool,
    stmt: &'a Stmt,
) -> Result<(), AllocError>
    ensures { IfOk result (λ _. line_trees lines.new.items ≡ line_trees lines.old.items ++ lines_of_stmt inside (stmt_tree stmt.now)) }
{
    match stmt {
        Stmt::Single(line) => {
            lines.push(line)?;
            Ok(())
        }
        Stmt::Nest { sections, end } => push_sections(lines, inside, sections.as_slice(), end),
    }
}

#[cycle(gathers)]
fn push_sections<'a>(
    lines: &mut Vec<&'a NumLine>,
    inside: bool,
    sections: &'a [Section],
    end: &'a NumLine,
) -> Result<(), AllocError>
    ensures { IfOk result (λ _. line_trees lines.new.items ≡ line_trees lines.old.items ++ lines_of_sections inside (sections_tree sections.now) (line_tree end.now)) }
{
    for section in sections {
        if push_section(lines, inside, section)? {
            return Ok(());
        }
    }
    lines.push(end)?;
    Ok(())
}

// Whether the section is that of an internal procedure that is left out, so that no other follows.
#[cycle(gathers)]
fn push_section<'a>(
    lines: &mut Vec<&'a NumLine>,
    inside: bool,
    section: &'a Section,
) -> Result<bool, AllocError>
    ensures { let s = section_tree section.now in
        IfOk result (λ left_out. (left_out ≡ (opens_procedure_of s.0.item && not inside))
        × (line_trees lines.new.items ≡ line_trees lines.old.items ++ s.0 ∷ (if left_out then [] else lines_of_block inside s.1))) }
{
    lines.push(&section.head)?;
    let left_out = opens_procedure(&section.head.item) & !inside;
    if !left_out {
        push_block(lines, inside, &section.body)?;
    }
    Ok(left_out)
}

/// The lines of a body, without those inside of its internal procedures, of which the first line alone
/// is among them.
pub fn own_lines<'a>(alloc: Global, block: &'a Block) -> Result<Vec<&'a NumLine>, AllocError>
    ensures { IfOk result (λ lines. line_trees lines.items ≡ own_lines_of (block_tree block.now)) }
{
    let mut lines = Vec::new(alloc);
    push_block(&mut lines, false, block)?;
    Ok(lines)
}

fn push_procedure<'a>(
    lines: &mut Vec<&'a NumLine>,
    procedure: &'a Procedure,
) -> Result<(), AllocError>
    ensures { IfOk result (λ _. line_trees lines.new.items ≡ line_trees lines.old.items ++ procedure_lines (procedure_tree procedure.now)) }
{
    lines.push(&procedure.head)?;
    push_block(lines, true, &procedure.body)?;
    lines.push(&procedure.end)?;
    Ok(())
}

fn push_procedures<'a>(
    lines: &mut Vec<&'a NumLine>,
    procedures: &'a [Procedure],
) -> Result<(), AllocError>
    ensures { IfOk result (λ _. line_trees lines.new.items ≡ line_trees lines.old.items ++ gathered procedure_lines (map procedure_tree procedures.now)) }
{
    for procedure in procedures {
        push_procedure(lines, procedure)?;
    }
    Ok(())
}

fn push_program<'a>(lines: &mut Vec<&'a NumLine>, program: &'a Program) -> Result<(), AllocError>
    ensures { IfOk result (λ _. line_trees lines.new.items ≡ line_trees lines.old.items ++ unit_lines_of (ProgramUnit (program_tree program.now))) }
{
    if let Some(head) = &program.head {
        lines.push(head)?;
    }
    push_block(lines, true, &program.body)?;
    lines.push(&program.end)?;
    Ok(())
}

fn push_module<'a>(lines: &mut Vec<&'a NumLine>, part: &'a Module) -> Result<(), AllocError>
    ensures { IfOk result (λ _. line_trees lines.new.items ≡ line_trees lines.old.items ++ unit_lines_of (ModuleUnit (module_tree part.now))) }
{
    lines.push(&part.head)?;
    push_block(lines, true, &part.initial)?;
    push_procedures(lines, part.procs.items())?;
    lines.push(&part.end)?;
    Ok(())
}

/// Every line of a unit, from its first to its last.
#[tactic(auto, unfolding(bas_ast::specs::UnitTree::unit_tree))]
pub fn unit_lines<'a>(alloc: Global, unit: &'a Unit) -> Result<Vec<&'a NumLine>, AllocError>
    ensures { IfOk result (λ lines. line_trees lines.items ≡ unit_lines_of (unit_tree unit.now)) }
{
    let mut lines = Vec::new(alloc);
    match unit {
        Unit::Program(program) => push_program(&mut lines, program)?,
        Unit::Procedure(procedure) => push_procedure(&mut lines, procedure)?,
        Unit::Module(part) => push_module(&mut lines, part)?,
    }
    Ok(lines)
}
