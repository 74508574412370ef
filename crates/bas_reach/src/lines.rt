//! The counted lines of a block.

ghost use Rattle.std.specs.Prelude.{◌≡◌, ◌++◌, IfOk};
ghost use Rattle.std.specs.Option.{option_to_list};
ghost use Rattle.bas_ast.specs.BlockTree.{line_tree, sections_tree, stmt_tree, stmts_tree, block_tree};
ghost use Rattle.bas_ast.specs.Tree.{Nest};
ghost use Rattle.bas_rules.specs.Sites as rule;
ghost use Rattle.bas_reach.specs.Sets.{HasNumbers, Adds};

use crate::line::is_counted;
use bas_ast::{Block, NumLine, Section, Stmt};
use bas_base::Line;
use std::alloc::{AllocError, Global};
use std::collections::BTreeSet;

fn counted_line(line: &NumLine) -> Option<Line>
    ensures { option_to_list result ≡ rule.counted_line (line_tree line.now) }
{
    if is_counted(&line.item) {
        Some(line.line)
    } else {
        None
    }
}

// Of a construct its first line counts.
fn counted_first(sections: &[Section], end: &NumLine) -> Option<Line>
    ensures { option_to_list result ≡ rule.counted_stmt (Nest (sections_tree sections.now) (line_tree end.now)) }
{
    match sections.first() {
        Some(section) => counted_line(&section.head),
        None => None,
    }
}

fn counted_stmt(stmt: &Stmt) -> Option<Line>
    ensures { option_to_list result ≡ rule.counted_stmt (stmt_tree stmt.now) }
{
    match stmt {
        Stmt::Single(line) => counted_line(line),
        Stmt::Nest { sections, end } => counted_first(sections.as_slice(), end),
    }
}

fn insert_line(set: &mut BTreeSet<u32>, line: Option<Line>) -> Result<(), AllocError>
    ensures { IfOk result (λ _. Adds set.old set.new (option_to_list line)) }
{
    if let Some(line) = line {
        set.insert(line.number())?;
    }
    Ok(())
}

fn insert_lines(set: &mut BTreeSet<u32>, stmts: &[Stmt]) -> Result<(), AllocError>
    ensures { IfOk result (λ _. Adds set.old set.new (rule.counted_lines (stmts_tree stmts.now))) }
{
    for stmt in stmts {
        insert_line(set, counted_stmt(stmt))?;
    }
    Ok(())
}

/// The numbers of the counted lines of a block, and one more.
pub fn counted_lines_with(
    alloc: Global,
    block: &Block,
    last: Option<Line>,
) -> Result<BTreeSet<u32>, AllocError>
    ensures { IfOk result (λ set. HasNumbers set (rule.counted_lines (block_tree block.now) ++ option_to_list last)) }
{
    let mut set = BTreeSet::new(alloc);
    insert_line(&mut set, last)?;
    insert_lines(&mut set, block.stmts.as_slice())?;
    Ok(set)
}

/// The numbers of the counted lines of a block, to which a jump may go.
#[tactic(auto, using(crate::proofs::Counting::no_more))]
pub fn counted_lines(alloc: Global, block: &Block) -> Result<BTreeSet<u32>, AllocError>
    ensures { IfOk result (λ set. HasNumbers set (rule.counted_lines (block_tree block.now))) }
{
    counted_lines_with(alloc, block, None)
}
