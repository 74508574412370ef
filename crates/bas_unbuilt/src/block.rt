//! The first line of a block that is not built.

ghost use Rattle.std.specs.Prelude.{◌≡◌};
ghost use Rattle.bas_ast.specs.BlockTree.{
  item_tree,
  stmt_tree,
  block_tree,
  section_tree,
  sections_tree,
  stmts_tree,
};
ghost use Rattle.bas_unbuilt.specs.Unbuilt as unbuilt;

use crate::line::{is_built_close, is_built_head, is_built_line};
use bas_ast::{Block, LineItem, NumLine, Section, Stmt};
use bas_base::Line;

/// The line, where it is not built.
pub fn unless_built(is_built: bool, line: Line) -> Option<Line>
    ensures { result ≡ unbuilt.unless_built is_built line }
{
    if is_built { None } else { Some(line) }
}

#[tactic(auto, using(bas_ast::proofs::BlockTrees::section_out))]
fn is_closed(section: &Section, close: &LineItem) -> bool
    ensures { result ≡ unbuilt.is_built_close (section_tree section.now).0.item (item_tree close.now) }
{
    is_built_close(&section.head.item, close)
}

fn are_closed(sections: &[Section], close: &LineItem) -> bool
    ensures { result ≡ unbuilt.are_closed (sections_tree sections.now) (item_tree close.now) }
{
    for section in sections {
        if !is_closed(section, close) {
            return false;
        }
    }
    true
}

/// The first line of a block that has a construct which is not built.
#[cycle(finds)]
pub fn unbuilt_in_block(block: &Block) -> Option<Line>
    ensures { result ≡ unbuilt.unbuilt_in_block (block_tree block.now) }
{
    unbuilt_in_stmts(block.stmts.as_slice())
}

#[cycle(finds)]
fn unbuilt_in_stmts(stmts: &[Stmt]) -> Option<Line>
    ensures { result ≡ unbuilt.unbuilt_in_block (stmts_tree stmts.now) }
{
    for next in stmts {
        if let Some(line) = unbuilt_in_stmt(next) {
            return Some(line);
        }
    }
    None
}

#[cycle(finds)]
fn unbuilt_in_stmt(stmt: &Stmt) -> Option<Line>
    ensures { result ≡ unbuilt.unbuilt_in_stmt (stmt_tree stmt.now) }
{
    match stmt {
        Stmt::Single(line) => unless_built(is_built_line(&line.item), line.line),
        Stmt::Nest { sections, end } => match unbuilt_in_sections(sections.as_slice()) {
            Some(line) => Some(line),
            None => unless_built(are_closed(sections.as_slice(), &end.item), end.line),
        },
    }
}

#[cycle(finds)]
fn unbuilt_in_section(section: &Section) -> Option<Line>
    ensures { result ≡ unbuilt.unbuilt_in_section (section_tree section.now) }
{
    if is_built_head(&section.head.item) {
        unbuilt_in_block(&section.body)
    } else {
        Some(section.head.line)
    }
}

#[cycle(finds)]
fn unbuilt_in_sections(sections: &[Section]) -> Option<Line>
    ensures { result ≡ unbuilt.unbuilt_in_sections (sections_tree sections.now) }
{
    for section in sections {
        if let Some(line) = unbuilt_in_section(section) {
            return Some(line);
        }
    }
    None
}

fn line_of_stmts(stmts: &[Stmt]) -> Option<Line>
    ensures { result ≡ unbuilt.line_of_block (stmts_tree stmts.now) }
{
    match stmts.first() {
        Some(stmt) => Some(stmt.first_line()),
        None => None,
    }
}

/// The first line of a block.
pub fn line_of_block(block: &Block) -> Option<Line>
    ensures { result ≡ unbuilt.line_of_block (block_tree block.now) }
{
    line_of_stmts(block.stmts.as_slice())
}
