//! The first fault of a block, a construct or an internal procedure: each line once, in the order of the
//! text.

ghost use Rattle.std.specs.Prelude.{◌≡◌, IfOk};
ghost use Rattle.bas_ast.specs.BlockTree.{
  block_tree,
  item_tree,
  line_tree,
  section_tree,
  sections_tree,
  stmt_tree,
  stmts_tree,
};
ghost use Rattle.bas_ast.specs.Tree.{Nothing};
ghost use Rattle.bas_rules.specs.Sites.{Ground, block_sites, first_sites, stmt_sites};
ghost use Rattle.bas_check.specs.Faults.{Finds};
ghost use Rattle.bas_check.specs.Walks.{
  WalksOn,
  dividing_sites,
  inside_sites,
  opener_in,
  opening_sites,
  procedure_body_sites,
  section_sites,
};

use crate::definition::single_fault;
use crate::fault::Fault;
use crate::walk::{Walk, divided_line_fault, in_procedure, lone_line_fault, within};
use bas_ast::{Block, LineItem, NumLine, Section, Stmt};
use bas_base::Line;
use bas_names::{internal_names, internal_table, opens_procedure};
use bas_place::body_facts;
use bas_scope::BodyKind;
use std::alloc::{AllocError, Global};

/// What is broken in a block.
#[cycle(walks)]
pub fn block_fault(
    alloc: Global,
    block: &Block,
    walk: Walk<'_>,
) -> Result<Option<Fault>, AllocError>
    ensures { (g : Ground) → WalksOn walk.entry g → IfOk result (λ found. Finds found (block_sites g (block_tree block.now))) }
{
    stmts_fault(alloc, block.stmts.as_slice(), walk)
}

#[cycle(walks)]
fn stmts_fault(alloc: Global, stmts: &[Stmt], walk: Walk<'_>) -> Result<Option<Fault>, AllocError>
    ensures { (g : Ground) → WalksOn walk.entry g → IfOk result (λ found. Finds found (block_sites g (stmts_tree stmts.now))) }
{
    for stmt in stmts {
        let found = stmt_fault(alloc, stmt, walk)?;
        if found.is_some() {
            return Ok(found);
        }
    }
    Ok(None)
}

#[cycle(walks)]
fn stmt_fault(alloc: Global, stmt: &Stmt, walk: Walk<'_>) -> Result<Option<Fault>, AllocError>
    ensures { (g : Ground) → WalksOn walk.entry g → IfOk result (λ found. Finds found (stmt_sites g (stmt_tree stmt.now))) }
{
    match stmt {
        Stmt::Single(line) => single_fault(alloc, line, walk),
        Stmt::Nest { sections, end } => nest_fault(alloc, sections.as_slice(), end, walk),
    }
}

// What stands on the line that opens a construct.
#[tactic(auto, using(crate::proofs::Sections::no_opener))]
fn opener_of<'a>(sections: &'a [Section], nothing: &'a LineItem) -> &'a LineItem
    ensures { item_tree nothing.now ≡ Nothing → item_tree result.now ≡ opener_in (sections_tree sections.now) }
{
    match sections.first() {
        Some(section) => &section.head.item,
        None => nothing,
    }
}

#[cycle(walks)]
fn nest_fault(
    alloc: Global,
    sections: &[Section],
    close: &NumLine,
    walk: Walk<'_>,
) -> Result<Option<Fault>, AllocError>
    ensures { (g : Ground) → WalksOn walk.entry g → IfOk result (λ found. Finds found (first_sites g (sections_tree sections.now) (line_tree close.now))) }
{
    let opener = opener_of(sections, walk.nothing);
    for (i, section) in sections.iter().enumerate() {
        let found = section_fault(alloc, section, i, opener, close.line, walk)?;
        if found.is_some() {
            return Ok(found);
        }
    }
    divided_line_fault(alloc, opener, close, walk)
}

// The section i of a construct.
#[cycle(walks)]
fn section_fault(
    alloc: Global,
    section: &Section,
    i: usize,
    opener: &LineItem,
    close: Line,
    walk: Walk<'_>,
) -> Result<Option<Fault>, AllocError>
    ensures { (g : Ground) → WalksOn walk.entry g → IfOk result (λ found. Finds found (section_sites g (item_tree opener.now) i close (section_tree section.now))) }
{
    if i == 0 {
        opening_fault(alloc, section, close, walk)
    } else {
        dividing_fault(alloc, section, opener, close, walk)
    }
}

// The line that opens a construct, and what it opens.
#[cycle(walks)]
fn opening_fault(
    alloc: Global,
    section: &Section,
    close: Line,
    walk: Walk<'_>,
) -> Result<Option<Fault>, AllocError>
    ensures { (g : Ground) → WalksOn walk.entry g → IfOk result (λ found. Finds found (opening_sites g close (section_tree section.now))) }
{
    let found = lone_line_fault(alloc, &section.head, walk)?;
    if found.is_some() {
        return Ok(found);
    }
    if opens_procedure(&section.head.item) {
        procedure_body_fault(alloc, section, walk)
    } else {
        inside_fault(alloc, section, close, walk)
    }
}

// A line that divides a construct, and what it begins.
#[cycle(walks)]
fn dividing_fault(
    alloc: Global,
    section: &Section,
    opener: &LineItem,
    close: Line,
    walk: Walk<'_>,
) -> Result<Option<Fault>, AllocError>
    ensures { (g : Ground) → WalksOn walk.entry g → IfOk result (λ found. Finds found (dividing_sites g (item_tree opener.now) close (section_tree section.now))) }
{
    let found = divided_line_fault(alloc, opener, &section.head, walk)?;
    if found.is_some() {
        return Ok(found);
    }
    inside_fault(alloc, section, close, walk)
}

#[cycle(walks)]
fn inside_fault(
    alloc: Global,
    section: &Section,
    close: Line,
    walk: Walk<'_>,
) -> Result<Option<Fault>, AllocError>
    ensures { (g : Ground) → WalksOn walk.entry g → IfOk result (λ found. Finds found (inside_sites g close (section_tree section.now))) }
{
    let around = walk
        .place
        .around
        .enter(alloc, &section.head.item, &section.body, close)?;
    block_fault(alloc, &section.body, within(walk, &around))
}

#[cycle(walks)]
fn procedure_body_fault(
    alloc: Global,
    section: &Section,
    walk: Walk<'_>,
) -> Result<Option<Fault>, AllocError>
    ensures { (g : Ground) → WalksOn walk.entry g → IfOk result (λ found. Finds found (procedure_body_sites g (section_tree section.now))) }
{
    let unit = walk.place.unit;
    let kind = BodyKind::Internal;
    let facts = body_facts(alloc, kind, &section.head.item, &section.body, None)?;
    let table = internal_table(alloc, unit.names.options, section)?;
    let names = internal_names(&unit.names, walk.container, &table);
    block_fault(alloc, &section.body, in_procedure(walk, &facts, names))
}
