//! A line of an open body.

ghost use Rattle.std.specs.Prelude.{◌≡◌, Some, IfOk, OnOk, map};
ghost use Rattle.std.specs.Option.{option_map};
ghost use Rattle.bas_ast.specs.BlockTree.{block_tree, item_tree, line_tree, section_tree, stmt_tree};
ghost use Rattle.bas_nest.specs.Constructs as constructs;
ghost use Rattle.bas_ast.specs.UnitTree.{unit_tree};
ghost use Rattle.bas_nest.specs.Reading as reading;
ghost use Rattle.bas_nest.specs.States.{body_tree, level_tree, owner_tree, reading_tree};

use crate::OPEN_BLOCKS;
use crate::construct::{
    Around, Construct, closes, divides, inside, is_left_out, may_open, may_stand, opens, role_of,
};
use crate::ending::ends_body;
use crate::stack::Stack;
use crate::state::{Body, Level, Open, Owner, Reading};
use bas_ast::{Block, NumLine, Section, Stmt, Unit};
use bas_base::Seq;
use sqlite_items::Items;
use std::alloc::{AllocError, Global};

type Read = Result<Option<Reading>, AllocError>;

/// The block of some statements.
#[tactic(auto, using(crate::proofs::Trees::block_of_stmts))]
pub fn block_of(stmts: Items<Stmt>) -> Block
    ensures { block_tree result ≡ reading.block_of (map stmt_tree stmts) }
{
    Block { stmts }
}

// The sections of a construct, its open one among them.
#[tactic(auto, using(crate::proofs::Trees::section_more))]
fn all_sections(level: Level) -> Result<Items<Section>, AllocError>
    ensures { IfOk result (λ sections. map section_tree sections ≡ reading.all_sections (level_tree level)) }
{
    let Level {
        sections,
        head,
        stmts,
        ..
    } = level;
    let mut sections = sections;
    let body = block_of(stmts);
    sections.push(Section { head, body })?;
    Ok(sections)
}

// The level with one more statement in its open section.
#[tactic(auto, using(crate::proofs::Trees::stmts_more))]
fn level_with(level: Level, stmt: Stmt) -> Result<Level, AllocError>
    ensures { IfOk result (λ l. level_tree l ≡ reading.level_with (level_tree level) (stmt_tree stmt)) }
{
    let mut level = level;
    level.stmts.push(stmt)?;
    Ok(level)
}

// The statement at the end of the innermost open list of statements.
#[tactic(auto, using(crate::proofs::Trees::stmts_more))]
fn add_stmt(body: &mut Body, stmt: Stmt) -> Result<(), AllocError>
    ensures { OnOk result (body_tree body.new ≡ reading.with_stmt (owner_tree body.old.owner) (map stmt_tree body.old.stmts) (map level_tree body.old.levels) (stmt_tree stmt)) }
{
    match body.levels.pop() {
        None => body.stmts.push(stmt),
        Some(level) => {
            let level = level_with(level, stmt)?;
            body.levels.push(level)
        }
    }
}

// Where the next line stands.
#[tactic(auto, using(crate::proofs::Trees::around_top, crate::proofs::Trees::around_none))]
fn around(owner: &Owner, levels: &Stack<Level>) -> Around
    ensures { result ≡ reading.around (owner_tree owner.now) (map level_tree levels.now) }
{
    match levels.top() {
        Some(level) => inside(level.construct),
        None => match owner {
            Owner::Initial { .. } => Around::Block,
            Owner::Program { .. } | Owner::Procedure { .. } | Owner::Member { .. } => Around::Unit,
        },
    }
}

// The construct begins with the line.
fn open(
    alloc: Global,
    body: &mut Body,
    construct: Construct,
    line: NumLine,
) -> Result<(), AllocError>
    ensures { OnOk result (body_tree body.new ≡ reading.opened_construct (owner_tree body.old.owner) (map stmt_tree body.old.stmts) (map level_tree body.old.levels) construct (line_tree line)) }
{
    body.levels.push(Level {
        construct,
        sections: Items::new(alloc),
        head: line,
        stmts: Items::new(alloc),
    })
}

// The construct with another section, which the line begins.
fn next_section(
    alloc: Global,
    level: Level,
    construct: Construct,
    line: NumLine,
) -> Result<Level, AllocError>
    ensures { IfOk result (λ l. level_tree l ≡ reading.next_section (level_tree level) construct (line_tree line)) }
{
    let sections = all_sections(level)?;
    Ok(Level {
        construct,
        sections,
        head: line,
        stmts: Items::new(alloc),
    })
}

// The construct goes on with a section that begins with the line.
fn divide(
    alloc: Global,
    body: &mut Body,
    level: Level,
    construct: Construct,
    line: NumLine,
) -> Result<(), AllocError>
    ensures { OnOk result (body_tree body.new ≡ reading.divided_construct (owner_tree body.old.owner) (map stmt_tree body.old.stmts) (level_tree level) (map level_tree body.old.levels) construct (line_tree line)) }
{
    let level = next_section(alloc, level, construct, line)?;
    body.levels.push(level)
}

// The construct ends with the line.
#[tactic(auto, using(crate::proofs::Trees::nest_of_sections))]
fn close(body: &mut Body, level: Level, line: NumLine) -> Result<(), AllocError>
    ensures { OnOk result (body_tree body.new ≡ reading.closed_construct (owner_tree body.old.owner) (map stmt_tree body.old.stmts) (level_tree level) (map level_tree body.old.levels) (line_tree line)) }
{
    let sections = all_sections(level)?;
    let end = line;
    add_stmt(body, Stmt::Nest { sections, end })
}

// The line divides or closes the innermost construct.
fn in_construct(alloc: Global, units: Seq<Unit>, body: Body, level: Level, line: NumLine) -> Read
    ensures { IfOk result (λ r. option_map reading_tree r ≡ reading.in_construct (map unit_tree units) (owner_tree body.owner) (map stmt_tree body.stmts) (level_tree level) (map level_tree body.levels) (line_tree line) (constructs.divides level.construct (constructs.role_of (item_tree line.item)))) }
{
    let mut body = body;
    let construct = level.construct;
    let role = role_of(&line.item);
    if let Some(next) = divides(construct, role) {
        divide(alloc, &mut body, level, next, line)?;
        let opened = Open::Within(body);
        return Ok(Some(Reading { units, opened }));
    }
    if closes(construct, role) {
        close(&mut body, level, line)?;
        let opened = Open::Within(body);
        return Ok(Some(Reading { units, opened }));
    }
    Ok(None)
}

// The line opens nothing and does not stand alone.
fn turns(alloc: Global, units: Seq<Unit>, body: Body, line: NumLine) -> Read
    ensures { IfOk result (λ r. option_map reading_tree r ≡ reading.turns (map unit_tree units) (owner_tree body.owner) (map stmt_tree body.stmts) (map level_tree body.levels) (line_tree line)) }
{
    let mut body = body;
    match body.levels.pop() {
        Some(level) => in_construct(alloc, units, body, level, line),
        None => ends_body(alloc, units, body.owner, block_of(body.stmts), line),
    }
}

// The line opens a construct.
fn opens_construct(
    alloc: Global,
    units: Seq<Unit>,
    body: Body,
    construct: Construct,
    line: NumLine,
) -> Read
    ensures { IfOk result (λ r. option_map reading_tree r ≡ reading.nests (map unit_tree units) (owner_tree body.owner) (map stmt_tree body.stmts) (map level_tree body.levels) (line_tree line) (Some construct)) }
{
    let mut body = body;
    let place = around(&body.owner, &body.levels);
    if !may_open(place, construct) || body.levels.len() >= OPEN_BLOCKS {
        return Ok(None);
    }
    open(alloc, &mut body, construct, line)?;
    let opened = Open::Within(body);
    Ok(Some(Reading { units, opened }))
}

// The line opens a construct, or it turns one or the body.
fn nests(alloc: Global, units: Seq<Unit>, body: Body, line: NumLine) -> Read
    ensures { IfOk result (λ r. option_map reading_tree r ≡ reading.nests (map unit_tree units) (owner_tree body.owner) (map stmt_tree body.stmts) (map level_tree body.levels) (line_tree line) (constructs.opens (constructs.role_of (item_tree line.item)))) }
{
    match opens(role_of(&line.item)) {
        None => turns(alloc, units, body, line),
        Some(construct) => opens_construct(alloc, units, body, construct, line),
    }
}

/// The line in an open body: what is read behind it, or `None` where no nesting takes it.
#[tactic(auto, using(bas_ast::proofs::BlockTrees::stmt_single))]
pub fn in_body(alloc: Global, units: Seq<Unit>, body: Body, line: NumLine) -> Read
    ensures { IfOk result (λ r. option_map reading_tree r ≡ reading.in_body (map unit_tree units) (owner_tree body.owner) (map stmt_tree body.stmts) (map level_tree body.levels) (line_tree line)) }
{
    let mut body = body;
    let place = around(&body.owner, &body.levels);
    let role = role_of(&line.item);
    if is_left_out(place, role) {
        let opened = Open::Within(body);
        return Ok(Some(Reading { units, opened }));
    }
    if may_stand(place, role) {
        add_stmt(&mut body, Stmt::Single(line))?;
        let opened = Open::Within(body);
        return Ok(Some(Reading { units, opened }));
    }
    nests(alloc, units, body, line)
}
