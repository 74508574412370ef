//! Where each part of a program will stand: sizes, and the address of each target.

ghost use Rattle.std.specs.Prelude.{◌≡◌, ℕ, suc, ◌+◌, ◌<◌, ◌≤◌, [], ◌∷◌, ◌++◌, length, slice_set, IfOk, OnOk};
ghost use Rattle.std.specs.Option.{option_map};
ghost use Rattle.bas_ast.specs.StatementTree.{plain_tree, pitem_tree};
ghost use Rattle.bas_ast.specs.PartTree.{loopc_tree};
ghost use Rattle.bas_ast.specs.BlockTree.{
  item_tree,
  line_tree,
  stmt_tree,
  block_tree,
  section_tree,
  sections_tree,
  stmts_tree,
};
ghost use Rattle.bas_carry.specs.Codes.{
  print_size,
  plain_size,
  single_size,
  loopc_size,
  closing_size,
  sections_size,
  stmt_size,
  block_size,
};
ghost use Rattle.bas_carry.specs.Tables.{
  block_labels,
  stmt_labels,
  sections_labels,
  closing_labels,
};
ghost use Rattle.bas_genexpr.specs.Counts.{code_limit, counted};
ghost use Rattle.bas_ast.specs.ConditionTree.{cond_tree};
ghost use Rattle.bas_carry.specs.Codes.{cond_size, part_end_size};
ghost use Rattle.bas_gen.specs.Layouts.{
  block_list,
  stmt_list,
  sections_list,
  own_size,
  own_list,
  own_labels,
  goes_on,
  target_of,
  labels_of,
  Laid,
  Reserved,
  Relabelled,
  Refilled,
  do_labels,
};

use crate::line::{LineKind, PlainKind, kind_of, loop_condition, plain_kind_of};
use bas_ast::{Block, Cond, LineItem, Loopc, NumLine, Pitem, Plain, Section, Stmt};
use bas_genexpr::{CODE_LIMIT, capped_sum, condition_size, expression_size};
use std::alloc::{AllocError, Global};

/// Where a jump goes: to a line, behind the loop that a line opens, or to that loop's next turn.
#[derive(Clone, Copy)]
pub enum Target {
    Line(u32),
    End(u32),
    Turn(u32),
}

/// A target and its address.
#[derive(Clone, Copy)]
pub struct Label {
    pub target: Target,
    pub address: u16,
}

/// Sizes and targets in the order of the text.
#[derive(Drop)]
pub struct Layout {
    pub sizes: Vec<u32>,
    pub labels: Vec<Label>,
}

#[tactic(auto, unfolding(bas_ast::specs::StatementTree::pitem_tree))]
fn size_of_item(item: &Pitem) -> u32
    ensures { result ≡ counted (print_size (Some (pitem_tree item.now))) }
{
    match item {
        Pitem::Expr(e) => capped_sum(expression_size(e), 2),
        Pitem::Tab(_) => 1,
    }
}

fn size_of_print(item: &Option<Pitem>) -> u32
    ensures { result ≡ counted (print_size (option_map pitem_tree item.now)) }
{
    match item {
        Some(item) => size_of_item(item),
        None => 1,
    }
}

fn size_of_plain(plain: &Plain) -> u32
    ensures { result ≡ counted (plain_size (plain_tree plain.now)) }
{
    match plain_kind_of(plain) {
        PlainKind::Let(targets, e) => {
            if targets.targets.items().is_empty() {
                0
            } else {
                capped_sum(expression_size(e), 2)
            }
        }
        PlainKind::Print(list) => size_of_print(&list.first),
        PlainKind::Goto(_) => 1,
        PlainKind::ExitDo => 1,
        PlainKind::Other => 0,
    }
}

/// How many instructions a line alone has.
pub fn size_of_single(item: &LineItem) -> u32
    ensures { result ≡ counted (single_size (item_tree item.now)) }
{
    match kind_of(item) {
        LineKind::Alone(plain) => capped_sum(1, size_of_plain(plain)),
        LineKind::Remark => 1,
        _ => 0,
    }
}

fn size_of_loopc(alloc: Global, loopc: &Option<Loopc>) -> Result<u32, AllocError>
    ensures { IfOk result (λ size. size ≡ counted (loopc_size (option_map loopc_tree loopc.now))) }
{
    match loopc {
        Some(loopc) => condition_size(alloc, loop_condition(loopc)),
        None => Ok(0),
    }
}

/// How many instructions the line has that closes a block.
pub fn size_of_closing(alloc: Global, item: &LineItem) -> Result<u32, AllocError>
    ensures { IfOk result (λ size. size ≡ counted (closing_size (item_tree item.now))) }
{
    match kind_of(item) {
        LineKind::Loop(loopc) => Ok(capped_sum(1, size_of_loopc(alloc, loopc)?)),
        LineKind::End => Ok(2),
        _ => Ok(0),
    }
}

/// The jump behind a part of a block IF.
pub fn size_of_part_end(last: bool) -> u32
    ensures { result ≡ part_end_size last }
{
    if last { 0 } else { 1 }
}

// The address behind some code.
fn further(from: u32, size: u32) -> u32
    ensures { from + size ≤ code_limit → result ≡ from + size }
{
    from.saturating_add(size)
}

/// Whether the sections behind this one are built too.
pub fn continues(going: bool, item: &LineItem) -> bool
    ensures { result ≡ goes_on going (item_tree item.now) }
{
    if !going {
        return false;
    }
    match kind_of(item) {
        LineKind::If(_) => true,
        LineKind::Elseif(_) => true,
        _ => false,
    }
}

// An address, which is none of the body past the limit.
fn narrowed(address: u32) -> u16
    ensures { address ≤ code_limit → result ≡ address }
{
    address.min(CODE_LIMIT) as u16
}

fn put_label(layout: &mut Layout, target: Target, address: u32) -> Result<(), AllocError>
    ensures { OnOk result (Relabelled layout.old layout.new address ((target_of target, address) ∷ [])) }
{
    let address = narrowed(address);
    layout.labels.push(Label { target, address })?;
    Ok(())
}

// Makes room for a size, and gives its index.
fn reserve(layout: &mut Layout) -> Result<usize, AllocError>
    ensures { IfOk result (λ at. Reserved layout.old layout.new at) }
{
    let at = layout.sizes.len();
    layout.sizes.push(0)?;
    Ok(at)
}

fn fill(layout: &mut Layout, at: usize, size: u32)
    ensures { Refilled layout.old layout.new at size }
{
    if at < layout.sizes.len() {
        layout.sizes[at] = size;
    }
}

/// The line that closes a block may be a target.
pub fn lay_closing(layout: &mut Layout, from: u32, end: &NumLine) -> Result<(), AllocError>
    ensures { OnOk result (Relabelled layout.old layout.new from (closing_labels end.now.line (item_tree end.now.item) from)) }
{
    match kind_of(&end.item) {
        LineKind::Loop(_) => put_label(layout, Target::Line(end.line.number()), from),
        LineKind::End => put_label(layout, Target::Line(end.line.number()), from),
        _ => Ok(()),
    }
}

/// Lays out a block from an address on, and gives its size.
#[cycle(lays)]
pub fn lay_block(
    alloc: Global,
    layout: &mut Layout,
    from: u32,
    block: &Block,
) -> Result<u32, AllocError>
    ensures { IfOk result (λ size. Laid layout.old layout.new from size (block_size (block_tree block.now)) (block_list (block_tree block.now)) (block_labels (block_tree block.now) from)) }
{
    lay_stmts(alloc, layout, from, block.stmts.as_slice())
}

#[cycle(lays)]
fn lay_stmts(
    alloc: Global,
    layout: &mut Layout,
    from: u32,
    stmts: &[Stmt],
) -> Result<u32, AllocError>
    ensures { IfOk result (λ size. Laid layout.old layout.new from size (block_size (stmts_tree stmts.now)) (block_list (stmts_tree stmts.now)) (block_labels (stmts_tree stmts.now) from)) }
{
    let mut size = 0;
    for next in stmts {
        let at = further(from, size);
        put_label(layout, Target::Line(next.first_line().number()), at)?;
        let own = lay_stmt(alloc, layout, at, next)?;
        size = capped_sum(size, own);
    }
    Ok(size)
}

#[cycle(lays)]
fn lay_stmt(alloc: Global, layout: &mut Layout, from: u32, stmt: &Stmt) -> Result<u32, AllocError>
    ensures { IfOk result (λ size. Laid layout.old layout.new from size (stmt_size (stmt_tree stmt.now)) (stmt_list (stmt_tree stmt.now)) (stmt_labels (stmt_tree stmt.now) from)) }
{
    match stmt {
        Stmt::Single(line) => Ok(size_of_single(&line.item)),
        Stmt::Nest { sections, end } => {
            let at = reserve(layout)?;
            let size = lay_sections(alloc, layout, from, sections.as_slice(), end)?;
            fill(layout, at, size);
            Ok(size)
        }
    }
}

#[cycle(lays)]
fn lay_sections(
    alloc: Global,
    layout: &mut Layout,
    from: u32,
    sections: &[Section],
    end: &NumLine,
) -> Result<u32, AllocError>
    ensures { IfOk result (λ size. Laid layout.old layout.new from size (sections_size (sections_tree sections.now) (line_tree end.now)) (sections_list (sections_tree sections.now)) (sections_labels (sections_tree sections.now) (line_tree end.now) from (from + sections_size (sections_tree sections.now) (line_tree end.now)))) }
{
    let mut size = 0;
    let mut going = true;
    let mut left = sections.len();
    for section in sections {
        left -= 1;
        let at = further(from, size);
        let own = lay_section(alloc, layout, at, section, left == 0, end, going)?;
        size = capped_sum(size, own);
        going = continues(going, &section.head.item);
    }
    Ok(size)
}

#[cycle(lays)]
fn lay_section(
    alloc: Global,
    layout: &mut Layout,
    from: u32,
    section: &Section,
    last: bool,
    end: &NumLine,
    going: bool,
) -> Result<u32, AllocError>
    ensures { let x = section_tree section.now in IfOk result (λ size. Laid layout.old layout.new from size (own_size going x.0.item (item_tree end.now.item) last (block_size x.1)) (own_list going x.0.item (counted (block_size x.1)) (block_list x.1)) (own_labels going x.0.line x.0.item (line_tree end.now) (block_size x.1) (λ at. block_labels x.1 at) from)) }
{
    if !going {
        return Ok(0);
    }
    let body = &section.body;
    match kind_of(&section.head.item) {
        LineKind::If(c) => lay_test(alloc, layout, from, body, c, last),
        LineKind::Elseif(c) => lay_test(alloc, layout, from, body, c, last),
        LineKind::Else => lay_listed(alloc, layout, from, body),
        LineKind::Do(loopc) => {
            let number = section.head.line.number();
            lay_do(alloc, layout, from, body, number, loopc, end)
        }
        LineKind::Alone(_) => Ok(0),
        LineKind::Loop(_) => Ok(0),
        LineKind::End => Ok(0),
        LineKind::Remark => Ok(0),
        LineKind::Other => Ok(0),
    }
}

// A block, with its size before those inside it.
#[cycle(lays)]
fn lay_listed(
    alloc: Global,
    layout: &mut Layout,
    from: u32,
    body: &Block,
) -> Result<u32, AllocError>
    ensures { IfOk result (λ size. Laid layout.old layout.new from size (block_size (block_tree body.now)) (counted (block_size (block_tree body.now)) ∷ block_list (block_tree body.now)) (block_labels (block_tree body.now) from)) }
{
    let at = reserve(layout)?;
    let size = lay_block(alloc, layout, from, body)?;
    fill(layout, at, size);
    Ok(size)
}

// The mark, the condition, the block, and the jump behind it that the last one has not.
#[cycle(lays)]
fn lay_test(
    alloc: Global,
    layout: &mut Layout,
    from: u32,
    body: &Block,
    c: &Cond,
    last: bool,
) -> Result<u32, AllocError>
    ensures { IfOk result (λ size. Laid layout.old layout.new from size (1 + (cond_size (cond_tree c.now) + (block_size (block_tree body.now) + part_end_size last))) (counted (block_size (block_tree body.now)) ∷ block_list (block_tree body.now)) (block_labels (block_tree body.now) (suc from + cond_size (cond_tree c.now)))) }
{
    let head = capped_sum(1, condition_size(alloc, c)?);
    let block = lay_listed(alloc, layout, further(from, head), body)?;
    let front = capped_sum(head, block);
    Ok(capped_sum(front, size_of_part_end(last)))
}

// The mark, the condition, the block, the line that closes it, and the jump back.
#[cycle(lays)]
fn lay_do(
    alloc: Global,
    layout: &mut Layout,
    from: u32,
    body: &Block,
    number: u32,
    loopc: &Option<Loopc>,
    end: &NumLine,
) -> Result<u32, AllocError>
    ensures { IfOk result (λ size. Laid layout.old layout.new from size (1 + (loopc_size (option_map loopc_tree loopc.now) + (block_size (block_tree body.now) + (closing_size (item_tree end.now.item) + 1)))) (counted (block_size (block_tree body.now)) ∷ block_list (block_tree body.now)) (do_labels number (option_map loopc_tree loopc.now) (line_tree end.now) (block_size (block_tree body.now)) (λ at. block_labels (block_tree body.now) at) from)) }
{
    let index = layout.labels.len();
    put_label(layout, Target::End(number), 0)?;
    put_label(layout, Target::Turn(number), from)?;
    let head = capped_sum(1, size_of_loopc(alloc, loopc)?);
    let block = lay_listed(alloc, layout, further(from, head), body)?;
    let front = capped_sum(head, block);
    lay_closing(layout, further(from, front), end)?;
    let closed = capped_sum(front, size_of_closing(alloc, &end.item)?);
    let size = capped_sum(closed, 1);
    end_label(layout, index, number, further(from, size));
    Ok(size)
}

// Writes the address behind a loop.
fn end_label(layout: &mut Layout, at: usize, number: u32, address: u32)
    ensures sizes { layout.new.sizes.items ≡ layout.old.sizes.items }
    ensures labels { address ≤ code_limit → layout.new.labels.items ≡ slice_set layout.old.labels.items at (record { target = Target.End number; address = address }) }
{
    let address = narrowed(address);
    if at < layout.labels.len() {
        layout.labels[at] = Label {
            target: Target::End(number),
            address,
        };
    }
}
