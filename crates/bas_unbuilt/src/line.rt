//! Which lines are built.

ghost use Rattle.std.specs.Prelude.{◌≡◌, ◌==◌, length};
ghost use Rattle.std.specs.Option.{option_map};
ghost use Rattle.bas_ast.specs.PartTree.{loopc_tree};
ghost use Rattle.bas_ast.specs.BlockTree.{item_tree};
ghost use Rattle.bas_mean.specs.Built.{
  is_built_loopc as built_loopc,
  is_built_single,
  is_end_if as end_if,
  is_end as end,
  is_built_program_line as built_program_line,
  is_built_loop as built_loop,
};
ghost use Rattle.bas_unbuilt.specs.Unbuilt.{is_built_head as built_head, is_built_close as built_close};

use crate::condition::is_built_condition;
use crate::statement::is_built_statement;
use bas_ast::{Formals, LineItem, Loopc, Part, Simple};

#[tactic(auto, unfolding(bas_ast::specs::PartTree::loopc_tree))]
fn is_built_loopc(loopc: &Option<Loopc>) -> bool
    ensures { result ≡ built_loopc (option_map loopc_tree loopc.now) }
{
    match loopc {
        None => true,
        Some(Loopc::While(c)) => is_built_condition(c),
        Some(Loopc::Until(c)) => is_built_condition(c),
    }
}

/// Whether a line that stands alone is built.
#[tactic(auto, unfolding(bas_ast::specs::BlockTree::item_tree, bas_ast::specs::StatementTree::simple_tree))]
pub fn is_built_line(item: &LineItem) -> bool
    ensures { result ≡ is_built_single (item_tree item.now) }
{
    match item {
        LineItem::Simple(simple) => match simple.get() {
            Simple::Plain(plain) => is_built_statement(plain),
            _ => false,
        },
        LineItem::Rem(_) => true,
        LineItem::Nothing => true,
        _ => false,
    }
}

fn has_no_formals(formals: &Formals) -> bool
    ensures { result ≡ (length formals.now.formals == 0) }
{
    formals.formals.items().is_empty()
}

/// Whether a line is `PROGRAM` without formals.
#[tactic(auto, unfolding(bas_ast::specs::BlockTree::item_tree, bas_ast::specs::PartTree::part_tree))]
pub fn is_built_program_line(item: &LineItem) -> bool
    ensures { result ≡ built_program_line (item_tree item.now) }
{
    match item {
        LineItem::Part(part) => match part.get() {
            Part::Program(_, formals) => has_no_formals(formals),
            _ => false,
        },
        _ => false,
    }
}

#[tactic(auto, unfolding(bas_ast::specs::BlockTree::item_tree, bas_ast::specs::PartTree::part_tree))]
fn is_end_if(item: &LineItem) -> bool
    ensures { result ≡ end_if (item_tree item.now) }
{
    match item {
        LineItem::Part(part) => matches!(part.get(), Part::EndIf),
        _ => false,
    }
}

/// Whether a line is `END`.
#[tactic(auto, unfolding(bas_ast::specs::BlockTree::item_tree, bas_ast::specs::PartTree::part_tree))]
pub fn is_end(item: &LineItem) -> bool
    ensures { result ≡ end (item_tree item.now) }
{
    match item {
        LineItem::Part(part) => matches!(part.get(), Part::End),
        _ => false,
    }
}

#[tactic(auto, unfolding(bas_ast::specs::BlockTree::item_tree, bas_ast::specs::PartTree::part_tree))]
fn is_built_loop(item: &LineItem) -> bool
    ensures { result ≡ built_loop (item_tree item.now) }
{
    match item {
        LineItem::Part(part) => match part.get() {
            Part::Loop(loopc) => is_built_loopc(loopc),
            _ => false,
        },
        _ => false,
    }
}

/// Whether a line that opens a section is built.
#[tactic(auto, unfolding(bas_ast::specs::BlockTree::item_tree, bas_ast::specs::PartTree::part_tree))]
pub fn is_built_head(item: &LineItem) -> bool
    ensures { result ≡ built_head (item_tree item.now) }
{
    match item {
        LineItem::Part(part) => match part.get() {
            Part::If(c) => is_built_condition(c),
            Part::Elseif(c) => is_built_condition(c),
            Part::Else => true,
            Part::Do(loopc) => is_built_loopc(loopc),
            _ => false,
        },
        _ => false,
    }
}

/// Whether the line that closes a construct with such a section is built.
#[tactic(auto, unfolding(bas_ast::specs::BlockTree::item_tree, bas_ast::specs::PartTree::part_tree))]
pub fn is_built_close(head: &LineItem, close: &LineItem) -> bool
    ensures { result ≡ built_close (item_tree head.now) (item_tree close.now) }
{
    match head {
        LineItem::Part(part) => match part.get() {
            Part::Do(_) => is_built_loop(close),
            _ => is_end_if(close),
        },
        _ => is_end_if(close),
    }
}
