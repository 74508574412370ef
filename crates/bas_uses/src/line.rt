//! The names that a line uses without arguments.

ghost use Rattle.std.specs.Prelude.{◌≡◌, ◌++◌, [], ◌∷◌, IfOk, OnOk};
ghost use Rattle.std.specs.Option.{option_map, option_to_list};
ghost use Rattle.bas_ast.specs.BlockTree.{item_tree};
ghost use Rattle.bas_ast.specs.ConditionTree.{cond_tree};
ghost use Rattle.bas_ast.specs.ExpressionTree.{expr_tree};
ghost use Rattle.bas_ast.specs.PartTree.{loopc_tree, part_tree};
ghost use Rattle.bas_ast.specs.StatementTree.{branch_tree, plain_tree, simple_tree};
ghost use Rattle.bas_ast.specs.Tree.{Alone, Let, NoExprs, OfPart, OfSimple, Variable};
ghost use Rattle.bas_scope.specs.Bodies.{counted_by, names_on as names_on_line};
ghost use Rattle.bas_scope.specs.Nodes.{
  branch_nodes,
  cond_nodes,
  expr_nodes,
  item_nodes,
  loopc_nodes,
  part_nodes,
  plain_nodes,
  simple_nodes,
  where_there,
};
ghost use Rattle.bas_uses.specs.Uses.{bare_names};

use crate::condition::push_cond;
use crate::expression::push_expr;
use crate::statement::{push_given, push_plain};
use bas_ast::{Branch, Cond, Expr, LineItem, Loopc, Part, Plain, Simple};
use bas_base::Name;
use sqlite_items::Boxed;
use std::alloc::{AllocError, Global};

#[tactic(auto, using(crate::proofs::Appending::none), unfolding(bas_ast::specs::StatementTree::branch_tree))]
fn push_branch(names: &mut Vec<Name>, branch: &Branch) -> Result<(), AllocError>
    ensures { OnOk result (names.new.items ≡ names.old.items ++ bare_names (branch_nodes (branch_tree branch.now))) }
{
    match branch {
        Branch::Number(_) => Ok(()),
        Branch::Plain(plain) => push_plain(names, plain.get()),
    }
}

#[tactic(auto, using(crate::proofs::Appending::none))]
fn push_else_branch(names: &mut Vec<Name>, branch: &Option<Branch>) -> Result<(), AllocError>
    ensures { OnOk result (names.new.items ≡ names.old.items ++ bare_names (where_there branch_nodes (option_map branch_tree branch.now))) }
{
    match branch {
        Some(branch) => push_branch(names, branch),
        None => Ok(()),
    }
}

#[tactic(auto, using(crate::proofs::Appending::none))]
fn push_else_plain(names: &mut Vec<Name>, plain: &Option<Boxed<Plain>>) -> Result<(), AllocError>
    ensures { OnOk result (names.new.items ≡ names.old.items ++ bare_names (where_there plain_nodes (option_map plain_tree plain.now))) }
{
    match plain {
        Some(plain) => push_plain(names, plain.get()),
        None => Ok(()),
    }
}

fn push_if(
    names: &mut Vec<Name>,
    cond: &Cond,
    then_part: &Branch,
    else_part: &Option<Branch>,
) -> Result<(), AllocError>
    ensures { OnOk result (names.new.items ≡ names.old.items ++ bare_names (cond_nodes (cond_tree cond.now) ++ (branch_nodes (branch_tree then_part.now) ++ where_there branch_nodes (option_map branch_tree else_part.now)))) }
{
    push_cond(names, cond)?;
    push_branch(names, then_part)?;
    push_else_branch(names, else_part)
}

fn push_on(
    names: &mut Vec<Name>,
    index: &Expr,
    else_part: &Option<Boxed<Plain>>,
) -> Result<(), AllocError>
    ensures { OnOk result (names.new.items ≡ names.old.items ++ bare_names (expr_nodes (expr_tree index.now) ++ where_there plain_nodes (option_map plain_tree else_part.now))) }
{
    push_expr(names, index)?;
    push_else_plain(names, else_part)
}

#[tactic(auto, unfolding(bas_ast::specs::StatementTree::simple_tree))]
fn push_simple(names: &mut Vec<Name>, simple: &Simple) -> Result<(), AllocError>
    ensures { OnOk result (names.new.items ≡ names.old.items ++ bare_names (simple_nodes (simple_tree simple.now))) }
{
    match simple {
        Simple::Plain(plain) => push_plain(names, plain),
        Simple::If(cond, then_part, else_part) => push_if(names, cond, then_part, else_part),
        Simple::OnGoto(index, _, else_part) | Simple::OnGosub(index, _, else_part) => {
            push_on(names, index, else_part)
        }
    }
}

#[tactic(auto, using(crate::proofs::Appending::none), unfolding(bas_ast::specs::PartTree::loopc_tree))]
fn push_loopc(names: &mut Vec<Name>, loopc: &Option<Loopc>) -> Result<(), AllocError>
    ensures { OnOk result (names.new.items ≡ names.old.items ++ bare_names (where_there loopc_nodes (option_map loopc_tree loopc.now))) }
{
    match loopc {
        Some(Loopc::While(cond)) => push_cond(names, cond),
        Some(Loopc::Until(cond)) => push_cond(names, cond),
        None => Ok(()),
    }
}

fn push_range(
    names: &mut Vec<Name>,
    start: &Expr,
    limit: &Expr,
    step: &Option<Expr>,
) -> Result<(), AllocError>
    ensures { OnOk result (names.new.items ≡ names.old.items ++ bare_names (expr_nodes (expr_tree start.now) ++ (expr_nodes (expr_tree limit.now) ++ where_there expr_nodes (option_map expr_tree step.now)))) }
{
    push_expr(names, start)?;
    push_expr(names, limit)?;
    push_given(names, step)
}

#[tactic(auto, using(crate::proofs::Appending::none), unfolding(bas_ast::specs::PartTree::part_tree))]
fn push_part(names: &mut Vec<Name>, part: &Part) -> Result<(), AllocError>
    ensures { OnOk result (names.new.items ≡ names.old.items ++ bare_names (part_nodes (part_tree part.now))) }
{
    match part {
        Part::If(cond) | Part::Elseif(cond) => push_cond(names, cond),
        Part::For {
            start,
            limit,
            step,
            ..
        } => push_range(names, start, limit, step),
        Part::Do(loopc) | Part::Loop(loopc) => push_loopc(names, loopc),
        Part::SelectCase(selector) => push_expr(names, selector),
        _ => Ok(()),
    }
}

#[tactic(auto, using(crate::proofs::Appending::none), unfolding(bas_ast::specs::BlockTree::item_tree))]
fn push_nodes(names: &mut Vec<Name>, item: &LineItem) -> Result<(), AllocError>
    ensures { OnOk result (names.new.items ≡ names.old.items ++ bare_names (item_nodes (item_tree item.now))) }
{
    match item {
        LineItem::Simple(simple) => push_simple(names, simple.get()),
        LineItem::Part(part) => push_part(names, part.get()),
        _ => Ok(()),
    }
}

// The variable of a `FOR` line.
#[tactic(auto, unfolding(bas_ast::specs::PartTree::part_tree))]
fn counter_of(part: &Part) -> Option<Name>
    ensures { option_to_list result ≡ counted_by (OfPart (part_tree part.now)) }
{
    match part {
        Part::For { name, .. } => Some(*name),
        _ => None,
    }
}

#[tactic(auto, unfolding(bas_ast::specs::BlockTree::item_tree))]
fn counter_on(item: &LineItem) -> Option<Name>
    ensures { option_to_list result ≡ counted_by (item_tree item.now) }
{
    match item {
        LineItem::Part(part) => counter_of(part.get()),
        _ => None,
    }
}

fn counter_in(alloc: Global, item: &LineItem) -> Result<Vec<Name>, AllocError>
    ensures { IfOk result (λ names. names.items ≡ counted_by (item_tree item.now)) }
{
    let mut names = Vec::new(alloc);
    if let Some(name) = counter_on(item) {
        names.push(name)?;
    }
    Ok(names)
}

/// The names that a line uses as variables, or as functions without arguments, in the order of the
/// text and as often as they stand there. The variable of a `FOR` line comes first.
pub fn names_on(alloc: Global, item: &LineItem) -> Result<Vec<Name>, AllocError>
    ensures { IfOk result (λ names. names.items ≡ names_on_line (item_tree item.now)) }
{
    let mut names = counter_in(alloc, item)?;
    push_nodes(&mut names, item)?;
    Ok(names)
}

/// The names that the body of a definition uses, whose one statement sets its name to its value.
pub fn names_in_definition(alloc: Global, name: Name, value: &Expr) -> Result<Vec<Name>, AllocError>
    ensures { IfOk result (λ names. names.items ≡ names_on_line (OfSimple (Alone (Let (Variable name NoExprs ∷ []) (expr_tree value.now))))) }
{
    let mut names = Vec::new(alloc);
    names.push(name)?;
    push_expr(&mut names, value)?;
    Ok(names)
}
