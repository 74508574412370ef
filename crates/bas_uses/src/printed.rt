//! The names that what is printed uses without arguments.

ghost use Rattle.std.specs.Prelude.{◌≡◌, ◌++◌, OnOk, map};
ghost use Rattle.std.specs.Option.{option_map};
ghost use Rattle.bas_ast.specs.ExpressionTree.{expr_tree};
ghost use Rattle.bas_ast.specs.StatementTree.{pitem_tree, plist_tree, spaced_tree, value_tree};
ghost use Rattle.bas_scope.specs.Lines.{gathered};
ghost use Rattle.bas_scope.specs.Nodes.{expr_nodes, pitem_nodes, plist_nodes, where_there};
ghost use Rattle.bas_uses.specs.Uses.{bare_names};

use crate::expression::push_expr;
use bas_ast::{Expr, Pitem, Plist, Sep};
use bas_base::Name;
use std::alloc::AllocError;

#[tactic(auto, using(crate::proofs::Appending::none), unfolding(bas_ast::specs::StatementTree::pitem_tree))]
fn push_item(names: &mut Vec<Name>, item: &Option<Pitem>) -> Result<(), AllocError>
    ensures { OnOk result (names.new.items ≡ names.old.items ++ bare_names (where_there pitem_nodes (option_map pitem_tree item.now))) }
{
    match item {
        Some(Pitem::Expr(expr)) => push_expr(names, expr),
        Some(Pitem::Tab(column)) => push_expr(names, column),
        None => Ok(()),
    }
}

fn push_items(names: &mut Vec<Name>, items: &[(Sep, Option<Pitem>)]) -> Result<(), AllocError>
    ensures { OnOk result (names.new.items ≡ names.old.items ++ bare_names (gathered (λ x. where_there pitem_nodes x.1) (map spaced_tree items.now))) }
{
    for (_, item) in items {
        push_item(names, item)?;
    }
    Ok(())
}

/// Appends the names that a print list uses.
pub fn push_plist(names: &mut Vec<Name>, list: &Plist) -> Result<(), AllocError>
    ensures { OnOk result (names.new.items ≡ names.old.items ++ bare_names (plist_nodes (plist_tree list.now))) }
{
    push_item(names, &list.first)?;
    push_items(names, list.rest.items())
}

/// Appends the names that a print list uses, where there is one.
#[tactic(auto, using(crate::proofs::Appending::none))]
pub fn push_given_plist(names: &mut Vec<Name>, list: &Option<Plist>) -> Result<(), AllocError>
    ensures { OnOk result (names.new.items ≡ names.old.items ++ bare_names (where_there plist_nodes (option_map plist_tree list.now))) }
{
    match list {
        Some(list) => push_plist(names, list),
        None => Ok(()),
    }
}

fn push_more_values(names: &mut Vec<Name>, values: &[(Sep, Expr)]) -> Result<(), AllocError>
    ensures { OnOk result (names.new.items ≡ names.old.items ++ bare_names (gathered (λ x. expr_nodes x.1) (map value_tree values.now))) }
{
    for (_, value) in values {
        push_expr(names, value)?;
    }
    Ok(())
}

/// Appends the names that a format and the values behind it use.
pub fn push_formatted(
    names: &mut Vec<Name>,
    format: &Expr,
    first: &Expr,
    rest: &[(Sep, Expr)],
) -> Result<(), AllocError>
    ensures { OnOk result (names.new.items ≡ names.old.items ++ bare_names (expr_nodes (expr_tree format.now) ++ (expr_nodes (expr_tree first.now) ++ gathered (λ x. expr_nodes x.1) (map value_tree rest.now)))) }
{
    push_expr(names, format)?;
    push_expr(names, first)?;
    push_more_values(names, rest)
}
