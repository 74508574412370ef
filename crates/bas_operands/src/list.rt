//! The least rule that expressions, targets and items of a list break.

ghost use Rattle.std.specs.Prelude.{◌≡◌, map};
ghost use Rattle.std.specs.Option.{option_map};
ghost use Rattle.bas_ast.specs.ExpressionTree.{expr_tree, target_tree};
ghost use Rattle.bas_ast.specs.StatementTree.{
  targets_tree,
  pitem_tree,
  plist_tree,
  spaced_tree,
  value_tree,
};
ghost use Rattle.bas_scope.specs.Lines.{gathered};
ghost use Rattle.bas_scope.specs.Nodes.{
  expr_nodes,
  targets_nodes,
  values_nodes,
  pitem_nodes,
  plist_nodes,
  where_there,
};
ghost use Rattle.bas_names.specs.Names.{senses_in};
ghost use Rattle.bas_operands.specs.Operands.{nodes_fault};

use crate::broken::least;
use crate::expression::{expr_fault, target_fault};
use bas_ast::{Expr, Pitem, Plist, Sep, Target, Targets};
use bas_names::Names;

/// The least rule that an expression breaks, where it is written.
#[tactic(auto, using(crate::proofs::Rows::fault_none))]
pub fn optional_fault(names: &Names<'_>, expr: &Option<Expr>) -> Option<u8>
    ensures { result ≡ nodes_fault (senses_in names.now) (where_there expr_nodes (option_map expr_tree expr.now)) }
{
    match expr {
        None => None,
        Some(expr) => expr_fault(names, expr),
    }
}

/// The least rule that some expressions break.
pub fn values_fault(names: &Names<'_>, values: &[Expr]) -> Option<u8>
    ensures { result ≡ nodes_fault (senses_in names.now) (values_nodes (map expr_tree values.now)) }
{
    let mut found = None;
    for next in values {
        found = least(found, expr_fault(names, next));
    }
    found
}

/// The least rule that some expressions break, each with the separator in front of it.
pub fn separated_fault(names: &Names<'_>, values: &[(Sep, Expr)]) -> Option<u8>
    ensures { result ≡ nodes_fault (senses_in names.now) (gathered (λ x. expr_nodes x.1) (map value_tree values.now)) }
{
    let mut found = None;
    for (_, next) in values {
        found = least(found, expr_fault(names, next));
    }
    found
}

fn each_target_fault(names: &Names<'_>, targets: &[Target]) -> Option<u8>
    ensures { result ≡ nodes_fault (senses_in names.now) (targets_nodes (map target_tree targets.now)) }
{
    let mut found = None;
    for next in targets {
        found = least(found, target_fault(names, next));
    }
    found
}

/// The least rule that some targets break.
pub fn targets_fault(names: &Names<'_>, targets: &Targets) -> Option<u8>
    ensures { result ≡ nodes_fault (senses_in names.now) (targets_nodes (targets_tree targets.now)) }
{
    each_target_fault(names, targets.targets.items())
}

#[tactic(auto, using(crate::proofs::Rows::fault_none), unfolding(bas_ast::specs::StatementTree::pitem_tree))]
fn pitem_fault(names: &Names<'_>, item: &Option<Pitem>) -> Option<u8>
    ensures { result ≡ nodes_fault (senses_in names.now) (where_there pitem_nodes (option_map pitem_tree item.now)) }
{
    match item {
        None => None,
        Some(Pitem::Expr(expr)) => expr_fault(names, expr),
        Some(Pitem::Tab(column)) => expr_fault(names, column),
    }
}

fn pitems_fault(names: &Names<'_>, items: &[(Sep, Option<Pitem>)]) -> Option<u8>
    ensures { result ≡ nodes_fault (senses_in names.now) (gathered (λ x. where_there pitem_nodes x.1) (map spaced_tree items.now)) }
{
    let mut found = None;
    for (_, next) in items {
        found = least(found, pitem_fault(names, next));
    }
    found
}

/// The least rule that a print list breaks.
#[tactic(auto, using(crate::proofs::Rows::fault_both))]
pub fn plist_fault(names: &Names<'_>, list: &Plist) -> Option<u8>
    ensures { result ≡ nodes_fault (senses_in names.now) (plist_nodes (plist_tree list.now)) }
{
    let first = pitem_fault(names, &list.first);
    least(first, pitems_fault(names, list.rest.items()))
}

/// The least rule that a print list breaks, where it is written.
#[tactic(auto, using(crate::proofs::Rows::fault_none))]
pub fn optional_plist_fault(names: &Names<'_>, list: &Option<Plist>) -> Option<u8>
    ensures { result ≡ nodes_fault (senses_in names.now) (where_there plist_nodes (option_map plist_tree list.now)) }
{
    match list {
        None => None,
        Some(list) => plist_fault(names, list),
    }
}
