//! Which statements are built.

ghost use Rattle.std.specs.Prelude.{◌≡◌, [], map};
ghost use Rattle.std.specs.Option.{option_map};
ghost use Rattle.bas_ast.specs.ExpressionTree.{target_tree};
ghost use Rattle.bas_ast.specs.StatementTree.{plain_tree, pitem_tree, plist_tree};
ghost use Rattle.bas_mean.specs.Built as built;

use crate::expression::is_built_expression;
use crate::name::is_numeric_name;
use bas_ast::{Pitem, Plain, Plist, Target};

fn are_built_targets(targets: &[Target]) -> bool
    ensures { result ≡ built.are_built_targets (map target_tree targets.now) }
{
    match targets {
        [only] => only.subscripts.as_slice().is_empty() && is_numeric_name(only.name),
        _ => false,
    }
}

#[tactic(auto, unfolding(bas_ast::specs::StatementTree::pitem_tree))]
fn is_built_item(item: &Option<Pitem>) -> bool
    ensures { result ≡ built.is_built_list (option_map pitem_tree item.now) [] }
{
    match item {
        None => true,
        Some(Pitem::Expr(e)) => is_built_expression(e),
        Some(Pitem::Tab(_)) => false,
    }
}

fn is_built_list(list: &Plist) -> bool
    ensures { let x = plist_tree list.now in result ≡ built.is_built_list x.first x.rest }
{
    list.rest.items().is_empty() && is_built_item(&list.first)
}

/// Whether a statement is built.
#[tactic(auto, unfolding(bas_ast::specs::StatementTree::plain_tree))]
pub fn is_built_statement(plain: &Plain) -> bool
    ensures { result ≡ built.is_built_plain (plain_tree plain.now) }
{
    match plain {
        Plain::Let(targets, e) => are_built_targets(targets.targets.items())
            && is_built_expression(e),
        Plain::Print(list) => is_built_list(list),
        Plain::Goto(_) => true,
        Plain::ExitDo => true,
        _ => false,
    }
}
