//! Whether the statements on a line, and the line itself, have parts of their kinds.

ghost use Rattle.std.specs.Prelude.{◌≡◌, ◌&&◌};
ghost use Rattle.std.specs.List.{list_all};
ghost use Rattle.std.specs.Option.{option_map, option_to_list};
ghost use Rattle.bas_ast.specs.BlockTree.{item_tree};
ghost use Rattle.bas_ast.specs.ExpressionTree.{expr_tree};
ghost use Rattle.bas_ast.specs.PartTree.{part_tree};
ghost use Rattle.bas_ast.specs.StatementTree.{branch_tree, plain_tree, simple_tree};
ghost use Rattle.bas_ast.specs.Tree.{OfSimple, OfPart};
ghost use Rattle.bas_rules.specs.Kinds.{is_number as is_number_of};
ghost use Rattle.bas_rules.specs.Statements as rule;
ghost use Rattle.bas_scope.specs.Lines.{gathered};

use crate::expression::is_number;
use crate::statement::plain_agrees;
use bas_ast::{Branch, Expr, LineItem, Part, Plain, Simple};
use sqlite_items::Boxed;

#[tactic(auto, using(crate::proofs::Rows::rows), unfolding(bas_ast::specs::StatementTree::branch_tree))]
fn branch_agrees(branch: &Branch) -> bool
    ensures { result ≡ list_all rule.plain_agrees (rule.plains_of_branch (branch_tree branch.now)) }
{
    match branch {
        Branch::Number(_) => true,
        Branch::Plain(plain) => plain_agrees(plain.get()),
    }
}

#[tactic(auto, using(crate::proofs::Rows::rows))]
fn else_branch_agrees(branch: &Option<Branch>) -> bool
    ensures { result ≡ list_all rule.plain_agrees (gathered rule.plains_of_branch (option_to_list (option_map branch_tree branch.now))) }
{
    match branch {
        None => true,
        Some(branch) => branch_agrees(branch),
    }
}

#[tactic(auto, using(crate::proofs::Rows::rows))]
fn else_plain_agrees(plain: &Option<Boxed<Plain>>) -> bool
    ensures { result ≡ list_all rule.plain_agrees (option_to_list (option_map plain_tree plain.now)) }
{
    match plain {
        None => true,
        Some(plain) => plain_agrees(plain.get()),
    }
}

#[tactic(auto, using(crate::proofs::Rows::rows), unfolding(bas_ast::specs::StatementTree::simple_tree))]
fn simple_agrees(simple: &Simple) -> bool
    ensures { let item = OfSimple (simple_tree simple.now) in result ≡ (rule.item_agrees item && list_all rule.plain_agrees (rule.plains_on item)) }
{
    match simple {
        Simple::Plain(plain) => plain_agrees(plain),
        Simple::If(_, then_part, else_part) => branch_agrees(then_part)
            && else_branch_agrees(else_part),
        Simple::OnGoto(index, _, else_part) | Simple::OnGosub(index, _, else_part) => is_number(
            index,
        ) && else_plain_agrees(else_part),
    }
}

fn is_numeric_step(step: &Option<Expr>) -> bool
    ensures { result ≡ rule.passes is_number_of (option_map expr_tree step.now) }
{
    match step {
        None => true,
        Some(step) => is_number(step),
    }
}

#[tactic(auto, unfolding(bas_ast::specs::PartTree::part_tree))]
fn part_agrees(part: &Part) -> bool
    ensures { result ≡ rule.item_agrees (OfPart (part_tree part.now)) }
{
    match part {
        Part::For {
            start,
            limit,
            step,
            ..
        } => is_number(start) && is_number(limit) && is_numeric_step(step),
        _ => true,
    }
}

/// Whether the parts of a line and of the statements on it have the kinds that are asked of them. The
/// operands within its expressions are not looked at.
#[tactic(auto, using(crate::proofs::Rows::rows), unfolding(bas_ast::specs::BlockTree::item_tree))]
pub fn item_agrees(item: &LineItem) -> bool
    ensures { result ≡ (rule.item_agrees (item_tree item.now) && list_all rule.plain_agrees (rule.plains_on (item_tree item.now))) }
{
    match item {
        LineItem::Simple(simple) => simple_agrees(simple.get()),
        LineItem::Part(part) => part_agrees(part.get()),
        _ => true,
    }
}
