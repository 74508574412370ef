//! The statements on a line.

ghost use Rattle.std.specs.Prelude.{◌≡◌, ◌++◌};
ghost use Rattle.std.specs.Option.{option_map, option_to_list};
ghost use Rattle.bas_ast.specs.BlockTree.{item_tree};
ghost use Rattle.bas_ast.specs.RecordTree.{miss_tree};
ghost use Rattle.bas_ast.specs.StatementTree.{branch_tree, plain_tree, simple_tree};
ghost use Rattle.bas_scope.specs.Lines.{gathered};
ghost use Rattle.bas_rules.specs.Statements as rule;
ghost use Rattle.bas_reach.specs.Lent.{lent};

use bas_ast::{Branch, LineItem, Miss, Plain, Simple};
use sqlite_items::Boxed;

#[tactic(auto, unfolding(bas_ast::specs::StatementTree::branch_tree))]
fn plain_of_branch(branch: &Branch) -> Option<&Plain>
    ensures { lent result ≡ rule.plains_of_branch (branch_tree branch.now) }
{
    match branch {
        Branch::Number(_) => None,
        Branch::Plain(plain) => Some(plain.get()),
    }
}

fn plain_of_else(else_part: &Option<Branch>) -> Option<&Plain>
    ensures { lent result ≡ gathered rule.plains_of_branch (option_to_list (option_map branch_tree else_part.now)) }
{
    match else_part {
        None => None,
        Some(branch) => plain_of_branch(branch),
    }
}

fn unboxed(plain: &Option<Boxed<Plain>>) -> Option<&Plain>
    ensures { lent result ≡ option_to_list (option_map plain_tree plain.now) }
{
    match plain {
        None => None,
        Some(plain) => Some(plain.get()),
    }
}

#[tactic(auto, unfolding(bas_ast::specs::StatementTree::simple_tree))]
fn plains_of(simple: &Simple) -> (Option<&Plain>, Option<&Plain>)
    ensures { lent result.0 ++ lent result.1 ≡ rule.plains_of (simple_tree simple.now) }
{
    match simple {
        Simple::Plain(plain) => (Some(plain), None),
        Simple::If(_, then_part, else_part) => {
            (plain_of_branch(then_part), plain_of_else(else_part))
        }
        Simple::OnGoto(_, _, else_part) | Simple::OnGosub(_, _, else_part) => {
            (unboxed(else_part), None)
        }
    }
}

/// The statements on a line: one that stands alone, or those of a one-line `IF` or `ON`, in order.
#[tactic(auto, unfolding(bas_ast::specs::BlockTree::item_tree))]
pub fn plains_on(item: &LineItem) -> (Option<&Plain>, Option<&Plain>)
    ensures { lent result.0 ++ lent result.1 ≡ rule.plains_on (item_tree item.now) }
{
    match item {
        LineItem::Simple(simple) => plains_of(simple.get()),
        _ => (None, None),
    }
}

/// What `IF MISSING` or `IF THERE` of a statement says, where one is written.
#[tactic(auto, unfolding(bas_ast::specs::StatementTree::plain_tree))]
pub fn miss_of(plain: &Plain) -> Option<Miss>
    ensures { option_map miss_tree result ≡ rule.miss_of (plain_tree plain.now) }
{
    match plain {
        Plain::InputChan(_, miss, _)
        | Plain::LineInputChan(_, miss, _)
        | Plain::ReadChan(_, _, miss, _)
        | Plain::Write(_, _, miss, _)
        | Plain::Rewrite(_, _, miss, _)
        | Plain::Delete(_, _, miss) => *miss,
        _ => None,
    }
}
