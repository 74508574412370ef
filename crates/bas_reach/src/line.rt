//! What kind of line a line is.

ghost use Rattle.std.specs.Prelude.{◌≡◌};
ghost use Rattle.bas_ast.specs.Tree.{OfPart};
ghost use Rattle.bas_ast.specs.BlockTree.{item_tree};
ghost use Rattle.bas_ast.specs.PartTree.{part_tree};
ghost use Rattle.bas_rules.specs.Naming.{is_among, counter_of};
ghost use Rattle.bas_rules.specs.Sites as rule;

use bas_ast::{LineItem, Part};
use bas_base::Name;

#[tactic(auto, unfolding(bas_ast::specs::PartTree::part_tree))]
fn is_counted_part(part: &Part) -> bool
    ensures { result ≡ rule.is_counted_part (part_tree part.now) }
{
    matches!(
        part,
        Part::If(_)
            | Part::For { .. }
            | Part::Do(_)
            | Part::SelectCase(_)
            | Part::WhenExceptionIn
            | Part::WhenExceptionUse(_)
    )
}

/// Whether a jump may go to a line, where it stands in a block: a statement, a remark, an empty line, or
/// the first line of a construct.
#[tactic(auto, unfolding(bas_ast::specs::BlockTree::item_tree))]
pub fn is_counted(item: &LineItem) -> bool
    ensures { result ≡ rule.is_counted (item_tree item.now) }
{
    match item {
        LineItem::Nothing | LineItem::Rem(_) | LineItem::Simple(_) => true,
        LineItem::Part(part) => is_counted_part(part.get()),
        LineItem::Decl(_) => false,
    }
}

#[tactic(auto, unfolding(bas_ast::specs::PartTree::part_tree), using(crate::proofs::Counting::or_false))]
fn is_counter_of_part(name: &Name, part: &Part) -> bool
    ensures { result ≡ is_among name.now (counter_of (OfPart (part_tree part.now))) }
{
    match part {
        Part::For { name: counter, .. } => name == counter,
        _ => false,
    }
}

/// Whether a name is the variable of the `FOR` line that begins a construct, as `NEXT` must name it.
#[tactic(auto, unfolding(bas_ast::specs::BlockTree::item_tree))]
pub fn is_counter_of(name: &Name, opener: &LineItem) -> bool
    ensures { result ≡ is_among name.now (counter_of (item_tree opener.now)) }
{
    match opener {
        LineItem::Part(part) => is_counter_of_part(name, part.get()),
        _ => false,
    }
}
