//! The least rule that the operands on a line break.

ghost use Rattle.std.specs.Prelude.{◌≡◌};
ghost use Rattle.std.specs.Option.{option_map};
ghost use Rattle.bas_ast.specs.StatementTree.{plain_tree, branch_tree, simple_tree};
ghost use Rattle.bas_ast.specs.PartTree.{loopc_tree, part_tree};
ghost use Rattle.bas_ast.specs.BlockTree.{item_tree};
ghost use Rattle.bas_scope.specs.Nodes.{
  plain_nodes,
  branch_nodes,
  simple_nodes,
  loopc_nodes,
  part_nodes,
  item_nodes,
  where_there,
};
ghost use Rattle.bas_names.specs.Names.{senses_in};
ghost use Rattle.bas_operands.specs.Operands.{nodes_fault};

use crate::broken::{least, least_of_three};
use crate::condition::cond_fault;
use crate::expression::expr_fault;
use crate::list::optional_fault;
use crate::statement::plain_fault;
use bas_ast::{Branch, LineItem, Loopc, Part, Plain, Simple};
use bas_names::Names;
use sqlite_items::Boxed;

#[tactic(auto, using(crate::proofs::Rows::fault_none))]
fn optional_plain_fault(names: &Names<'_>, plain: &Option<Boxed<Plain>>) -> Option<u8>
    ensures { result ≡ nodes_fault (senses_in names.now) (where_there plain_nodes (option_map plain_tree plain.now)) }
{
    match plain {
        None => None,
        Some(plain) => plain_fault(names, plain.get()),
    }
}

#[tactic(auto, using(crate::proofs::Rows::fault_none), unfolding(bas_ast::specs::StatementTree::branch_tree))]
fn branch_fault(names: &Names<'_>, branch: &Branch) -> Option<u8>
    ensures { result ≡ nodes_fault (senses_in names.now) (branch_nodes (branch_tree branch.now)) }
{
    match branch {
        Branch::Number(_) => None,
        Branch::Plain(plain) => plain_fault(names, plain.get()),
    }
}

#[tactic(auto, using(crate::proofs::Rows::fault_none))]
fn optional_branch_fault(names: &Names<'_>, branch: &Option<Branch>) -> Option<u8>
    ensures { result ≡ nodes_fault (senses_in names.now) (where_there branch_nodes (option_map branch_tree branch.now)) }
{
    match branch {
        None => None,
        Some(branch) => branch_fault(names, branch),
    }
}

#[tactic(auto, using(crate::proofs::Rows::fault_both), unfolding(bas_ast::specs::StatementTree::simple_tree))]
fn simple_fault(names: &Names<'_>, simple: &Simple) -> Option<u8>
    ensures { result ≡ nodes_fault (senses_in names.now) (simple_nodes (simple_tree simple.now)) }
{
    match simple {
        Simple::Plain(plain) => plain_fault(names, plain),
        Simple::If(cond, then_part, else_part) => {
            let then_fault = branch_fault(names, then_part);
            least_of_three(
                cond_fault(names, cond),
                then_fault,
                optional_branch_fault(names, else_part),
            )
        }
        Simple::OnGoto(index, _, else_part) | Simple::OnGosub(index, _, else_part) => {
            least(
                expr_fault(names, index),
                optional_plain_fault(names, else_part),
            )
        }
    }
}

#[tactic(auto, using(crate::proofs::Rows::fault_none), unfolding(bas_ast::specs::PartTree::loopc_tree))]
fn loopc_fault(names: &Names<'_>, loopc: &Option<Loopc>) -> Option<u8>
    ensures { result ≡ nodes_fault (senses_in names.now) (where_there loopc_nodes (option_map loopc_tree loopc.now)) }
{
    match loopc {
        None => None,
        Some(Loopc::While(cond)) => cond_fault(names, cond),
        Some(Loopc::Until(cond)) => cond_fault(names, cond),
    }
}

#[tactic(auto, using(crate::proofs::Rows::fault_both, crate::proofs::Rows::fault_none), unfolding(bas_ast::specs::PartTree::part_tree))]
fn part_fault(names: &Names<'_>, part: &Part) -> Option<u8>
    ensures { result ≡ nodes_fault (senses_in names.now) (part_nodes (part_tree part.now)) }
{
    match part {
        Part::If(cond) | Part::Elseif(cond) => cond_fault(names, cond),
        Part::For {
            name: _,
            start,
            limit,
            step,
        } => {
            let limit_fault = expr_fault(names, limit);
            least_of_three(
                expr_fault(names, start),
                limit_fault,
                optional_fault(names, step),
            )
        }
        Part::Do(loopc) | Part::Loop(loopc) => loopc_fault(names, loopc),
        Part::SelectCase(selector) => expr_fault(names, selector),
        _ => None,
    }
}

/// The least of the rules on expressions, operands, targets, relations and `CALL` that is broken on a
/// line, by what the names of its body are.
#[tactic(auto, using(crate::proofs::Rows::fault_none), unfolding(bas_ast::specs::BlockTree::item_tree))]
pub fn operands_fault(names: &Names<'_>, item: &LineItem) -> Option<u8>
    ensures { result ≡ nodes_fault (senses_in names.now) (item_nodes (item_tree item.now)) }
{
    match item {
        LineItem::Simple(simple) => simple_fault(names, simple.get()),
        LineItem::Part(part) => part_fault(names, part.get()),
        _ => None,
    }
}
