//! The least rule that the parts of a statement on a channel break.

ghost use Rattle.std.specs.Prelude.{◌≡◌};
ghost use Rattle.std.specs.Option.{option_map};
ghost use Rattle.bas_ast.specs.RecordTree.{chan_tree, setter_tree};
ghost use Rattle.bas_scope.specs.Nodes.{chan_nodes, setter_nodes, where_there};
ghost use Rattle.bas_names.specs.Names.{senses_in};
ghost use Rattle.bas_operands.specs.Operands.{nodes_fault};

use crate::expression::expr_fault;
use bas_ast::{Chan, Setter};
use bas_names::Names;

/// The least rule that a channel breaks.
pub fn chan_fault(names: &Names<'_>, chan: &Chan) -> Option<u8>
    ensures { result ≡ nodes_fault (senses_in names.now) (chan_nodes (chan_tree chan.now)) }
{
    expr_fault(names, &chan.number)
}

/// The least rule that a channel breaks, where it is written.
#[tactic(auto, using(crate::proofs::Rows::fault_none))]
pub fn optional_chan_fault(names: &Names<'_>, chan: &Option<Chan>) -> Option<u8>
    ensures { result ≡ nodes_fault (senses_in names.now) (where_there chan_nodes (option_map chan_tree chan.now)) }
{
    match chan {
        None => None,
        Some(chan) => chan_fault(names, chan),
    }
}

/// The least rule that a setter breaks.
#[tactic(auto, using(crate::proofs::Rows::fault_none), unfolding(bas_ast::specs::RecordTree::setter_tree))]
pub fn setter_fault(names: &Names<'_>, setter: &Setter) -> Option<u8>
    ensures { result ≡ nodes_fault (senses_in names.now) (setter_nodes (setter_tree setter.now)) }
{
    match setter {
        Setter::Begin | Setter::End | Setter::Next | Setter::Same => None,
        Setter::Record(number) => expr_fault(names, number),
        Setter::KeyEq(key) | Setter::KeyGe(key) | Setter::KeyGt(key) => expr_fault(names, key),
    }
}

/// The least rule that a setter breaks, where it is written.
#[tactic(auto, using(crate::proofs::Rows::fault_none))]
pub fn optional_setter_fault(names: &Names<'_>, setter: &Option<Setter>) -> Option<u8>
    ensures { result ≡ nodes_fault (senses_in names.now) (where_there setter_nodes (option_map setter_tree setter.now)) }
{
    match setter {
        None => None,
        Some(setter) => setter_fault(names, setter),
    }
}
