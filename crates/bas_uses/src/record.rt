//! The names that the parts of a statement on a channel use without arguments.

ghost use Rattle.std.specs.Prelude.{◌≡◌, ◌++◌, OnOk};
ghost use Rattle.std.specs.Option.{option_map};
ghost use Rattle.bas_ast.specs.RecordTree.{chan_tree, setter_tree};
ghost use Rattle.bas_scope.specs.Nodes.{chan_nodes, setter_nodes, where_there};
ghost use Rattle.bas_uses.specs.Uses.{bare_names};

use crate::expression::push_expr;
use bas_ast::{Chan, Setter};
use bas_base::Name;
use std::alloc::AllocError;

/// Appends the names that a channel uses.
pub fn push_chan(names: &mut Vec<Name>, chan: &Chan) -> Result<(), AllocError>
    ensures { OnOk result (names.new.items ≡ names.old.items ++ bare_names (chan_nodes (chan_tree chan.now))) }
{
    push_expr(names, &chan.number)
}

/// Appends the names that a channel uses, where there is one.
#[tactic(auto, using(crate::proofs::Appending::none))]
pub fn push_given_chan(names: &mut Vec<Name>, chan: &Option<Chan>) -> Result<(), AllocError>
    ensures { OnOk result (names.new.items ≡ names.old.items ++ bare_names (where_there chan_nodes (option_map chan_tree chan.now))) }
{
    match chan {
        Some(chan) => push_chan(names, chan),
        None => Ok(()),
    }
}

/// Appends the names that the place of a pointer uses.
#[tactic(auto, using(crate::proofs::Appending::none), unfolding(bas_ast::specs::RecordTree::setter_tree))]
pub fn push_setter(names: &mut Vec<Name>, setter: &Setter) -> Result<(), AllocError>
    ensures { OnOk result (names.new.items ≡ names.old.items ++ bare_names (setter_nodes (setter_tree setter.now))) }
{
    match setter {
        Setter::Record(number) => push_expr(names, number),
        Setter::KeyEq(key) | Setter::KeyGe(key) | Setter::KeyGt(key) => push_expr(names, key),
        Setter::Begin | Setter::End | Setter::Next | Setter::Same => Ok(()),
    }
}

/// Appends the names that the place of a pointer uses, where there is one.
#[tactic(auto, using(crate::proofs::Appending::none))]
pub fn push_given_setter(names: &mut Vec<Name>, setter: &Option<Setter>) -> Result<(), AllocError>
    ensures { OnOk result (names.new.items ≡ names.old.items ++ bare_names (where_there setter_nodes (option_map setter_tree setter.now))) }
{
    match setter {
        Some(setter) => push_setter(names, setter),
        None => Ok(()),
    }
}
