//! The least rule that the operands of a statement break.

ghost use Rattle.std.specs.Prelude.{◌≡◌, ◌++◌, ◌∷◌, map};
ghost use Rattle.std.specs.Option.{option_map};
ghost use Rattle.bas_ast.specs.ExpressionTree.{args_tree, expr_tree};
ghost use Rattle.bas_ast.specs.RecordTree.{chan_tree, setter_tree};
ghost use Rattle.bas_ast.specs.StatementTree.{plain_tree, targets_tree, value_tree};
ghost use Rattle.bas_scope.specs.Lines.{gathered};
ghost use Rattle.bas_scope.specs.Nodes.{
  OfCall,
  args_nodes,
  chan_nodes,
  expr_nodes,
  plain_nodes,
  setter_nodes,
  targets_nodes,
  values_nodes,
  where_there,
};
ghost use Rattle.bas_names.specs.Names.{senses_in};
ghost use Rattle.bas_operands.specs.Operands.{nodes_fault, least as least_of};

use crate::broken::{least, least_of_three};
use crate::channel::{chan_fault, optional_chan_fault, optional_setter_fault, setter_fault};
use crate::expression::{actuals_fault, expr_fault};
use crate::list::{
    optional_fault, optional_plist_fault, plist_fault, separated_fault, targets_fault, values_fault,
};
use crate::node::call_fault;
use bas_ast::{Args, Chan, Expr, Plain, Sep, Setter, Targets};
use bas_base::Name;
use bas_names::Names;

fn called_fault(names: &Names<'_>, name: Name, args: &Args) -> Option<u8>
    ensures { let list = args_tree args.now in result ≡ nodes_fault (senses_in names.now) (OfCall name list ∷ args_nodes list) }
{
    let actuals = args.actuals.as_slice();
    least(
        call_fault(names, name, actuals),
        actuals_fault(names, actuals),
    )
}

// The lesser of what a channel breaks and of what the rest of its statement does.
fn on_chan(names: &Names<'_>, chan: &Chan, other: Option<u8>) -> Option<u8>
    ensures { result ≡ least_of (nodes_fault (senses_in names.now) (chan_nodes (chan_tree chan.now))) other }
{
    least(chan_fault(names, chan), other)
}

// The same where a setter may stand between them.
fn on_record(
    names: &Names<'_>,
    chan: &Chan,
    setter: &Option<Setter>,
    other: Option<u8>,
) -> Option<u8>
    ensures { let s = senses_in names.now in result ≡ least_of (nodes_fault s (chan_nodes (chan_tree chan.now))) (least_of (nodes_fault s (where_there setter_nodes (option_map setter_tree setter.now))) other) }
{
    on_chan(
        names,
        chan,
        least(optional_setter_fault(names, setter), other),
    )
}

#[tactic(auto, using(crate::proofs::Rows::fault_both))]
fn let_fault(names: &Names<'_>, targets: &Targets, value: &Expr) -> Option<u8>
    ensures { result ≡ nodes_fault (senses_in names.now) (targets_nodes (targets_tree targets.now) ++ expr_nodes (expr_tree value.now)) }
{
    least(targets_fault(names, targets), expr_fault(names, value))
}

#[tactic(auto, using(crate::proofs::Rows::fault_both))]
fn using_fault(names: &Names<'_>, format: &Expr, first: &Expr, rest: &[(Sep, Expr)]) -> Option<u8>
    ensures { result ≡ nodes_fault (senses_in names.now) (expr_nodes (expr_tree format.now) ++ (expr_nodes (expr_tree first.now) ++ gathered (λ x. expr_nodes x.1) (map value_tree rest.now))) }
{
    let first_fault = expr_fault(names, first);
    least_of_three(
        expr_fault(names, format),
        first_fault,
        separated_fault(names, rest),
    )
}

#[tactic(auto, using(crate::proofs::Rows::fault_both))]
fn chain_fault(names: &Names<'_>, program: &Expr, values: &[Expr]) -> Option<u8>
    ensures { result ≡ nodes_fault (senses_in names.now) (expr_nodes (expr_tree program.now) ++ values_nodes (map expr_tree values.now)) }
{
    least(expr_fault(names, program), values_fault(names, values))
}

/// The least rule that the operands of a statement break.
#[tactic(auto, using(crate::proofs::Rows::fault_both, crate::proofs::Rows::fault_none), unfolding(bas_ast::specs::StatementTree::plain_tree))]
pub fn plain_fault(names: &Names<'_>, plain: &Plain) -> Option<u8>
    ensures { result ≡ nodes_fault (senses_in names.now) (plain_nodes (plain_tree plain.now)) }
{
    match plain {
        Plain::Let(targets, value) => let_fault(names, targets, value),
        Plain::Print(list) => plist_fault(names, list),
        Plain::PrintChan(chan, list) => on_chan(names, chan, optional_plist_fault(names, list)),
        Plain::PrintUsing {
            chan,
            format,
            first,
            rest,
            semicolon: _,
        } => {
            let values = using_fault(names, format, first, rest.items());
            least(optional_chan_fault(names, chan), values)
        }
        Plain::Input(prompt, targets) | Plain::LineInput(prompt, targets) => {
            least(optional_fault(names, prompt), targets_fault(names, targets))
        }
        Plain::InputChan(chan, _, targets) | Plain::LineInputChan(chan, _, targets) => {
            on_chan(names, chan, targets_fault(names, targets))
        }
        Plain::Read(targets) => targets_fault(names, targets),
        Plain::Call(name, args) => called_fault(names, *name, args),
        Plain::CauseException(number) => expr_fault(names, number),
        Plain::Chain(program, values) => chain_fault(names, program, values.items()),
        Plain::Open(chan, name, _) => on_chan(names, chan, expr_fault(names, name)),
        Plain::Close(chan) => chan_fault(names, chan),
        Plain::SetPointer(chan, setter) => on_chan(names, chan, setter_fault(names, setter)),
        Plain::ReadChan(chan, setter, _, targets) => {
            on_record(names, chan, setter, targets_fault(names, targets))
        }
        Plain::Write(chan, setter, _, values) | Plain::Rewrite(chan, setter, _, values) => {
            on_record(names, chan, setter, values_fault(names, values.items()))
        }
        Plain::Delete(chan, setter, _) => {
            on_chan(names, chan, optional_setter_fault(names, setter))
        }
        _ => None,
    }
}
