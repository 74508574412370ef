//! The names that a statement uses without arguments.

ghost use Rattle.std.specs.Prelude.{◌≡◌, ◌++◌, OnOk, map};
ghost use Rattle.std.specs.Option.{option_map};
ghost use Rattle.bas_ast.specs.ExpressionTree.{expr_tree, target_tree};
ghost use Rattle.bas_ast.specs.RecordTree.{chan_tree, setter_tree};
ghost use Rattle.bas_ast.specs.StatementTree.{plain_tree, plist_tree, targets_tree, value_tree};
ghost use Rattle.bas_scope.specs.Lines.{gathered};
ghost use Rattle.bas_scope.specs.Nodes.{
  chan_nodes,
  expr_nodes,
  plain_nodes,
  plist_nodes,
  setter_nodes,
  targets_nodes,
  values_nodes,
  where_there,
};
ghost use Rattle.bas_uses.specs.Uses.{bare_names};

use crate::expression::{push_args, push_expr, push_target};
use crate::printed::{push_formatted, push_given_plist, push_plist};
use crate::record::{push_chan, push_given_chan, push_given_setter, push_setter};
use bas_ast::{Chan, Expr, Plain, Plist, Sep, Setter, Target, Targets};
use bas_base::Name;
use std::alloc::AllocError;

fn push_each_target(names: &mut Vec<Name>, targets: &[Target]) -> Result<(), AllocError>
    ensures { OnOk result (names.new.items ≡ names.old.items ++ bare_names (targets_nodes (map target_tree targets.now))) }
{
    for target in targets {
        push_target(names, target)?;
    }
    Ok(())
}

fn push_targets(names: &mut Vec<Name>, targets: &Targets) -> Result<(), AllocError>
    ensures { OnOk result (names.new.items ≡ names.old.items ++ bare_names (targets_nodes (targets_tree targets.now))) }
{
    push_each_target(names, targets.targets.items())
}

fn push_values(names: &mut Vec<Name>, values: &[Expr]) -> Result<(), AllocError>
    ensures { OnOk result (names.new.items ≡ names.old.items ++ bare_names (values_nodes (map expr_tree values.now))) }
{
    for value in values {
        push_expr(names, value)?;
    }
    Ok(())
}

/// Appends the names that an expression uses, where there is one.
#[tactic(auto, using(crate::proofs::Appending::none))]
pub fn push_given(names: &mut Vec<Name>, expr: &Option<Expr>) -> Result<(), AllocError>
    ensures { OnOk result (names.new.items ≡ names.old.items ++ bare_names (where_there expr_nodes (option_map expr_tree expr.now))) }
{
    match expr {
        Some(expr) => push_expr(names, expr),
        None => Ok(()),
    }
}

fn push_let(names: &mut Vec<Name>, targets: &Targets, value: &Expr) -> Result<(), AllocError>
    ensures { OnOk result (names.new.items ≡ names.old.items ++ bare_names (targets_nodes (targets_tree targets.now) ++ expr_nodes (expr_tree value.now))) }
{
    push_targets(names, targets)?;
    push_expr(names, value)
}

fn push_print(names: &mut Vec<Name>, chan: &Chan, list: &Option<Plist>) -> Result<(), AllocError>
    ensures { OnOk result (names.new.items ≡ names.old.items ++ bare_names (chan_nodes (chan_tree chan.now) ++ where_there plist_nodes (option_map plist_tree list.now))) }
{
    push_chan(names, chan)?;
    push_given_plist(names, list)
}

fn push_print_using(
    names: &mut Vec<Name>,
    chan: &Option<Chan>,
    format: &Expr,
    first: &Expr,
    rest: &[(Sep, Expr)],
) -> Result<(), AllocError>
    ensures { OnOk result (names.new.items ≡ names.old.items ++ bare_names (where_there chan_nodes (option_map chan_tree chan.now) ++ (expr_nodes (expr_tree format.now) ++ (expr_nodes (expr_tree first.now) ++ gathered (λ x. expr_nodes x.1) (map value_tree rest.now))))) }
{
    push_given_chan(names, chan)?;
    push_formatted(names, format, first, rest)
}

fn push_input(
    names: &mut Vec<Name>,
    prompt: &Option<Expr>,
    targets: &Targets,
) -> Result<(), AllocError>
    ensures { OnOk result (names.new.items ≡ names.old.items ++ bare_names (where_there expr_nodes (option_map expr_tree prompt.now) ++ targets_nodes (targets_tree targets.now))) }
{
    push_given(names, prompt)?;
    push_targets(names, targets)
}

fn push_input_chan(names: &mut Vec<Name>, chan: &Chan, targets: &Targets) -> Result<(), AllocError>
    ensures { OnOk result (names.new.items ≡ names.old.items ++ bare_names (chan_nodes (chan_tree chan.now) ++ targets_nodes (targets_tree targets.now))) }
{
    push_chan(names, chan)?;
    push_targets(names, targets)
}

fn push_chain(names: &mut Vec<Name>, program: &Expr, values: &[Expr]) -> Result<(), AllocError>
    ensures { OnOk result (names.new.items ≡ names.old.items ++ bare_names (expr_nodes (expr_tree program.now) ++ values_nodes (map expr_tree values.now))) }
{
    push_expr(names, program)?;
    push_values(names, values)
}

fn push_open(names: &mut Vec<Name>, chan: &Chan, file: &Expr) -> Result<(), AllocError>
    ensures { OnOk result (names.new.items ≡ names.old.items ++ bare_names (chan_nodes (chan_tree chan.now) ++ expr_nodes (expr_tree file.now))) }
{
    push_chan(names, chan)?;
    push_expr(names, file)
}

fn push_set_pointer(names: &mut Vec<Name>, chan: &Chan, setter: &Setter) -> Result<(), AllocError>
    ensures { OnOk result (names.new.items ≡ names.old.items ++ bare_names (chan_nodes (chan_tree chan.now) ++ setter_nodes (setter_tree setter.now))) }
{
    push_chan(names, chan)?;
    push_setter(names, setter)
}

fn push_read(
    names: &mut Vec<Name>,
    chan: &Chan,
    setter: &Option<Setter>,
    targets: &Targets,
) -> Result<(), AllocError>
    ensures { OnOk result (names.new.items ≡ names.old.items ++ bare_names (chan_nodes (chan_tree chan.now) ++ (where_there setter_nodes (option_map setter_tree setter.now) ++ targets_nodes (targets_tree targets.now)))) }
{
    push_chan(names, chan)?;
    push_given_setter(names, setter)?;
    push_targets(names, targets)
}

fn push_write(
    names: &mut Vec<Name>,
    chan: &Chan,
    setter: &Option<Setter>,
    values: &[Expr],
) -> Result<(), AllocError>
    ensures { OnOk result (names.new.items ≡ names.old.items ++ bare_names (chan_nodes (chan_tree chan.now) ++ (where_there setter_nodes (option_map setter_tree setter.now) ++ values_nodes (map expr_tree values.now)))) }
{
    push_chan(names, chan)?;
    push_given_setter(names, setter)?;
    push_values(names, values)
}

fn push_delete(
    names: &mut Vec<Name>,
    chan: &Chan,
    setter: &Option<Setter>,
) -> Result<(), AllocError>
    ensures { OnOk result (names.new.items ≡ names.old.items ++ bare_names (chan_nodes (chan_tree chan.now) ++ where_there setter_nodes (option_map setter_tree setter.now))) }
{
    push_chan(names, chan)?;
    push_given_setter(names, setter)
}

/// Appends the names that a statement uses.
#[tactic(auto, using(crate::proofs::Appending::none), unfolding(bas_ast::specs::StatementTree::plain_tree))]
pub fn push_plain(names: &mut Vec<Name>, plain: &Plain) -> Result<(), AllocError>
    ensures { OnOk result (names.new.items ≡ names.old.items ++ bare_names (plain_nodes (plain_tree plain.now))) }
{
    match plain {
        Plain::Let(targets, value) => push_let(names, targets, value),
        Plain::Print(list) => push_plist(names, list),
        Plain::PrintChan(chan, list) => push_print(names, chan, list),
        Plain::PrintUsing {
            chan,
            format,
            first,
            rest,
            ..
        } => push_print_using(names, chan, format, first, rest.items()),
        Plain::Input(prompt, targets) | Plain::LineInput(prompt, targets) => {
            push_input(names, prompt, targets)
        }
        Plain::InputChan(chan, _, targets) | Plain::LineInputChan(chan, _, targets) => {
            push_input_chan(names, chan, targets)
        }
        Plain::Read(targets) => push_targets(names, targets),
        Plain::Call(_, args) => push_args(names, args),
        Plain::CauseException(number) => push_expr(names, number),
        Plain::Chain(program, values) => push_chain(names, program, values.items()),
        Plain::Open(chan, file, _) => push_open(names, chan, file),
        Plain::Close(chan) => push_chan(names, chan),
        Plain::SetPointer(chan, setter) => push_set_pointer(names, chan, setter),
        Plain::ReadChan(chan, setter, _, targets) => push_read(names, chan, setter, targets),
        Plain::Write(chan, setter, _, values) | Plain::Rewrite(chan, setter, _, values) => {
            push_write(names, chan, setter, values.items())
        }
        Plain::Delete(chan, setter, _) => push_delete(names, chan, setter),
        _ => Ok(()),
    }
}
