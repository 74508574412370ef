//! Whether the parts of a statement have their kinds.

ghost use Rattle.std.specs.Prelude.{◌≡◌, map};
ghost use Rattle.std.specs.List.{list_all};
ghost use Rattle.std.specs.Option.{option_map};
ghost use Rattle.bas_ast.specs.ExpressionTree.{expr_tree, target_tree};
ghost use Rattle.bas_ast.specs.RecordTree.{chan_tree, setter_tree};
ghost use Rattle.bas_ast.specs.StatementTree.{
  pitem_tree,
  spaced_tree,
  plist_tree,
  plain_tree,
};
ghost use Rattle.bas_kind.specs.Truths.{kind_of};
ghost use Rattle.bas_rules.specs.Kinds.{is_numeric, is_string_expr, same_kind, target_kind};
ghost use Rattle.bas_rules.specs.Statements as rule;

use crate::expression::is_number;
use bas_ast::{Chan, Expr, Pitem, Plain, Plist, Sep, Setter, Target};
use bas_scope::is_text_name;

#[tactic(auto, using(bas_ast::proofs::ExpressionTrees::target_out))]
fn is_numeric_target(target: &Target) -> bool
    ensures { result ≡ is_numeric (target_kind (target_tree target.now)) }
{
    !is_text_name(target.name)
}

// Whether each target is a number, or each a string.
fn have_kind(targets: &[Target], numeric: bool) -> bool
    ensures { result ≡ list_all (λ target. same_kind (target_kind target) (kind_of numeric)) (map target_tree targets.now) }
{
    for target in targets {
        if is_numeric_target(target) != numeric {
            return false;
        }
    }
    true
}

fn is_chan_number(chan: &Chan) -> bool
    ensures { result ≡ rule.is_chan_number (chan_tree chan.now) }
{
    is_number(&chan.number)
}

fn given_chan_agrees(chan: &Option<Chan>) -> bool
    ensures { result ≡ rule.passes rule.is_chan_number (option_map chan_tree chan.now) }
{
    match chan {
        Some(chan) => is_chan_number(chan),
        None => true,
    }
}

fn is_text_prompt(prompt: &Option<Expr>) -> bool
    ensures { result ≡ rule.passes is_string_expr (option_map expr_tree prompt.now) }
{
    match prompt {
        Some(prompt) => !is_number(prompt),
        None => true,
    }
}

#[tactic(auto, unfolding(bas_ast::specs::StatementTree::pitem_tree))]
fn print_item_agrees(item: &Option<Pitem>) -> bool
    ensures { result ≡ rule.passes rule.pitem_agrees (option_map pitem_tree item.now) }
{
    match item {
        Some(Pitem::Tab(column)) => is_number(column),
        Some(Pitem::Expr(_)) => true,
        None => true,
    }
}

fn print_items_agree(items: &[(Sep, Option<Pitem>)]) -> bool
    ensures { result ≡ list_all (λ x. rule.passes rule.pitem_agrees x.1) (map spaced_tree items.now) }
{
    for (_, item) in items {
        if !print_item_agrees(item) {
            return false;
        }
    }
    true
}

fn print_list_agrees(list: &Plist) -> bool
    ensures { result ≡ rule.plist_agrees (plist_tree list.now) }
{
    print_item_agrees(&list.first) && print_items_agree(list.rest.items())
}

fn given_list_agrees(list: &Option<Plist>) -> bool
    ensures { result ≡ rule.passes rule.plist_agrees (option_map plist_tree list.now) }
{
    match list {
        Some(list) => print_list_agrees(list),
        None => true,
    }
}

#[tactic(auto, unfolding(bas_ast::specs::RecordTree::setter_tree))]
fn setter_agrees(setter: &Setter) -> bool
    ensures { result ≡ rule.setter_agrees (setter_tree setter.now) }
{
    match setter {
        Setter::Record(number) => is_number(number),
        Setter::KeyEq(key) | Setter::KeyGe(key) | Setter::KeyGt(key) => !is_number(key),
        _ => true,
    }
}

fn given_setter_agrees(setter: &Option<Setter>) -> bool
    ensures { result ≡ rule.passes rule.setter_agrees (option_map setter_tree setter.now) }
{
    match setter {
        Some(setter) => setter_agrees(setter),
        None => true,
    }
}

/// Whether the parts of a statement have the kinds that it asks of them. The operands within its
/// expressions are not looked at.
#[tactic(auto, unfolding(bas_ast::specs::StatementTree::plain_tree))]
pub fn plain_agrees(plain: &Plain) -> bool
    ensures { result ≡ rule.plain_agrees (plain_tree plain.now) }
{
    match plain {
        Plain::Let(targets, value) => have_kind(targets.targets.items(), is_number(value)),
        Plain::Print(list) => print_list_agrees(list),
        Plain::PrintChan(chan, list) => is_chan_number(chan) && given_list_agrees(list),
        Plain::PrintUsing { chan, format, .. } => given_chan_agrees(chan) && !is_number(format),
        Plain::Input(prompt, _) => is_text_prompt(prompt),
        Plain::LineInput(prompt, targets) => is_text_prompt(prompt)
            && have_kind(targets.targets.items(), false),
        Plain::LineInputChan(chan, _, targets) => is_chan_number(chan)
            && have_kind(targets.targets.items(), false),
        Plain::InputChan(chan, _, _) | Plain::Close(chan) => is_chan_number(chan),
        Plain::CauseException(number) => is_number(number),
        Plain::Chain(program, _) => !is_number(program),
        Plain::Open(chan, name, _) => is_chan_number(chan) && !is_number(name),
        Plain::SetPointer(chan, setter) => is_chan_number(chan) && setter_agrees(setter),
        Plain::ReadChan(chan, setter, _, _)
        | Plain::Write(chan, setter, _, _)
        | Plain::Rewrite(chan, setter, _, _)
        | Plain::Delete(chan, setter, _) => is_chan_number(chan) && given_setter_agrees(setter),
        Plain::Read(_)
        | Plain::Restore(_)
        | Plain::Goto(_)
        | Plain::Gosub(_)
        | Plain::Return
        | Plain::Stop
        | Plain::ExitDo
        | Plain::ExitFor
        | Plain::ExitSub
        | Plain::ExitFunction
        | Plain::ExitHandler
        | Plain::Call(_, _)
        | Plain::Retry
        | Plain::Continue => true,
    }
}
