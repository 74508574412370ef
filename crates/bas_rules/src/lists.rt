//! How long lists may be.

ghost use Rattle.std.specs.Prelude.{◌≡◌, ◌||◌, map, nat_eq};
ghost use Rattle.std.specs.List.{list_any, filter_map};
ghost use Rattle.bas_ast.specs.StatementTree.{plain_tree};
ghost use Rattle.bas_ast.specs.PartTree.{formal_tree};
ghost use Rattle.bas_rules.specs.Calling as rule;

use crate::limits::{LAST_CHANNEL, LONGEST_LIST};
use bas_ast::{Expr, Formal, Plain, Targets};

fn are_many_targets(targets: &Targets) -> bool
    ensures { result ≡ rule.is_too_long targets.now.targets }
{
    targets.targets.items().len() > LONGEST_LIST
}

fn are_many_values(values: &[Expr]) -> bool
    ensures { result ≡ rule.is_too_long values.now }
{
    values.len() > LONGEST_LIST
}

/// Whether a statement has too many targets, or too many values that it writes or hands over.
#[tactic(auto, unfolding(bas_ast::specs::StatementTree::plain_tree))]
pub fn has_too_long_list(plain: &Plain) -> bool
    ensures { result ≡ rule.has_too_long_list (plain_tree plain.now) }
{
    match plain {
        Plain::Let(targets, _)
        | Plain::Input(_, targets)
        | Plain::LineInput(_, targets)
        | Plain::InputChan(_, _, targets)
        | Plain::LineInputChan(_, _, targets)
        | Plain::Read(targets)
        | Plain::ReadChan(_, _, _, targets) => are_many_targets(targets),
        Plain::Write(_, _, _, values) | Plain::Rewrite(_, _, _, values) | Plain::Chain(_, values) =>
            { are_many_values(values.items()) }
        _ => false,
    }
}

#[tactic(auto, unfolding(bas_ast::specs::PartTree::formal_tree))]
fn has_channel(formals: &[Formal], number: u32) -> bool
    ensures { result ≡ list_any (nat_eq number) (filter_map rule.channel_of (map formal_tree formals.now)) }
{
    for formal in formals {
        match *formal {
            Formal::Chan(other) if other == number => return true,
            _ => {}
        }
    }
    false
}

#[tactic(auto, unfolding(bas_ast::specs::PartTree::formal_tree))]
fn are_bad_channels(formals: &[Formal]) -> bool
    ensures { result ≡ rule.are_bad_channels (filter_map rule.channel_of (map formal_tree formals.now)) }
{
    for (i, formal) in formals.iter().enumerate() {
        if let Formal::Chan(number) = *formal
            && (number < 1 || number > LAST_CHANNEL || has_channel(&formals[i + 1..], number))
        {
            return true;
        }
    }
    false
}

/// Whether there are too many formals, or a formal channel is out of 1 to 99 or stands twice.
pub fn are_too_many_formals(formals: &[Formal]) -> bool
    ensures { let all = map formal_tree formals.now in result ≡ (rule.is_too_long all || rule.are_bad_channels (filter_map rule.channel_of all)) }
{
    formals.len() > LONGEST_LIST || are_bad_channels(formals)
}
