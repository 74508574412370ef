//! What the statements on a line say: lists, attributes of files, and what they wait for.

ghost use Rattle.std.specs.Prelude.{◌≡◌, ◌||◌, map, not};
ghost use Rattle.std.specs.List.{filter_map, list_any};
ghost use Rattle.std.specs.Ordering.{nat_cmp};
ghost use Rattle.std.specs.BTreeSet.{contains};
ghost use Rattle.bas_ast.specs.BlockTree.{item_tree};
ghost use Rattle.bas_ast.specs.RecordTree.{attr_tree};
ghost use Rattle.bas_ast.specs.StatementTree.{plain_tree};
ghost use Rattle.bas_ast.specs.Tree.{LineItem as ItemTree};
ghost use Rattle.bas_scope.specs.Lines.{gathered};
ghost use Rattle.bas_scope.specs.Scope.{formals_on as formals_of_line};
ghost use Rattle.bas_rules.specs.Calling as list;
ghost use Rattle.bas_rules.specs.Jumping.{restored_line, restores_no_data as restores_no_data_of};
ghost use Rattle.bas_rules.specs.Recording as file;
ghost use Rattle.bas_rules.specs.Statements.{plains_on as plains_on_line};
ghost use Rattle.bas_reach.specs.Lent.{lent};
ghost use Rattle.bas_judge.specs.Answers.{IsOf};

use bas_ast::{LineItem, NumLine, Plain};
use bas_place::Place;
use bas_reach::plains_on;
use bas_rules::{are_bad_attributes, are_too_many_formals, awaits_wrongly, has_too_long_list};
use bas_scope::formals_on;
use std::collections::BTreeSet;

fn lent_has_too_long_list(plain: Option<&Plain>) -> bool
    ensures { result ≡ list_any list.has_too_long_list (lent plain.entry) }
{
    match plain {
        Some(plain) => has_too_long_list(plain),
        None => false,
    }
}

fn have_too_long_lists(item: &LineItem) -> bool
    ensures { result ≡ list_any list.has_too_long_list (plains_on_line (item_tree item.now)) }
{
    let (first, second) = plains_on(item);
    lent_has_too_long_list(first) | lent_has_too_long_list(second)
}

/// Whether a line has a list of formals, targets or values that is too long, or a formal channel out of
/// bounds or twice. The arguments of its operands are not looked at.
pub fn lists_too_many(item: &LineItem) -> bool
    ensures { let tree = item_tree item.now in
        result ≡ (list_any list.has_too_long_list (plains_on_line tree) || (list.is_too_long (formals_of_line tree) || list.are_bad_channels (filter_map list.channel_of (formals_of_line tree)))) }
{
    have_too_long_lists(item) | are_too_many_formals(formals_on(item))
}

#[tactic(auto, unfolding(bas_ast::specs::StatementTree::plain_tree))]
fn opens_badly(plain: &Plain) -> bool
    ensures { result ≡ file.opens_badly (plain_tree plain.now) }
{
    match plain {
        Plain::Open(_, _, attrs) => are_bad_attributes(attrs.items()),
        _ => false,
    }
}

fn lent_opens_badly(plain: Option<&Plain>) -> bool
    ensures { result ≡ list_any file.opens_badly (lent plain.entry) }
{
    match plain {
        Some(plain) => opens_badly(plain),
        None => false,
    }
}

/// Whether `OPEN` on a line has an attribute twice, one that does not go with another, or a size out of
/// bounds.
pub fn has_bad_attributes(item: &LineItem) -> bool
    ensures { result ≡ list_any file.opens_badly (plains_on_line (item_tree item.now)) }
{
    let (first, second) = plains_on(item);
    lent_opens_badly(first) | lent_opens_badly(second)
}

fn lent_awaits_wrongly(plain: Option<&Plain>) -> bool
    ensures { result ≡ list_any file.awaits_wrongly (lent plain.entry) }
{
    match plain {
        Some(plain) => awaits_wrongly(plain),
        None => false,
    }
}

/// Whether a statement on a line has `IF THERE` and is no `WRITE`, or has `IF MISSING` and is one.
pub fn awaits_what_never_comes(item: &LineItem) -> bool
    ensures { result ≡ list_any file.awaits_wrongly (plains_on_line (item_tree item.now)) }
{
    let (first, second) = plains_on(item);
    lent_awaits_wrongly(first) | lent_awaits_wrongly(second)
}

#[tactic(auto, unfolding(bas_ast::specs::StatementTree::plain_tree))]
fn restores_none(numbers: &BTreeSet<u32>, plain: &Plain) -> bool
    ensures { result ≡ list_any (λ l. not (contains nat_cmp numbers.now l)) (restored_line (plain_tree plain.now)) }
{
    match plain {
        Plain::Restore(Some(line)) => !numbers.contains(&line.number()),
        _ => false,
    }
}

#[tactic(auto, using(crate::proofs::Restoring::of_one))]
fn lent_restores_none(numbers: &BTreeSet<u32>, plain: Option<&Plain>) -> bool
    ensures { result ≡ list_any (λ l. not (contains nat_cmp numbers.now l)) (gathered restored_line (lent plain.entry)) }
{
    match plain {
        Some(plain) => restores_none(numbers, plain),
        None => false,
    }
}

/// Whether `RESTORE` on a line names no `DATA` line of the unit.
pub fn restores_no_data(place: &Place<'_>, line: &NumLine) -> bool
    ensures { (opener : ItemTree) → IsOf place.now opener line.now restores_no_data_of result }
{
    let (first, second) = plains_on(&line.item);
    lent_restores_none(&place.unit.data_numbers, first)
        | lent_restores_none(&place.unit.data_numbers, second)
}
