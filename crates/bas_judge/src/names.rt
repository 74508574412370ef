//! What a line says of names: handlers, variables of loops, and what is private.

ghost use Rattle.std.specs.Prelude.{◌≡◌, ◌&&◌, ◌||◌, not};
ghost use Rattle.std.specs.List.{list_any};
ghost use Rattle.std.specs.Option.{is_some};
ghost use Rattle.bas_ast.specs.BlockTree.{item_tree};
ghost use Rattle.bas_ast.specs.PartTree.{part_tree};
ghost use Rattle.bas_ast.specs.DeclarationTree.{decl_tree};
ghost use Rattle.bas_ast.specs.Tree.{LineItem as ItemTree, OfPart, OfDecl};
ghost use Rattle.bas_scope.specs.Lines.{own_lines};
ghost use Rattle.bas_scope.specs.Senses.{sense_told, senses_of};
ghost use Rattle.bas_rules.specs.Declaring as module_rule;
ghost use Rattle.bas_rules.specs.Jumping.{is_initial as is_initial_kind};
ghost use Rattle.bas_rules.specs.Naming as rule;
ghost use Rattle.bas_rules.specs.Sites.{Site};
ghost use Rattle.bas_claim.specs.First.{AreFirst};
ghost use Rattle.bas_names.specs.Names.{found_in, senses_in};
ghost use Rattle.bas_reach.specs.Standing.{Tells};
ghost use Rattle.bas_judge.specs.Answers.{IsOf};

use crate::jumps::is_initial;
use bas_ast::{Decl, LineItem, NumLine, Part};
use bas_base::{Line, Name};
use bas_claim::FirstLines;
use bas_names::{Names, Table};
use bas_place::Place;
use bas_reach::{Around, is_counter_of};
use bas_scope::{BodyKind, Sense, WrittenShape};

#[tactic(auto, unfolding(bas_ast::specs::PartTree::part_tree))]
fn part_lacks_handler(handlers: &FirstLines, line: Line, part: &Part) -> bool
    ensures { (x : Site) → AreFirst handlers.now rule.handler_name (own_lines x.body.block) → x.line ≡ line → result ≡ rule.lacks_handler x (OfPart (part_tree part.now)) }
{
    match part {
        Part::WhenExceptionUse(name) => !handlers.stands(*name),
        Part::Handler(name) => handlers.is_before(*name, line),
        _ => false,
    }
}

#[tactic(auto, unfolding(bas_ast::specs::BlockTree::item_tree))]
fn lacks_handler(handlers: &FirstLines, line: Line, item: &LineItem) -> bool
    ensures { (x : Site) → AreFirst handlers.now rule.handler_name (own_lines x.body.block) → x.line ≡ line → result ≡ rule.lacks_handler x (item_tree item.now) }
{
    match item {
        LineItem::Part(part) => part_lacks_handler(handlers, line, part.get()),
        _ => false,
    }
}

/// Whether `WHEN EXCEPTION USE` on a line names no handler of its body, or a handler that begins there
/// has the name of one before it.
pub fn handler_is_not_one(place: &Place<'_>, line: &NumLine) -> bool
    ensures { (opener : ItemTree) → IsOf place.now opener line.now rule.handler_is_not_one result }
{
    lacks_handler(&place.body.handlers, line.line, &line.item)
}

fn is_number_scalar(sense: Sense<'_>) -> bool
    ensures { result ≡ rule.is_number_scalar (sense_told sense.entry) }
{
    matches!(sense, Sense::Variable(WrittenShape::Num(_)))
}

fn may_not_count(names: &Names<'_>, around: &Around<'_>, name: Name) -> bool
    ensures { (x : Site) → senses_in names.now ≡ senses_of x.body.scope → Tells around.now x.around → result ≡ (not (rule.is_number_scalar ((senses_of x.body.scope).named name)) || rule.is_among name x.around.counters) }
{
    !is_number_scalar(names.named(name)) | around.counts(&name)
}

#[tactic(auto, unfolding(bas_ast::specs::PartTree::part_tree))]
fn part_has_bad_counter(
    names: &Names<'_>,
    around: &Around<'_>,
    opener: &LineItem,
    part: &Part,
) -> bool
    ensures { (x : Site) → senses_in names.now ≡ senses_of x.body.scope → Tells around.now x.around → x.opener ≡ item_tree opener.now → result ≡ rule.bad_counter x (OfPart (part_tree part.now)) }
{
    match part {
        Part::For { name, .. } => may_not_count(names, around, *name),
        Part::Next(name) => !is_counter_of(name, opener),
        _ => false,
    }
}

#[tactic(auto, unfolding(bas_ast::specs::BlockTree::item_tree))]
fn has_bad_counter(
    names: &Names<'_>,
    around: &Around<'_>,
    opener: &LineItem,
    item: &LineItem,
) -> bool
    ensures { (x : Site) → senses_in names.now ≡ senses_of x.body.scope → Tells around.now x.around → x.opener ≡ item_tree opener.now → result ≡ rule.bad_counter x (item_tree item.now) }
{
    match item {
        LineItem::Part(part) => part_has_bad_counter(names, around, opener, part.get()),
        _ => false,
    }
}

/// Whether the variable of `FOR` on a line is no numeric scalar or counts a loop around it, or `NEXT`
/// names another one than the `FOR` that opens its construct.
pub fn counts_by_wrong_variable(place: &Place<'_>, opener: &LineItem, line: &NumLine) -> bool
    ensures { IsOf place.now (item_tree opener.now) line.now rule.counts_by_wrong_variable result }
{
    has_bad_counter(&place.names, place.around, opener, &line.item)
}

fn is_any_missing(procedures: &Table, names: &[Name]) -> bool
    ensures { result ≡ list_any (λ name. not (is_some (found_in procedures.now name))) names.now }
{
    for name in names {
        if procedures.find(name).is_none() {
            return true;
        }
    }
    false
}

#[tactic(auto, unfolding(bas_ast::specs::DeclarationTree::decl_tree))]
fn is_decl_of_module(decl: &Decl) -> bool
    ensures { result ≡ module_rule.is_of_module (OfDecl (decl_tree decl.now)) }
{
    matches!(
        decl,
        Decl::Public(_, _) | Decl::Share(_, _) | Decl::Private(_)
    )
}

#[tactic(auto, unfolding(bas_ast::specs::BlockTree::item_tree))]
fn is_of_module(item: &LineItem) -> bool
    ensures { result ≡ module_rule.is_of_module (item_tree item.now) }
{
    match item {
        LineItem::Decl(decl) => is_decl_of_module(decl.get()),
        _ => false,
    }
}

#[tactic(auto, unfolding(bas_ast::specs::DeclarationTree::decl_tree))]
fn decl_lacks_procedure(procedures: &Table, decl: &Decl) -> bool
    ensures { result ≡ list_any (λ name. not (is_some (found_in procedures.now name))) (module_rule.private_names (OfDecl (decl_tree decl.now))) }
{
    match decl {
        Decl::Private(names) => is_any_missing(procedures, names.items()),
        _ => false,
    }
}

#[tactic(auto, unfolding(bas_ast::specs::BlockTree::item_tree))]
fn lacks_procedure(procedures: &Table, item: &LineItem) -> bool
    ensures { result ≡ list_any (λ name. not (is_some (found_in procedures.now name))) (module_rule.private_names (item_tree item.now)) }
{
    match item {
        LineItem::Decl(decl) => decl_lacks_procedure(procedures, decl.get()),
        _ => false,
    }
}

fn is_misplaced(kind: BodyKind, item: &LineItem) -> bool
    ensures { result ≡ (module_rule.is_of_module (item_tree item.now) && not (is_initial_kind kind)) }
{
    is_of_module(item) & !is_initial(kind)
}

/// Whether `PUBLIC`, `SHARE` or `PRIVATE` stands on a line of no initial part, or `PRIVATE` names no
/// procedure of its module.
pub fn is_out_of_module(place: &Place<'_>, line: &NumLine) -> bool
    ensures { (opener : ItemTree) → IsOf place.now opener line.now module_rule.is_out_of_module result }
{
    is_misplaced(place.body.kind, &line.item)
        | lacks_procedure(&place.unit.names.procedures, &line.item)
}
