//! What a line declares, by itself: kinds, types, bounds and formals.

ghost use Rattle.std.specs.Prelude.{◌≡◌, ◌&&◌, ◌||◌, not, pos, List};
ghost use Rattle.std.specs.List.{list_all, list_any};
ghost use Rattle.bas_ast.specs.BlockTree.{item_tree};
ghost use Rattle.bas_ast.specs.Tree.{LineItem as ItemTree, NumLine as LineTree, OfPart};
ghost use Rattle.bas_ast.specs.PartTree.{part_tree};
ghost use Rattle.bas_scope.specs.Shapes.{options_of};
ghost use Rattle.bas_scope.specs.Scope.{formals_on as formals_of_line};
ghost use Rattle.bas_rules.specs.Declaring as rule;
ghost use Rattle.bas_rules.specs.Statements.{item_agrees as item_agrees_by_rule, plain_agrees, plains_on};
ghost use Rattle.bas_judge.specs.Answers.{IsOf};

use bas_ast::{LineItem, NumLine, Part};
use bas_kind::item_agrees;
use bas_place::Place;
use bas_rules::{
    declares_bad_bounds, declares_bad_type, has_other_than_scalars, have_many_dimensions,
    is_late_option,
};
use bas_scope::formals_on;

#[tactic(auto, unfolding(bas_ast::specs::BlockTree::item_tree))]
fn declares_other_kind(item: &LineItem) -> bool
    ensures { result ≡ rule.declares_other_kind (item_tree item.now) }
{
    match item {
        LineItem::Decl(decl) => bas_rules::declares_other_kind(decl.get()),
        _ => false,
    }
}

/// Whether a part of a line has another kind than is wanted, its operands left out.
pub fn has_wrong_kind(item: &LineItem) -> bool
    ensures { let tree = item_tree item.now in
        result ≡ (not (item_agrees_by_rule tree && list_all plain_agrees (plains_on tree)) || rule.declares_other_kind tree) }
{
    !item_agrees(item) | declares_other_kind(item)
}

/// Whether a line declares a type out of its bounds.
#[tactic(auto, unfolding(bas_ast::specs::BlockTree::item_tree))]
pub fn has_type_out_of_bounds(item: &LineItem) -> bool
    ensures { let tree = item_tree item.now in result ≡ (rule.has_bad_option tree || list_any rule.has_bad_type (rule.items_on tree)) }
{
    match item {
        LineItem::Decl(decl) => declares_bad_type(decl.get()),
        _ => false,
    }
}

#[tactic(auto, unfolding(bas_ast::specs::BlockTree::item_tree))]
fn declares_bounds_out_of_range(base: u8, item: &LineItem) -> bool
    ensures { result ≡ list_any (rule.has_bad_bounds (pos base)) (rule.items_on (item_tree item.now)) }
{
    match item {
        LineItem::Decl(decl) => declares_bad_bounds(base, decl.get()),
        _ => false,
    }
}

fn has_bounds_by_base(base: u8, item: &LineItem) -> bool
    ensures { let tree = item_tree item.now in
        result ≡ (list_any (rule.has_bad_bounds (pos base)) (rule.items_on tree) || list_any rule.has_many_dimensions (formals_of_line tree)) }
{
    declares_bounds_out_of_range(base, item) | have_many_dimensions(formals_on(item))
}

// The lower bound of arrays that the lines of a unit set.
fn lower_bound(base: i64) -> u8
    ensures { (lines : List LineTree) → base ≡ (options_of lines).base → pos result ≡ base }
{
    if base > 0 { 1 } else { 0 }
}

/// Whether a line declares bounds that fall or are too far from 0, or too many elements or dimensions.
pub fn has_bounds_out_of_range(place: &Place<'_>, line: &NumLine) -> bool
    ensures { (opener : ItemTree) → IsOf place.now opener line.now rule.has_bounds_out_of_range result }
{
    has_bounds_by_base(lower_bound(place.unit.names.options.base), &line.item)
}

/// Whether `OPTION` stands on a line after others that it may not follow.
pub fn has_late_option(place: &Place<'_>, line: &NumLine) -> bool
    ensures { (opener : ItemTree) → IsOf place.now opener line.now rule.has_late_option result }
{
    is_late_option(place.unit.lines.as_slice(), line.line, &line.item)
}

#[tactic(auto, unfolding(bas_ast::specs::PartTree::part_tree))]
fn part_has_program_formal(part: &Part) -> bool
    ensures { result ≡ list_any (λ formal. not (rule.is_scalar formal)) (rule.program_formals (OfPart (part_tree part.now))) }
{
    match part {
        Part::Program(_, formals) => has_other_than_scalars(formals.formals.items()),
        _ => false,
    }
}

/// Whether a formal of a program is no scalar.
#[tactic(auto, unfolding(bas_ast::specs::BlockTree::item_tree))]
pub fn has_program_formal(item: &LineItem) -> bool
    ensures { result ≡ list_any (λ formal. not (rule.is_scalar formal)) (rule.program_formals (item_tree item.now)) }
{
    match item {
        LineItem::Part(part) => part_has_program_formal(part.get()),
        _ => false,
    }
}
