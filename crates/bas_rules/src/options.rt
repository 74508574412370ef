//! Where `OPTION` may stand.

ghost use Rattle.std.specs.Prelude.{◌≡◌, Bool, ℕ, List, map, if◌then◌else◌, nat_lt};
ghost use Rattle.std.specs.List.{filter};
ghost use Rattle.bas_ast.specs.Tree.{OfDecl};
ghost use Rattle.bas_ast.specs.BlockTree.{line_tree, item_tree};
ghost use Rattle.bas_rules.specs.Declaring as rule;

use bas_ast::{Decl, LineItem, NumLine};
use bas_base::Line;

/// What an `OPTION` line sets.
#[derive(Clone, Copy, Debug, PartialEq, Eq)]
pub enum OptionKind {
    Base,
    Arithmetic,
}

/// What a line sets, where it is an `OPTION` line.
#[tactic(auto, unfolding(bas_ast::specs::BlockTree::item_tree, bas_ast::specs::DeclarationTree::decl_tree))]
pub fn option_on(item: &LineItem) -> Option<OptionKind>
    ensures { result ≡ rule.option_on (item_tree item.now) }
{
    match item {
        LineItem::Decl(decl) => match decl.get() {
            Decl::OptionBaseZero | Decl::OptionBaseOne => Some(OptionKind::Base),
            Decl::OptionArithmeticDecimal | Decl::OptionArithmeticFixed(_) => {
                Some(OptionKind::Arithmetic)
            }
            _ => None,
        },
        _ => None,
    }
}

fn is_of_kind(kind: OptionKind, item: &LineItem) -> bool
    ensures { result ≡ rule.same_option kind (rule.option_on (item_tree item.now)) }
{
    match (kind, option_on(item)) {
        (OptionKind::Base, Some(OptionKind::Base)) => true,
        (OptionKind::Arithmetic, Some(OptionKind::Arithmetic)) => true,
        _ => false,
    }
}

fn may_not_follow(kind: OptionKind, line: &NumLine) -> bool
    ensures { result ≡ rule.may_not_follow kind (line_tree line.now) }
{
    option_on(&line.item).is_none() || is_of_kind(kind, &line.item)
}

fn comes_late(kind: OptionKind, lines: &[&NumLine], number: Line) -> bool
    ensures { result ≡ rule.comes_late kind (filter (λ line. nat_lt line.line number) (map (λ line. line_tree line.now) lines.now)) }
{
    let mut is_first = true;
    for line in lines {
        if line.line.number() < number.number() {
            let is_late = if is_first {
                is_of_kind(kind, &line.item)
            } else {
                may_not_follow(kind, line)
            };
            if is_late {
                return true;
            }
            is_first = false;
        }
    }
    false
}

/// Whether an `OPTION` line stands after a line that it may not follow. `lines` are those of its unit
/// in order.
pub fn is_late_option(lines: &[&NumLine], number: Line, item: &LineItem) -> bool
    ensures { result ≡ rule.is_late_option (map (λ line. line_tree line.now) lines.now) number (item_tree item.now) }
{
    match option_on(item) {
        Some(kind) => comes_late(kind, lines, number),
        None => false,
    }
}
