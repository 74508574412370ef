//! Whether the constants of a `CASE` line fit the selector of its `SELECT CASE`.

ghost use Rattle.std.specs.Prelude.{◌≡◌, map};
ghost use Rattle.std.specs.List.{list_any};
ghost use Rattle.std.specs.Option.{option_map};
ghost use Rattle.bas_ast.specs.BlockTree.{item_tree};
ghost use Rattle.bas_ast.specs.ExpressionTree.{sign_tree};
ghost use Rattle.bas_ast.specs.PartTree.{case_tree, const_tree, part_tree};
ghost use Rattle.bas_ast.specs.Tree.{OfPart};
ghost use Rattle.bas_kind.specs.Truths.{kind_of};
ghost use Rattle.bas_rules.specs.Kinds.{is_numeric};
ghost use Rattle.bas_rules.specs.Recording as rule;

use crate::expression::is_number;
use bas_ast::{Case, Const, LineItem, Part, Sign};
use bas_dec::Dec;
use std::cmp::Ordering;

#[tactic(auto, unfolding(bas_ast::specs::PartTree::const_tree))]
fn is_numeric_const(constant: &Const) -> bool
    ensures { result ≡ is_numeric (rule.const_kind (const_tree constant.now)) }
{
    match constant {
        Const::Numeral(_, _) => true,
        Const::Quoted(_) => false,
    }
}

fn signed_value(sign: Option<Sign>, value: Dec) -> Dec
    ensures { result ≡ rule.signed_value (option_map sign_tree sign) value }
{
    match sign {
        Some(Sign::Minus) => value.negate(),
        Some(Sign::Plus) | None => value,
    }
}

fn is_not_above(order: Ordering) -> bool
    ensures { result ≡ rule.is_not_above order }
{
    match order {
        Ordering::Less | Ordering::Equal => true,
        Ordering::Greater => false,
    }
}

// Whether the end of a range is not below its start.
#[tactic(auto, unfolding(bas_ast::specs::PartTree::const_tree))]
fn rises(low: &Const, high: &Const) -> bool
    ensures { result ≡ rule.rises (const_tree low.now) (const_tree high.now) }
{
    match (low, high) {
        (Const::Numeral(a, x), Const::Numeral(b, y)) => {
            is_not_above(signed_value(*a, x.value).compare(signed_value(*b, y.value)))
        }
        (Const::Quoted(a), Const::Quoted(b)) => is_not_above(a.compare(b)),
        _ => false,
    }
}

// Whether a constant has the other kind than the selector, or a range does not rise.
#[tactic(auto, unfolding(bas_ast::specs::PartTree::case_tree))]
fn is_bad_case(numeric: bool, case: &Case) -> bool
    ensures { result ≡ rule.is_bad_case (kind_of numeric) (case_tree case.now) }
{
    match case {
        Case::Const(constant) | Case::Is(_, constant) => is_numeric_const(constant) != numeric,
        Case::To(low, high) => {
            is_numeric_const(low) != numeric
                || is_numeric_const(high) != numeric
                || !rises(low, high)
        }
    }
}

fn has_one_bad(numeric: bool, cases: &[Case]) -> bool
    ensures { result ≡ list_any (rule.is_bad_case (kind_of numeric)) (map case_tree cases.now) }
{
    for case in cases {
        if is_bad_case(numeric, case) {
            return true;
        }
    }
    false
}

#[tactic(auto, unfolding(bas_ast::specs::PartTree::part_tree))]
fn cases_misfit(opener: &Part, part: &Part) -> bool
    ensures { result ≡ rule.cases_misfit (OfPart (part_tree opener.now)) (OfPart (part_tree part.now)) }
{
    match opener {
        Part::SelectCase(selector) => match part {
            Part::Case(cases) => has_one_bad(is_number(selector), cases.items()),
            _ => false,
        },
        _ => false,
    }
}

/// Whether a `CASE` line has a constant of another kind than the selector of its `SELECT CASE`, or a
/// range that does not rise. `opener` is the line that opens the construct.
#[tactic(auto, unfolding(bas_ast::specs::BlockTree::item_tree))]
pub fn has_bad_case(opener: &LineItem, item: &LineItem) -> bool
    ensures { result ≡ rule.cases_misfit (item_tree opener.now) (item_tree item.now) }
{
    match opener {
        LineItem::Part(opener) => match item {
            LineItem::Part(part) => cases_misfit(opener.get(), part.get()),
            _ => false,
        },
        _ => false,
    }
}
