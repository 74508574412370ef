//! The bounds of arrays.

ghost use Rattle.std.specs.Prelude.{◌≡◌, ◌≤◌, ℕ, true, false, pos, neg_ℤ, map, Some, None};
ghost use Rattle.std.specs.Int.Signed.{◌≤ℤ◌};
ghost use Rattle.std.specs.Option.{unwrap_or};
ghost use Rattle.std.specs.List.{list_any};
ghost use Rattle.bas_ast.specs.DeclarationTree.{bound_tree, declared_tree, decl_tree};
ghost use Rattle.bas_scope.specs.Shapes.{bounds_of};
ghost use Rattle.bas_ast.specs.Tree.{OfDecl};
ghost use Rattle.bas_rules.specs.Declaring as rule;

use crate::limits::{FARTHEST_BOUND, MOST_DIMENSIONS, MOST_ELEMENTS};
use bas_ast::{Bound, Decl, DeclaredItem};

fn lower(base: u8, bound: Bound) -> i64
    ensures { result ≡ unwrap_or (bound_tree bound).low (pos base) }
{
    bound.low.unwrap_or(i64::from(base))
}

fn is_range(low: i64, high: i64) -> bool
    ensures { result ≡ rule.is_range (low, high) }
{
    low <= high && -FARTHEST_BOUND <= low && high <= FARTHEST_BOUND
}

fn extent(low: i64, high: i64) -> u64
    requires rises { low ≤ℤ high }
    requires low { neg_ℤ FARTHEST_BOUND ≤ℤ low }
    requires high { high ≤ℤ FARTHEST_BOUND }
    ensures same { result ≡ rule.extent (low, high) }
    ensures some { 1 ≤ result }
{
    (high - low + 1) as u64
}

// How many elements a dimension has, or `None` where its bounds are out of range.
fn extent_of(base: u8, bound: Bound) -> Option<u64>
    ensures some { (n : ℕ) → result ≡ Some n → (rule.is_range (bounds_of (pos base) (bound_tree bound)) ≡ true) × ((n ≡ rule.extent (bounds_of (pos base) (bound_tree bound))) × (1 ≤ n)) }
    ensures none { result ≡ None → rule.is_range (bounds_of (pos base) (bound_tree bound)) ≡ false }
{
    let low = lower(base, bound);
    if is_range(low, bound.high) {
        Some(extent(low, bound.high))
    } else {
        None
    }
}

// Whether the bounds of all dimensions are in range, with so many elements at most.
fn are_ranges(base: u8, bounds: &[Bound], most: u64) -> bool
    ensures { result ≡ rule.are_within most (map (bounds_of (pos base)) (map bound_tree bounds.now)) }
{
    let mut allowed = most;
    for bound in bounds {
        match extent_of(base, *bound) {
            Some(extent) => allowed /= extent,
            None => return false,
        }
    }
    allowed >= 1
}

fn are_bounds(base: u8, bounds: &[Bound]) -> bool
    ensures { result ≡ rule.are_bounds (map (bounds_of (pos base)) (map bound_tree bounds.now)) }
{
    bounds.len() <= MOST_DIMENSIONS as usize && are_ranges(base, bounds, MOST_ELEMENTS)
}

fn have_bad_bounds(base: u8, items: &[DeclaredItem]) -> bool
    ensures { result ≡ list_any (rule.has_bad_bounds (pos base)) (map declared_tree items.now) }
{
    for item in items {
        if !are_bounds(base, item.bounds.items()) {
            return true;
        }
    }
    false
}

/// Whether a declaration has bounds that fall, lie too far from 0, or have too many elements or
/// dimensions. `base` is the lower bound of a dimension that has none.
#[tactic(auto, unfolding(bas_ast::specs::DeclarationTree::decl_tree))]
pub fn declares_bad_bounds(base: u8, decl: &Decl) -> bool
    ensures { result ≡ list_any (rule.has_bad_bounds (pos base)) (rule.items_on (OfDecl (decl_tree decl.now))) }
{
    match decl {
        Decl::Dim(items)
        | Decl::Declare(_, items)
        | Decl::Public(_, items)
        | Decl::Share(_, items)
        | Decl::DeclarePublic(_, items) => have_bad_bounds(base, items.items.items()),
        _ => false,
    }
}
