//! What formals may be.

ghost use Rattle.std.specs.Prelude.{◌≡◌, map, not};
ghost use Rattle.std.specs.List.{list_any};
ghost use Rattle.bas_ast.specs.PartTree.{formal_tree};
ghost use Rattle.bas_rules.specs.Declaring.{is_scalar as is_scalar_of, has_many_dimensions as has_many_dimensions_of};

use crate::limits::MOST_DIMENSIONS;
use bas_ast::Formal;

#[tactic(auto, unfolding(bas_ast::specs::PartTree::formal_tree))]
fn is_scalar(formal: Formal) -> bool
    ensures { result ≡ is_scalar_of (formal_tree formal) }
{
    matches!(formal, Formal::Name(_, 0))
}

/// Whether a program has a formal that is no scalar.
pub fn has_other_than_scalars(formals: &[Formal]) -> bool
    ensures { result ≡ list_any (λ formal. not (is_scalar_of formal)) (map formal_tree formals.now) }
{
    for formal in formals {
        if !is_scalar(*formal) {
            return true;
        }
    }
    false
}

#[tactic(auto, unfolding(bas_ast::specs::PartTree::formal_tree))]
fn has_many_dimensions(formal: Formal) -> bool
    ensures { result ≡ has_many_dimensions_of (formal_tree formal) }
{
    match formal {
        Formal::Name(_, dimensions) => dimensions > MOST_DIMENSIONS,
        Formal::Chan(_) => false,
    }
}

/// Whether an array has more than three dimensions.
pub fn have_many_dimensions(formals: &[Formal]) -> bool
    ensures { result ≡ list_any has_many_dimensions_of (map formal_tree formals.now) }
{
    for formal in formals {
        if has_many_dimensions(*formal) {
            return true;
        }
    }
    false
}
