//! How many arguments there are.

ghost use Rattle.std.specs.Prelude.{◌≡◌, [], ◌∷◌, map};
ghost use Rattle.bas_ast.specs.ExpressionTree.{expr_tree, actual_tree};
ghost use Rattle.bas_ast.specs.Accessors.{lone_primary};
ghost use Rattle.bas_scope.specs.Senses.{sense_told};
ghost use Rattle.bas_names.specs.Names.{senses_in};
ghost use Rattle.bas_rules.specs.Calling as rule;

use crate::alone::lone_name;
use crate::forms::form_with;
use crate::sense::dimensions_in;
use bas_ast::{Actual, Expr};
use bas_names::Names;
use bas_rules::LONGEST_LIST;
use bas_scope::Sense;

#[tactic(auto, using(crate::proofs::NamesAlone::several_alone))]
fn is_of_several(names: &Names<'_>, expr: &Expr) -> bool
    ensures { result ≡ rule.is_of_several (senses_in names.now) (lone_primary (expr_tree expr.now)) }
{
    match lone_name(expr) {
        Some(name) => dimensions_in(names.named(name)) > 1,
        None => false,
    }
}

// Whether the only argument is an array of several dimensions.
#[tactic(auto, using(bas_ast::proofs::ExpressionTrees::expression_trees))]
fn asks_of_several(names: &Names<'_>, only: &Actual) -> bool
    ensures { result ≡ rule.lacks_dimension (senses_in names.now) (actual_tree only.now ∷ []) }
{
    match only {
        Actual::Expr(expr) => is_of_several(names, expr),
        Actual::Chan(_) => false,
    }
}

#[tactic(auto, using(crate::proofs::Arguments::one_alone))]
fn lacks_dimension(names: &Names<'_>, actuals: &[Actual]) -> bool
    ensures { result ≡ rule.lacks_dimension (senses_in names.now) (map actual_tree actuals.now) }
{
    if actuals.len() != 1 {
        return false;
    }
    asks_of_several(names, &actuals[0])
}

/// Whether a supplied function is called with a count of arguments that it does not take.
pub fn miscounts(names: &Names<'_>, sense: Sense<'_>, actuals: &[Actual]) -> bool
    ensures { result ≡ rule.miscounts (senses_in names.now) (sense_told sense.entry) (map actual_tree actuals.now) }
{
    match sense {
        Sense::Supplied(forms) => {
            form_with(actuals.len(), forms).is_none() || lacks_dimension(names, actuals)
        }
        _ => false,
    }
}

/// Whether there are more arguments than there may be.
pub fn are_too_many(actuals: &[Actual]) -> bool
    ensures { result ≡ rule.is_too_long (map actual_tree actuals.now) }
{
    actuals.len() > LONGEST_LIST
}
