//! Where an array is asked for as a whole, and where it may not be.

ghost use Rattle.std.specs.Prelude.{◌≡◌, map};
ghost use Rattle.std.specs.List.{list_any};
ghost use Rattle.bas_ast.specs.ExpressionTree.{expr_tree, actual_tree};
ghost use Rattle.bas_ast.specs.Accessors.{lone_primary};
ghost use Rattle.bas_scope.specs.Senses.{Shaped, SuppliedWith, sense_told, shape_written};
ghost use Rattle.bas_scope.specs.Supplied.{forms_told};
ghost use Rattle.bas_names.specs.Names.{senses_in};
ghost use Rattle.bas_rules.specs.Naming as rule;
ghost use Rattle.bas_operands.specs.Parameters.{parameter_told};

use crate::alone::lone_name;
use crate::forms::{Parameter, form_with};
use crate::sense::{dimensions_of, is_array};
use bas_ast::{Actual, Expr};
use bas_names::Names;
use bas_scope::{Forms, Sense, WrittenShape};

/// Whether an expression is an array by itself.
#[tactic(auto, using(crate::proofs::NamesAlone::array_alone))]
pub fn is_named_array(names: &Names<'_>, expr: &Expr) -> bool
    ensures { result ≡ rule.named_array (senses_in names.now) (lone_primary (expr_tree expr.now)) }
{
    match lone_name(expr) {
        Some(name) => is_array(names.named(name)),
        None => false,
    }
}

#[tactic(auto, using(bas_ast::proofs::ExpressionTrees::expression_trees))]
fn is_whole_array(names: &Names<'_>, actual: &Actual) -> bool
    ensures { result ≡ rule.is_whole_array (senses_in names.now) (actual_tree actual.now) }
{
    match actual {
        Actual::Expr(expr) => is_named_array(names, expr),
        Actual::Chan(_) => false,
    }
}

fn has_whole_array(names: &Names<'_>, actuals: &[Actual]) -> bool
    ensures { result ≡ list_any (rule.is_whole_array (senses_in names.now)) (map actual_tree actuals.now) }
{
    for actual in actuals {
        if is_whole_array(names, actual) {
            return true;
        }
    }
    false
}

fn misuses_array(names: &Names<'_>, actuals: &[Actual], form: &[Parameter]) -> bool
    ensures { result ≡ rule.misuses_array (senses_in names.now) (map actual_tree actuals.now) (map parameter_told form.now) }
{
    for (i, actual) in actuals.iter().enumerate() {
        match form.get(i) {
            None => return false,
            Some(parameter) => {
                if is_whole_array(names, actual) != matches!(parameter, Parameter::Array) {
                    return true;
                }
            }
        }
    }
    false
}

fn misuses_subscripts(names: &Names<'_>, shape: WrittenShape, actuals: &[Actual]) -> bool
    ensures { result ≡ rule.misuses_args (senses_in names.now) (Shaped (shape_written shape)) (map actual_tree actuals.now) }
{
    let dimensions = dimensions_of(shape);
    dimensions > 0 && (actuals.len() != dimensions || has_whole_array(names, actuals))
}

fn misuses_form(names: &Names<'_>, forms: Forms, actuals: &[Actual]) -> bool
    ensures { result ≡ rule.misuses_args (senses_in names.now) (SuppliedWith (forms_told forms)) (map actual_tree actuals.now) }
{
    match form_with(actuals.len(), forms) {
        Some(form) => misuses_array(names, actuals, form),
        None => false,
    }
}

/// Whether an array has a wrong number of subscripts, or is passed where it may not be.
pub fn misuses_args(names: &Names<'_>, sense: Sense<'_>, actuals: &[Actual]) -> bool
    ensures { result ≡ rule.misuses_args (senses_in names.now) (sense_told sense.entry) (map actual_tree actuals.now) }
{
    match sense {
        Sense::Variable(shape) => misuses_subscripts(names, shape, actuals),
        Sense::Supplied(forms) => misuses_form(names, forms, actuals),
        _ => false,
    }
}
