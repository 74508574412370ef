//! Whether arguments have the kinds that are wanted of them.

ghost use Rattle.std.specs.Prelude.{◌≡◌, map};
ghost use Rattle.std.specs.Option.{option_map};
ghost use Rattle.std.specs.List.{list_all};
ghost use Rattle.bas_ast.specs.ExpressionTree.{actual_tree};
ghost use Rattle.bas_scope.specs.Senses.{SuppliedWith, sense_told, shape_written};
ghost use Rattle.bas_scope.specs.Supplied.{forms_told};
ghost use Rattle.bas_rules.specs.Kinds as rule;
ghost use Rattle.bas_operands.specs.Parameters.{parameter_told};

use crate::forms::{Parameter, form_with};
use bas_ast::Actual;
use bas_kind::is_number;
use bas_scope::{Forms, Sense, WrittenShape};

#[tactic(auto, using(bas_ast::proofs::ExpressionTrees::expression_trees))]
fn chan_agrees(actual: &Actual) -> bool
    ensures { result ≡ rule.chan_agrees (actual_tree actual.now) }
{
    match actual {
        Actual::Expr(_) => true,
        Actual::Chan(number) => is_number(number),
    }
}

fn chans_agree(actuals: &[Actual]) -> bool
    ensures { result ≡ list_all rule.chan_agrees (map actual_tree actuals.now) }
{
    for actual in actuals {
        if !chan_agrees(actual) {
            return false;
        }
    }
    true
}

#[tactic(auto, using(bas_ast::proofs::ExpressionTrees::expression_trees))]
fn is_number_actual(actual: &Actual) -> bool
    ensures { result ≡ rule.is_number_actual (actual_tree actual.now) }
{
    match actual {
        Actual::Expr(expr) => is_number(expr),
        Actual::Chan(_) => false,
    }
}

fn are_number_actuals(actuals: &[Actual]) -> bool
    ensures { result ≡ list_all rule.is_number_actual (map actual_tree actuals.now) }
{
    for actual in actuals {
        if !is_number_actual(actual) {
            return false;
        }
    }
    true
}

#[tactic(auto, using(bas_ast::proofs::ExpressionTrees::expression_trees))]
fn formal_agrees(actual: &Actual, formal: WrittenShape) -> bool
    ensures { result ≡ rule.formal_agrees (actual_tree actual.now) (shape_written formal) }
{
    match actual {
        Actual::Chan(_) => true,
        Actual::Expr(expr) => match formal {
            WrittenShape::Num(_) | WrittenShape::NumArray(_, _) => is_number(expr),
            WrittenShape::Str(_) | WrittenShape::StrArray(_, _) => !is_number(expr),
            _ => true,
        },
    }
}

fn formals_agree(actuals: &[Actual], formals: &[WrittenShape]) -> bool
    ensures { result ≡ rule.formals_agree (map actual_tree actuals.now) (map shape_written formals.now) }
{
    for (i, actual) in actuals.iter().enumerate() {
        match formals.get(i) {
            None => return true,
            Some(formal) => {
                if !formal_agrees(actual, *formal) {
                    return false;
                }
            }
        }
    }
    true
}

fn known_agree(actuals: &[Actual], formals: Option<&[WrittenShape]>) -> bool
    ensures { result ≡ rule.known_agree (map actual_tree actuals.now) (option_map (λ f. map shape_written f.now) formals.entry) }
{
    match formals {
        None => true,
        Some(formals) => formals_agree(actuals, formals),
    }
}

#[tactic(auto, using(bas_ast::proofs::ExpressionTrees::expression_trees))]
fn parameter_agrees(actual: &Actual, parameter: Parameter) -> bool
    ensures { result ≡ rule.parameter_agrees (actual_tree actual.now) (parameter_told parameter) }
{
    match actual {
        Actual::Chan(_) => false,
        Actual::Expr(expr) => match parameter {
            Parameter::Number => is_number(expr),
            Parameter::Text => !is_number(expr),
            Parameter::Array => true,
        },
    }
}

fn parameters_agree(actuals: &[Actual], form: &[Parameter]) -> bool
    ensures { result ≡ rule.parameters_agree (map actual_tree actuals.now) (map parameter_told form.now) }
{
    for (i, actual) in actuals.iter().enumerate() {
        match form.get(i) {
            None => return true,
            Some(parameter) => {
                if !parameter_agrees(actual, *parameter) {
                    return false;
                }
            }
        }
    }
    true
}

fn form_agrees(actuals: &[Actual], forms: Forms) -> bool
    ensures { result ≡ rule.args_agree (map actual_tree actuals.now) (SuppliedWith (forms_told forms)) }
{
    match form_with(actuals.len(), forms) {
        None => true,
        Some(form) => parameters_agree(actuals, form),
    }
}

fn args_agree(actuals: &[Actual], sense: Sense<'_>) -> bool
    ensures { result ≡ rule.args_agree (map actual_tree actuals.now) (sense_told sense.entry) }
{
    match sense {
        Sense::Variable(_) => are_number_actuals(actuals),
        Sense::Sub(formals) => known_agree(actuals, formals),
        Sense::Function(formals, _) => known_agree(actuals, formals),
        Sense::Supplied(forms) => form_agrees(actuals, forms),
    }
}

/// Whether the arguments of a name have the kinds that are wanted of them there.
pub fn call_agrees(sense: Sense<'_>, actuals: &[Actual]) -> bool
    ensures { result ≡ rule.call_agrees (sense_told sense.entry) (map actual_tree actuals.now) }
{
    chans_agree(actuals) && args_agree(actuals, sense)
}
