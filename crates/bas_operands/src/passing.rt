//! Whether arguments fit the formals of a procedure.

ghost use Rattle.std.specs.Prelude.{◌≡◌, map, Some};
ghost use Rattle.std.specs.Option.{option_map};
ghost use Rattle.bas_ast.specs.Tree.{Argument};
ghost use Rattle.bas_ast.specs.Accessors.{lone_primary};
ghost use Rattle.bas_ast.specs.ExpressionTree.{expr_tree, primary_tree, args_tree, actual_tree};
ghost use Rattle.bas_scope.specs.Senses.{Shaped, sense_told, shape_written};
ghost use Rattle.bas_names.specs.Names.{senses_in};
ghost use Rattle.bas_rules.specs.Calling as rule;
ghost use Rattle.bas_operands.specs.Passing.{passed_to};

use crate::arrays::is_named_array;
use crate::shapes::{element_of, fits};
use bas_ast::{Actual, Args, Expr, Primary};
use bas_kind::is_number;
use bas_names::Names;
use bas_scope::{Sense, WrittenShape};

/// What is called: `CALL` calls a SUB and passes variables, elements and arrays by reference; a
/// function is passed arrays by reference, and all else by value.
#[derive(Clone, Copy, Debug)]
pub enum Callee {
    Sub,
    Function,
}

fn value_of(expr: &Expr) -> WrittenShape
    ensures { shape_written result ≡ rule.value_of (expr_tree expr.now) }
{
    if is_number(expr) {
        WrittenShape::NumValue
    } else {
        WrittenShape::StrValue
    }
}

// A variable by reference, or its element where there are subscripts.
#[tactic(auto, using(bas_ast::proofs::ExpressionTrees::expression_trees, crate::proofs::Arguments::refers_whole, crate::proofs::Arguments::refers_element))]
fn referred_shape(args: &Args, value: WrittenShape, shape: WrittenShape) -> WrittenShape
    ensures { shape_written result ≡ rule.referred_with (args_tree args.now) (shape_written value) (Shaped (shape_written shape)) }
{
    if args.actuals.is_empty() {
        shape
    } else {
        element_of(shape)
    }
}

fn referred_with(args: &Args, value: WrittenShape, sense: Sense<'_>) -> WrittenShape
    ensures { shape_written result ≡ rule.referred_with (args_tree args.now) (shape_written value) (sense_told sense.entry) }
{
    match sense {
        Sense::Variable(shape) => referred_shape(args, value, shape),
        _ => value,
    }
}

#[tactic(auto, using(bas_ast::proofs::ExpressionTrees::expression_trees))]
fn reference_or(names: &Names<'_>, value: WrittenShape, operand: &Primary) -> WrittenShape
    ensures { shape_written result ≡ rule.reference_or (senses_in names.now) (shape_written value) (Some (primary_tree operand.now)) }
{
    match operand {
        Primary::Name(name, args) => referred_with(args, value, names.named(*name)),
        Primary::Numeral(_) => value,
        Primary::Quoted(_) => value,
        Primary::Group(_) => value,
        Primary::Substring(_, _, _) => value,
    }
}

// What an expression refers to by itself, else a value.
fn referred(names: &Names<'_>, expr: &Expr) -> WrittenShape
    ensures { let e = expr_tree expr.now in shape_written result ≡ rule.reference_or (senses_in names.now) (rule.value_of e) (lone_primary e) }
{
    let value = value_of(expr);
    match expr.lone_primary() {
        Some(operand) => reference_or(names, value, operand),
        None => value,
    }
}

#[tactic(auto, using(bas_ast::proofs::ExpressionTrees::expression_trees))]
fn passed_by_call(names: &Names<'_>, actual: &Actual) -> WrittenShape
    ensures { shape_written result ≡ rule.passed_by_call (senses_in names.now) (actual_tree actual.now) }
{
    match actual {
        Actual::Expr(expr) => referred(names, expr),
        Actual::Chan(_) => WrittenShape::Channel,
    }
}

fn passed_by_function(names: &Names<'_>, expr: &Expr) -> WrittenShape
    ensures { shape_written result ≡ rule.passed_to_function (senses_in names.now) (Argument (expr_tree expr.now)) }
{
    if is_named_array(names, expr) {
        referred(names, expr)
    } else {
        value_of(expr)
    }
}

#[tactic(auto, using(bas_ast::proofs::ExpressionTrees::expression_trees))]
fn passed_to_function(names: &Names<'_>, actual: &Actual) -> WrittenShape
    ensures { shape_written result ≡ rule.passed_to_function (senses_in names.now) (actual_tree actual.now) }
{
    match actual {
        Actual::Expr(expr) => passed_by_function(names, expr),
        Actual::Chan(_) => WrittenShape::Channel,
    }
}

fn passed(names: &Names<'_>, callee: Callee, actual: &Actual) -> WrittenShape
    ensures { shape_written result ≡ passed_to callee (senses_in names.now) (actual_tree actual.now) }
{
    match callee {
        Callee::Sub => passed_by_call(names, actual),
        Callee::Function => passed_to_function(names, actual),
    }
}

fn all_fit(names: &Names<'_>, callee: Callee, actuals: &[Actual], formals: &[WrittenShape]) -> bool
    ensures { result ≡ rule.all_fit (map (passed_to callee (senses_in names.now)) (map actual_tree actuals.now)) (map shape_written formals.now) }
{
    for (i, actual) in actuals.iter().enumerate() {
        match formals.get(i) {
            None => return false,
            Some(formal) => {
                if !fits(passed(names, callee, actual), *formal) {
                    return false;
                }
            }
        }
    }
    formals.len() <= actuals.len()
}

fn misfits(
    names: &Names<'_>,
    callee: Callee,
    actuals: &[Actual],
    formals: Option<&[WrittenShape]>,
) -> bool
    ensures { result ≡ rule.misfits (passed_to callee (senses_in names.now)) (map actual_tree actuals.now) (option_map (λ f. map shape_written f.now) formals.entry) }
{
    match formals {
        None => false,
        Some(formals) => !all_fit(names, callee, actuals, formals),
    }
}

/// Whether a function of the unit is called with arguments that do not fit.
pub fn misfits_function(names: &Names<'_>, actuals: &[Actual], sense: Sense<'_>) -> bool
    ensures { result ≡ rule.misfits_function (senses_in names.now) (map actual_tree actuals.now) (sense_told sense.entry) }
{
    match sense {
        Sense::Function(formals, _) => misfits(names, Callee::Function, actuals, formals),
        _ => false,
    }
}

/// Whether a SUB of the unit is called with arguments that do not fit.
pub fn misfits_sub(names: &Names<'_>, actuals: &[Actual], sense: Sense<'_>) -> bool
    ensures { result ≡ rule.misfits_sub (senses_in names.now) (map actual_tree actuals.now) (sense_told sense.entry) }
{
    match sense {
        Sense::Sub(formals) => misfits(names, Callee::Sub, actuals, formals),
        _ => false,
    }
}
