//! The least rule that one operand, target or `CALL` breaks by itself.

ghost use Rattle.std.specs.Prelude.{◌≡◌, ◌==◌, ◌&&◌, [], ◌∷◌, not, length};
ghost use Rattle.bas_ast.specs.Tree.{Named, NoArgs, NoExprs, Substring, Variable};
ghost use Rattle.bas_ast.specs.ExpressionTree.{expr_tree, term_tree, factor_tree, target_tree, actuals_tree};
ghost use Rattle.bas_ast.specs.ConditionTree.{test_tree};
ghost use Rattle.bas_scope.specs.Nodes.{OfExpr, OfTerm, OfFactor, OfTest, OfPrimary, OfTarget, OfWhole, OfCall};
ghost use Rattle.bas_scope.specs.Senses.{Senses, sense_told};
ghost use Rattle.bas_names.specs.Names.{senses_in};
ghost use Rattle.bas_rules.specs.Kinds.{primary_agrees};
ghost use Rattle.bas_rules.specs.Naming.{takes_args as takes_args_of, is_outside_function as is_outside, misuses_target as misuses_target_of};
ghost use Rattle.bas_operands.specs.Operands.{node_fault, first_broken as first_broken_of};

use crate::arrays::misuses_args;
use crate::broken::first_broken;
use crate::counts::{are_too_many, miscounts};
use crate::kinds::call_agrees;
use crate::passing::{misfits_function, misfits_sub};
use crate::sense::{is_function, is_outside_function, misuses_target, takes_args};
use bas_ast::{Actual, Expr, Factor, Target, Term, Test};
use bas_base::Name;
use bas_kind::{expr_agrees, factor_agrees, is_number, target_agrees, term_agrees, test_agrees};
use bas_names::Names;
use bas_scope::{Sense, is_text_name};

// The rule on kinds, unless it is kept.
fn unless_agrees(agrees: bool) -> Option<u8>
    ensures { result ≡ first_broken_of ((3, not agrees) ∷ []) }
{
    if agrees { None } else { Some(3) }
}

/// The least rule that an expression breaks by itself.
#[tactic(auto, unfolding(crate::specs::Operands::node_fault))]
pub fn own_expr_fault(expr: &Expr) -> Option<u8>
    ensures { (s : Senses) → result ≡ node_fault s (OfExpr (expr_tree expr.now)) }
{
    unless_agrees(expr_agrees(expr))
}

/// The least rule that a term breaks by itself.
#[tactic(auto, unfolding(crate::specs::Operands::node_fault))]
pub fn own_term_fault(term: &Term) -> Option<u8>
    ensures { (s : Senses) → result ≡ node_fault s (OfTerm (term_tree term.now)) }
{
    unless_agrees(term_agrees(term))
}

/// The least rule that a factor breaks by itself.
#[tactic(auto, unfolding(crate::specs::Operands::node_fault))]
pub fn own_factor_fault(factor: &Factor) -> Option<u8>
    ensures { (s : Senses) → result ≡ node_fault s (OfFactor (factor_tree factor.now)) }
{
    unless_agrees(factor_agrees(factor))
}

/// The least rule that a relation breaks by itself.
#[tactic(auto, unfolding(crate::specs::Operands::node_fault))]
pub fn own_test_fault(test: &Test) -> Option<u8>
    ensures { (s : Senses) → result ≡ node_fault s (OfTest (test_tree test.now)) }
{
    unless_agrees(test_agrees(test))
}

// Whether a name has arguments and takes none.
fn takes_none(sense: Sense<'_>, actuals: &[Actual]) -> bool
    ensures { result ≡ (not (length actuals.now == 0) && not (takes_args_of (sense_told sense.entry))) }
{
    !actuals.is_empty() && !takes_args(sense)
}

/// The least rule that a name with arguments breaks.
pub fn named_fault(names: &Names<'_>, name: Name, actuals: &[Actual]) -> Option<u8>
    ensures { result ≡ node_fault (senses_in names.now) (OfPrimary (Named name (actuals_tree actuals.now))) }
{
    let sense = names.named(name);
    first_broken(&[
        (2, misuses_args(names, sense, actuals)),
        (3, !call_agrees(sense, actuals)),
        (11, misfits_function(names, actuals, sense)),
        (12, miscounts(names, sense, actuals)),
        (20, are_too_many(actuals)),
        (23, takes_none(sense, actuals)),
    ])
}

/// The least rule that a name breaks that is an argument by itself.
#[tactic(auto, unfolding(crate::specs::Operands::node_fault))]
pub fn whole_fault(names: &Names<'_>, name: Name) -> Option<u8>
    ensures { result ≡ node_fault (senses_in names.now) (OfWhole (Named name NoArgs)) }
{
    let sense = names.named(name);
    first_broken(&[
        (3, !call_agrees(sense, &[])),
        (11, misfits_function(names, &[], sense)),
        (12, miscounts(names, sense, &[])),
    ])
}

/// The least rule that a `CALL` breaks by itself.
pub fn call_fault(names: &Names<'_>, name: Name, actuals: &[Actual]) -> Option<u8>
    ensures { result ≡ node_fault (senses_in names.now) (OfCall name (actuals_tree actuals.now)) }
{
    let sense = names.called(name);
    first_broken(&[
        (3, !call_agrees(sense, actuals)),
        (11, misfits_sub(names, actuals, sense)),
        (20, are_too_many(actuals)),
        (23, is_function(sense)),
    ])
}

// Whether a function is set that is not of this body.
fn is_set_outside(sense: Sense<'_>, subscripts: usize) -> bool
    ensures { result ≡ ((subscripts == 0) && is_outside (sense_told sense.entry)) }
{
    subscripts == 0 && is_outside_function(sense)
}

// The least rule that a target breaks with a number of subscripts, where `agrees` tells whether they are
// numbers.
fn set_fault(names: &Names<'_>, name: Name, subscripts: usize, agrees: bool) -> Option<u8>
    ensures { let sense = (senses_in names.now).named name in
        result ≡ first_broken_of ((2, misuses_target_of sense subscripts) ∷ (3, not agrees) ∷ (16, (subscripts == 0) && is_outside sense) ∷ []) }
{
    let sense = names.named(name);
    first_broken(&[
        (2, misuses_target(sense, subscripts)),
        (3, !agrees),
        (16, is_set_outside(sense, subscripts)),
    ])
}

/// The least rule that a target breaks by itself.
pub fn own_target_fault(names: &Names<'_>, target: &Target) -> Option<u8>
    ensures { result ≡ node_fault (senses_in names.now) (OfTarget (target_tree target.now)) }
{
    let subscripts = target.subscripts.as_slice();
    set_fault(names, target.name, subscripts.len(), target_agrees(target))
}

/// The least rule that a target without subscripts breaks by itself.
#[tactic(auto, unfolding(crate::specs::Operands::node_fault))]
pub fn bare_target_fault(names: &Names<'_>, name: Name) -> Option<u8>
    ensures { result ≡ node_fault (senses_in names.now) (OfTarget (Variable name NoExprs)) }
{
    set_fault(names, name, 0, true)
}

#[tactic(auto, using(bas_ast::proofs::ExpressionTrees::expression_trees))]
fn substring_agrees(target: &Target, first: &Expr, last: &Expr) -> bool
    ensures { (s : Senses) → result ≡ primary_agrees s (Substring (target_tree target.now) (expr_tree first.now) (expr_tree last.now)) }
{
    is_text_name(target.name) && is_number(first) && is_number(last)
}

/// The least rule that a substring breaks by itself.
pub fn own_substring_fault(
    names: &Names<'_>,
    target: &Target,
    first: &Expr,
    last: &Expr,
) -> Option<u8>
    ensures { result ≡ node_fault (senses_in names.now) (OfPrimary (Substring (target_tree target.now) (expr_tree first.now) (expr_tree last.now))) }
{
    first_broken(&[
        (3, !substring_agrees(target, first, last)),
        (16, is_function(names.named(target.name))),
    ])
}
