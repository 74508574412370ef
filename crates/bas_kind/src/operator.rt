//! Whether the operands of operators and relations, and subscripts, have their kinds.

ghost use Rattle.std.specs.Prelude.{◌≡◌};
ghost use Rattle.bas_ast.specs.ConditionTree.{test_tree};
ghost use Rattle.bas_ast.specs.ExpressionTree.{
  expr_tree,
  term_tree,
  factor_tree,
  target_tree,
  terms_tree,
  factors_tree,
  primaries_tree,
  exprs_tree,
};
ghost use Rattle.bas_kind.specs.Truths.{kind_of};
ghost use Rattle.bas_rules.specs.Kinds as rule;

use crate::expression::{
    is_number, is_numeric_factor, is_numeric_primary, is_numeric_sign, is_numeric_term,
};
use bas_ast::{Expr, Factor, FactorSign, Primary, Target, Term, TermSign, Test};

// Whether each operator has its own kind on both sides, where `numeric` tells of what stands in front.
fn terms_agree(numeric: bool, rest: &[(TermSign, Term)]) -> bool
    ensures { result ≡ rule.terms_agree (kind_of numeric) (terms_tree rest.now) }
{
    let mut before = numeric;
    for (sign, term) in rest {
        let taken = is_numeric_sign(*sign);
        if before != taken || is_numeric_term(term) != taken {
            return false;
        }
        before = taken;
    }
    true
}

/// Whether the operators between the terms of an expression, and its sign, have operands of their kinds.
#[tactic(auto, using(crate::proofs::Agreements::behind_signed, crate::proofs::Agreements::signed_term, crate::proofs::Agreements::alone_in_sum, crate::proofs::Agreements::unsigned_terms))]
pub fn expr_agrees(expr: &Expr) -> bool
    ensures { result ≡ rule.expr_agrees (expr_tree expr.now) }
{
    let first = expr.first.get();
    match expr.sign {
        Some(_) => is_numeric_term(first) && terms_agree(true, expr.rest.as_slice()),
        None => {
            expr.rest.is_empty() || terms_agree(is_numeric_term(first), expr.rest.as_slice())
        }
    }
}

fn are_numeric_factors(factors: &[(FactorSign, Factor)]) -> bool
    ensures { result ≡ rule.are_numeric_factors (factors_tree factors.now) }
{
    for (_, factor) in factors {
        if !is_numeric_factor(factor) {
            return false;
        }
    }
    true
}

/// Whether the factors of a product are numbers.
#[tactic(auto, using(crate::proofs::Agreements::alone_in_term, crate::proofs::Agreements::later_factors, crate::proofs::Agreements::first_factor))]
pub fn term_agrees(term: &Term) -> bool
    ensures { result ≡ rule.term_agrees (term_tree term.now) }
{
    term.rest.is_empty()
        || is_numeric_factor(&term.first) && are_numeric_factors(term.rest.as_slice())
}

fn are_numeric_primaries(primaries: &[Primary]) -> bool
    ensures { result ≡ rule.are_numeric_primaries (primaries_tree primaries.now) }
{
    for primary in primaries {
        if !is_numeric_primary(primary) {
            return false;
        }
    }
    true
}

/// Whether a base that has exponents is a number, and they are.
#[tactic(auto, using(crate::proofs::Agreements::alone_in_factor, crate::proofs::Agreements::exponents, crate::proofs::Agreements::base))]
pub fn factor_agrees(factor: &Factor) -> bool
    ensures { result ≡ rule.factor_agrees (factor_tree factor.now) }
{
    factor.exponents.is_empty()
        || is_numeric_primary(&factor.base) && are_numeric_primaries(factor.exponents.as_slice())
}

/// Whether both sides of a relation have one kind.
#[tactic(auto, using(bas_ast::proofs::ConditionTrees::condition_trees))]
pub fn test_agrees(test: &Test) -> bool
    ensures { result ≡ rule.test_agrees (test_tree test.now) }
{
    match test {
        Test::Compare(left, _, right) => is_number(left) == is_number(right),
        Test::Not(_) | Test::Group(_) => true,
    }
}

fn are_numeric(exprs: &[Expr]) -> bool
    ensures { result ≡ rule.are_numeric_exprs (exprs_tree exprs.now) }
{
    for expr in exprs {
        if !is_number(expr) {
            return false;
        }
    }
    true
}

/// Whether the subscripts of a target are numbers.
#[tactic(auto, using(bas_ast::proofs::ExpressionTrees::target_out))]
pub fn target_agrees(target: &Target) -> bool
    ensures { result ≡ rule.target_agrees (target_tree target.now) }
{
    are_numeric(target.subscripts.as_slice())
}
