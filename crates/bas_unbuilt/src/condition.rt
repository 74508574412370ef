//! Which conditions are built.

ghost use Rattle.std.specs.Prelude.{◌≡◌, ◌&&◌};
ghost use Rattle.bas_ast.specs.ExpressionTree.{expr_tree};
ghost use Rattle.bas_ast.specs.ConditionTree.{
  cond_tree,
  conj_tree,
  test_tree,
  conjs_tree,
  tests_tree,
};
ghost use Rattle.bas_mean.specs.Built as built;

use crate::expression::is_built_expression;
use bas_ast::{Cond, Conj, Expr, Test};

fn are_built_sides(left: &Expr, right: &Expr) -> bool
    ensures { result ≡ (built.is_built_expr (expr_tree left.now) && built.is_built_expr (expr_tree right.now)) }
{
    is_built_expression(left) && is_built_expression(right)
}

/// Whether a condition is built.
#[cycle(builds)]
pub fn is_built_condition(c: &Cond) -> bool
    ensures { result ≡ built.is_built_cond (cond_tree c.now) }
{
    is_built_conj(&c.first) && are_built_conjs(c.rest.as_slice())
}

#[cycle(builds)]
fn are_built_conjs(rest: &[Conj]) -> bool
    ensures { result ≡ built.are_built_conjs (conjs_tree rest.now) }
{
    for next in rest {
        if !is_built_conj(next) {
            return false;
        }
    }
    true
}

#[cycle(builds)]
fn is_built_conj(conj: &Conj) -> bool
    ensures { result ≡ built.is_built_conj (conj_tree conj.now) }
{
    is_built_test(&conj.first) && are_built_tests(conj.rest.as_slice())
}

#[cycle(builds)]
fn are_built_tests(rest: &[Test]) -> bool
    ensures { result ≡ built.are_built_tests (tests_tree rest.now) }
{
    for next in rest {
        if !is_built_test(next) {
            return false;
        }
    }
    true
}

#[cycle(builds)]
fn is_built_test(test: &Test) -> bool
    ensures { result ≡ built.is_built_test (test_tree test.now) }
{
    match test {
        Test::Not(inner) => is_built_test(inner.get()),
        Test::Group(inner) => is_built_condition(inner.get()),
        Test::Compare(left, _, right) => are_built_sides(left, right),
    }
}
