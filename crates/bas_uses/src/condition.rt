//! The names that a condition uses without arguments.

ghost use Rattle.std.specs.Prelude.{◌≡◌, ◌++◌, OnOk};
ghost use Rattle.bas_ast.specs.ConditionTree.{
  cond_tree,
  conj_tree,
  test_tree,
  conjs_tree,
  tests_tree,
};
ghost use Rattle.bas_scope.specs.Nodes.{
  cond_nodes,
  conjs_nodes,
  conj_nodes,
  tests_nodes,
  test_nodes,
};
ghost use Rattle.bas_uses.specs.Uses.{bare_names};

use crate::expression::push_expr;
use bas_ast::{Cond, Conj, Test};
use bas_base::Name;
use std::alloc::AllocError;

/// Appends the names that a condition uses.
#[cycle(conditions)]
pub fn push_cond(names: &mut Vec<Name>, cond: &Cond) -> Result<(), AllocError>
    ensures { OnOk result (names.new.items ≡ names.old.items ++ bare_names (cond_nodes (cond_tree cond.now))) }
{
    push_conj(names, &cond.first)?;
    push_conjs(names, cond.rest.as_slice())
}

#[cycle(conditions)]
fn push_conjs(names: &mut Vec<Name>, rest: &[Conj]) -> Result<(), AllocError>
    ensures { OnOk result (names.new.items ≡ names.old.items ++ bare_names (conjs_nodes (conjs_tree rest.now))) }
{
    for next in rest {
        push_conj(names, next)?;
    }
    Ok(())
}

#[cycle(conditions)]
fn push_conj(names: &mut Vec<Name>, conj: &Conj) -> Result<(), AllocError>
    ensures { OnOk result (names.new.items ≡ names.old.items ++ bare_names (conj_nodes (conj_tree conj.now))) }
{
    push_test(names, &conj.first)?;
    push_tests(names, conj.rest.as_slice())
}

#[cycle(conditions)]
fn push_tests(names: &mut Vec<Name>, rest: &[Test]) -> Result<(), AllocError>
    ensures { OnOk result (names.new.items ≡ names.old.items ++ bare_names (tests_nodes (tests_tree rest.now))) }
{
    for next in rest {
        push_test(names, next)?;
    }
    Ok(())
}

#[cycle(conditions)]
fn push_test(names: &mut Vec<Name>, test: &Test) -> Result<(), AllocError>
    ensures { OnOk result (names.new.items ≡ names.old.items ++ bare_names (test_nodes (test_tree test.now))) }
{
    match test {
        Test::Not(inner) => push_test(names, inner.get()),
        Test::Group(inner) => push_cond(names, inner.get()),
        Test::Compare(left, _, right) => {
            push_expr(names, left)?;
            push_expr(names, right)
        }
    }
}
