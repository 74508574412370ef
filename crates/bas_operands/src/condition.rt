//! The least rule that a condition or one of its parts breaks.

ghost use Rattle.std.specs.Prelude.{◌≡◌};
ghost use Rattle.bas_ast.specs.ConditionTree.{
  cond_tree,
  conj_tree,
  test_tree,
  conjs_tree,
  tests_tree,
};
ghost use Rattle.bas_scope.specs.Nodes.{
  cond_nodes,
  conjs_nodes,
  conj_nodes,
  tests_nodes,
  test_nodes,
};
ghost use Rattle.bas_names.specs.Names.{senses_in};
ghost use Rattle.bas_operands.specs.Operands.{nodes_fault};

use crate::broken::{least, least_of_three};
use crate::expression::expr_fault;
use crate::node::own_test_fault;
use bas_ast::{Cond, Conj, Test};
use bas_names::Names;

/// The least rule that a condition or one of its parts breaks.
#[cycle(faults)]
pub fn cond_fault(names: &Names<'_>, cond: &Cond) -> Option<u8>
    ensures { result ≡ nodes_fault (senses_in names.now) (cond_nodes (cond_tree cond.now)) }
{
    let first = conj_fault(names, &cond.first);
    least(first, conjs_fault(names, cond.rest.as_slice()))
}

#[cycle(faults)]
fn conjs_fault(names: &Names<'_>, rest: &[Conj]) -> Option<u8>
    ensures { result ≡ nodes_fault (senses_in names.now) (conjs_nodes (conjs_tree rest.now)) }
{
    let mut found = None;
    for next in rest {
        found = least(found, conj_fault(names, next));
    }
    found
}

#[cycle(faults)]
fn conj_fault(names: &Names<'_>, conj: &Conj) -> Option<u8>
    ensures { result ≡ nodes_fault (senses_in names.now) (conj_nodes (conj_tree conj.now)) }
{
    let first = test_fault(names, &conj.first);
    least(first, tests_fault(names, conj.rest.as_slice()))
}

#[cycle(faults)]
fn tests_fault(names: &Names<'_>, rest: &[Test]) -> Option<u8>
    ensures { result ≡ nodes_fault (senses_in names.now) (tests_nodes (tests_tree rest.now)) }
{
    let mut found = None;
    for next in rest {
        found = least(found, test_fault(names, next));
    }
    found
}

#[cycle(faults)]
fn test_fault(names: &Names<'_>, test: &Test) -> Option<u8>
    ensures { result ≡ nodes_fault (senses_in names.now) (test_nodes (test_tree test.now)) }
{
    match test {
        Test::Not(inner) => test_fault(names, inner.get()),
        Test::Group(inner) => cond_fault(names, inner.get()),
        Test::Compare(left, _, right) => {
            let own = own_test_fault(test);
            let before = expr_fault(names, left);
            least_of_three(own, before, expr_fault(names, right))
        }
    }
}
