//! The sizes of a condition and of the conditions in it, found in one walk.

ghost use Rattle.std.specs.Prelude.{◌≡◌, IfOk};
ghost use Rattle.bas_ast.specs.ConditionTree.{
  cond_tree,
  conj_tree,
  test_tree,
  conjs_tree,
  tests_tree,
};
ghost use Rattle.bas_carry.specs.Codes.{cond_size, conjs_size, conj_size, tests_size, test_size};
ghost use Rattle.bas_genexpr.specs.Counts.{counted};
ghost use Rattle.bas_genexpr.specs.Sizes.{
  cond_sizes,
  conjs_sizes,
  conj_sizes,
  tests_sizes,
  test_sizes,
  Sized,
};

use crate::size::{capped_sum, expression_size};
use bas_ast::{Cond, Conj, Test};
use std::alloc::{AllocError, Global};

/// How many instructions a condition has.
pub fn condition_size(alloc: Global, c: &Cond) -> Result<u32, AllocError>
    ensures { IfOk result (λ size. size ≡ counted (cond_size (cond_tree c.now))) }
{
    let mut sizes = Vec::new(alloc);
    list_cond(&mut sizes, c)
}

// Lists the size of a condition before those of its parts, and gives it.
#[cycle(lists)]
pub(crate) fn list_cond(sizes: &mut Vec<u32>, c: &Cond) -> Result<u32, AllocError>
    ensures { IfOk result (λ size. Sized sizes.old.items sizes.new.items size (cond_size (cond_tree c.now)) (cond_sizes (cond_tree c.now))) }
{
    let at = sizes.len();
    sizes.push(0)?;
    let first = list_conj(sizes, &c.first)?;
    let rest = list_conjs(sizes, c.rest.as_slice())?;
    let size = capped_sum(first, rest);
    sizes[at] = size;
    Ok(size)
}

#[cycle(lists)]
fn list_conjs(sizes: &mut Vec<u32>, rest: &[Conj]) -> Result<u32, AllocError>
    ensures { IfOk result (λ size. Sized sizes.old.items sizes.new.items size (conjs_size (conjs_tree rest.now)) (conjs_sizes (conjs_tree rest.now))) }
{
    let mut size = 0;
    for next in rest {
        size = capped_sum(size, list_conj(sizes, next)?);
    }
    Ok(size)
}

#[cycle(lists)]
fn list_conj(sizes: &mut Vec<u32>, conj: &Conj) -> Result<u32, AllocError>
    ensures { IfOk result (λ size. Sized sizes.old.items sizes.new.items size (conj_size (conj_tree conj.now)) (conj_sizes (conj_tree conj.now))) }
{
    let at = sizes.len();
    sizes.push(0)?;
    let first = list_test(sizes, &conj.first)?;
    let rest = list_tests(sizes, conj.rest.as_slice())?;
    let size = capped_sum(first, rest);
    sizes[at] = size;
    Ok(size)
}

#[cycle(lists)]
fn list_tests(sizes: &mut Vec<u32>, rest: &[Test]) -> Result<u32, AllocError>
    ensures { IfOk result (λ size. Sized sizes.old.items sizes.new.items size (tests_size (tests_tree rest.now)) (tests_sizes (tests_tree rest.now))) }
{
    let mut size = 0;
    for next in rest {
        size = capped_sum(size, list_test(sizes, next)?);
    }
    Ok(size)
}

#[cycle(lists)]
fn list_test(sizes: &mut Vec<u32>, test: &Test) -> Result<u32, AllocError>
    ensures { IfOk result (λ size. Sized sizes.old.items sizes.new.items size (test_size (test_tree test.now)) (test_sizes (test_tree test.now))) }
{
    match test {
        Test::Not(inner) => list_test(sizes, inner.get()),
        Test::Group(inner) => list_cond(sizes, inner.get()),
        Test::Compare(left, _, right) => {
            let operands = capped_sum(expression_size(left), expression_size(right));
            Ok(capped_sum(operands, 2))
        }
    }
}
