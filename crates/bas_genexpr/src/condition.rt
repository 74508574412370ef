//! The code of conditions: a jump if the condition has the given truth value, and otherwise it continues.

ghost use Rattle.std.specs.Prelude.{◌≡◌, ◌+◌, ◌≤◌, ◌∷◌, [], ◌++◌, length, OnOk};
ghost use Rattle.bas_ast.specs.ConditionTree.{
  rel_tree,
  cond_tree,
  conj_tree,
  test_tree,
  conjs_tree,
  tests_tree,
};
ghost use Rattle.bas_carry.specs.Codes.{cond_size, conjs_size, conj_size, tests_size, test_size};
ghost use Rattle.bas_carry.specs.Conditions.{relation_of};
ghost use Rattle.bas_genexpr.specs.Counts.{code_limit};
ghost use Rattle.bas_genexpr.specs.Numbering.{variables};
ghost use Rattle.bas_genexpr.specs.Jumps.{
  chosen,
  jump_on,
  jump_code,
  jump_conj_code,
  jump_test_code,
  conjs_code,
  tests_code,
};
ghost use Rattle.bas_genexpr.specs.Sizes.{
  cond_sizes,
  conjs_sizes,
  conj_sizes,
  tests_sizes,
  test_sizes,
  Follows,
};

use crate::code::Code;
use crate::expression::put_expression;
use crate::listing::list_cond;
use crate::size::CODE_LIMIT;
use crate::sizes::Sizes;
use crate::slots::Slots;
use bas_ast::{Cond, Conj, Rel, Test};
use bas_code::{CompareInstr, Instr, JumpInstr, Relation};
use std::alloc::{AllocError, Global};

/// Where a condition jumps, and on which truth.
#[derive(Clone, Copy, Debug)]
pub struct Aim {
    pub wanted: bool,
    pub to: u16,
}

fn relation(rel: Rel) -> Relation
    ensures { result ≡ relation_of (rel_tree rel) }
{
    match rel {
        Rel::Equal => Relation::Equal,
        Rel::NotEqual => Relation::NotEqual,
        Rel::Less => Relation::Less,
        Rel::Greater => Relation::Greater,
        Rel::AtMost => Relation::AtMost,
        Rel::AtLeast => Relation::AtLeast,
    }
}

fn put_jump(code: &mut Code, aim: Aim) -> Result<(), AllocError>
    ensures { OnOk result (code.new ≡ code.old ++ jump_on aim.wanted aim.to ∷ []) }
{
    if aim.wanted {
        code.push(Instr::Jump(JumpInstr::JumpTrue(aim.to)))
    } else {
        code.push(Instr::Jump(JumpInstr::JumpFalse(aim.to)))
    }
}

// The aim of a part: that of the whole at the last one, and the other one before it.
fn pick(last: bool, whole: Aim, other: Aim) -> Aim
    ensures wanted { result.wanted ≡ chosen last whole.wanted other.wanted }
    ensures to { result.to ≡ chosen last whole.to other.to }
{
    if last { whole } else { other }
}

// The first address if the truth values are equal, otherwise the second.
fn address(truth: bool, one: u16, other: u16) -> u16
    ensures { result ≡ chosen truth one other }
{
    if truth { one } else { other }
}

// The address after code of that size, at most the limit.
fn end_of(code: &Code, size: u32) -> u16
    ensures { length code.now + size ≤ code_limit → result ≡ length code.now + size }
{
    let from = code.len().min(CODE_LIMIT as usize) as u32;
    (from + size.min(CODE_LIMIT)).min(CODE_LIMIT) as u16
}

/// Appends the code of a condition, which jumps to the aim's address if the condition has the aim's truth
/// value, and otherwise continues after its code.
pub fn put_condition(
    alloc: Global,
    code: &mut Code,
    slots: &Slots,
    c: &Cond,
    aim: Aim,
) -> Result<(), AllocError>
    requires room { length code.old + cond_size (cond_tree c.now) ≤ code_limit }
    ensures { OnOk result (code.new ≡ code.old ++ jump_code (variables slots.now) aim.wanted (cond_tree c.now) (length code.old) aim.to) }
{
    let mut listed = Vec::new(alloc);
    list_cond(&mut listed, c)?;
    let mut sizes = Sizes::of(listed);
    put_cond(code, slots, &mut sizes, c, aim)
}

// Appends the code of a condition, whose sizes are the next in the list, and takes them from it.
#[cycle(jumps)]
fn put_cond(
    code: &mut Code,
    slots: &Slots,
    sizes: &mut Sizes,
    c: &Cond,
    aim: Aim,
) -> Result<(), AllocError>
    ensures { OnOk result (Follows sizes.old sizes.new (cond_sizes (cond_tree c.now)) (cond_size (cond_tree c.now)) code.old code.new (jump_code (variables slots.now) aim.wanted (cond_tree c.now) (length code.old) aim.to)) }
{
    let end = end_of(code, sizes.next());
    let inner = address(aim.wanted, aim.to, end);
    let rest = c.rest.as_slice();
    let first = pick(
        rest.is_empty(),
        aim,
        Aim {
            wanted: true,
            to: inner,
        },
    );
    put_conj(code, slots, sizes, &c.first, first)?;
    put_conjs(code, slots, sizes, rest, inner, aim)
}

#[cycle(jumps)]
fn put_conjs(
    code: &mut Code,
    slots: &Slots,
    sizes: &mut Sizes,
    rest: &[Conj],
    inner: u16,
    aim: Aim,
) -> Result<(), AllocError>
    ensures { OnOk result (Follows sizes.old sizes.new (conjs_sizes (conjs_tree rest.now)) (conjs_size (conjs_tree rest.now)) code.old code.new (conjs_code (variables slots.now) aim.wanted (conjs_tree rest.now) (length code.old) inner aim.to)) }
{
    let other = Aim {
        wanted: true,
        to: inner,
    };
    let mut left = rest.len();
    for next in rest {
        left -= 1;
        let outward = pick(left == 0, aim, other);
        put_conj(code, slots, sizes, next, outward)?;
    }
    Ok(())
}

#[cycle(jumps)]
fn put_conj(
    code: &mut Code,
    slots: &Slots,
    sizes: &mut Sizes,
    conj: &Conj,
    aim: Aim,
) -> Result<(), AllocError>
    ensures { OnOk result (Follows sizes.old sizes.new (conj_sizes (conj_tree conj.now)) (conj_size (conj_tree conj.now)) code.old code.new (jump_conj_code (variables slots.now) aim.wanted (conj_tree conj.now) (length code.old) aim.to)) }
{
    let end = end_of(code, sizes.next());
    let inner = address(aim.wanted, end, aim.to);
    let rest = conj.rest.as_slice();
    let first = pick(
        rest.is_empty(),
        aim,
        Aim {
            wanted: false,
            to: inner,
        },
    );
    put_test(code, slots, sizes, &conj.first, first)?;
    put_tests(code, slots, sizes, rest, inner, aim)
}

#[cycle(jumps)]
fn put_tests(
    code: &mut Code,
    slots: &Slots,
    sizes: &mut Sizes,
    rest: &[Test],
    inner: u16,
    aim: Aim,
) -> Result<(), AllocError>
    ensures { OnOk result (Follows sizes.old sizes.new (tests_sizes (tests_tree rest.now)) (tests_size (tests_tree rest.now)) code.old code.new (tests_code (variables slots.now) aim.wanted (tests_tree rest.now) (length code.old) inner aim.to)) }
{
    let other = Aim {
        wanted: false,
        to: inner,
    };
    let mut left = rest.len();
    for next in rest {
        left -= 1;
        let outward = pick(left == 0, aim, other);
        put_test(code, slots, sizes, next, outward)?;
    }
    Ok(())
}

#[cycle(jumps)]
fn put_test(
    code: &mut Code,
    slots: &Slots,
    sizes: &mut Sizes,
    test: &Test,
    aim: Aim,
) -> Result<(), AllocError>
    ensures { OnOk result (Follows sizes.old sizes.new (test_sizes (test_tree test.now)) (test_size (test_tree test.now)) code.old code.new (jump_test_code (variables slots.now) aim.wanted (test_tree test.now) (length code.old) aim.to)) }
{
    match test {
        Test::Not(inner) => {
            let turned = Aim {
                wanted: !aim.wanted,
                to: aim.to,
            };
            put_test(code, slots, sizes, inner.get(), turned)
        }
        Test::Group(inner) => put_cond(code, slots, sizes, inner.get(), aim),
        Test::Compare(left, rel, right) => {
            put_expression(code, slots, left)?;
            put_expression(code, slots, right)?;
            code.push(Instr::Compare(CompareInstr::CompareNum(relation(*rel))))?;
            put_jump(code, aim)
        }
    }
}
