//! The variables of expressions and conditions get their slots, in the order of the text.

ghost use Rattle.bas_ast.specs.ExpressionTree.{
  expr_tree,
  term_tree,
  factor_tree,
  primary_tree,
  terms_tree,
  factors_tree,
  primaries_tree,
};
ghost use Rattle.bas_ast.specs.ConditionTree.{
  cond_tree,
  conj_tree,
  test_tree,
  conjs_tree,
  tests_tree,
};
ghost use Rattle.bas_carry.specs.Slots.{
  in_expr,
  in_terms,
  in_term,
  in_factors,
  in_factor,
  in_primaries,
  in_primary,
  in_cond,
  in_conjs,
  in_conj,
  in_tests,
  in_test,
};
ghost use Rattle.bas_genexpr.specs.Numbering.{Numbers};

use crate::fault::GenFault;
use crate::slots::Slots;
use bas_ast::{Cond, Conj, Expr, Factor, FactorSign, Primary, Term, TermSign, Test};

/// Gives slots to the variables of an expression.
#[cycle(names)]
pub fn number_expression(slots: &mut Slots, e: &Expr) -> Result<(), GenFault>
    ensures { Numbers result slots.old slots.new (in_expr (expr_tree e.now)) }
{
    number_term(slots, e.first.get())?;
    number_terms(slots, e.rest.as_slice())
}

#[cycle(names)]
fn number_terms(slots: &mut Slots, rest: &[(TermSign, Term)]) -> Result<(), GenFault>
    ensures { Numbers result slots.old slots.new (in_terms (terms_tree rest.now)) }
{
    for (_, next) in rest {
        number_term(slots, next)?;
    }
    Ok(())
}

#[cycle(names)]
fn number_term(slots: &mut Slots, term: &Term) -> Result<(), GenFault>
    ensures { Numbers result slots.old slots.new (in_term (term_tree term.now)) }
{
    number_factor(slots, &term.first)?;
    number_factors(slots, term.rest.as_slice())
}

#[cycle(names)]
fn number_factors(slots: &mut Slots, rest: &[(FactorSign, Factor)]) -> Result<(), GenFault>
    ensures { Numbers result slots.old slots.new (in_factors (factors_tree rest.now)) }
{
    for (_, next) in rest {
        number_factor(slots, next)?;
    }
    Ok(())
}

#[cycle(names)]
fn number_factor(slots: &mut Slots, factor: &Factor) -> Result<(), GenFault>
    ensures { Numbers result slots.old slots.new (in_factor (factor_tree factor.now)) }
{
    number_primary(slots, &factor.base)?;
    number_exponents(slots, factor.exponents.as_slice())
}

#[cycle(names)]
fn number_exponents(slots: &mut Slots, exponents: &[Primary]) -> Result<(), GenFault>
    ensures { Numbers result slots.old slots.new (in_primaries (primaries_tree exponents.now)) }
{
    for next in exponents {
        number_primary(slots, next)?;
    }
    Ok(())
}

#[cycle(names)]
fn number_primary(slots: &mut Slots, primary: &Primary) -> Result<(), GenFault>
    ensures { Numbers result slots.old slots.new (in_primary (primary_tree primary.now)) }
{
    match primary {
        Primary::Numeral(_) => Ok(()),
        Primary::Group(inner) => number_expression(slots, inner.get()),
        Primary::Name(name, _) => slots.add(*name),
        Primary::Quoted(_) => Ok(()),
        Primary::Substring(_, _, _) => Ok(()),
    }
}

/// Gives slots to the variables of a condition.
#[cycle(conditions)]
pub fn number_condition(slots: &mut Slots, c: &Cond) -> Result<(), GenFault>
    ensures { Numbers result slots.old slots.new (in_cond (cond_tree c.now)) }
{
    number_conj(slots, &c.first)?;
    number_conjs(slots, c.rest.as_slice())
}

#[cycle(conditions)]
fn number_conjs(slots: &mut Slots, rest: &[Conj]) -> Result<(), GenFault>
    ensures { Numbers result slots.old slots.new (in_conjs (conjs_tree rest.now)) }
{
    for next in rest {
        number_conj(slots, next)?;
    }
    Ok(())
}

#[cycle(conditions)]
fn number_conj(slots: &mut Slots, conj: &Conj) -> Result<(), GenFault>
    ensures { Numbers result slots.old slots.new (in_conj (conj_tree conj.now)) }
{
    number_test(slots, &conj.first)?;
    number_tests(slots, conj.rest.as_slice())
}

#[cycle(conditions)]
fn number_tests(slots: &mut Slots, rest: &[Test]) -> Result<(), GenFault>
    ensures { Numbers result slots.old slots.new (in_tests (tests_tree rest.now)) }
{
    for next in rest {
        number_test(slots, next)?;
    }
    Ok(())
}

#[cycle(conditions)]
fn number_test(slots: &mut Slots, test: &Test) -> Result<(), GenFault>
    ensures { Numbers result slots.old slots.new (in_test (test_tree test.now)) }
{
    match test {
        Test::Not(inner) => number_test(slots, inner.get()),
        Test::Group(inner) => number_condition(slots, inner.get()),
        Test::Compare(left, _, right) => {
            number_expression(slots, left)?;
            number_expression(slots, right)
        }
    }
}
