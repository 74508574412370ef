//! The code of expressions: the operands from left to right, then the operator.

ghost use Rattle.std.specs.Prelude.{◌≡◌, ◌++◌, OnOk};
ghost use Rattle.std.specs.Option.{option_map};
ghost use Rattle.bas_ast.specs.ExpressionTree.{
  sign_tree,
  term_sign_tree,
  factor_sign_tree,
  expr_tree,
  term_tree,
  factor_tree,
  primary_tree,
  terms_tree,
  factors_tree,
  primaries_tree,
};
ghost use Rattle.bas_carry.specs.Codes.{
  sign_code,
  term_sign_code,
  factor_sign_code,
  expr_code,
  terms_code,
  term_code,
  factors_code,
  factor_code,
  exponents_code,
  primary_code,
};
ghost use Rattle.bas_mean.specs.World.{OfName};
ghost use Rattle.bas_carry.specs.Codes.{own_place};
ghost use Rattle.bas_genexpr.specs.Numbering.{variables};

use crate::code::Code;
use crate::slots::Slots;
use bas_ast::{Expr, Factor, FactorSign, Primary, Sign, Term, TermSign};
use bas_base::Name;
use bas_code::{ArithInstr, Instr, Place, PushInstr, Space};
use std::alloc::AllocError;

/// The place of a variable.
pub fn place(slots: &Slots, name: &Name) -> Place
    ensures { result ≡ own_place (variables slots.now) (OfName name.now) }
{
    Place {
        space: Space::Own,
        number: slots.number(name).unwrap_or(0),
    }
}

// A minus in front negates the first term.
fn put_sign(code: &mut Code, sign: Option<Sign>) -> Result<(), AllocError>
    ensures { OnOk result (code.new ≡ code.old ++ sign_code (option_map sign_tree sign)) }
{
    match sign {
        None | Some(Sign::Plus) => Ok(()),
        Some(Sign::Minus) => code.push(Instr::Arith(ArithInstr::Negate)),
    }
}

// The operator behind a term. Joining of texts is not built.
fn put_term_sign(code: &mut Code, sign: TermSign) -> Result<(), AllocError>
    ensures { OnOk result (code.new ≡ code.old ++ term_sign_code (term_sign_tree sign)) }
{
    match sign {
        TermSign::Add => code.push(Instr::Arith(ArithInstr::Add)),
        TermSign::Subtract => code.push(Instr::Arith(ArithInstr::Sub)),
        TermSign::Join => Ok(()),
    }
}

// The operator behind a factor.
fn put_factor_sign(code: &mut Code, sign: FactorSign) -> Result<(), AllocError>
    ensures { OnOk result (code.new ≡ code.old ++ factor_sign_code (factor_sign_tree sign)) }
{
    match sign {
        FactorSign::Multiply => code.push(Instr::Arith(ArithInstr::Mul)),
        FactorSign::Divide => code.push(Instr::Arith(ArithInstr::Div)),
    }
}

/// Appends the code of an expression.
#[cycle(code)]
pub fn put_expression(code: &mut Code, slots: &Slots, e: &Expr) -> Result<(), AllocError>
    ensures { OnOk result (code.new ≡ code.old ++ expr_code (variables slots.now) (expr_tree e.now)) }
{
    put_term(code, slots, e.first.get())?;
    put_sign(code, e.sign)?;
    put_terms(code, slots, e.rest.as_slice())
}

#[cycle(code)]
fn put_terms(code: &mut Code, slots: &Slots, rest: &[(TermSign, Term)]) -> Result<(), AllocError>
    ensures { OnOk result (code.new ≡ code.old ++ terms_code (variables slots.now) (terms_tree rest.now)) }
{
    for (sign, next) in rest {
        put_term(code, slots, next)?;
        put_term_sign(code, *sign)?;
    }
    Ok(())
}

#[cycle(code)]
fn put_term(code: &mut Code, slots: &Slots, term: &Term) -> Result<(), AllocError>
    ensures { OnOk result (code.new ≡ code.old ++ term_code (variables slots.now) (term_tree term.now)) }
{
    put_factor(code, slots, &term.first)?;
    put_factors(code, slots, term.rest.as_slice())
}

#[cycle(code)]
fn put_factors(
    code: &mut Code,
    slots: &Slots,
    rest: &[(FactorSign, Factor)],
) -> Result<(), AllocError>
    ensures { OnOk result (code.new ≡ code.old ++ factors_code (variables slots.now) (factors_tree rest.now)) }
{
    for (sign, next) in rest {
        put_factor(code, slots, next)?;
        put_factor_sign(code, *sign)?;
    }
    Ok(())
}

#[cycle(code)]
fn put_factor(code: &mut Code, slots: &Slots, factor: &Factor) -> Result<(), AllocError>
    ensures { OnOk result (code.new ≡ code.old ++ factor_code (variables slots.now) (factor_tree factor.now)) }
{
    put_primary(code, slots, &factor.base)?;
    put_exponents(code, slots, factor.exponents.as_slice())
}

#[cycle(code)]
fn put_exponents(code: &mut Code, slots: &Slots, exponents: &[Primary]) -> Result<(), AllocError>
    ensures { OnOk result (code.new ≡ code.old ++ exponents_code (variables slots.now) (primaries_tree exponents.now)) }
{
    for next in exponents {
        put_primary(code, slots, next)?;
        code.push(Instr::Arith(ArithInstr::Power))?;
    }
    Ok(())
}

#[cycle(code)]
fn put_primary(code: &mut Code, slots: &Slots, primary: &Primary) -> Result<(), AllocError>
    ensures { OnOk result (code.new ≡ code.old ++ primary_code (variables slots.now) (primary_tree primary.now)) }
{
    match primary {
        Primary::Numeral(numeral) => code.push(Instr::Push(PushInstr::Num(numeral.value))),
        Primary::Group(inner) => put_expression(code, slots, inner.get()),
        Primary::Name(name, _) => {
            let place = place(slots, name);
            code.push(Instr::Push(PushInstr::Load(place)))
        }
        Primary::Quoted(_) => Ok(()),
        Primary::Substring(_, _, _) => Ok(()),
    }
}
