//! Which expressions are built.

ghost use Rattle.std.specs.Prelude.{◌≡◌};
ghost use Rattle.bas_ast.specs.ExpressionTree.{
  term_sign_tree,
  expr_tree,
  term_tree,
  factor_tree,
  primary_tree,
  args_tree,
  terms_tree,
  factors_tree,
  primaries_tree,
};
ghost use Rattle.bas_mean.specs.Built as built;

use crate::name::is_numeric_name;
use bas_ast::{Args, Expr, Factor, FactorSign, Primary, Term, TermSign};
use bas_base::Name;

fn is_built_sign(sign: TermSign) -> bool
    ensures { result ≡ built.is_built_sign (term_sign_tree sign) }
{
    match sign {
        TermSign::Add | TermSign::Subtract => true,
        TermSign::Join => false,
    }
}

fn is_built_name(name: Name, args: &Args) -> bool
    ensures { result ≡ built.is_built_name name (args_tree args.now) }
{
    args.actuals.as_slice().is_empty() && is_numeric_name(name)
}

/// Whether an expression is built.
#[cycle(builds)]
pub fn is_built_expression(e: &Expr) -> bool
    ensures { result ≡ built.is_built_expr (expr_tree e.now) }
{
    is_built_term(e.first.get()) && are_built_terms(e.rest.as_slice())
}

#[cycle(builds)]
fn are_built_terms(rest: &[(TermSign, Term)]) -> bool
    ensures { result ≡ built.are_built_terms (terms_tree rest.now) }
{
    for (sign, next) in rest {
        if !is_built_sign(*sign) {
            return false;
        }
        if !is_built_term(next) {
            return false;
        }
    }
    true
}

#[cycle(builds)]
fn is_built_term(term: &Term) -> bool
    ensures { result ≡ built.is_built_term (term_tree term.now) }
{
    is_built_factor(&term.first) && are_built_factors(term.rest.as_slice())
}

#[cycle(builds)]
fn are_built_factors(rest: &[(FactorSign, Factor)]) -> bool
    ensures { result ≡ built.are_built_factors (factors_tree rest.now) }
{
    for (_, next) in rest {
        if !is_built_factor(next) {
            return false;
        }
    }
    true
}

#[cycle(builds)]
fn is_built_factor(factor: &Factor) -> bool
    ensures { result ≡ built.is_built_factor (factor_tree factor.now) }
{
    is_built_primary(&factor.base) && are_built_primaries(factor.exponents.as_slice())
}

#[cycle(builds)]
fn are_built_primaries(exponents: &[Primary]) -> bool
    ensures { result ≡ built.are_built_primaries (primaries_tree exponents.now) }
{
    for next in exponents {
        if !is_built_primary(next) {
            return false;
        }
    }
    true
}

#[cycle(builds)]
fn is_built_primary(primary: &Primary) -> bool
    ensures { result ≡ built.is_built_primary (primary_tree primary.now) }
{
    match primary {
        Primary::Numeral(_) => true,
        Primary::Group(inner) => is_built_expression(inner.get()),
        Primary::Name(name, args) => is_built_name(*name, args),
        Primary::Quoted(_) => false,
        Primary::Substring(_, _, _) => false,
    }
}
