//! How many instructions an expression has. Sizes are not counted past one more than the limit.

ghost use Rattle.std.specs.Prelude.{◌≡◌, ◌+◌, ◌≤◌};
ghost use Rattle.std.specs.Option.{option_map};
ghost use Rattle.bas_ast.specs.ExpressionTree.{
  sign_tree,
  term_sign_tree,
  expr_tree,
  term_tree,
  factor_tree,
  primary_tree,
  terms_tree,
  factors_tree,
  primaries_tree,
};
ghost use Rattle.bas_carry.specs.Codes.{
  sign_size,
  term_sign_size,
  expr_size,
  terms_size,
  term_size,
  factors_size,
  factor_size,
  exponents_size,
  primary_size,
};
ghost use Rattle.bas_genexpr.specs.Counts.{counted};

use bas_ast::{Expr, Factor, FactorSign, Primary, Sign, Term, TermSign};

/// How many instructions a body may have.
pub const CODE_LIMIT: u32 = 65_535;

/// The sum of two sizes, or one more than a body may have where it is above that.
pub fn capped_sum(first: u32, second: u32) -> u32
    ensures { result ≡ counted (first + second) }
{
    first.saturating_add(second).min(CODE_LIMIT + 1)
}

fn size_of_sign(sign: Option<Sign>) -> u32
    ensures same { result ≡ sign_size (option_map sign_tree sign) }
    ensures small { result ≤ 1 }
{
    match sign {
        None | Some(Sign::Plus) => 0,
        Some(Sign::Minus) => 1,
    }
}

fn size_of_term_sign(sign: TermSign) -> u32
    ensures same { result ≡ term_sign_size (term_sign_tree sign) }
    ensures small { result ≤ 1 }
{
    match sign {
        TermSign::Add | TermSign::Subtract => 1,
        TermSign::Join => 0,
    }
}

/// How many instructions an expression has.
#[cycle(sizes)]
pub fn expression_size(e: &Expr) -> u32
    ensures { result ≡ counted (expr_size (expr_tree e.now)) }
{
    let first = size_of_term(e.first.get());
    let front = capped_sum(first, size_of_sign(e.sign));
    capped_sum(front, size_of_terms(e.rest.as_slice()))
}

#[cycle(sizes)]
fn size_of_terms(rest: &[(TermSign, Term)]) -> u32
    ensures { result ≡ counted (terms_size (terms_tree rest.now)) }
{
    let mut size = 0;
    for (sign, next) in rest {
        let front = capped_sum(size, size_of_term(next));
        size = capped_sum(front, size_of_term_sign(*sign));
    }
    size
}

#[cycle(sizes)]
fn size_of_term(term: &Term) -> u32
    ensures { result ≡ counted (term_size (term_tree term.now)) }
{
    let first = size_of_factor(&term.first);
    capped_sum(first, size_of_factors(term.rest.as_slice()))
}

#[cycle(sizes)]
fn size_of_factors(rest: &[(FactorSign, Factor)]) -> u32
    ensures { result ≡ counted (factors_size (factors_tree rest.now)) }
{
    let mut size = 0;
    for (_, next) in rest {
        let front = capped_sum(size, size_of_factor(next));
        size = capped_sum(front, 1);
    }
    size
}

#[cycle(sizes)]
fn size_of_factor(factor: &Factor) -> u32
    ensures { result ≡ counted (factor_size (factor_tree factor.now)) }
{
    let base = size_of_primary(&factor.base);
    capped_sum(base, size_of_exponents(factor.exponents.as_slice()))
}

#[cycle(sizes)]
fn size_of_exponents(exponents: &[Primary]) -> u32
    ensures { result ≡ counted (exponents_size (primaries_tree exponents.now)) }
{
    let mut size = 0;
    for next in exponents {
        let front = capped_sum(size, size_of_primary(next));
        size = capped_sum(front, 1);
    }
    size
}

#[cycle(sizes)]
fn size_of_primary(primary: &Primary) -> u32
    ensures { result ≡ counted (primary_size (primary_tree primary.now)) }
{
    match primary {
        Primary::Numeral(_) => 1,
        Primary::Group(inner) => expression_size(inner.get()),
        Primary::Name(_, _) => 1,
        Primary::Quoted(_) => 0,
        Primary::Substring(_, _, _) => 0,
    }
}
