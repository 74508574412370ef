//! Which expressions are numbers.

ghost use Rattle.std.specs.Prelude.{◌≡◌};
ghost use Rattle.bas_ast.specs.ExpressionTree.{
  term_sign_tree,
  expr_tree,
  term_tree,
  factor_tree,
  primary_tree,
};
ghost use Rattle.bas_rules.specs.Kinds as rule;

use bas_ast::{Expr, Factor, Primary, Term, TermSign};
use bas_scope::is_text_name;

// Whether an operator takes and gives numbers; `&` takes and gives strings.
pub fn is_numeric_sign(sign: TermSign) -> bool
    ensures { result ≡ rule.is_numeric (rule.sign_kind (term_sign_tree sign)) }
{
    match sign {
        TermSign::Add | TermSign::Subtract => true,
        TermSign::Join => false,
    }
}

/// Whether an expression is a number; it is a string otherwise.
#[cycle(kinds)]
pub fn is_number(expr: &Expr) -> bool
    ensures { result ≡ rule.is_number (expr_tree expr.now) }
{
    match expr.rest.as_slice().last() {
        Some((sign, _)) => is_numeric_sign(*sign),
        None => expr.sign.is_some() || is_numeric_term(expr.first.get()),
    }
}

#[cycle(kinds)]
#[tactic(auto, using(crate::proofs::Operators::by_product, crate::proofs::Operators::by_factor))]
pub fn is_numeric_term(term: &Term) -> bool
    ensures { result ≡ rule.is_numeric (rule.term_kind (term_tree term.now)) }
{
    !term.rest.is_empty() || is_numeric_factor(&term.first)
}

#[cycle(kinds)]
#[tactic(auto, using(crate::proofs::Operators::by_power, crate::proofs::Operators::by_base))]
pub fn is_numeric_factor(factor: &Factor) -> bool
    ensures { result ≡ rule.is_numeric (rule.factor_kind (factor_tree factor.now)) }
{
    !factor.exponents.is_empty() || is_numeric_primary(&factor.base)
}

#[cycle(kinds)]
#[tactic(auto, using(bas_ast::proofs::ExpressionTrees::expression_trees))]
pub fn is_numeric_primary(primary: &Primary) -> bool
    ensures { result ≡ rule.is_numeric (rule.primary_kind (primary_tree primary.now)) }
{
    match primary {
        Primary::Numeral(_) => true,
        Primary::Group(inner) => is_number(inner.get()),
        Primary::Name(name, _) => !is_text_name(*name),
        Primary::Quoted(_) | Primary::Substring(_, _, _) => false,
    }
}
