//! The least rule that an expression or one of its parts breaks.

ghost use Rattle.std.specs.Prelude.{◌≡◌};
ghost use Rattle.bas_ast.specs.Accessors.{lone_primary};
ghost use Rattle.bas_ast.specs.ExpressionTree.{
  expr_tree,
  term_tree,
  factor_tree,
  primary_tree,
  actual_tree,
  target_tree,
  terms_tree,
  factors_tree,
  primaries_tree,
  actuals_tree,
  exprs_tree,
};
ghost use Rattle.bas_scope.specs.Nodes.{
  expr_nodes,
  terms_nodes,
  term_nodes,
  factors_nodes,
  factor_nodes,
  primaries_nodes,
  primary_nodes,
  args_nodes,
  actual_nodes,
  target_nodes,
  exprs_nodes,
  whole_or,
};
ghost use Rattle.bas_names.specs.Names.{senses_in};
ghost use Rattle.bas_operands.specs.Operands.{nodes_fault};

use crate::alone::lone_name;
use crate::broken::{least, least_of_three};
use crate::node::{
    named_fault, own_expr_fault, own_factor_fault, own_substring_fault, own_target_fault,
    own_term_fault, whole_fault,
};
use bas_ast::{Actual, Expr, Factor, FactorSign, Primary, Target, Term, TermSign};
use bas_names::Names;

/// The least rule that an expression or one of its parts breaks.
#[cycle(faults)]
pub fn expr_fault(names: &Names<'_>, expr: &Expr) -> Option<u8>
    ensures { result ≡ nodes_fault (senses_in names.now) (expr_nodes (expr_tree expr.now)) }
{
    let own = own_expr_fault(expr);
    let first = term_fault(names, expr.first.get());
    least_of_three(own, first, terms_fault(names, expr.rest.as_slice()))
}

#[cycle(faults)]
fn terms_fault(names: &Names<'_>, rest: &[(TermSign, Term)]) -> Option<u8>
    ensures { result ≡ nodes_fault (senses_in names.now) (terms_nodes (terms_tree rest.now)) }
{
    let mut found = None;
    for (_, next) in rest {
        found = least(found, term_fault(names, next));
    }
    found
}

#[cycle(faults)]
fn term_fault(names: &Names<'_>, term: &Term) -> Option<u8>
    ensures { result ≡ nodes_fault (senses_in names.now) (term_nodes (term_tree term.now)) }
{
    let own = own_term_fault(term);
    let first = factor_fault(names, &term.first);
    least_of_three(own, first, factors_fault(names, term.rest.as_slice()))
}

#[cycle(faults)]
fn factors_fault(names: &Names<'_>, rest: &[(FactorSign, Factor)]) -> Option<u8>
    ensures { result ≡ nodes_fault (senses_in names.now) (factors_nodes (factors_tree rest.now)) }
{
    let mut found = None;
    for (_, next) in rest {
        found = least(found, factor_fault(names, next));
    }
    found
}

#[cycle(faults)]
fn factor_fault(names: &Names<'_>, factor: &Factor) -> Option<u8>
    ensures { result ≡ nodes_fault (senses_in names.now) (factor_nodes (factor_tree factor.now)) }
{
    let own = own_factor_fault(factor);
    let base = primary_fault(names, &factor.base);
    least_of_three(
        own,
        base,
        primaries_fault(names, factor.exponents.as_slice()),
    )
}

#[cycle(faults)]
fn primaries_fault(names: &Names<'_>, exponents: &[Primary]) -> Option<u8>
    ensures { result ≡ nodes_fault (senses_in names.now) (primaries_nodes (primaries_tree exponents.now)) }
{
    let mut found = None;
    for next in exponents {
        found = least(found, primary_fault(names, next));
    }
    found
}

#[cycle(faults)]
fn primary_fault(names: &Names<'_>, primary: &Primary) -> Option<u8>
    ensures { result ≡ nodes_fault (senses_in names.now) (primary_nodes (primary_tree primary.now)) }
{
    match primary {
        Primary::Numeral(_) => None,
        Primary::Quoted(_) => None,
        Primary::Group(inner) => expr_fault(names, inner.get()),
        Primary::Name(name, args) => {
            let actuals = args.actuals.as_slice();
            least(
                named_fault(names, *name, actuals),
                actuals_fault(names, actuals),
            )
        }
        Primary::Substring(target, first, last) => {
            let first = first.get();
            let last = last.get();
            let own = own_substring_fault(names, target, first, last);
            let whole = target_fault(names, target);
            let from = expr_fault(names, first);
            let to = expr_fault(names, last);
            least(own, least_of_three(whole, from, to))
        }
    }
}

/// The least rule that some arguments break.
#[cycle(faults)]
pub fn actuals_fault(names: &Names<'_>, actuals: &[Actual]) -> Option<u8>
    ensures { result ≡ nodes_fault (senses_in names.now) (args_nodes (actuals_tree actuals.now)) }
{
    let mut found = None;
    for next in actuals {
        found = least(found, actual_fault(names, next));
    }
    found
}

#[cycle(faults)]
fn actual_fault(names: &Names<'_>, actual: &Actual) -> Option<u8>
    ensures { result ≡ nodes_fault (senses_in names.now) (actual_nodes (actual_tree actual.now)) }
{
    match actual {
        Actual::Expr(expr) => argument_fault(names, expr),
        Actual::Chan(number) => expr_fault(names, number),
    }
}

#[cycle(faults)]
fn argument_fault(names: &Names<'_>, expr: &Expr) -> Option<u8>
    ensures { let e = expr_tree expr.now in result ≡ nodes_fault (senses_in names.now) (whole_or (lone_primary e) (expr_nodes e)) }
{
    match lone_name(expr) {
        Some(name) => whole_fault(names, name),
        None => expr_fault(names, expr),
    }
}

/// The least rule that a target or one of its subscripts breaks.
#[cycle(faults)]
pub fn target_fault(names: &Names<'_>, target: &Target) -> Option<u8>
    ensures { result ≡ nodes_fault (senses_in names.now) (target_nodes (target_tree target.now)) }
{
    let own = own_target_fault(names, target);
    least(own, exprs_fault(names, target.subscripts.as_slice()))
}

#[cycle(faults)]
fn exprs_fault(names: &Names<'_>, subscripts: &[Expr]) -> Option<u8>
    ensures { result ≡ nodes_fault (senses_in names.now) (exprs_nodes (exprs_tree subscripts.now)) }
{
    let mut found = None;
    for next in subscripts {
        found = least(found, expr_fault(names, next));
    }
    found
}
