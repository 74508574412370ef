//! The names that an expression or one of its parts uses without arguments.

ghost use Rattle.std.specs.Prelude.{◌≡◌, ◌++◌, OnOk};
ghost use Rattle.bas_ast.specs.Tree.{Named};
ghost use Rattle.bas_ast.specs.ExpressionTree.{
  expr_tree,
  term_tree,
  factor_tree,
  primary_tree,
  args_tree,
  actual_tree,
  target_tree,
  terms_tree,
  factors_tree,
  primaries_tree,
  actuals_tree,
  exprs_tree,
};
ghost use Rattle.bas_scope.specs.Nodes.{
  expr_nodes,
  terms_nodes,
  term_nodes,
  factors_nodes,
  factor_nodes,
  primaries_nodes,
  primary_nodes,
  args_nodes,
  actual_nodes,
  target_nodes,
  exprs_nodes,
};
ghost use Rattle.bas_uses.specs.Uses.{bare_names};

use bas_ast::{Actual, Args, Expr, Factor, FactorSign, Primary, Target, Term, TermSign};
use bas_base::Name;
use std::alloc::AllocError;

/// Appends the names that an expression uses.
#[cycle(uses)]
pub fn push_expr(names: &mut Vec<Name>, expr: &Expr) -> Result<(), AllocError>
    ensures { OnOk result (names.new.items ≡ names.old.items ++ bare_names (expr_nodes (expr_tree expr.now))) }
{
    push_term(names, expr.first.get())?;
    push_terms(names, expr.rest.as_slice())
}

#[cycle(uses)]
fn push_terms(names: &mut Vec<Name>, rest: &[(TermSign, Term)]) -> Result<(), AllocError>
    ensures { OnOk result (names.new.items ≡ names.old.items ++ bare_names (terms_nodes (terms_tree rest.now))) }
{
    for (_, next) in rest {
        push_term(names, next)?;
    }
    Ok(())
}

#[cycle(uses)]
fn push_term(names: &mut Vec<Name>, term: &Term) -> Result<(), AllocError>
    ensures { OnOk result (names.new.items ≡ names.old.items ++ bare_names (term_nodes (term_tree term.now))) }
{
    push_factor(names, &term.first)?;
    push_factors(names, term.rest.as_slice())
}

#[cycle(uses)]
fn push_factors(names: &mut Vec<Name>, rest: &[(FactorSign, Factor)]) -> Result<(), AllocError>
    ensures { OnOk result (names.new.items ≡ names.old.items ++ bare_names (factors_nodes (factors_tree rest.now))) }
{
    for (_, next) in rest {
        push_factor(names, next)?;
    }
    Ok(())
}

#[cycle(uses)]
fn push_factor(names: &mut Vec<Name>, factor: &Factor) -> Result<(), AllocError>
    ensures { OnOk result (names.new.items ≡ names.old.items ++ bare_names (factor_nodes (factor_tree factor.now))) }
{
    push_primary(names, &factor.base)?;
    push_primaries(names, factor.exponents.as_slice())
}

#[cycle(uses)]
fn push_primaries(names: &mut Vec<Name>, exponents: &[Primary]) -> Result<(), AllocError>
    ensures { OnOk result (names.new.items ≡ names.old.items ++ bare_names (primaries_nodes (primaries_tree exponents.now))) }
{
    for next in exponents {
        push_primary(names, next)?;
    }
    Ok(())
}

#[cycle(uses)]
fn push_primary(names: &mut Vec<Name>, primary: &Primary) -> Result<(), AllocError>
    ensures { OnOk result (names.new.items ≡ names.old.items ++ bare_names (primary_nodes (primary_tree primary.now))) }
{
    match primary {
        Primary::Numeral(_) => Ok(()),
        Primary::Quoted(_) => Ok(()),
        Primary::Group(inner) => push_expr(names, inner.get()),
        Primary::Name(name, args) => push_named(names, *name, args),
        Primary::Substring(target, first, last) => {
            push_target(names, target)?;
            push_expr(names, first.get())?;
            push_expr(names, last.get())
        }
    }
}

// A name with arguments is none of the names, but they may use some.
#[cycle(uses)]
fn push_named(names: &mut Vec<Name>, name: Name, args: &Args) -> Result<(), AllocError>
    ensures { OnOk result (names.new.items ≡ names.old.items ++ bare_names (primary_nodes (Named name (args_tree args.now)))) }
{
    if args.actuals.is_empty() {
        names.push(name)?;
        return Ok(());
    }
    push_actuals(names, args.actuals.as_slice())
}

#[cycle(uses)]
fn push_actuals(names: &mut Vec<Name>, actuals: &[Actual]) -> Result<(), AllocError>
    ensures { OnOk result (names.new.items ≡ names.old.items ++ bare_names (args_nodes (actuals_tree actuals.now))) }
{
    for next in actuals {
        push_actual(names, next)?;
    }
    Ok(())
}

// A name that is passed whole is used as it is in an expression.
#[cycle(uses)]
fn push_actual(names: &mut Vec<Name>, actual: &Actual) -> Result<(), AllocError>
    ensures { OnOk result (names.new.items ≡ names.old.items ++ bare_names (actual_nodes (actual_tree actual.now))) }
{
    match actual {
        Actual::Expr(expr) => push_expr(names, expr),
        Actual::Chan(number) => push_expr(names, number),
    }
}

/// Appends the names that a target uses, its own among them where it has no subscripts.
#[cycle(uses)]
pub fn push_target(names: &mut Vec<Name>, target: &Target) -> Result<(), AllocError>
    ensures { OnOk result (names.new.items ≡ names.old.items ++ bare_names (target_nodes (target_tree target.now))) }
{
    if target.subscripts.is_empty() {
        names.push(target.name)?;
        return Ok(());
    }
    push_exprs(names, target.subscripts.as_slice())
}

#[cycle(uses)]
fn push_exprs(names: &mut Vec<Name>, subscripts: &[Expr]) -> Result<(), AllocError>
    ensures { OnOk result (names.new.items ≡ names.old.items ++ bare_names (exprs_nodes (exprs_tree subscripts.now))) }
{
    for next in subscripts {
        push_expr(names, next)?;
    }
    Ok(())
}

/// Appends the names that arguments use.
pub fn push_args(names: &mut Vec<Name>, args: &Args) -> Result<(), AllocError>
    ensures { OnOk result (names.new.items ≡ names.old.items ++ bare_names (args_nodes (args_tree args.now))) }
{
    push_actuals(names, args.actuals.as_slice())
}
