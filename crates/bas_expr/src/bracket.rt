//! What stands in parentheses behind a name.

ghost use Rattle.std.specs.Prelude.{◌≡◌, map, IfOk};
ghost use Rattle.std.specs.List.{list_all};
ghost use Rattle.bas_expr.specs.Reading.{is_plain, expr_in};

use bas_ast::{Actual, Expr};
use bas_base::Seq;
use sqlite_items::Items;
use std::alloc::{AllocError, Global};

/// Arguments, or the ends of a substring.
#[derive(Drop)]
pub enum Bracket {
    List(Seq<Actual>),
    Range(Expr, Expr),
}

#[tactic(auto, using(crate::proofs::ActualLaws::actual_laws))]
fn is_plain(actual: &Actual) -> bool
    ensures { result ≡ is_plain actual.now }
{
    match actual {
        Actual::Expr(_) => true,
        Actual::Chan(_) => false,
    }
}

/// Whether each argument is an expression, so that they may be subscripts.
pub fn are_plain(actuals: &[Actual]) -> bool
    ensures { result ≡ list_all is_plain actuals.now }
{
    actuals.iter().all(|actual| is_plain(actual))
}

#[tactic(auto, using(crate::proofs::ActualLaws::actual_laws))]
fn expr_in(actual: Actual) -> Expr
    ensures { result ≡ expr_in actual }
{
    match actual {
        Actual::Expr(expr) => expr,
        Actual::Chan(expr) => expr,
    }
}

/// The expressions of arguments, as subscripts.
pub fn subscripts(alloc: Global, actuals: Seq<Actual>) -> Result<Items<Expr>, AllocError>
    ensures { IfOk result (λ exprs. exprs ≡ map expr_in actuals) }
{
    let mut exprs = Items::new(alloc);
    'actuals: for actual in actuals.into_items() {
        exprs.push(expr_in(actual))?;
    }
    Ok(exprs)
}
