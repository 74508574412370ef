//! Statements that store, print and hand on values.

ghost use Rattle.std.specs.Prelude.{◌≡◌, ◌<◌, IfOk, IfSome};
ghost use Rattle.bas_declaration.specs.Parts.{equals};
ghost use Rattle.bas_statement.specs.Reading as reading;

use crate::verb::verb_at;
use bas_ast::{Expr, Plain, Rel};
use bas_base::Seq;
use bas_declaration::keyword::{exception_word, spells};
use bas_expr::{LEVELS, TokenLine, longest_expr};
use bas_list::{enclosed_values, print_list, targets};
use std::alloc::{AllocError, Global};

type Read<T> = Result<Option<(T, usize)>, AllocError>;

/// The `=` at a place.
fn equals(line: &TokenLine<'_>, at: usize) -> Option<()>
    ensures value { result ≡ equals line.now at }
    ensures within { IfSome result (λ _. at < 4096) }
{
    match line.rel(at) {
        Some(Rel::Equal) => Some(()),
        _ => None,
    }
}

/// `"=" expr`
#[tactic(auto, unfolding(crate::specs::Reading::equals_value, bas_form::specs::Reader::both, bas_form::specs::Reader::terminal))]
fn equals_value(alloc: Global, line: &TokenLine<'_>, at: usize) -> Read<((), Expr)>
    ensures { IfOk result (λ o. o ≡ reading.equals_value line.now at) }
{
    let Some(()) = equals(line, at) else {
        return Ok(None);
    };
    match longest_expr(alloc, line, at + 1, LEVELS)? {
        Some((value, after)) => Ok(Some((((), value), after))),
        None => Ok(None),
    }
}

/// `"LET" targets "=" expr`
#[tactic(auto, unfolding(crate::specs::Reading::let_statement, bas_form::specs::Reader::built, bas_form::specs::Reader::both, bas_form::specs::Reader::terminal))]
pub fn let_statement(alloc: Global, line: &TokenLine<'_>, at: usize) -> Read<Plain>
    ensures { IfOk result (λ o. o ≡ reading.let_statement line.now at) }
{
    let Some(_) = verb_at(line, at) else {
        return Ok(None);
    };
    let Some((targets, at)) = targets(alloc, line, at + 1)? else {
        return Ok(None);
    };
    match equals_value(alloc, line, at)? {
        Some((((), value), after)) => Ok(Some((Plain::Let(targets, value), after))),
        None => Ok(None),
    }
}

/// `"PRINT" plist`
#[tactic(auto, unfolding(crate::specs::Reading::print_statement, bas_form::specs::Reader::built, bas_form::specs::Reader::both, bas_form::specs::Reader::terminal))]
pub fn print_statement(alloc: Global, line: &TokenLine<'_>, at: usize) -> Read<Plain>
    ensures { IfOk result (λ o. o ≡ reading.print_statement line.now at) }
{
    let Some(_) = verb_at(line, at) else {
        return Ok(None);
    };
    let (list, after) = print_list(alloc, line, at + 1)?;
    Ok(Some((Plain::Print(list), after)))
}

/// `"EXCEPTION" expr`
#[tactic(auto, unfolding(crate::specs::Reading::exception, bas_form::specs::Reader::built, bas_form::specs::Reader::both, bas_form::specs::Reader::terminal))]
fn exception(alloc: Global, line: &TokenLine<'_>, at: usize) -> Read<Expr>
    ensures { IfOk result (λ o. o ≡ reading.exception line.now at) }
{
    let Some(()) = exception_word(line, at) else {
        return Ok(None);
    };
    match longest_expr(alloc, line, at + 1, LEVELS)? {
        Some((number, after)) => Ok(Some((number, after))),
        None => Ok(None),
    }
}

/// `"CAUSE" "EXCEPTION" expr`
#[tactic(auto, unfolding(crate::specs::Reading::cause_statement, bas_form::specs::Reader::built, bas_form::specs::Reader::both, bas_form::specs::Reader::terminal))]
pub fn cause_statement(alloc: Global, line: &TokenLine<'_>, at: usize) -> Read<Plain>
    ensures { IfOk result (λ o. o ≡ reading.cause_statement line.now at) }
{
    let Some(_) = verb_at(line, at) else {
        return Ok(None);
    };
    match exception(alloc, line, at + 1)? {
        Some((number, after)) => Ok(Some((Plain::CauseException(number), after))),
        None => Ok(None),
    }
}

/// `"WITH" "(" expr { "," expr } ")"`
#[tactic(auto, unfolding(crate::specs::Reading::with_values, bas_form::specs::Reader::built, bas_form::specs::Reader::both, bas_form::specs::Reader::terminal))]
fn with_values(alloc: Global, line: &TokenLine<'_>, at: usize) -> Read<Seq<Expr>>
    ensures { IfOk result (λ o. o ≡ reading.with_values line.now at) }
{
    let Some(()) = spells(line, at, b"WITH") else {
        return Ok(None);
    };
    match enclosed_values(alloc, line, at + 1)? {
        Some((values, after)) => Ok(Some((values, after))),
        None => Ok(None),
    }
}

/// `"CHAIN" expr [ "WITH" "(" expr { "," expr } ")" ]`
#[tactic(auto, unfolding(crate::specs::Reading::chain_statement, bas_form::specs::Reader::built, bas_form::specs::Reader::both, bas_form::specs::Reader::optional, bas_form::specs::Reader::terminal))]
pub fn chain_statement(alloc: Global, line: &TokenLine<'_>, at: usize) -> Read<Plain>
    ensures { IfOk result (λ o. o ≡ reading.chain_statement line.now at) }
{
    let Some(_) = verb_at(line, at) else {
        return Ok(None);
    };
    let Some((program, at)) = longest_expr(alloc, line, at + 1, LEVELS)? else {
        return Ok(None);
    };
    match with_values(alloc, line, at)? {
        Some((values, after)) => Ok(Some((Plain::Chain(program, values), after))),
        None => {
            let values = Seq::of(Vec::new(alloc));
            Ok(Some((Plain::Chain(program, values), at)))
        }
    }
}
