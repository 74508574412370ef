//! Calls of procedures.

ghost use Rattle.std.specs.Prelude.{◌≡◌, IfOk};
ghost use Rattle.bas_declaration.specs.Reading.{all_with};
ghost use Rattle.bas_statement.specs.Reading as reading;

use crate::verb::verb_at;
use bas_ast::{Actual, Args, Plain};
use bas_base::Seq;
use bas_expr::{TokenLine, longest_expr};
use bas_list::INNER_LEVELS;
use sqlite_items::Items;
use std::alloc::{AllocError, Global};

type Read<T> = Result<Option<(T, usize)>, AllocError>;

/// `expr | "#" expr`
#[tactic(auto, unfolding(crate::specs::Reading::argument, bas_expr::specs::Reading::one_actual))]
fn argument(alloc: Global, line: &TokenLine<'_>, at: usize) -> Read<Actual>
    ensures { IfOk result (λ o. o ≡ reading.argument line.now at) }
{
    match line.hash(at) {
        Some(()) => match longest_expr(alloc, line, at + 1, INNER_LEVELS)? {
            Some((number, after)) => Ok(Some((Actual::Chan(number), after))),
            None => Ok(None),
        },
        None => match longest_expr(alloc, line, at, INNER_LEVELS)? {
            Some((value, after)) => Ok(Some((Actual::Expr(value), after))),
            None => Ok(None),
        },
    }
}

/// `"," actual`
#[tactic(auto, unfolding(crate::specs::Reading::argument, bas_form::specs::Reader::built, bas_form::specs::Reader::both, bas_form::specs::Reader::terminal))]
fn next_argument(alloc: Global, line: &TokenLine<'_>, at: usize) -> Read<Actual>
    ensures { IfOk result (λ o. o ≡ reading.next_argument line.now at) }
{
    let Some(()) = line.comma(at) else {
        return Ok(None);
    };
    let Some((next, after)) = argument(alloc, line, at + 1)? else {
        return Ok(None);
    };
    Ok(Some((next, after)))
}

/// `{ "," actual }`
fn more_arguments(
    alloc: Global,
    line: &TokenLine<'_>,
    mut at: usize,
    first: Actual,
) -> Result<(Vec<Actual>, usize), AllocError>
    ensures { IfOk result (λ r. (r.0.items, r.1) ≡ all_with (reading.next_argument line.now) line.now first at) }
{
    let mut all = Vec::new(alloc);
    all.push(first)?;
    'more: while let Some((next, after)) = next_argument(alloc, line, at)? {
        all.push(next)?;
        at = after;
    }
    Ok((all, at))
}

/// `actual { "," actual }`
#[tactic(auto, unfolding(crate::specs::Reading::argument_list, crate::specs::Reading::argument, bas_form::specs::Reader::built, bas_form::specs::Reader::both, bas_form::specs::Reader::repeated))]
fn argument_list(alloc: Global, line: &TokenLine<'_>, at: usize) -> Read<Seq<Actual>>
    ensures { IfOk result (λ o. o ≡ reading.argument_list line.now at) }
{
    let Some((first, after)) = argument(alloc, line, at)? else {
        return Ok(None);
    };
    let (all, end) = more_arguments(alloc, line, after, first)?;
    Ok(Some((Seq::of(all), end)))
}

/// `"(" actual { "," actual } ")"`
#[tactic(auto, unfolding(crate::specs::Reading::arguments, bas_form::specs::Reader::built, bas_form::specs::Reader::both, bas_form::specs::Reader::terminal))]
fn arguments(alloc: Global, line: &TokenLine<'_>, at: usize) -> Read<Seq<Actual>>
    ensures { IfOk result (λ o. o ≡ reading.arguments line.now at) }
{
    let Some(()) = line.opening(at) else {
        return Ok(None);
    };
    let Some((all, close)) = argument_list(alloc, line, at + 1)? else {
        return Ok(None);
    };
    let Some(()) = line.closing(close) else {
        return Ok(None);
    };
    Ok(Some((all, close + 1)))
}

/// `"CALL" name [ "(" actual { "," actual } ")" ]`
#[tactic(auto, unfolding(crate::specs::Reading::call_statement, bas_form::specs::Reader::built, bas_form::specs::Reader::both, bas_form::specs::Reader::optional, bas_form::specs::Reader::terminal))]
pub fn call_statement(alloc: Global, line: &TokenLine<'_>, at: usize) -> Read<Plain>
    ensures { IfOk result (λ o. o ≡ reading.call_statement line.now at) }
{
    let Some(_) = verb_at(line, at) else {
        return Ok(None);
    };
    let at = at + 1;
    let Some(name) = line.own_name(at) else {
        return Ok(None);
    };
    let at = at + 1;
    match arguments(alloc, line, at)? {
        Some((all, after)) => {
            let actuals = Items::from_vec(all.into_items());
            Ok(Some((Plain::Call(name, Args { actuals }), after)))
        }
        None => {
            let actuals = Items::new(alloc);
            Ok(Some((Plain::Call(name, Args { actuals }), at)))
        }
    }
}
