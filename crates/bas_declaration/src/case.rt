//! What a `CASE` line takes.

ghost use Rattle.std.specs.Prelude.{◌≡◌, IfOk};
ghost use Rattle.bas_declaration.specs.Reading as reading;

use crate::keyword::{is_word, to_word};
use bas_ast::{Case, Const};
use bas_base::Seq;
use bas_expr::TokenLine;
use std::alloc::{AllocError, Global};

type Read<T> = Result<Option<(T, usize)>, AllocError>;

/// `[ "+" | "-" ] numeral`
#[tactic(auto, unfolding(crate::specs::Reading::signed_numeral, bas_form::specs::Reader::built, bas_form::specs::Reader::both, bas_form::specs::Reader::optional, bas_form::specs::Reader::terminal))]
fn signed_numeral(line: &TokenLine<'_>, at: usize) -> Option<(Const, usize)>
    ensures { result ≡ reading.signed_numeral line.now at }
{
    let sign = line.sign(at);
    let from = match sign {
        Some(_) => at + 1,
        None => at,
    };
    let Some(value) = line.numeral(from) else {
        return None;
    };
    Some((Const::Numeral(sign, value), from + 1))
}

/// `[ "+" | "-" ] numeral | quoted`
#[tactic(auto, unfolding(crate::specs::Reading::one_const, bas_form::specs::Reader::either, bas_form::specs::Reader::built, bas_form::specs::Reader::terminal))]
fn constant(alloc: Global, line: &TokenLine<'_>, at: usize) -> Read<Const>
    ensures { IfOk result (λ o. o ≡ reading.one_const line.now at) }
{
    if let Some(found) = signed_numeral(line, at) {
        return Ok(Some(found));
    }
    match line.quoted(alloc, at)? {
        Some(text) => Ok(Some((Const::Quoted(text), at + 1))),
        None => Ok(None),
    }
}

/// `"TO" const`
#[tactic(auto, unfolding(crate::specs::Reading::to_const, bas_form::specs::Reader::built, bas_form::specs::Reader::both, bas_form::specs::Reader::terminal))]
fn to_const(alloc: Global, line: &TokenLine<'_>, at: usize) -> Read<Const>
    ensures { IfOk result (λ o. o ≡ reading.to_const line.now at) }
{
    let Some(()) = to_word(line, at) else {
        return Ok(None);
    };
    let Some((high, after)) = constant(alloc, line, at + 1)? else {
        return Ok(None);
    };
    Ok(Some((high, after)))
}

/// `const [ "TO" const ]`
#[tactic(auto, unfolding(crate::specs::Reading::const_case, bas_form::specs::Reader::built, bas_form::specs::Reader::both, bas_form::specs::Reader::optional))]
fn const_case(alloc: Global, line: &TokenLine<'_>, at: usize) -> Read<Case>
    ensures { IfOk result (λ o. o ≡ reading.const_case line.now at) }
{
    let Some((low, at)) = constant(alloc, line, at)? else {
        return Ok(None);
    };
    match to_const(alloc, line, at)? {
        Some((high, after)) => Ok(Some((Case::To(low, high), after))),
        None => Ok(Some((Case::Const(low), at))),
    }
}

/// `"IS" rel const`
#[tactic(auto, unfolding(crate::specs::Reading::is_case, bas_form::specs::Reader::built, bas_form::specs::Reader::both, bas_form::specs::Reader::terminal))]
fn is_case(alloc: Global, line: &TokenLine<'_>, at: usize) -> Read<Case>
    ensures { IfOk result (λ o. o ≡ reading.is_case line.now at) }
{
    let Some(()) = is_word(line, at) else {
        return Ok(None);
    };
    let at = at + 1;
    let Some(rel) = line.rel(at) else {
        return Ok(None);
    };
    let Some((value, after)) = constant(alloc, line, at + 1)? else {
        return Ok(None);
    };
    Ok(Some((Case::Is(rel, value), after)))
}

/// `const | const "TO" const | "IS" rel const`
#[tactic(auto, unfolding(crate::specs::Reading::one_case, bas_form::specs::Reader::either))]
fn case(alloc: Global, line: &TokenLine<'_>, at: usize) -> Read<Case>
    ensures { IfOk result (λ o. o ≡ reading.one_case line.now at) }
{
    match const_case(alloc, line, at)? {
        Some(found) => Ok(Some(found)),
        None => is_case(alloc, line, at),
    }
}

/// `"," case`
#[tactic(auto, unfolding(bas_form::specs::Reader::built, bas_form::specs::Reader::both, bas_form::specs::Reader::terminal))]
fn next_case(alloc: Global, line: &TokenLine<'_>, at: usize) -> Read<Case>
    ensures { IfOk result (λ o. o ≡ reading.next_case line.now at) }
{
    let Some(()) = line.comma(at) else {
        return Ok(None);
    };
    let Some((next, after)) = case(alloc, line, at + 1)? else {
        return Ok(None);
    };
    Ok(Some((next, after)))
}

/// `{ "," case }`
fn more_cases(
    alloc: Global,
    line: &TokenLine<'_>,
    mut at: usize,
    first: Case,
) -> Result<(Vec<Case>, usize), AllocError>
    ensures { IfOk result (λ r. (r.0.items, r.1) ≡ reading.all_with (reading.next_case line.now) line.now first at) }
{
    let mut all = Vec::new(alloc);
    all.push(first)?;
    'more: while let Some((next, after)) = next_case(alloc, line, at)? {
        all.push(next)?;
        at = after;
    }
    Ok((all, at))
}

/// `case { "," case }`
#[tactic(auto, unfolding(crate::specs::Reading::cases, bas_form::specs::Reader::built, bas_form::specs::Reader::both, bas_form::specs::Reader::repeated))]
pub fn cases(alloc: Global, line: &TokenLine<'_>, at: usize) -> Read<Seq<Case>>
    ensures { IfOk result (λ o. o ≡ reading.cases line.now at) }
{
    let Some((first, after)) = case(alloc, line, at)? else {
        return Ok(None);
    };
    let (all, end) = more_cases(alloc, line, after, first)?;
    Ok(Some((Seq::of(all), end)))
}
