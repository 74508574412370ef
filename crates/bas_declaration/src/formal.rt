//! Formal parameters.

ghost use Rattle.std.specs.Prelude.{◌≡◌, ◌≤◌, length, IfOk, IfSome};
ghost use Rattle.std.specs.Option.{option_map};
ghost use Rattle.bas_form.specs.Reader.{all_from, terminal};
ghost use Rattle.bas_expr.specs.Marks.{at_mark, comma};
ghost use Rattle.bas_declaration.specs.Parts as grammar;
ghost use Rattle.bas_declaration.specs.Reading as reading;

use crate::digits::digits;
use bas_ast::{Formal, Formals};
use bas_base::{Name, Seq};
use bas_expr::TokenLine;
use std::alloc::{AllocError, Global};

type Read<T> = Result<Option<(T, usize)>, AllocError>;

/// The number of commas that stand from a place on, and the place behind them.
fn count_commas(line: &TokenLine<'_>, mut at: usize) -> (u32, usize)
    requires { at ≤ 4096 }
    ensures count { result.0 ≡ length (all_from (terminal (at_mark comma line.now)) (length line.now) at).0 }
    ensures end { result.1 ≡ (all_from (terminal (at_mark comma line.now)) (length line.now) at).1 }
    ensures few { result.0 ≤ 4096 }
{
    let mut count: u32 = 0;
    'more: while let Some(()) = line.comma(at) {
        count += 1;
        at += 1;
    }
    (count, at)
}

/// `"(" { "," } ")"`, with the number of commas.
#[tactic(auto, unfolding(crate::specs::Reading::commas, bas_form::specs::Reader::built, bas_form::specs::Reader::both, bas_form::specs::Reader::terminal, bas_form::specs::Reader::repeated))]
fn commas(line: &TokenLine<'_>, at: usize) -> Option<(u32, usize)>
    ensures value { result ≡ option_map reading.counted (reading.commas line.now at) }
    ensures few { IfSome result (λ r. r.0 ≤ 4096) }
{
    let Some(()) = line.opening(at) else {
        return None;
    };
    let (count, close) = count_commas(line, at + 1);
    let Some(()) = line.closing(close) else {
        return None;
    };
    Some((count, close + 1))
}

/// `name [ "(" { "," } ")" ]`
#[tactic(auto, unfolding(crate::specs::Reading::name_formal, bas_form::specs::Reader::built, bas_form::specs::Reader::both, bas_form::specs::Reader::optional, bas_form::specs::Reader::terminal))]
fn name_formal(line: &TokenLine<'_>, at: usize) -> Option<(Formal, usize)>
    ensures { result ≡ reading.name_formal line.now at }
{
    let Some(name) = line.own_name(at) else {
        return None;
    };
    let at = at + 1;
    match commas(line, at) {
        Some((count, after)) => Some((Formal::Name(name, 1 + count), after)),
        None => Some((Formal::Name(name, 0), at)),
    }
}

/// `"#" digits`
#[tactic(auto, unfolding(crate::specs::Reading::chan_formal, bas_form::specs::Reader::built, bas_form::specs::Reader::both, bas_form::specs::Reader::terminal))]
fn chan_formal(line: &TokenLine<'_>, at: usize) -> Option<(Formal, usize)>
    ensures { result ≡ reading.chan_formal line.now at }
{
    let Some(()) = line.hash(at) else {
        return None;
    };
    let at = at + 1;
    let Some(number) = digits(line, at) else {
        return None;
    };
    Some((Formal::Chan(number), at + 1))
}

/// `name [ "(" { "," } ")" ] | "#" digits`
#[tactic(auto, unfolding(crate::specs::Reading::one_formal, bas_form::specs::Reader::either))]
fn formal(line: &TokenLine<'_>, at: usize) -> Option<(Formal, usize)>
    ensures { result ≡ reading.one_formal line.now at }
{
    match name_formal(line, at) {
        Some(found) => Some(found),
        None => chan_formal(line, at),
    }
}

/// `"," formal`
#[tactic(auto, unfolding(bas_form::specs::Reader::built, bas_form::specs::Reader::both, bas_form::specs::Reader::terminal))]
fn next_formal(line: &TokenLine<'_>, at: usize) -> Option<(Formal, usize)>
    ensures { result ≡ reading.next_formal line.now at }
{
    let Some(()) = line.comma(at) else {
        return None;
    };
    let Some((next, after)) = formal(line, at + 1) else {
        return None;
    };
    Some((next, after))
}

/// `{ "," formal }`
fn more_formals(
    alloc: Global,
    line: &TokenLine<'_>,
    mut at: usize,
    first: Formal,
) -> Result<(Vec<Formal>, usize), AllocError>
    ensures { IfOk result (λ r. (r.0.items, r.1) ≡ reading.all_with (reading.next_formal line.now) line.now first at) }
{
    let mut all = Vec::new(alloc);
    all.push(first)?;
    'more: while let Some((next, after)) = next_formal(line, at) {
        all.push(next)?;
        at = after;
    }
    Ok((all, at))
}

/// `formal { "," formal }`
#[tactic(auto, unfolding(crate::specs::Reading::formal_list, bas_form::specs::Reader::built, bas_form::specs::Reader::both, bas_form::specs::Reader::repeated))]
fn formal_list(alloc: Global, line: &TokenLine<'_>, at: usize) -> Read<Seq<Formal>>
    ensures { IfOk result (λ o. o ≡ reading.formal_list line.now at) }
{
    let Some((first, after)) = formal(line, at) else {
        return Ok(None);
    };
    let (all, end) = more_formals(alloc, line, after, first)?;
    Ok(Some((Seq::of(all), end)))
}

/// `"(" formal { "," formal } ")"`
#[tactic(auto, unfolding(crate::specs::Reading::formals, bas_form::specs::Reader::built, bas_form::specs::Reader::both, bas_form::specs::Reader::terminal))]
fn formals(alloc: Global, line: &TokenLine<'_>, at: usize) -> Read<Seq<Formal>>
    ensures { IfOk result (λ o. o ≡ reading.formals line.now at) }
{
    let Some(()) = line.opening(at) else {
        return Ok(None);
    };
    let Some((formals, close)) = formal_list(alloc, line, at + 1)? else {
        return Ok(None);
    };
    let Some(()) = line.closing(close) else {
        return Ok(None);
    };
    Ok(Some((formals, close + 1)))
}

fn no_formals(alloc: Global) -> Formals
    ensures { result ≡ grammar.no_formals }
{
    Formals {
        formals: Seq::of(Vec::new(alloc)),
    }
}

/// `name [ formals ]`
#[tactic(auto, unfolding(crate::specs::Reading::heading, bas_form::specs::Reader::built, bas_form::specs::Reader::both, bas_form::specs::Reader::optional, bas_form::specs::Reader::terminal))]
pub fn heading(alloc: Global, line: &TokenLine<'_>, at: usize) -> Read<(Name, Formals)>
    ensures { IfOk result (λ o. o ≡ reading.heading line.now at) }
{
    let Some(name) = line.own_name(at) else {
        return Ok(None);
    };
    let at = at + 1;
    match formals(alloc, line, at)? {
        Some((formals, after)) => Ok(Some(((name, Formals { formals }), after))),
        None => Ok(Some(((name, no_formals(alloc)), at))),
    }
}
