//! Types, bounds, and what is declared.

ghost use Rattle.std.specs.Prelude.{◌≡◌, IfOk};
ghost use Rattle.bas_declaration.specs.Declarations as grammar;
ghost use Rattle.bas_declaration.specs.Declaring as reading;
ghost use Rattle.bas_declaration.specs.Reading.{all_with};

use crate::digits::{digits, size};
use crate::keyword::to_word;
use crate::mark::{asterisk, minus};
use bas_ast::{Bound, DeclaredItem, Items, TypeSpec};
use bas_base::{Name, Seq};
use bas_expr::TokenLine;
use std::alloc::{AllocError, Global};

type Read<T> = Result<Option<(T, usize)>, AllocError>;

/// `"*" digits [ "." digits ]`
#[tactic(auto, unfolding(crate::specs::Declaring::one_type, bas_form::specs::Reader::built, bas_form::specs::Reader::both, bas_form::specs::Reader::terminal))]
pub fn type_spec(line: &TokenLine<'_>, at: usize) -> Option<(TypeSpec, usize)>
    ensures { result ≡ reading.one_type line.now at }
{
    let Some(()) = asterisk(line, at) else {
        return None;
    };
    let at = at + 1;
    let Some(value) = size(line, at) else {
        return None;
    };
    Some((value, at + 1))
}

fn signed(minus: Option<()>, number: u32) -> i64
    ensures { result ≡ grammar.signed_of (minus, number) }
{
    match minus {
        Some(()) => -(number as i64),
        None => number as i64,
    }
}

/// `[ "-" ] digits`
#[tactic(auto, unfolding(crate::specs::Declaring::signed, bas_form::specs::Reader::built, bas_form::specs::Reader::both, bas_form::specs::Reader::optional, bas_form::specs::Reader::terminal))]
fn signed_digits(line: &TokenLine<'_>, at: usize) -> Option<(i64, usize)>
    ensures { result ≡ reading.signed line.now at }
{
    let sign = minus(line, at);
    let from = match sign {
        Some(()) => at + 1,
        None => at,
    };
    let Some(number) = digits(line, from) else {
        return None;
    };
    Some((signed(sign, number), from + 1))
}

/// `"TO" [ "-" ] digits`
#[tactic(auto, unfolding(crate::specs::Declaring::to_signed, bas_form::specs::Reader::built, bas_form::specs::Reader::both, bas_form::specs::Reader::terminal))]
fn to_signed(line: &TokenLine<'_>, at: usize) -> Option<(i64, usize)>
    ensures { result ≡ reading.to_signed line.now at }
{
    let Some(()) = to_word(line, at) else {
        return None;
    };
    let Some((next, after)) = signed_digits(line, at + 1) else {
        return None;
    };
    Some((next, after))
}

/// `[ [ "-" ] digits "TO" ] [ "-" ] digits`
#[tactic(auto, unfolding(crate::specs::Declaring::one_bound, bas_form::specs::Reader::built, bas_form::specs::Reader::both, bas_form::specs::Reader::optional))]
fn bound(line: &TokenLine<'_>, at: usize) -> Option<(Bound, usize)>
    ensures { result ≡ reading.one_bound line.now at }
{
    let Some((first, at)) = signed_digits(line, at) else {
        return None;
    };
    match to_signed(line, at) {
        Some((high, after)) => Some((
            Bound {
                low: Some(first),
                high,
            },
            after,
        )),
        None => Some((
            Bound {
                low: None,
                high: first,
            },
            at,
        )),
    }
}

/// `"," bound`
#[tactic(auto, unfolding(bas_form::specs::Reader::built, bas_form::specs::Reader::both, bas_form::specs::Reader::terminal))]
fn next_bound(line: &TokenLine<'_>, at: usize) -> Option<(Bound, usize)>
    ensures { result ≡ reading.next_bound line.now at }
{
    let Some(()) = line.comma(at) else {
        return None;
    };
    let Some((next, after)) = bound(line, at + 1) else {
        return None;
    };
    Some((next, after))
}

/// `{ "," bound }`
fn more_bounds(
    alloc: Global,
    line: &TokenLine<'_>,
    mut at: usize,
    first: Bound,
) -> Result<(Vec<Bound>, usize), AllocError>
    ensures { IfOk result (λ r. (r.0.items, r.1) ≡ all_with (reading.next_bound line.now) line.now first at) }
{
    let mut all = Vec::new(alloc);
    all.push(first)?;
    'more: while let Some((next, after)) = next_bound(line, at) {
        all.push(next)?;
        at = after;
    }
    Ok((all, at))
}

/// `bound { "," bound }`
#[tactic(auto, unfolding(crate::specs::Declaring::bound_list, bas_form::specs::Reader::built, bas_form::specs::Reader::both, bas_form::specs::Reader::repeated))]
fn bound_list(alloc: Global, line: &TokenLine<'_>, at: usize) -> Read<Seq<Bound>>
    ensures { IfOk result (λ o. o ≡ reading.bound_list line.now at) }
{
    let Some((first, after)) = bound(line, at) else {
        return Ok(None);
    };
    let (all, end) = more_bounds(alloc, line, after, first)?;
    Ok(Some((Seq::of(all), end)))
}

/// `"(" bound { "," bound } ")"`
#[tactic(auto, unfolding(crate::specs::Declaring::bounds, bas_form::specs::Reader::built, bas_form::specs::Reader::both, bas_form::specs::Reader::terminal))]
fn bounds(alloc: Global, line: &TokenLine<'_>, at: usize) -> Read<Seq<Bound>>
    ensures { IfOk result (λ o. o ≡ reading.bounds line.now at) }
{
    let Some(()) = line.opening(at) else {
        return Ok(None);
    };
    let Some((bounds, close)) = bound_list(alloc, line, at + 1)? else {
        return Ok(None);
    };
    let Some(()) = line.closing(close) else {
        return Ok(None);
    };
    Ok(Some((bounds, close + 1)))
}

fn bounds_or_none(alloc: Global, bounds: Option<Seq<Bound>>) -> Seq<Bound>
    ensures { result ≡ grammar.bounds_of bounds }
{
    match bounds {
        Some(bounds) => bounds,
        None => Seq::of(Vec::new(alloc)),
    }
}

/// `name [ "(" bound { "," bound } ")" ]`
#[tactic(auto, unfolding(crate::specs::Declaring::dimensioned, bas_form::specs::Reader::both, bas_form::specs::Reader::optional, bas_form::specs::Reader::terminal))]
fn dimensioned(alloc: Global, line: &TokenLine<'_>, at: usize) -> Read<(Name, Option<Seq<Bound>>)>
    ensures { IfOk result (λ o. o ≡ reading.dimensioned line.now at) }
{
    let Some(name) = line.own_name(at) else {
        return Ok(None);
    };
    let at = at + 1;
    match bounds(alloc, line, at)? {
        Some((bounds, after)) => Ok(Some(((name, Some(bounds)), after))),
        None => Ok(Some(((name, None), at))),
    }
}

/// `name [ "(" bound { "," bound } ")" ] [ type ]`
#[tactic(auto, unfolding(crate::specs::Declaring::one_declared, bas_form::specs::Reader::built, bas_form::specs::Reader::both, bas_form::specs::Reader::optional))]
fn declared(alloc: Global, line: &TokenLine<'_>, at: usize) -> Read<DeclaredItem>
    ensures { IfOk result (λ o. o ≡ reading.one_declared line.now at) }
{
    let Some(((name, bounds), at)) = dimensioned(alloc, line, at)? else {
        return Ok(None);
    };
    let bounds = bounds_or_none(alloc, bounds);
    match type_spec(line, at) {
        Some((spec, after)) => Ok(Some((
            DeclaredItem {
                name,
                bounds,
                spec: Some(spec),
            },
            after,
        ))),
        None => Ok(Some((
            DeclaredItem {
                name,
                bounds,
                spec: None,
            },
            at,
        ))),
    }
}

/// `"," item`
#[tactic(auto, unfolding(bas_form::specs::Reader::built, bas_form::specs::Reader::both, bas_form::specs::Reader::terminal))]
fn next_declared(alloc: Global, line: &TokenLine<'_>, at: usize) -> Read<DeclaredItem>
    ensures { IfOk result (λ o. o ≡ reading.next_declared line.now at) }
{
    let Some(()) = line.comma(at) else {
        return Ok(None);
    };
    let Some((next, after)) = declared(alloc, line, at + 1)? else {
        return Ok(None);
    };
    Ok(Some((next, after)))
}

/// `{ "," item }`
fn more_declared(
    alloc: Global,
    line: &TokenLine<'_>,
    mut at: usize,
    first: DeclaredItem,
) -> Result<(Vec<DeclaredItem>, usize), AllocError>
    ensures { IfOk result (λ r. (r.0.items, r.1) ≡ all_with (reading.next_declared line.now) line.now first at) }
{
    let mut all = Vec::new(alloc);
    all.push(first)?;
    'more: while let Some((next, after)) = next_declared(alloc, line, at)? {
        all.push(next)?;
        at = after;
    }
    Ok((all, at))
}

/// `item { "," item }`
#[tactic(auto, unfolding(crate::specs::Declaring::declared_list, bas_form::specs::Reader::built, bas_form::specs::Reader::both, bas_form::specs::Reader::repeated))]
fn declared_list(alloc: Global, line: &TokenLine<'_>, at: usize) -> Read<Seq<DeclaredItem>>
    ensures { IfOk result (λ o. o ≡ reading.declared_list line.now at) }
{
    let Some((first, after)) = declared(alloc, line, at)? else {
        return Ok(None);
    };
    let (all, end) = more_declared(alloc, line, after, first)?;
    Ok(Some((Seq::of(all), end)))
}

/// `item { "," item }`
#[tactic(auto, unfolding(crate::specs::Declaring::items, bas_form::specs::Reader::built))]
pub fn items(alloc: Global, line: &TokenLine<'_>, at: usize) -> Read<Items>
    ensures { IfOk result (λ o. o ≡ reading.items line.now at) }
{
    let Some((items, after)) = declared_list(alloc, line, at)? else {
        return Ok(None);
    };
    Ok(Some((Items { items }, after)))
}

/// `"," name`
#[tactic(auto, unfolding(bas_form::specs::Reader::built, bas_form::specs::Reader::both, bas_form::specs::Reader::terminal))]
fn next_name(line: &TokenLine<'_>, at: usize) -> Option<(Name, usize)>
    ensures { result ≡ reading.next_name line.now at }
{
    let Some(()) = line.comma(at) else {
        return None;
    };
    let at = at + 1;
    let Some(name) = line.own_name(at) else {
        return None;
    };
    Some((name, at + 1))
}

/// `{ "," name }`
fn more_names(
    alloc: Global,
    line: &TokenLine<'_>,
    mut at: usize,
    first: Name,
) -> Result<(Vec<Name>, usize), AllocError>
    ensures { IfOk result (λ r. (r.0.items, r.1) ≡ all_with (reading.next_name line.now) line.now first at) }
{
    let mut all = Vec::new(alloc);
    all.push(first)?;
    'more: while let Some(found) = next_name(line, at) {
        all.push(found.0)?;
        at = found.1;
    }
    Ok((all, at))
}

/// `name { "," name }`
#[tactic(auto, unfolding(crate::specs::Declaring::names, bas_form::specs::Reader::built, bas_form::specs::Reader::both, bas_form::specs::Reader::repeated, bas_form::specs::Reader::terminal))]
pub fn names(alloc: Global, line: &TokenLine<'_>, at: usize) -> Read<Seq<Name>>
    ensures { IfOk result (λ o. o ≡ reading.names line.now at) }
{
    let Some(first) = line.own_name(at) else {
        return Ok(None);
    };
    let (all, end) = more_names(alloc, line, at + 1, first)?;
    Ok(Some((Seq::of(all), end)))
}
