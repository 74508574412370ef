//! Print lists.

ghost use Rattle.std.specs.Prelude.{◌≡◌, length, Some, IfOk};
ghost use Rattle.bas_form.specs.Reader.{all_from, optional};
ghost use Rattle.bas_list.specs.Reading as reading;

use crate::INNER_LEVELS;
use crate::word::separator;
use bas_ast::{Expr, Pitem, Plist, Sep};
use bas_base::Seq;
use bas_declaration::keyword::spells;
use bas_expr::{LEVELS, TokenLine, longest_expr};
use std::alloc::{AllocError, Global};

type Read<T> = Result<Option<(T, usize)>, AllocError>;

/// `"(" expr ")"`
#[tactic(auto, unfolding(crate::specs::Reading::enclosed_expr, bas_form::specs::Reader::built, bas_form::specs::Reader::both, bas_form::specs::Reader::terminal))]
fn enclosed_expr(alloc: Global, line: &TokenLine<'_>, at: usize) -> Read<Expr>
    ensures { IfOk result (λ o. o ≡ reading.enclosed_expr line.now at) }
{
    let Some(()) = line.opening(at) else {
        return Ok(None);
    };
    let Some((value, close)) = longest_expr(alloc, line, at + 1, INNER_LEVELS)? else {
        return Ok(None);
    };
    let Some(()) = line.closing(close) else {
        return Ok(None);
    };
    Ok(Some((value, close + 1)))
}

/// `"TAB" "(" expr ")"`
#[tactic(auto, unfolding(crate::specs::Reading::tab_item, bas_form::specs::Reader::built, bas_form::specs::Reader::both, bas_form::specs::Reader::terminal))]
fn tab_item(alloc: Global, line: &TokenLine<'_>, at: usize) -> Read<Expr>
    ensures { IfOk result (λ o. o ≡ reading.tab_item line.now at) }
{
    let Some(()) = spells(line, at, b"TAB") else {
        return Ok(None);
    };
    let Some((column, after)) = enclosed_expr(alloc, line, at + 1)? else {
        return Ok(None);
    };
    Ok(Some((column, after)))
}

/// `expr | "TAB" "(" expr ")"`
#[tactic(auto, unfolding(crate::specs::Reading::print_item, bas_form::specs::Reader::either, bas_form::specs::Reader::built))]
fn print_item(alloc: Global, line: &TokenLine<'_>, at: usize) -> Read<Pitem>
    ensures { IfOk result (λ o. o ≡ reading.print_item line.now at) }
{
    if let Some((value, after)) = longest_expr(alloc, line, at, LEVELS)? {
        return Ok(Some((Pitem::Expr(value), after)));
    }
    match tab_item(alloc, line, at)? {
        Some((column, after)) => Ok(Some((Pitem::Tab(column), after))),
        None => Ok(None),
    }
}

/// `[ pitem ]`
#[tactic(auto, unfolding(bas_form::specs::Reader::optional))]
fn perhaps_item(
    alloc: Global,
    line: &TokenLine<'_>,
    at: usize,
) -> Result<(Option<Pitem>, usize), AllocError>
    ensures { IfOk result (λ r. Some r ≡ optional (reading.print_item line.now) at) }
{
    match print_item(alloc, line, at)? {
        Some((item, after)) => Ok((Some(item), after)),
        None => Ok((None, at)),
    }
}

/// `sep [ pitem ]`
#[tactic(auto, unfolding(crate::specs::Reading::next_item, bas_form::specs::Reader::both, bas_form::specs::Reader::terminal))]
fn next_item(alloc: Global, line: &TokenLine<'_>, at: usize) -> Read<(Sep, Option<Pitem>)>
    ensures { IfOk result (λ o. o ≡ reading.next_item line.now at) }
{
    let Some(sep) = separator(line, at) else {
        return Ok(None);
    };
    let (item, after) = perhaps_item(alloc, line, at + 1)?;
    Ok(Some(((sep, item), after)))
}

/// `{ sep [ pitem ] }`
fn more_items(
    alloc: Global,
    line: &TokenLine<'_>,
    mut at: usize,
) -> Result<(Vec<(Sep, Option<Pitem>)>, usize), AllocError>
    ensures { IfOk result (λ r. (r.0.items, r.1) ≡ all_from (reading.next_item line.now) (length line.now) at) }
{
    let mut all = Vec::new(alloc);
    'more: while let Some((next, after)) = next_item(alloc, line, at)? {
        all.push(next)?;
        at = after;
    }
    Ok((all, at))
}

/// `[ pitem ] { sep [ pitem ] }`, which always stands, perhaps of nothing.
#[tactic(auto, unfolding(crate::specs::Reading::print_list, bas_form::specs::Reader::built, bas_form::specs::Reader::both, bas_form::specs::Reader::repeated))]
pub fn print_list(
    alloc: Global,
    line: &TokenLine<'_>,
    at: usize,
) -> Result<(Plist, usize), AllocError>
    ensures { IfOk result (λ r. Some r ≡ reading.print_list line.now at) }
{
    let (first, after) = perhaps_item(alloc, line, at)?;
    let (all, end) = more_items(alloc, line, after)?;
    let rest = Seq::of(all);
    Ok((Plist { first, rest }, end))
}
