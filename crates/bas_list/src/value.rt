//! Lists of values.

ghost use Rattle.std.specs.Prelude.{◌≡◌, IfOk};
ghost use Rattle.bas_declaration.specs.Reading.{all_with};
ghost use Rattle.bas_list.specs.Reading as reading;

use crate::INNER_LEVELS;
use bas_ast::Expr;
use bas_base::Seq;
use bas_expr::{TokenLine, longest_expr};
use std::alloc::{AllocError, Global};

type Read<T> = Result<Option<(T, usize)>, AllocError>;

/// `"," expr`
#[tactic(auto, unfolding(bas_form::specs::Reader::built, bas_form::specs::Reader::both, bas_form::specs::Reader::terminal))]
fn next_value(alloc: Global, line: &TokenLine<'_>, at: usize, depth: usize) -> Read<Expr>
    ensures { IfOk result (λ o. o ≡ reading.next_value line.now depth at) }
{
    let Some(()) = line.comma(at) else {
        return Ok(None);
    };
    let Some((next, after)) = longest_expr(alloc, line, at + 1, depth)? else {
        return Ok(None);
    };
    Ok(Some((next, after)))
}

/// `{ "," expr }`
fn more_values(
    alloc: Global,
    line: &TokenLine<'_>,
    mut at: usize,
    depth: usize,
    first: Expr,
) -> Result<(Vec<Expr>, usize), AllocError>
    ensures { IfOk result (λ r. (r.0.items, r.1) ≡ all_with (reading.next_value line.now depth) line.now first at) }
{
    let mut all = Vec::new(alloc);
    all.push(first)?;
    'more: while let Some((next, after)) = next_value(alloc, line, at, depth)? {
        all.push(next)?;
        at = after;
    }
    Ok((all, at))
}

/// `expr { "," expr }`, with parentheses nested less deep than `depth`.
#[tactic(auto, unfolding(crate::specs::Reading::values, bas_form::specs::Reader::built, bas_form::specs::Reader::both, bas_form::specs::Reader::repeated))]
pub fn values(alloc: Global, line: &TokenLine<'_>, at: usize, depth: usize) -> Read<Seq<Expr>>
    ensures { IfOk result (λ o. o ≡ reading.values line.now depth at) }
{
    let Some((first, after)) = longest_expr(alloc, line, at, depth)? else {
        return Ok(None);
    };
    let (all, end) = more_values(alloc, line, after, depth, first)?;
    Ok(Some((Seq::of(all), end)))
}

/// `"(" expr { "," expr } ")"`
#[tactic(auto, unfolding(crate::specs::Reading::enclosed_values, bas_form::specs::Reader::built, bas_form::specs::Reader::both, bas_form::specs::Reader::terminal))]
pub fn enclosed_values(alloc: Global, line: &TokenLine<'_>, at: usize) -> Read<Seq<Expr>>
    ensures { IfOk result (λ o. o ≡ reading.enclosed_values line.now at) }
{
    let Some(()) = line.opening(at) else {
        return Ok(None);
    };
    let Some((all, close)) = values(alloc, line, at + 1, INNER_LEVELS)? else {
        return Ok(None);
    };
    let Some(()) = line.closing(close) else {
        return Ok(None);
    };
    Ok(Some((all, close + 1)))
}
