//! What values are stored in.

ghost use Rattle.std.specs.Prelude.{◌≡◌, IfOk};
ghost use Rattle.std.specs.Option.{option_map};
ghost use Rattle.bas_declaration.specs.Reading.{all_with};
ghost use Rattle.bas_list.specs.Reading as reading;

use crate::value::enclosed_values;
use bas_ast::{Expr, Target, Targets};
use bas_base::Seq;
use bas_expr::TokenLine;
use sqlite_items::Items;
use std::alloc::{AllocError, Global};

type Read<T> = Result<Option<(T, usize)>, AllocError>;

/// `"(" expr { "," expr } ")"`
#[tactic(auto, using(crate::proofs::ListLaws::subscripts_listed))]
fn subscripts(alloc: Global, line: &TokenLine<'_>, at: usize) -> Read<Seq<Expr>>
    ensures { IfOk result (λ o. o ≡ option_map reading.in_list (reading.subscripts line.now at)) }
{
    enclosed_values(alloc, line, at)
}

/// `name [ "(" expr { "," expr } ")" ]`
#[tactic(auto, unfolding(crate::specs::Reading::one_target, bas_form::specs::Reader::built, bas_form::specs::Reader::both, bas_form::specs::Reader::optional, bas_form::specs::Reader::terminal))]
pub fn target(alloc: Global, line: &TokenLine<'_>, at: usize) -> Read<Target>
    ensures { IfOk result (λ o. o ≡ reading.one_target line.now at) }
{
    let Some(name) = line.own_name(at) else {
        return Ok(None);
    };
    let at = at + 1;
    match subscripts(alloc, line, at)? {
        Some((all, after)) => {
            let subscripts = Items::from_vec(all.into_items());
            Ok(Some((Target { name, subscripts }, after)))
        }
        None => {
            let subscripts = Items::new(alloc);
            Ok(Some((Target { name, subscripts }, at)))
        }
    }
}

/// `"," target`
#[tactic(auto, unfolding(bas_form::specs::Reader::built, bas_form::specs::Reader::both, bas_form::specs::Reader::terminal))]
fn next_target(alloc: Global, line: &TokenLine<'_>, at: usize) -> Read<Target>
    ensures { IfOk result (λ o. o ≡ reading.next_target line.now at) }
{
    let Some(()) = line.comma(at) else {
        return Ok(None);
    };
    let Some((next, after)) = target(alloc, line, at + 1)? else {
        return Ok(None);
    };
    Ok(Some((next, after)))
}

/// `{ "," target }`
fn more_targets(
    alloc: Global,
    line: &TokenLine<'_>,
    mut at: usize,
    first: Target,
) -> Result<(Vec<Target>, usize), AllocError>
    ensures { IfOk result (λ r. (r.0.items, r.1) ≡ all_with (reading.next_target line.now) line.now first at) }
{
    let mut all = Vec::new(alloc);
    all.push(first)?;
    'more: while let Some((next, after)) = next_target(alloc, line, at)? {
        all.push(next)?;
        at = after;
    }
    Ok((all, at))
}

/// `target { "," target }`
#[tactic(auto, unfolding(crate::specs::Reading::target_list, bas_form::specs::Reader::built, bas_form::specs::Reader::both, bas_form::specs::Reader::repeated))]
fn target_list(alloc: Global, line: &TokenLine<'_>, at: usize) -> Read<Seq<Target>>
    ensures { IfOk result (λ o. o ≡ reading.target_list line.now at) }
{
    let Some((first, after)) = target(alloc, line, at)? else {
        return Ok(None);
    };
    let (all, end) = more_targets(alloc, line, after, first)?;
    Ok(Some((Seq::of(all), end)))
}

/// `target { "," target }`
#[tactic(auto, unfolding(crate::specs::Reading::targets, bas_form::specs::Reader::built))]
pub fn targets(alloc: Global, line: &TokenLine<'_>, at: usize) -> Read<Targets>
    ensures { IfOk result (λ o. o ≡ reading.targets line.now at) }
{
    let Some((targets, after)) = target_list(alloc, line, at)? else {
        return Ok(None);
    };
    Ok(Some((Targets { targets }, after)))
}
