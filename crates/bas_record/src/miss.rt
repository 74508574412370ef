//! Where a statement goes if a record is missing or there.

ghost use Rattle.std.specs.Prelude.{◌≡◌, IfOk};
ghost use Rattle.bas_record.specs.Recording as reading;

use crate::channel::{channel, setter};
use crate::word::{exit, miss_when};
use bas_ast::{Chan, Miss, MissThen, Setter};
use bas_declaration::keyword::spells;
use bas_expr::TokenLine;
use bas_list::word::line_number;
use std::alloc::{AllocError, Global};

type Read<T> = Result<Option<(T, usize)>, AllocError>;

/// `"EXIT" ( "DO" | "FOR" )`
#[tactic(auto, unfolding(crate::specs::Recording::exit_loop, bas_form::specs::Reader::built, bas_form::specs::Reader::both, bas_form::specs::Reader::terminal))]
fn exit_loop(line: &TokenLine<'_>, at: usize) -> Option<(MissThen, usize)>
    ensures { result ≡ reading.exit_loop line.now at }
{
    let Some(()) = spells(line, at, b"EXIT") else {
        return None;
    };
    let at = at + 1;
    let Some(goes) = exit(line, at) else {
        return None;
    };
    Some((goes, at + 1))
}

/// `"EXIT" "DO" | "EXIT" "FOR" | number`
#[tactic(auto, unfolding(crate::specs::Recording::miss_then, bas_form::specs::Reader::either, bas_form::specs::Reader::built, bas_form::specs::Reader::terminal))]
fn miss_then(line: &TokenLine<'_>, at: usize) -> Option<(MissThen, usize)>
    ensures { result ≡ reading.miss_then line.now at }
{
    if let Some(found) = exit_loop(line, at) {
        return Some(found);
    }
    match line_number(line, at) {
        Some(number) => Some((MissThen::Number(number), at + 1)),
        None => None,
    }
}

/// `"THEN" ( "EXIT" "DO" | "EXIT" "FOR" | number )`
#[tactic(auto, unfolding(crate::specs::Recording::then_part, bas_form::specs::Reader::built, bas_form::specs::Reader::both, bas_form::specs::Reader::terminal))]
fn then_part(line: &TokenLine<'_>, at: usize) -> Option<(MissThen, usize)>
    ensures { result ≡ reading.then_part line.now at }
{
    let Some(()) = spells(line, at, b"THEN") else {
        return None;
    };
    let Some((goes, after)) = miss_then(line, at + 1) else {
        return None;
    };
    Some((goes, after))
}

/// `"IF" ( "MISSING" | "THERE" ) "THEN" ( "EXIT" "DO" | "EXIT" "FOR" | number )`
#[tactic(auto, unfolding(crate::specs::Recording::miss, bas_form::specs::Reader::built, bas_form::specs::Reader::both, bas_form::specs::Reader::terminal))]
fn miss_part(line: &TokenLine<'_>, at: usize) -> Option<(Miss, usize)>
    ensures { result ≡ reading.miss line.now at }
{
    let Some(()) = spells(line, at, b"IF") else {
        return None;
    };
    let at = at + 1;
    let Some(when) = miss_when(line, at) else {
        return None;
    };
    let Some((goes, after)) = then_part(line, at + 1) else {
        return None;
    };
    Some((Miss { when, goes }, after))
}

/// `"," miss`
#[tactic(auto, unfolding(crate::specs::Recording::next_miss, bas_form::specs::Reader::built, bas_form::specs::Reader::both, bas_form::specs::Reader::terminal))]
fn next_miss(line: &TokenLine<'_>, at: usize) -> Option<(Miss, usize)>
    ensures { result ≡ reading.next_miss line.now at }
{
    let Some(()) = line.comma(at) else {
        return None;
    };
    let Some((miss, after)) = miss_part(line, at + 1) else {
        return None;
    };
    Some((miss, after))
}

/// `"," setter`
#[tactic(auto, unfolding(crate::specs::Recording::next_setter, bas_form::specs::Reader::built, bas_form::specs::Reader::both, bas_form::specs::Reader::terminal))]
fn next_setter(alloc: Global, line: &TokenLine<'_>, at: usize) -> Read<Setter>
    ensures { IfOk result (λ o. o ≡ reading.next_setter line.now at) }
{
    let Some(()) = line.comma(at) else {
        return Ok(None);
    };
    let Some((setter, after)) = setter(alloc, line, at + 1)? else {
        return Ok(None);
    };
    Ok(Some((setter, after)))
}

/// `chan [ "," setter ]`
#[tactic(auto, unfolding(crate::specs::Recording::chan_and_setter, bas_form::specs::Reader::both, bas_form::specs::Reader::optional))]
fn chan_and_setter(alloc: Global, line: &TokenLine<'_>, at: usize) -> Read<(Chan, Option<Setter>)>
    ensures { IfOk result (λ o. o ≡ reading.chan_and_setter line.now at) }
{
    let Some((chan, at)) = channel(alloc, line, at)? else {
        return Ok(None);
    };
    match next_setter(alloc, line, at)? {
        Some((setter, after)) => Ok(Some(((chan, Some(setter)), after))),
        None => Ok(Some(((chan, None), at))),
    }
}

/// `chan [ "," setter ] [ "," miss ]`
#[tactic(auto, unfolding(crate::specs::Recording::place, bas_form::specs::Reader::both, bas_form::specs::Reader::optional))]
pub fn place(
    alloc: Global,
    line: &TokenLine<'_>,
    at: usize,
) -> Read<((Chan, Option<Setter>), Option<Miss>)>
    ensures { IfOk result (λ o. o ≡ reading.place line.now at) }
{
    let Some((front, at)) = chan_and_setter(alloc, line, at)? else {
        return Ok(None);
    };
    match next_miss(line, at) {
        Some((miss, after)) => Ok(Some(((front, Some(miss)), after))),
        None => Ok(Some(((front, None), at))),
    }
}

/// `chan [ "," miss ]`
#[tactic(auto, unfolding(crate::specs::Recording::chan_and_miss, bas_form::specs::Reader::both, bas_form::specs::Reader::optional))]
pub fn chan_and_miss(alloc: Global, line: &TokenLine<'_>, at: usize) -> Read<(Chan, Option<Miss>)>
    ensures { IfOk result (λ o. o ≡ reading.chan_and_miss line.now at) }
{
    let Some((chan, at)) = channel(alloc, line, at)? else {
        return Ok(None);
    };
    match next_miss(line, at) {
        Some((miss, after)) => Ok(Some(((chan, Some(miss)), after))),
        None => Ok(Some(((chan, None), at))),
    }
}
