//! `PRINT` on a channel, and `PRINT USING`.

ghost use Rattle.std.specs.Prelude.{◌≡◌, ◌<◌, length, Some, IfOk, IfSome};
ghost use Rattle.bas_form.specs.Reader.{all_from, optional};
ghost use Rattle.bas_record.specs.Records as grammar;
ghost use Rattle.bas_record.specs.Recording as reading;

use crate::channel::channel;
use crate::word::verb_at;
use bas_ast::{Chan, Expr, Plain, Plist, Sep};
use bas_base::Seq;
use bas_declaration::keyword::spells;
use bas_expr::{LEVELS, TokenLine, longest_expr};
use bas_list::print_list;
use bas_list::word::separator;
use std::alloc::{AllocError, Global};

type Read<T> = Result<Option<(T, usize)>, AllocError>;

/// What a format is used for: `expr { sep expr } [ ";" ]`
#[derive(Drop)]
pub struct Formatted {
    pub first: Expr,
    pub rest: Seq<(Sep, Expr)>,
    /// Whether a `;` stands at the end.
    pub semicolon: bool,
}

/// `":" plist`
#[tactic(auto, unfolding(crate::specs::Recording::colon_list, bas_form::specs::Reader::built, bas_form::specs::Reader::both, bas_form::specs::Reader::terminal))]
fn colon_list(alloc: Global, line: &TokenLine<'_>, at: usize) -> Read<Plist>
    ensures { IfOk result (λ o. o ≡ reading.colon_list line.now at) }
{
    let Some(()) = line.colon(at) else {
        return Ok(None);
    };
    let (list, after) = print_list(alloc, line, at + 1)?;
    Ok(Some((list, after)))
}

/// `"PRINT" chan [ ":" plist ]`
#[tactic(auto, unfolding(crate::specs::Recording::print_chan, bas_form::specs::Reader::built, bas_form::specs::Reader::both, bas_form::specs::Reader::optional, bas_form::specs::Reader::terminal))]
fn print_chan(alloc: Global, line: &TokenLine<'_>, at: usize) -> Read<Plain>
    ensures { IfOk result (λ o. o ≡ reading.print_chan line.now at) }
{
    let Some(_) = verb_at(line, at) else {
        return Ok(None);
    };
    let Some((chan, at)) = channel(alloc, line, at + 1)? else {
        return Ok(None);
    };
    match colon_list(alloc, line, at)? {
        Some((list, after)) => Ok(Some((Plain::PrintChan(chan, Some(list)), after))),
        None => Ok(Some((Plain::PrintChan(chan, None), at))),
    }
}

/// `chan ","`
#[tactic(auto, unfolding(crate::specs::Recording::chan_comma, bas_form::specs::Reader::built, bas_form::specs::Reader::both, bas_form::specs::Reader::terminal))]
fn chan_comma(alloc: Global, line: &TokenLine<'_>, at: usize) -> Read<Chan>
    ensures { IfOk result (λ o. o ≡ reading.chan_comma line.now at) }
{
    let Some((chan, after)) = channel(alloc, line, at)? else {
        return Ok(None);
    };
    let Some(()) = line.comma(after) else {
        return Ok(None);
    };
    Ok(Some((chan, after + 1)))
}

/// `[ chan "," ]`
#[tactic(auto, unfolding(bas_form::specs::Reader::optional))]
fn perhaps_chan(
    alloc: Global,
    line: &TokenLine<'_>,
    at: usize,
) -> Result<(Option<Chan>, usize), AllocError>
    ensures { IfOk result (λ r. Some r ≡ optional (reading.chan_comma line.now) at) }
{
    match chan_comma(alloc, line, at)? {
        Some((chan, after)) => Ok((Some(chan), after)),
        None => Ok((None, at)),
    }
}

/// The `;` at a place.
fn semicolon(line: &TokenLine<'_>, at: usize) -> Option<()>
    ensures value { result ≡ grammar.semicolon line.now at }
    ensures within { IfSome result (λ _. at < 4096) }
{
    match separator(line, at) {
        Some(Sep::Semicolon) => Some(()),
        _ => None,
    }
}

/// `sep expr`
#[tactic(auto, unfolding(crate::specs::Recording::next_formatted, bas_form::specs::Reader::both, bas_form::specs::Reader::terminal))]
fn next_formatted(alloc: Global, line: &TokenLine<'_>, at: usize) -> Read<(Sep, Expr)>
    ensures { IfOk result (λ o. o ≡ reading.next_formatted line.now at) }
{
    let Some(sep) = separator(line, at) else {
        return Ok(None);
    };
    let Some((value, after)) = longest_expr(alloc, line, at + 1, LEVELS)? else {
        return Ok(None);
    };
    Ok(Some(((sep, value), after)))
}

/// `{ sep expr }`
fn more_formatted(
    alloc: Global,
    line: &TokenLine<'_>,
    mut at: usize,
) -> Result<(Vec<(Sep, Expr)>, usize), AllocError>
    ensures { IfOk result (λ r. (r.0.items, r.1) ≡ all_from (reading.next_formatted line.now) (length line.now) at) }
{
    let mut all = Vec::new(alloc);
    'more: while let Some((next, after)) = next_formatted(alloc, line, at)? {
        all.push(next)?;
        at = after;
    }
    Ok((all, at))
}

/// `expr { sep expr } [ ";" ]`
#[tactic(auto, unfolding(crate::specs::Recording::formatted, crate::specs::Recording::rest_formatted, bas_form::specs::Reader::built, bas_form::specs::Reader::both, bas_form::specs::Reader::repeated, bas_form::specs::Reader::optional, bas_form::specs::Reader::terminal))]
fn formatted_part(alloc: Global, line: &TokenLine<'_>, at: usize) -> Read<Formatted>
    ensures { IfOk result (λ o. o ≡ reading.formatted line.now at) }
{
    let Some((first, after)) = longest_expr(alloc, line, at, LEVELS)? else {
        return Ok(None);
    };
    let (all, end) = more_formatted(alloc, line, after)?;
    let rest = Seq::of(all);
    match semicolon(line, end) {
        Some(()) => {
            let semicolon = true;
            Ok(Some((
                Formatted {
                    first,
                    rest,
                    semicolon,
                },
                end + 1,
            )))
        }
        None => {
            let semicolon = false;
            Ok(Some((
                Formatted {
                    first,
                    rest,
                    semicolon,
                },
                end,
            )))
        }
    }
}

/// `"USING" expr ":" expr { sep expr } [ ";" ]`
#[tactic(auto, unfolding(crate::specs::Recording::using_part, bas_form::specs::Reader::built, bas_form::specs::Reader::both, bas_form::specs::Reader::terminal))]
fn using_part(alloc: Global, line: &TokenLine<'_>, at: usize) -> Read<(Expr, Formatted)>
    ensures { IfOk result (λ o. o ≡ reading.using_part line.now at) }
{
    let Some(()) = spells(line, at, b"USING") else {
        return Ok(None);
    };
    let Some((format, at)) = longest_expr(alloc, line, at + 1, LEVELS)? else {
        return Ok(None);
    };
    let Some(()) = line.colon(at) else {
        return Ok(None);
    };
    let Some((formatted, after)) = formatted_part(alloc, line, at + 1)? else {
        return Ok(None);
    };
    Ok(Some(((format, formatted), after)))
}

fn using_statement(chan: Option<Chan>, format: Expr, formatted: Formatted) -> Plain
    ensures { result ≡ grammar.print_using_of (chan, (format, formatted)) }
{
    Plain::PrintUsing {
        chan,
        format,
        first: formatted.first,
        rest: formatted.rest,
        semicolon: formatted.semicolon,
    }
}

/// `"PRINT" [ chan "," ] "USING" expr ":" expr { sep expr } [ ";" ]`
#[tactic(auto, unfolding(crate::specs::Recording::print_using, bas_form::specs::Reader::built, bas_form::specs::Reader::both, bas_form::specs::Reader::terminal))]
fn print_using(alloc: Global, line: &TokenLine<'_>, at: usize) -> Read<Plain>
    ensures { IfOk result (λ o. o ≡ reading.print_using line.now at) }
{
    let Some(_) = verb_at(line, at) else {
        return Ok(None);
    };
    let (chan, at) = perhaps_chan(alloc, line, at + 1)?;
    let Some(((format, formatted), after)) = using_part(alloc, line, at)? else {
        return Ok(None);
    };
    Ok(Some((using_statement(chan, format, formatted), after)))
}

/// `PRINT` on a channel, or with a format.
#[tactic(auto, unfolding(crate::specs::Recording::print_line, bas_form::specs::Reader::either))]
pub fn print_line(alloc: Global, line: &TokenLine<'_>, at: usize) -> Read<Plain>
    ensures { IfOk result (λ o. o ≡ reading.print_line line.now at) }
{
    match print_using(alloc, line, at)? {
        Some(found) => Ok(Some(found)),
        None => print_chan(alloc, line, at),
    }
}
