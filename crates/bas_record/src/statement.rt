//! The statements on channels.

ghost use Rattle.std.specs.Prelude.{◌≡◌, IfOk};
ghost use Rattle.bas_ast.specs.declared.statement.Plain.TheVariants as tree;
ghost use Rattle.bas_record.specs.Recording as reading;

use crate::attribute::named;
use crate::channel::{channel, setter};
use crate::miss::{chan_and_miss, place};
use crate::print::print_line;
use crate::word::{Verb, verb_at};
use bas_ast::{Chan, Expr, Miss, Plain, Setter, Targets};
use bas_base::Seq;
use bas_declaration::keyword::spells;
use bas_expr::{LEVELS, TokenLine};
use bas_list::{targets, values};
use std::alloc::{AllocError, Global};

type Read<T> = Result<Option<(T, usize)>, AllocError>;

/// `chan [ "," miss ] ":" targets`
#[tactic(auto, unfolding(crate::specs::Recording::input, bas_form::specs::Reader::built, bas_form::specs::Reader::both, bas_form::specs::Reader::terminal))]
fn input(alloc: Global, line: &TokenLine<'_>, at: usize) -> Read<((Chan, Option<Miss>), Targets)>
    ensures { IfOk result (λ o. o ≡ reading.input line.now at) }
{
    let Some((front, at)) = chan_and_miss(alloc, line, at)? else {
        return Ok(None);
    };
    let Some(()) = line.colon(at) else {
        return Ok(None);
    };
    let Some((targets, after)) = targets(alloc, line, at + 1)? else {
        return Ok(None);
    };
    Ok(Some(((front, targets), after)))
}

/// `"LINE" "INPUT" chan [ "," miss ] ":" targets`
#[tactic(auto, unfolding(crate::specs::Recording::line_input, bas_form::specs::Reader::built, bas_form::specs::Reader::both, bas_form::specs::Reader::terminal))]
fn line_input(alloc: Global, line: &TokenLine<'_>, at: usize) -> Read<Plain>
    ensures { IfOk result (λ o. o ≡ reading.line_input line.now at) }
{
    let Some(_) = verb_at(line, at) else {
        return Ok(None);
    };
    let at = at + 1;
    let Some(()) = spells(line, at, b"INPUT") else {
        return Ok(None);
    };
    let Some((((chan, miss), targets), after)) = input(alloc, line, at + 1)? else {
        return Ok(None);
    };
    Ok(Some((Plain::LineInputChan(chan, miss, targets), after)))
}

/// `"INPUT" chan [ "," miss ] ":" targets`
#[tactic(auto, unfolding(crate::specs::Recording::input_line, bas_form::specs::Reader::built, bas_form::specs::Reader::both, bas_form::specs::Reader::terminal))]
fn input_line(alloc: Global, line: &TokenLine<'_>, at: usize) -> Read<Plain>
    ensures { IfOk result (λ o. o ≡ reading.input_line line.now at) }
{
    let Some(_) = verb_at(line, at) else {
        return Ok(None);
    };
    let Some((((chan, miss), targets), after)) = input(alloc, line, at + 1)? else {
        return Ok(None);
    };
    Ok(Some((Plain::InputChan(chan, miss, targets), after)))
}

/// `"OPEN" chan ":" "NAME" expr { "," attr }`
#[tactic(auto, unfolding(crate::specs::Recording::open_line, bas_form::specs::Reader::built, bas_form::specs::Reader::both, bas_form::specs::Reader::terminal))]
fn open_line(alloc: Global, line: &TokenLine<'_>, at: usize) -> Read<Plain>
    ensures { IfOk result (λ o. o ≡ reading.open_line line.now at) }
{
    let Some(_) = verb_at(line, at) else {
        return Ok(None);
    };
    let Some((chan, at)) = channel(alloc, line, at + 1)? else {
        return Ok(None);
    };
    let Some(()) = line.colon(at) else {
        return Ok(None);
    };
    let Some(((name, attributes), after)) = named(alloc, line, at + 1)? else {
        return Ok(None);
    };
    Ok(Some((Plain::Open(chan, name, attributes), after)))
}

/// `"CLOSE" chan`
#[tactic(auto, unfolding(crate::specs::Recording::close_line, bas_form::specs::Reader::built, bas_form::specs::Reader::both, bas_form::specs::Reader::terminal))]
fn close_line(alloc: Global, line: &TokenLine<'_>, at: usize) -> Read<Plain>
    ensures { IfOk result (λ o. o ≡ reading.close_line line.now at) }
{
    let Some(_) = verb_at(line, at) else {
        return Ok(None);
    };
    let Some((chan, after)) = channel(alloc, line, at + 1)? else {
        return Ok(None);
    };
    Ok(Some((Plain::Close(chan), after)))
}

/// `"SET" chan ":" "POINTER" setter`
#[tactic(auto, unfolding(crate::specs::Recording::set_line, bas_form::specs::Reader::built, bas_form::specs::Reader::both, bas_form::specs::Reader::terminal))]
fn set_line(alloc: Global, line: &TokenLine<'_>, at: usize) -> Read<Plain>
    ensures { IfOk result (λ o. o ≡ reading.set_line line.now at) }
{
    let Some(_) = verb_at(line, at) else {
        return Ok(None);
    };
    let Some((chan, at)) = channel(alloc, line, at + 1)? else {
        return Ok(None);
    };
    let Some(()) = line.colon(at) else {
        return Ok(None);
    };
    let at = at + 1;
    let Some(()) = spells(line, at, b"POINTER") else {
        return Ok(None);
    };
    let Some((setter, after)) = setter(alloc, line, at + 1)? else {
        return Ok(None);
    };
    Ok(Some((Plain::SetPointer(chan, setter), after)))
}

/// `"READ" chan [ "," setter ] [ "," miss ] ":" targets`
#[tactic(auto, unfolding(crate::specs::Recording::read_line, bas_form::specs::Reader::built, bas_form::specs::Reader::both, bas_form::specs::Reader::terminal))]
fn read_line(alloc: Global, line: &TokenLine<'_>, at: usize) -> Read<Plain>
    ensures { IfOk result (λ o. o ≡ reading.read_line line.now at) }
{
    let Some(_) = verb_at(line, at) else {
        return Ok(None);
    };
    let Some((((chan, setter), miss), at)) = place(alloc, line, at + 1)? else {
        return Ok(None);
    };
    let Some(()) = line.colon(at) else {
        return Ok(None);
    };
    let Some((targets, after)) = targets(alloc, line, at + 1)? else {
        return Ok(None);
    };
    Ok(Some((Plain::ReadChan(chan, setter, miss, targets), after)))
}

type Written = (((Chan, Option<Setter>), Option<Miss>), Seq<Expr>);

/// `( "WRITE" | "REWRITE" ) chan [ "," setter ] [ "," miss ] ":" expr { "," expr }`
#[tactic(auto, unfolding(crate::specs::Recording::written, bas_form::specs::Reader::built, bas_form::specs::Reader::both, bas_form::specs::Reader::terminal))]
fn written(alloc: Global, line: &TokenLine<'_>, at: usize) -> Read<Written>
    ensures { IfOk result (λ o. o ≡ reading.written line.now at) }
{
    let Some(_) = verb_at(line, at) else {
        return Ok(None);
    };
    let Some((place, at)) = place(alloc, line, at + 1)? else {
        return Ok(None);
    };
    let Some(()) = line.colon(at) else {
        return Ok(None);
    };
    let Some((values, after)) = values(alloc, line, at + 1, LEVELS)? else {
        return Ok(None);
    };
    Ok(Some(((place, values), after)))
}

/// `"WRITE"`, where the values are written.
#[tactic(auto, unfolding(bas_form::specs::Reader::built))]
fn write_line(alloc: Global, line: &TokenLine<'_>, at: usize) -> Read<Plain>
    ensures { IfOk result (λ o. o ≡ reading.written_line line.now tree.Write at) }
{
    let Some(((((chan, setter), miss), values), after)) = written(alloc, line, at)? else {
        return Ok(None);
    };
    Ok(Some((Plain::Write(chan, setter, miss, values), after)))
}

/// `"REWRITE"`, where the values are written anew.
#[tactic(auto, unfolding(bas_form::specs::Reader::built))]
fn rewrite_line(alloc: Global, line: &TokenLine<'_>, at: usize) -> Read<Plain>
    ensures { IfOk result (λ o. o ≡ reading.written_line line.now tree.Rewrite at) }
{
    let Some(((((chan, setter), miss), values), after)) = written(alloc, line, at)? else {
        return Ok(None);
    };
    Ok(Some((Plain::Rewrite(chan, setter, miss, values), after)))
}

/// `"DELETE" chan [ "," setter ] [ "," miss ]`
#[tactic(auto, unfolding(crate::specs::Recording::delete_line, bas_form::specs::Reader::built, bas_form::specs::Reader::both, bas_form::specs::Reader::terminal))]
fn delete_line(alloc: Global, line: &TokenLine<'_>, at: usize) -> Read<Plain>
    ensures { IfOk result (λ o. o ≡ reading.delete_line line.now at) }
{
    let Some(_) = verb_at(line, at) else {
        return Ok(None);
    };
    let Some((((chan, setter), miss), after)) = place(alloc, line, at + 1)? else {
        return Ok(None);
    };
    Ok(Some((Plain::Delete(chan, setter, miss), after)))
}

/// The longest statement on a channel, or `PRINT USING`, from a place on, and the place after it.
#[tactic(auto, unfolding(crate::specs::Recording::record_statement_at, bas_form::specs::Reader::dispatched))]
pub fn record_statement(
    alloc: Global,
    line: &TokenLine<'_>,
    at: usize,
) -> Result<Option<(Plain, usize)>, AllocError>
    ensures { IfOk result (λ o. o ≡ reading.record_statement_at line.now at) }
{
    match verb_at(line, at) {
        Some(Verb::Print) => print_line(alloc, line, at),
        Some(Verb::Line) => line_input(alloc, line, at),
        Some(Verb::Input) => input_line(alloc, line, at),
        Some(Verb::Open) => open_line(alloc, line, at),
        Some(Verb::Close) => close_line(alloc, line, at),
        Some(Verb::Set) => set_line(alloc, line, at),
        Some(Verb::Read) => read_line(alloc, line, at),
        Some(Verb::Write) => write_line(alloc, line, at),
        Some(Verb::Rewrite) => rewrite_line(alloc, line, at),
        Some(Verb::Delete) => delete_line(alloc, line, at),
        None => Ok(None),
    }
}
