//! Statements that read a reply or data.

ghost use Rattle.std.specs.Prelude.{◌≡◌, IfOk};
ghost use Rattle.bas_statement.specs.Reading as reading;

use crate::verb::verb_at;
use bas_ast::{Expr, Plain, Targets};
use bas_declaration::keyword::spells;
use bas_expr::{LEVELS, TokenLine, longest_expr};
use bas_list::targets;
use std::alloc::{AllocError, Global};

type Read<T> = Result<Option<(T, usize)>, AllocError>;

/// `"PROMPT" expr ":"`
#[tactic(auto, unfolding(crate::specs::Reading::prompt, bas_form::specs::Reader::built, bas_form::specs::Reader::both, bas_form::specs::Reader::terminal))]
fn prompt(alloc: Global, line: &TokenLine<'_>, at: usize) -> Read<Expr>
    ensures { IfOk result (λ o. o ≡ reading.prompt line.now at) }
{
    let Some(()) = spells(line, at, b"PROMPT") else {
        return Ok(None);
    };
    let Some((prompt, after)) = longest_expr(alloc, line, at + 1, LEVELS)? else {
        return Ok(None);
    };
    let Some(()) = line.colon(after) else {
        return Ok(None);
    };
    Ok(Some((prompt, after + 1)))
}

/// `"PROMPT" expr ":" targets`
#[tactic(auto, unfolding(bas_form::specs::Reader::built, bas_form::specs::Reader::both))]
fn prompted(alloc: Global, line: &TokenLine<'_>, at: usize) -> Read<(Option<Expr>, Targets)>
    ensures { IfOk result (λ o. o ≡ reading.prompted_targets line.now at) }
{
    let Some((prompt, at)) = prompt(alloc, line, at)? else {
        return Ok(None);
    };
    match targets(alloc, line, at)? {
        Some((targets, after)) => Ok(Some(((Some(prompt), targets), after))),
        None => Ok(None),
    }
}

/// `[ "PROMPT" expr ":" ] targets`
#[tactic(auto, unfolding(crate::specs::Reading::asked, bas_form::specs::Reader::either, bas_form::specs::Reader::built))]
fn asked(alloc: Global, line: &TokenLine<'_>, at: usize) -> Read<(Option<Expr>, Targets)>
    ensures { IfOk result (λ o. o ≡ reading.asked line.now at) }
{
    if let Some(found) = prompted(alloc, line, at)? {
        return Ok(Some(found));
    }
    match targets(alloc, line, at)? {
        Some((targets, after)) => Ok(Some(((None, targets), after))),
        None => Ok(None),
    }
}

/// `"INPUT" [ "PROMPT" expr ":" ] targets`
#[tactic(auto, unfolding(crate::specs::Reading::input_statement, bas_form::specs::Reader::built, bas_form::specs::Reader::both, bas_form::specs::Reader::terminal))]
pub fn input_statement(alloc: Global, line: &TokenLine<'_>, at: usize) -> Read<Plain>
    ensures { IfOk result (λ o. o ≡ reading.input_statement line.now at) }
{
    let Some(_) = verb_at(line, at) else {
        return Ok(None);
    };
    match asked(alloc, line, at + 1)? {
        Some(((prompt, targets), after)) => Ok(Some((Plain::Input(prompt, targets), after))),
        None => Ok(None),
    }
}

/// `"INPUT" [ "PROMPT" expr ":" ] targets`, behind `LINE`.
#[tactic(auto, unfolding(crate::specs::Reading::input_asked, bas_form::specs::Reader::built, bas_form::specs::Reader::both, bas_form::specs::Reader::terminal))]
fn input_asked(alloc: Global, line: &TokenLine<'_>, at: usize) -> Read<(Option<Expr>, Targets)>
    ensures { IfOk result (λ o. o ≡ reading.input_asked line.now at) }
{
    let Some(()) = spells(line, at, b"INPUT") else {
        return Ok(None);
    };
    match asked(alloc, line, at + 1)? {
        Some((found, after)) => Ok(Some((found, after))),
        None => Ok(None),
    }
}

/// `"LINE" "INPUT" [ "PROMPT" expr ":" ] targets`
#[tactic(auto, unfolding(crate::specs::Reading::line_input_statement, bas_form::specs::Reader::built, bas_form::specs::Reader::both, bas_form::specs::Reader::terminal))]
pub fn line_input_statement(alloc: Global, line: &TokenLine<'_>, at: usize) -> Read<Plain>
    ensures { IfOk result (λ o. o ≡ reading.line_input_statement line.now at) }
{
    let Some(_) = verb_at(line, at) else {
        return Ok(None);
    };
    match input_asked(alloc, line, at + 1)? {
        Some(((prompt, targets), after)) => Ok(Some((Plain::LineInput(prompt, targets), after))),
        None => Ok(None),
    }
}

/// `"READ" targets`
#[tactic(auto, unfolding(crate::specs::Reading::read_statement, bas_form::specs::Reader::built, bas_form::specs::Reader::both, bas_form::specs::Reader::terminal))]
pub fn read_statement(alloc: Global, line: &TokenLine<'_>, at: usize) -> Read<Plain>
    ensures { IfOk result (λ o. o ≡ reading.read_statement line.now at) }
{
    let Some(_) = verb_at(line, at) else {
        return Ok(None);
    };
    match targets(alloc, line, at + 1)? {
        Some((targets, after)) => Ok(Some((Plain::Read(targets), after))),
        None => Ok(None),
    }
}
