//! One-line `IF` and `ON`, over plain statements.

ghost use Rattle.std.specs.Prelude.{◌≡◌, IfOk};
ghost use Rattle.bas_line.specs.Plains.{plain_at};
ghost use Rattle.bas_line.specs.Reading as reading;
ghost use Rattle.bas_line.specs.Simples as grammar;

use crate::jump::{Jump, jump_words, number_list};
use crate::plain::plain_statement;
use crate::word::if_word;
use bas_ast::{Branch, Expr, Plain, Simple};
use bas_base::{Line, Seq};
use bas_declaration::keyword::{spells, then_word};
use bas_expr::{LEVELS, TokenLine, longest_cond, longest_expr};
use bas_list::word::line_number;
use sqlite_items::Boxed;
use std::alloc::{AllocError, Global};

type Read<T> = Result<Option<(T, usize)>, AllocError>;

/// `number | plain`
#[tactic(auto, unfolding(crate::specs::Reading::one_branch, bas_form::specs::Reader::either, bas_form::specs::Reader::built, bas_form::specs::Reader::terminal))]
fn branch(alloc: Global, line: &TokenLine<'_>, at: usize) -> Read<Branch>
    ensures { IfOk result (λ o. o ≡ reading.one_branch line.now (plain_at line.now) at) }
{
    if let Some(number) = line_number(line, at) {
        return Ok(Some((Branch::Number(number), at + 1)));
    }
    let Some((plain, after)) = plain_statement(alloc, line, at)? else {
        return Ok(None);
    };
    Ok(Some((Branch::Plain(Boxed::new(alloc, plain)?), after)))
}

/// `"ELSE" ( number | plain )`
#[tactic(auto, unfolding(crate::specs::Reading::else_branch, bas_form::specs::Reader::built, bas_form::specs::Reader::both, bas_form::specs::Reader::terminal))]
fn else_branch(alloc: Global, line: &TokenLine<'_>, at: usize) -> Read<Branch>
    ensures { IfOk result (λ o. o ≡ reading.else_branch line.now (plain_at line.now) at) }
{
    let Some(()) = spells(line, at, b"ELSE") else {
        return Ok(None);
    };
    let Some((other, after)) = branch(alloc, line, at + 1)? else {
        return Ok(None);
    };
    Ok(Some((other, after)))
}

/// `( number | plain ) [ "ELSE" ( number | plain ) ]`
#[tactic(auto, unfolding(crate::specs::Reading::branches, bas_form::specs::Reader::both, bas_form::specs::Reader::optional))]
fn branches(alloc: Global, line: &TokenLine<'_>, at: usize) -> Read<(Branch, Option<Branch>)>
    ensures { IfOk result (λ o. o ≡ reading.branches line.now (plain_at line.now) at) }
{
    let Some((first, after)) = branch(alloc, line, at)? else {
        return Ok(None);
    };
    match else_branch(alloc, line, after)? {
        Some((other, end)) => Ok(Some(((first, Some(other)), end))),
        None => Ok(Some(((first, None), after))),
    }
}

/// `"THEN" ( number | plain ) [ "ELSE" ( number | plain ) ]`
#[tactic(auto, unfolding(crate::specs::Reading::then_branches, bas_form::specs::Reader::built, bas_form::specs::Reader::both, bas_form::specs::Reader::terminal))]
fn then_branches(alloc: Global, line: &TokenLine<'_>, at: usize) -> Read<(Branch, Option<Branch>)>
    ensures { IfOk result (λ o. o ≡ reading.then_branches line.now (plain_at line.now) at) }
{
    let Some(()) = then_word(line, at) else {
        return Ok(None);
    };
    let Some((both, after)) = branches(alloc, line, at + 1)? else {
        return Ok(None);
    };
    Ok(Some((both, after)))
}

/// `"IF" cond "THEN" ( number | plain ) [ "ELSE" ( number | plain ) ]`
#[tactic(auto, unfolding(crate::specs::Reading::if_line, bas_form::specs::Reader::built, bas_form::specs::Reader::both, bas_form::specs::Reader::terminal))]
fn if_line(alloc: Global, line: &TokenLine<'_>, at: usize) -> Read<Simple>
    ensures { IfOk result (λ o. o ≡ reading.if_line line.now (plain_at line.now) at) }
{
    let Some(()) = if_word(line, at) else {
        return Ok(None);
    };
    let Some((test, after)) = longest_cond(alloc, line, at + 1, LEVELS)? else {
        return Ok(None);
    };
    let Some(((first, other), end)) = then_branches(alloc, line, after)? else {
        return Ok(None);
    };
    Ok(Some((Simple::If(test, first, other), end)))
}

/// `"ELSE" plain`
#[tactic(auto, unfolding(crate::specs::Reading::else_plain, bas_form::specs::Reader::built, bas_form::specs::Reader::both, bas_form::specs::Reader::terminal))]
fn else_plain(alloc: Global, line: &TokenLine<'_>, at: usize) -> Read<Plain>
    ensures { IfOk result (λ o. o ≡ reading.else_plain line.now (plain_at line.now) at) }
{
    let Some(()) = spells(line, at, b"ELSE") else {
        return Ok(None);
    };
    let Some((other, after)) = plain_statement(alloc, line, at + 1)? else {
        return Ok(None);
    };
    Ok(Some((other, after)))
}

/// `number { "," number } [ "ELSE" plain ]`
#[tactic(auto, unfolding(crate::specs::Reading::numbers, bas_form::specs::Reader::both, bas_form::specs::Reader::optional))]
fn numbers(alloc: Global, line: &TokenLine<'_>, at: usize) -> Read<(Seq<Line>, Option<Plain>)>
    ensures { IfOk result (λ o. o ≡ reading.numbers line.now (plain_at line.now) at) }
{
    let Some((all, after)) = number_list(alloc, line, at)? else {
        return Ok(None);
    };
    match else_plain(alloc, line, after)? {
        Some((other, end)) => Ok(Some(((all, Some(other)), end))),
        None => Ok(Some(((all, None), after))),
    }
}

fn boxed(alloc: Global, other: Option<Plain>) -> Result<Option<Boxed<Plain>>, AllocError>
    ensures { IfOk result (λ o. o ≡ other) }
{
    match other {
        Some(plain) => Ok(Some(Boxed::new(alloc, plain)?)),
        None => Ok(None),
    }
}

fn on(
    alloc: Global,
    value: Expr,
    way: Jump,
    all: Seq<Line>,
    other: Option<Plain>,
) -> Result<Simple, AllocError>
    ensures { IfOk result (λ s. s ≡ grammar.on_of (value, (way, (all, other)))) }
{
    let other = boxed(alloc, other)?;
    match way {
        Jump::Goto => Ok(Simple::OnGoto(value, all, other)),
        Jump::Gosub => Ok(Simple::OnGosub(value, all, other)),
    }
}

/// `"ON" expr ( "GOTO" | "GOSUB" ) number { "," number } [ "ELSE" plain ]`
#[tactic(auto, unfolding(crate::specs::Reading::on_line, bas_form::specs::Reader::built, bas_form::specs::Reader::both, bas_form::specs::Reader::terminal))]
fn on_line(alloc: Global, line: &TokenLine<'_>, at: usize) -> Read<Simple>
    ensures { IfOk result (λ o. o ≡ reading.on_line line.now (plain_at line.now) at) }
{
    let Some(()) = spells(line, at, b"ON") else {
        return Ok(None);
    };
    let Some((value, after)) = longest_expr(alloc, line, at + 1, LEVELS)? else {
        return Ok(None);
    };
    let Some((way, behind)) = jump_words(line, after) else {
        return Ok(None);
    };
    let Some(((all, other), end)) = numbers(alloc, line, behind)? else {
        return Ok(None);
    };
    Ok(Some((on(alloc, value, way, all, other)?, end)))
}

/// The longest statement of a line from a place on, and the place after it.
#[tactic(auto, unfolding(crate::specs::Reading::simple_at, bas_form::specs::Reader::either, bas_form::specs::Reader::built))]
pub fn simple(alloc: Global, line: &TokenLine<'_>, at: usize) -> Read<Simple>
    ensures { IfOk result (λ o. o ≡ reading.simple_at line.now (plain_at line.now) at) }
{
    if let Some((plain, after)) = plain_statement(alloc, line, at)? {
        return Ok(Some((Simple::Plain(plain), after)));
    }
    if let Some(found) = if_line(alloc, line, at)? {
        return Ok(Some(found));
    }
    on_line(alloc, line, at)
}
