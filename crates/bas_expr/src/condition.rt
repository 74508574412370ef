//! Conditions, by recursive descent.

ghost use Rattle.std.specs.Prelude.{◌≡◌, ◌≤◌, ◌<◌, ◌+◌, length, IfOk};
ghost use Rattle.bas_form.specs.Reader.{all_from};
ghost use Rattle.bas_expr.specs.Reading as reading;
ghost use Rattle.bas_expr.specs.Testing as testing;

use crate::expression::longest_expr;
use crate::token_line::TokenLine;
use bas_ast::{Cond, Conj, Test};
use sqlite_items::{Boxed, Items};
use std::alloc::{AllocError, Global};

type Read<T> = Result<Option<(T, usize)>, AllocError>;

/// `expr rel expr`
#[tactic(auto, unfolding(crate::specs::Testing::comparison, bas_form::specs::Reader::built, bas_form::specs::Reader::both, bas_form::specs::Reader::terminal))]
fn comparison(alloc: Global, line: &TokenLine<'_>, at: usize, depth: usize) -> Read<Test>
    ensures { IfOk result (λ o. o ≡ testing.comparison line.now (reading.expr line.now depth) at) }
{
    let Some((left, after)) = longest_expr(alloc, line, at, depth)? else {
        return Ok(None);
    };
    let Some(rel) = line.rel(after) else {
        return Ok(None);
    };
    let Some((right, after)) = longest_expr(alloc, line, after + 1, depth)? else {
        return Ok(None);
    };
    Ok(Some((Test::Compare(left, rel, right), after)))
}

/// `"(" cond ")"`
#[cycle(longest_cond)]
#[tactic(auto, unfolding(crate::specs::Testing::group, bas_form::specs::Reader::built, bas_form::specs::Reader::both, bas_form::specs::Reader::terminal))]
fn group(alloc: Global, line: &TokenLine<'_>, at: usize, depth: usize) -> Read<Test>
    requires { depth < usize.MAX }
    ensures { IfOk result (λ o. o ≡ testing.group line.now (testing.cond line.now depth) at) }
{
    let Some(()) = line.opening(at) else {
        return Ok(None);
    };
    let Some((inner, close)) = longest_cond(alloc, line, at + 1, depth)? else {
        return Ok(None);
    };
    let Some(()) = line.closing(close) else {
        return Ok(None);
    };
    Ok(Some((Test::Group(Boxed::new(alloc, inner)?), close + 1)))
}

/// `"NOT" test | "(" cond ")" | expr rel expr`
#[cycle(longest_cond)]
fn test(alloc: Global, line: &TokenLine<'_>, at: usize, depth: usize, nots: usize) -> Read<Test>
    requires few { nots ≤ 4096 }
    requires small { depth < usize.MAX }
    ensures { IfOk result (λ o. o ≡ testing.test line.now (reading.expr line.now (depth + 1)) (testing.cond line.now depth) nots at) }
{
    if nots == 0 {
        return Ok(None);
    }
    match line.negation(at) {
        Some(()) => match test(alloc, line, at + 1, depth, nots - 1)? {
            Some((inner, after)) => Ok(Some((Test::Not(Boxed::new(alloc, inner)?), after))),
            None => Ok(None),
        },
        None => match comparison(alloc, line, at, depth + 1)? {
            Some((found, after)) => Ok(Some((found, after))),
            None => group(alloc, line, at, depth),
        },
    }
}

/// `"AND" test`
#[cycle(longest_cond)]
#[tactic(auto, unfolding(bas_form::specs::Reader::built, bas_form::specs::Reader::both, bas_form::specs::Reader::terminal))]
fn next_test(alloc: Global, line: &TokenLine<'_>, at: usize, depth: usize) -> Read<Test>
    requires { depth < usize.MAX }
    ensures { IfOk result (λ o. o ≡ testing.next_test line.now (reading.expr line.now (depth + 1)) (testing.cond line.now depth) (length line.now) at) }
{
    let Some(()) = line.and_word(at) else {
        return Ok(None);
    };
    let Some((next, after)) = test(alloc, line, at + 1, depth, line.len())? else {
        return Ok(None);
    };
    Ok(Some((next, after)))
}

/// `{ "AND" test }`
#[cycle(longest_cond)]
fn tests(
    alloc: Global,
    line: &TokenLine<'_>,
    mut at: usize,
    depth: usize,
) -> Result<(Items<Test>, usize), AllocError>
    requires { depth < usize.MAX }
    ensures { IfOk result (λ r. r ≡ all_from (testing.next_test line.now (reading.expr line.now (depth + 1)) (testing.cond line.now depth) (length line.now)) (length line.now) at) }
{
    let mut more = Items::new(alloc);
    'more: while let Some((next, after)) = next_test(alloc, line, at, depth)? {
        more.push(next)?;
        at = after;
    }
    Ok((more, at))
}

/// `test { "AND" test }`
#[cycle(longest_cond)]
#[tactic(auto, unfolding(crate::specs::Testing::conj, bas_form::specs::Reader::built, bas_form::specs::Reader::both, bas_form::specs::Reader::repeated))]
fn conj(alloc: Global, line: &TokenLine<'_>, at: usize, depth: usize) -> Read<Conj>
    requires { depth < usize.MAX }
    ensures { IfOk result (λ o. o ≡ testing.conj line.now (reading.expr line.now (depth + 1)) (testing.cond line.now depth) (length line.now) at) }
{
    let Some((first, after)) = test(alloc, line, at, depth, line.len())? else {
        return Ok(None);
    };
    let (rest, after) = tests(alloc, line, after, depth)?;
    Ok(Some((Conj { first, rest }, after)))
}

/// `"OR" conj`
#[cycle(longest_cond)]
#[tactic(auto, unfolding(bas_form::specs::Reader::built, bas_form::specs::Reader::both, bas_form::specs::Reader::terminal))]
fn next_conj(alloc: Global, line: &TokenLine<'_>, at: usize, depth: usize) -> Read<Conj>
    requires { depth < usize.MAX }
    ensures { IfOk result (λ o. o ≡ testing.next_conj line.now (reading.expr line.now (depth + 1)) (testing.cond line.now depth) (length line.now) at) }
{
    let Some(()) = line.or_word(at) else {
        return Ok(None);
    };
    let Some((next, after)) = conj(alloc, line, at + 1, depth)? else {
        return Ok(None);
    };
    Ok(Some((next, after)))
}

/// `{ "OR" conj }`
#[cycle(longest_cond)]
fn conjs(
    alloc: Global,
    line: &TokenLine<'_>,
    mut at: usize,
    depth: usize,
) -> Result<(Items<Conj>, usize), AllocError>
    requires { depth < usize.MAX }
    ensures { IfOk result (λ r. r ≡ all_from (testing.next_conj line.now (reading.expr line.now (depth + 1)) (testing.cond line.now depth) (length line.now)) (length line.now) at) }
{
    let mut more = Items::new(alloc);
    'more: while let Some((next, after)) = next_conj(alloc, line, at, depth)? {
        more.push(next)?;
        at = after;
    }
    Ok((more, at))
}

/// `conj { "OR" conj }`
#[cycle(longest_cond)]
#[tactic(auto, unfolding(crate::specs::Testing::alternative, bas_form::specs::Reader::built, bas_form::specs::Reader::both, bas_form::specs::Reader::repeated))]
fn alternative(alloc: Global, line: &TokenLine<'_>, at: usize, depth: usize) -> Read<Cond>
    requires { depth < usize.MAX }
    ensures { IfOk result (λ o. o ≡ testing.alternative line.now (reading.expr line.now (depth + 1)) (testing.cond line.now depth) (length line.now) at) }
{
    let Some((first, after)) = conj(alloc, line, at, depth)? else {
        return Ok(None);
    };
    let (rest, after) = conjs(alloc, line, after, depth)?;
    Ok(Some((Cond { first, rest }, after)))
}

/// The longest condition from a place on, with parentheses nested less deep than `depth`.
#[cycle(longest_cond)]
pub fn longest_cond(alloc: Global, line: &TokenLine<'_>, at: usize, depth: usize) -> Read<Cond>
    ensures { IfOk result (λ o. o ≡ testing.cond line.now depth at) }
{
    if depth == 0 {
        return Ok(None);
    }
    alternative(alloc, line, at, depth - 1)
}
