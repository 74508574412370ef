//! Expressions, by recursive descent.

ghost use Rattle.std.specs.Prelude.{◌≡◌, ◌≤◌, ◌∷◌, ◌++◌, length, IfOk};
ghost use Rattle.bas_form.specs.Reader.{all_from, built};
ghost use Rattle.bas_expr.specs.Reading as reading;

use crate::bracket::{Bracket, are_plain, subscripts};
use crate::token_line::TokenLine;
use bas_ast::{
    Actual, Args, Expr, Factor, FactorSign, Primary, Target, Term, TermSign, is_supplied,
};
use bas_base::{Name, Seq};
use sqlite_items::{Boxed, Items};
use std::alloc::{AllocError, Global};

type Read<T> = Result<Option<(T, usize)>, AllocError>;

fn without_list(alloc: Global, name: Name) -> Primary
    ensures { result ≡ reading.plain_name name }
{
    let actuals = Items::new(alloc);
    Primary::Name(name, Args { actuals })
}

fn with_list(name: Name, actuals: Seq<Actual>) -> Primary
    ensures { result ≡ reading.name_with name actuals }
{
    let actuals = Items::from_vec(actuals.into_items());
    Primary::Name(name, Args { actuals })
}

fn substring(
    alloc: Global,
    name: Name,
    subscripts: Items<Expr>,
    first: Expr,
    last: Expr,
) -> Result<Primary, AllocError>
    ensures { IfOk result (λ p. p ≡ reading.substring name subscripts first last) }
{
    let target = Target { name, subscripts };
    Ok(Primary::Substring(target, Boxed::new(alloc, first)?, Boxed::new(alloc, last)?))
}

/// `"(" expr ")"`
#[cycle(longest_expr)]
#[tactic(auto, unfolding(crate::specs::Reading::group, bas_form::specs::Reader::built, bas_form::specs::Reader::both, bas_form::specs::Reader::terminal))]
fn group(alloc: Global, line: &TokenLine<'_>, at: usize, depth: usize) -> Read<Primary>
    ensures { IfOk result (λ o. o ≡ reading.group line.now (reading.expr line.now depth) at) }
{
    let Some(()) = line.opening(at) else {
        return Ok(None);
    };
    let Some((inner, close)) = longest_expr(alloc, line, at + 1, depth)? else {
        return Ok(None);
    };
    let Some(()) = line.closing(close) else {
        return Ok(None);
    };
    Ok(Some((Primary::Group(Boxed::new(alloc, inner)?), close + 1)))
}

/// `expr | "#" expr`
#[cycle(longest_expr)]
#[tactic(auto, unfolding(crate::specs::Reading::one_actual))]
fn actual(alloc: Global, line: &TokenLine<'_>, at: usize, depth: usize) -> Read<Actual>
    ensures { IfOk result (λ o. o ≡ reading.one_actual line.now (reading.expr line.now depth) at) }
{
    match line.hash(at) {
        Some(()) => match longest_expr(alloc, line, at + 1, depth)? {
            Some((number, after)) => Ok(Some((Actual::Chan(number), after))),
            None => Ok(None),
        },
        None => match longest_expr(alloc, line, at, depth)? {
            Some((value, after)) => Ok(Some((Actual::Expr(value), after))),
            None => Ok(None),
        },
    }
}

/// `"," actual`
#[cycle(longest_expr)]
#[tactic(auto, unfolding(bas_form::specs::Reader::built, bas_form::specs::Reader::both, bas_form::specs::Reader::terminal))]
fn next_actual(alloc: Global, line: &TokenLine<'_>, at: usize, depth: usize) -> Read<Actual>
    ensures { IfOk result (λ o. o ≡ reading.next_actual line.now (reading.expr line.now depth) at) }
{
    let Some(()) = line.comma(at) else {
        return Ok(None);
    };
    let Some((next, after)) = actual(alloc, line, at + 1, depth)? else {
        return Ok(None);
    };
    Ok(Some((next, after)))
}

/// `{ "," actual }`
#[cycle(longest_expr)]
fn more_actuals(
    alloc: Global,
    line: &TokenLine<'_>,
    mut at: usize,
    depth: usize,
    first: Actual,
) -> Result<(Vec<Actual>, usize), AllocError>
    ensures { IfOk result (λ r. (r.0.items, r.1) ≡ reading.more_actuals line.now (reading.expr line.now depth) first at) }
{
    let mut all = Vec::new(alloc);
    all.push(first)?;
    'more: while let Some((next, after)) = next_actual(alloc, line, at, depth)? {
        all.push(next)?;
        at = after;
    }
    Ok((all, at))
}

/// `{ "," actual } ")"`
#[cycle(longest_expr)]
#[tactic(auto, unfolding(crate::specs::Reading::list_from))]
fn list_from(
    alloc: Global,
    line: &TokenLine<'_>,
    at: usize,
    depth: usize,
    first: Actual,
) -> Read<Bracket>
    ensures { IfOk result (λ o. o ≡ reading.list_from line.now (reading.expr line.now depth) first at) }
{
    let (all, close) = more_actuals(alloc, line, at, depth, first)?;
    let Some(()) = line.closing(close) else {
        return Ok(None);
    };
    Ok(Some((Bracket::List(Seq::of(all)), close + 1)))
}

/// `expr ")"`
#[cycle(longest_expr)]
#[tactic(auto, unfolding(crate::specs::Reading::range_from))]
fn range_from(
    alloc: Global,
    line: &TokenLine<'_>,
    at: usize,
    depth: usize,
    first: Expr,
) -> Read<Bracket>
    ensures { IfOk result (λ o. o ≡ reading.range_from line.now (reading.expr line.now depth) first at) }
{
    let Some((last, close)) = longest_expr(alloc, line, at, depth)? else {
        return Ok(None);
    };
    let Some(()) = line.closing(close) else {
        return Ok(None);
    };
    Ok(Some((Bracket::Range(first, last), close + 1)))
}

/// What stands in parentheses behind a name, from behind the `(` on.
#[cycle(longest_expr)]
fn after_opening(alloc: Global, line: &TokenLine<'_>, at: usize, depth: usize) -> Read<Bracket>
    ensures { IfOk result (λ o. o ≡ reading.after_opening line.now (reading.expr line.now depth) at (reading.hash_at line.now at)) }
{
    match line.hash(at) {
        Some(()) => match longest_expr(alloc, line, at + 1, depth)? {
            Some((number, after)) => list_from(alloc, line, after, depth, Actual::Chan(number)),
            None => Ok(None),
        },
        None => match longest_expr(alloc, line, at, depth)? {
            Some((first, after)) => match line.colon(after) {
                Some(()) => range_from(alloc, line, after + 1, depth, first),
                None => list_from(alloc, line, after, depth, Actual::Expr(first)),
            },
            None => Ok(None),
        },
    }
}

/// What stands in parentheses behind a name.
#[cycle(longest_expr)]
#[tactic(auto, unfolding(crate::specs::Reading::bracket_at))]
fn bracket(alloc: Global, line: &TokenLine<'_>, at: usize, depth: usize) -> Read<Bracket>
    ensures { IfOk result (λ o. o ≡ reading.bracket_at line.now (reading.expr line.now depth) at) }
{
    match line.opening(at) {
        Some(()) => after_opening(alloc, line, at + 1, depth),
        None => Ok(None),
    }
}

/// Behind a name with arguments: they are subscripts where a substring stands there.
#[cycle(longest_expr)]
fn after_list(
    alloc: Global,
    line: &TokenLine<'_>,
    at: usize,
    depth: usize,
    name: Name,
    actuals: Seq<Actual>,
) -> Result<(Primary, usize), AllocError>
    ensures { IfOk result (λ r. r ≡ reading.element_or_call line.now (reading.expr line.now depth) name actuals at (reading.are_plain actuals)) }
{
    if !are_plain(actuals.items()) {
        return Ok((with_list(name, actuals), at));
    }
    let Some((found, after)) = bracket(alloc, line, at, depth)? else {
        return Ok((with_list(name, actuals), at));
    };
    match found {
        Bracket::Range(first, last) => {
            let subscripts = subscripts(alloc, actuals)?;
            Ok((substring(alloc, name, subscripts, first, last)?, after))
        }
        Bracket::List(_) => Ok((with_list(name, actuals), at)),
    }
}

/// Behind a name.
#[cycle(longest_expr)]
#[tactic(auto, unfolding(crate::specs::Reading::named))]
fn named(
    alloc: Global,
    line: &TokenLine<'_>,
    at: usize,
    depth: usize,
    name: Name,
) -> Result<(Primary, usize), AllocError>
    ensures { IfOk result (λ r. r ≡ reading.named line.now (reading.expr line.now depth) name at) }
{
    let supplied = is_supplied(name.bytes());
    let Some((found, after)) = bracket(alloc, line, at, depth)? else {
        return Ok((without_list(alloc, name), at));
    };
    match found {
        Bracket::List(actuals) if supplied => Ok((with_list(name, actuals), after)),
        Bracket::List(actuals) => after_list(alloc, line, after, depth, name, actuals),
        Bracket::Range(_, _) if supplied => Ok((without_list(alloc, name), at)),
        Bracket::Range(first, last) => {
            let subscripts = Items::new(alloc);
            Ok((substring(alloc, name, subscripts, first, last)?, after))
        }
    }
}

/// `numeral | quoted | "(" expr ")" | name [ "(" args ")" ] | target "(" expr ":" expr ")"`
#[cycle(longest_expr)]
#[tactic(auto, unfolding(crate::specs::Reading::one_primary))]
fn primary(alloc: Global, line: &TokenLine<'_>, at: usize, depth: usize) -> Read<Primary>
    ensures { IfOk result (λ o. o ≡ reading.one_primary line.now (reading.expr line.now depth) at) }
{
    if let Some(value) = line.numeral(at) {
        return Ok(Some((Primary::Numeral(value), at + 1)));
    }
    if let Some(text) = line.quoted(alloc, at)? {
        return Ok(Some((Primary::Quoted(text), at + 1)));
    }
    match line.name(at) {
        Some(name) => Ok(Some(named(alloc, line, at + 1, depth, name)?)),
        None => group(alloc, line, at, depth),
    }
}

/// `"^" primary`
#[cycle(longest_expr)]
#[tactic(auto, unfolding(bas_form::specs::Reader::built, bas_form::specs::Reader::both, bas_form::specs::Reader::terminal))]
fn next_primary(alloc: Global, line: &TokenLine<'_>, at: usize, depth: usize) -> Read<Primary>
    ensures { IfOk result (λ o. o ≡ reading.next_primary line.now (reading.expr line.now depth) at) }
{
    let Some(()) = line.caret(at) else {
        return Ok(None);
    };
    let Some((next, after)) = primary(alloc, line, at + 1, depth)? else {
        return Ok(None);
    };
    Ok(Some((next, after)))
}

/// `{ "^" primary }`
#[cycle(longest_expr)]
fn exponents(
    alloc: Global,
    line: &TokenLine<'_>,
    mut at: usize,
    depth: usize,
) -> Result<(Items<Primary>, usize), AllocError>
    ensures { IfOk result (λ r. r ≡ all_from (reading.next_primary line.now (reading.expr line.now depth)) (length line.now) at) }
{
    let mut more = Items::new(alloc);
    'more: while let Some((next, after)) = next_primary(alloc, line, at, depth)? {
        more.push(next)?;
        at = after;
    }
    Ok((more, at))
}

/// `primary { "^" primary }`
#[cycle(longest_expr)]
#[tactic(auto, unfolding(crate::specs::Reading::one_factor, bas_form::specs::Reader::built, bas_form::specs::Reader::both, bas_form::specs::Reader::repeated))]
fn factor(alloc: Global, line: &TokenLine<'_>, at: usize, depth: usize) -> Read<Factor>
    ensures { IfOk result (λ o. o ≡ reading.one_factor line.now (reading.expr line.now depth) at) }
{
    let Some((base, after)) = primary(alloc, line, at, depth)? else {
        return Ok(None);
    };
    let (exponents, after) = exponents(alloc, line, after, depth)?;
    Ok(Some((Factor { base, exponents }, after)))
}

/// `( "*" | "/" ) factor`
#[cycle(longest_expr)]
#[tactic(auto, unfolding(bas_form::specs::Reader::both, bas_form::specs::Reader::terminal))]
fn next_factor(
    alloc: Global,
    line: &TokenLine<'_>,
    at: usize,
    depth: usize,
) -> Read<(FactorSign, Factor)>
    ensures { IfOk result (λ o. o ≡ reading.next_factor line.now (reading.expr line.now depth) at) }
{
    let Some(sign) = line.factor_sign(at) else {
        return Ok(None);
    };
    let Some((next, after)) = factor(alloc, line, at + 1, depth)? else {
        return Ok(None);
    };
    Ok(Some(((sign, next), after)))
}

/// `{ ( "*" | "/" ) factor }`
#[cycle(longest_expr)]
fn factors(
    alloc: Global,
    line: &TokenLine<'_>,
    mut at: usize,
    depth: usize,
) -> Result<(Items<(FactorSign, Factor)>, usize), AllocError>
    ensures { IfOk result (λ r. r ≡ all_from (reading.next_factor line.now (reading.expr line.now depth)) (length line.now) at) }
{
    let mut more = Items::new(alloc);
    'more: while let Some((next, after)) = next_factor(alloc, line, at, depth)? {
        more.push(next)?;
        at = after;
    }
    Ok((more, at))
}

/// `factor { ( "*" | "/" ) factor }`
#[cycle(longest_expr)]
#[tactic(auto, unfolding(crate::specs::Reading::one_term, bas_form::specs::Reader::built, bas_form::specs::Reader::both, bas_form::specs::Reader::repeated))]
fn term(alloc: Global, line: &TokenLine<'_>, at: usize, depth: usize) -> Read<Term>
    ensures { IfOk result (λ o. o ≡ reading.one_term line.now (reading.expr line.now depth) at) }
{
    let Some((first, after)) = factor(alloc, line, at, depth)? else {
        return Ok(None);
    };
    let (rest, after) = factors(alloc, line, after, depth)?;
    Ok(Some((Term { first, rest }, after)))
}

/// `( "+" | "-" | "&" ) term`
#[cycle(longest_expr)]
#[tactic(auto, unfolding(bas_form::specs::Reader::both, bas_form::specs::Reader::terminal))]
fn next_term(alloc: Global, line: &TokenLine<'_>, at: usize, depth: usize) -> Read<(TermSign, Term)>
    ensures { IfOk result (λ o. o ≡ reading.next_term line.now (reading.expr line.now depth) at) }
{
    let Some(sign) = line.term_sign(at) else {
        return Ok(None);
    };
    let Some((next, after)) = term(alloc, line, at + 1, depth)? else {
        return Ok(None);
    };
    Ok(Some(((sign, next), after)))
}

/// `{ ( "+" | "-" | "&" ) term }`
#[cycle(longest_expr)]
fn terms(
    alloc: Global,
    line: &TokenLine<'_>,
    mut at: usize,
    depth: usize,
) -> Result<(Items<(TermSign, Term)>, usize), AllocError>
    ensures { IfOk result (λ r. r ≡ all_from (reading.next_term line.now (reading.expr line.now depth)) (length line.now) at) }
{
    let mut more = Items::new(alloc);
    'more: while let Some((next, after)) = next_term(alloc, line, at, depth)? {
        more.push(next)?;
        at = after;
    }
    Ok((more, at))
}

/// `[ "+" | "-" ] term { ( "+" | "-" | "&" ) term }`
#[cycle(longest_expr)]
#[tactic(auto, unfolding(crate::specs::Reading::sum, bas_form::specs::Reader::built, bas_form::specs::Reader::both, bas_form::specs::Reader::optional, bas_form::specs::Reader::terminal, bas_form::specs::Reader::repeated))]
fn sum(alloc: Global, line: &TokenLine<'_>, at: usize, depth: usize) -> Read<Expr>
    ensures { IfOk result (λ o. o ≡ reading.sum line.now (reading.expr line.now depth) at) }
{
    let sign = line.sign(at);
    let from = match sign {
        Some(_) => at + 1,
        None => at,
    };
    let Some((first, after)) = term(alloc, line, from, depth)? else {
        return Ok(None);
    };
    let (rest, after) = terms(alloc, line, after, depth)?;
    let first = Boxed::new(alloc, first)?;
    Ok(Some((Expr { sign, first, rest }, after)))
}

/// The longest expression from a place on, with parentheses nested less deep than `depth`.
#[cycle(longest_expr)]
#[tactic(auto, unfolding(crate::specs::Reading::expr))]
pub fn longest_expr(alloc: Global, line: &TokenLine<'_>, at: usize, depth: usize) -> Read<Expr>
    ensures { IfOk result (λ o. o ≡ reading.expr line.now depth at) }
{
    if depth == 0 {
        return Ok(None);
    }
    sum(alloc, line, at, depth - 1)
}
