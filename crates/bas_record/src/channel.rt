//! Channels, and where a statement sets the pointer of a file.

ghost use Rattle.std.specs.Prelude.{◌≡◌, IfOk};
ghost use Rattle.bas_record.specs.Channels as grammar;
ghost use Rattle.bas_record.specs.Reading as reading;

use crate::word::{KeyRelation, SetterWord, key_relation, setter_word};
use bas_ast::{Chan, Expr, Setter};
use bas_expr::{LEVELS, TokenLine, longest_expr};
use std::alloc::{AllocError, Global};

type Read<T> = Result<Option<(T, usize)>, AllocError>;

/// `"#" expr`
#[tactic(auto, unfolding(crate::specs::Reading::chan, bas_form::specs::Reader::built, bas_form::specs::Reader::both, bas_form::specs::Reader::terminal))]
pub fn channel(alloc: Global, line: &TokenLine<'_>, at: usize) -> Read<Chan>
    ensures { IfOk result (λ o. o ≡ reading.chan line.now at) }
{
    let Some(()) = line.hash(at) else {
        return Ok(None);
    };
    let Some((number, after)) = longest_expr(alloc, line, at + 1, LEVELS)? else {
        return Ok(None);
    };
    Ok(Some((Chan { number }, after)))
}

/// `"RECORD" expr`
#[tactic(auto, unfolding(crate::specs::Reading::record_setter, bas_form::specs::Reader::built, bas_form::specs::Reader::both, bas_form::specs::Reader::terminal))]
fn record_setter(alloc: Global, line: &TokenLine<'_>, at: usize) -> Read<Setter>
    ensures { IfOk result (λ o. o ≡ reading.record_setter line.now at) }
{
    let Some(_) = setter_word(line, at) else {
        return Ok(None);
    };
    let Some((number, after)) = longest_expr(alloc, line, at + 1, LEVELS)? else {
        return Ok(None);
    };
    Ok(Some((Setter::Record(number), after)))
}

fn keyed(relation: KeyRelation, key: Expr) -> Setter
    ensures { result ≡ grammar.key_of (relation, key) }
{
    match relation {
        KeyRelation::Equal => Setter::KeyEq(key),
        KeyRelation::AtLeast => Setter::KeyGe(key),
        KeyRelation::Greater => Setter::KeyGt(key),
    }
}

/// `"KEY" ( "=" | ">=" | ">" ) expr`
#[tactic(auto, unfolding(crate::specs::Reading::key_setter, bas_form::specs::Reader::built, bas_form::specs::Reader::both, bas_form::specs::Reader::terminal))]
fn key_setter(alloc: Global, line: &TokenLine<'_>, at: usize) -> Read<Setter>
    ensures { IfOk result (λ o. o ≡ reading.key_setter line.now at) }
{
    let Some(_) = setter_word(line, at) else {
        return Ok(None);
    };
    let at = at + 1;
    let Some(relation) = key_relation(line, at) else {
        return Ok(None);
    };
    let Some((key, after)) = longest_expr(alloc, line, at + 1, LEVELS)? else {
        return Ok(None);
    };
    Ok(Some((keyed(relation, key), after)))
}

/// `"BEGIN" | "END" | "NEXT" | "SAME" | "RECORD" expr | "KEY" ( "=" | ">=" | ">" ) expr`
#[tactic(auto, unfolding(crate::specs::Reading::one_setter, bas_form::specs::Reader::dispatched, bas_form::specs::Reader::built, bas_form::specs::Reader::terminal))]
pub fn setter(alloc: Global, line: &TokenLine<'_>, at: usize) -> Read<Setter>
    ensures { IfOk result (λ o. o ≡ reading.one_setter line.now at) }
{
    match setter_word(line, at) {
        Some(SetterWord::Begin) => Ok(Some((Setter::Begin, at + 1))),
        Some(SetterWord::End) => Ok(Some((Setter::End, at + 1))),
        Some(SetterWord::Next) => Ok(Some((Setter::Next, at + 1))),
        Some(SetterWord::Same) => Ok(Some((Setter::Same, at + 1))),
        Some(SetterWord::Record) => record_setter(alloc, line, at),
        Some(SetterWord::Key) => key_setter(alloc, line, at),
        None => Ok(None),
    }
}
