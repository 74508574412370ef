//! The attributes of a file.

ghost use Rattle.std.specs.Prelude.{◌≡◌, length, IfOk};
ghost use Rattle.bas_form.specs.Reader.{all_from};
ghost use Rattle.bas_record.specs.Reading as reading;

use crate::word::{AttrWord, access, attr_word, create, organization, rectype};
use bas_ast::{Attr, Expr};
use bas_base::Seq;
use bas_declaration::digits::digits;
use bas_declaration::keyword::spells;
use bas_expr::{LEVELS, TokenLine, longest_expr};
use std::alloc::{AllocError, Global};

type Read<T> = Result<Option<(T, usize)>, AllocError>;

/// The word of an attribute and its value.
#[tactic(auto, unfolding(crate::specs::Reading::one_attr, bas_form::specs::Reader::dispatched, bas_form::specs::Reader::built, bas_form::specs::Reader::both, bas_form::specs::Reader::terminal))]
fn attribute(line: &TokenLine<'_>, at: usize) -> Option<(Attr, usize)>
    ensures { result ≡ reading.one_attr line.now at }
{
    let lead = attr_word(line, at)?;
    let at = at + 1;
    let value = match lead {
        AttrWord::Organization => Attr::Organization(organization(line, at)?),
        AttrWord::Rectype => Attr::Rectype(rectype(line, at)?),
        AttrWord::Access => Attr::Access(access(line, at)?),
        AttrWord::Create => Attr::Create(create(line, at)?),
        AttrWord::Recsize => Attr::Recsize(digits(line, at)?),
    };
    Some((value, at + 1))
}

/// `"," attr`
#[tactic(auto, unfolding(bas_form::specs::Reader::built, bas_form::specs::Reader::both, bas_form::specs::Reader::terminal))]
fn next_attribute(line: &TokenLine<'_>, at: usize) -> Option<(Attr, usize)>
    ensures { result ≡ reading.next_attr line.now at }
{
    let Some(()) = line.comma(at) else {
        return None;
    };
    let Some((next, after)) = attribute(line, at + 1) else {
        return None;
    };
    Some((next, after))
}

/// `{ "," attr }`
fn more_attributes(
    alloc: Global,
    line: &TokenLine<'_>,
    mut at: usize,
) -> Result<(Vec<Attr>, usize), AllocError>
    ensures { IfOk result (λ r. (r.0.items, r.1) ≡ all_from (reading.next_attr line.now) (length line.now) at) }
{
    let mut all = Vec::new(alloc);
    'more: while let Some((next, after)) = next_attribute(line, at) {
        all.push(next)?;
        at = after;
    }
    Ok((all, at))
}

/// `"NAME" expr { "," attr }`
#[tactic(auto, unfolding(crate::specs::Reading::named, bas_form::specs::Reader::built, bas_form::specs::Reader::both, bas_form::specs::Reader::terminal, bas_form::specs::Reader::repeated))]
pub fn named(alloc: Global, line: &TokenLine<'_>, at: usize) -> Read<(Expr, Seq<Attr>)>
    ensures { IfOk result (λ o. o ≡ reading.named line.now at) }
{
    let Some(()) = spells(line, at, b"NAME") else {
        return Ok(None);
    };
    let Some((name, after)) = longest_expr(alloc, line, at + 1, LEVELS)? else {
        return Ok(None);
    };
    let (all, end) = more_attributes(alloc, line, after)?;
    Ok(Some(((name, Seq::of(all)), end)))
}
