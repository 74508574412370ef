//! Where `ON` goes.

ghost use Rattle.std.specs.Prelude.{◌≡◌, ◌∷◌, IfOk};
ghost use Rattle.bas_declaration.specs.Reading.{all_with};
ghost use Rattle.bas_line.specs.Reading as reading;

use bas_base::{Line, Seq};
use bas_declaration::keyword::spells;
use bas_expr::TokenLine;
use bas_list::word::line_number;
use std::alloc::{AllocError, Global};

/// What an `ON` line does with the line that it chooses.
#[derive(Clone, Copy)]
pub enum Jump {
    Goto,
    Gosub,
}

/// `"GO" ( "TO" | "SUB" )`
#[tactic(auto, unfolding(crate::specs::Reading::behind_go, bas_form::specs::Reader::either, bas_form::specs::Reader::built, bas_form::specs::Reader::both, bas_form::specs::Reader::terminal))]
fn behind_go(line: &TokenLine<'_>, at: usize) -> Option<(Jump, usize)>
    ensures { result ≡ reading.behind_go line.now at }
{
    let Some(()) = spells(line, at, b"GO") else {
        return None;
    };
    let at = at + 1;
    if let Some(()) = spells(line, at, b"TO") {
        return Some((Jump::Goto, at + 1));
    }
    let Some(()) = spells(line, at, b"SUB") else {
        return None;
    };
    Some((Jump::Gosub, at + 1))
}

/// `"GOTO" | "GOSUB"`, each of one word or of two
#[tactic(auto, unfolding(crate::specs::Reading::one_jump, bas_form::specs::Reader::either, bas_form::specs::Reader::built, bas_form::specs::Reader::terminal))]
pub fn jump_words(line: &TokenLine<'_>, at: usize) -> Option<(Jump, usize)>
    ensures { result ≡ reading.one_jump line.now at }
{
    if let Some(()) = spells(line, at, b"GOTO") {
        return Some((Jump::Goto, at + 1));
    }
    if let Some(()) = spells(line, at, b"GOSUB") {
        return Some((Jump::Gosub, at + 1));
    }
    behind_go(line, at)
}

/// `"," number`
#[tactic(auto, unfolding(bas_form::specs::Reader::built, bas_form::specs::Reader::both, bas_form::specs::Reader::terminal))]
fn next_number(line: &TokenLine<'_>, at: usize) -> Option<(Line, usize)>
    ensures { result ≡ reading.next_number line.now at }
{
    let Some(()) = line.comma(at) else {
        return None;
    };
    let at = at + 1;
    let Some(number) = line_number(line, at) else {
        return None;
    };
    Some((number, at + 1))
}

/// `{ "," number }`
fn more_numbers(
    alloc: Global,
    line: &TokenLine<'_>,
    mut at: usize,
    first: Line,
) -> Result<(Vec<Line>, usize), AllocError>
    ensures { IfOk result (λ r. (r.0.items, r.1) ≡ all_with (reading.next_number line.now) line.now first at) }
{
    let mut all = Vec::new(alloc);
    all.push(first)?;
    'more: while let Some(found) = next_number(line, at) {
        all.push(found.0)?;
        at = found.1;
    }
    Ok((all, at))
}

/// `number { "," number }`
#[tactic(auto, unfolding(crate::specs::Reading::number_list, bas_form::specs::Reader::built, bas_form::specs::Reader::both, bas_form::specs::Reader::repeated, bas_form::specs::Reader::terminal))]
pub fn number_list(
    alloc: Global,
    line: &TokenLine<'_>,
    at: usize,
) -> Result<Option<(Seq<Line>, usize)>, AllocError>
    ensures { IfOk result (λ o. o ≡ reading.number_list line.now at) }
{
    let Some(first) = line_number(line, at) else {
        return Ok(None);
    };
    let (all, end) = more_numbers(alloc, line, at + 1, first)?;
    Ok(Some((Seq::of(all), end)))
}
