//! The lines of choices, handlers, procedures and units.

ghost use Rattle.std.specs.Prelude.{◌≡◌, IfOk};
ghost use Rattle.bas_ast.specs.declared.part.Part.TheVariants as tree;
ghost use Rattle.bas_declaration.specs.Parts as grammar;
ghost use Rattle.bas_declaration.specs.Reading as reading;

use crate::case::cases;
use crate::formal::heading;
use crate::keyword::{else_word, exception_word, in_word, procedure_word, use_word, word_at};
use crate::mark::equals;
use bas_ast::{Formals, Part, ProcedureKind};
use bas_base::Name;
use bas_expr::{LEVELS, TokenLine, longest_expr};
use std::alloc::{AllocError, Global};

type Read<T> = Result<Option<(T, usize)>, AllocError>;

/// `case { "," case } | "ELSE"`
#[tactic(auto, unfolding(crate::specs::Reading::case_or_else, bas_form::specs::Reader::either, bas_form::specs::Reader::built, bas_form::specs::Reader::terminal))]
fn case_or_else(alloc: Global, line: &TokenLine<'_>, at: usize) -> Read<Part>
    ensures { IfOk result (λ o. o ≡ reading.case_or_else line.now at) }
{
    if let Some((cases, after)) = cases(alloc, line, at)? {
        return Ok(Some((Part::Case(cases), after)));
    }
    match else_word(line, at) {
        Some(()) => Ok(Some((Part::CaseElse, at + 1))),
        None => Ok(None),
    }
}

/// `"CASE" ( case { "," case } | "ELSE" )`
#[tactic(auto, unfolding(crate::specs::Reading::case_line, bas_form::specs::Reader::built, bas_form::specs::Reader::both, bas_form::specs::Reader::terminal))]
pub fn case_line(alloc: Global, line: &TokenLine<'_>, at: usize) -> Read<Part>
    ensures { IfOk result (λ o. o ≡ reading.case_line line.now at) }
{
    let Some(_) = word_at(line, at) else {
        return Ok(None);
    };
    let Some((part, after)) = case_or_else(alloc, line, at + 1)? else {
        return Ok(None);
    };
    Ok(Some((part, after)))
}

/// `"USE" name`
#[tactic(auto, unfolding(crate::specs::Reading::use_name, bas_form::specs::Reader::built, bas_form::specs::Reader::both, bas_form::specs::Reader::terminal))]
fn use_name(line: &TokenLine<'_>, at: usize) -> Option<(Name, usize)>
    ensures { result ≡ reading.use_name line.now at }
{
    let Some(()) = use_word(line, at) else {
        return None;
    };
    let at = at + 1;
    let Some(name) = line.own_name(at) else {
        return None;
    };
    Some((name, at + 1))
}

/// `"IN" | "USE" name`
#[tactic(auto, unfolding(crate::specs::Reading::in_or_use, bas_form::specs::Reader::either, bas_form::specs::Reader::built, bas_form::specs::Reader::terminal))]
fn in_or_use(line: &TokenLine<'_>, at: usize) -> Option<(Part, usize)>
    ensures { result ≡ reading.in_or_use line.now at }
{
    if let Some(()) = in_word(line, at) {
        return Some((Part::WhenExceptionIn, at + 1));
    }
    match use_name(line, at) {
        Some((name, after)) => Some((Part::WhenExceptionUse(name), after)),
        None => None,
    }
}

/// `"WHEN" "EXCEPTION" ( "IN" | "USE" name )`
#[tactic(auto, unfolding(crate::specs::Reading::when_line, bas_form::specs::Reader::built, bas_form::specs::Reader::both, bas_form::specs::Reader::terminal))]
pub fn when_line(line: &TokenLine<'_>, at: usize) -> Option<(Part, usize)>
    ensures { result ≡ reading.when_line line.now at }
{
    let Some(_) = word_at(line, at) else {
        return None;
    };
    let at = at + 1;
    let Some(()) = exception_word(line, at) else {
        return None;
    };
    let Some((part, after)) = in_or_use(line, at + 1) else {
        return None;
    };
    Some((part, after))
}

fn external(kind: ProcedureKind, name: Name, formals: Formals) -> Part
    ensures { result ≡ grammar.external_of kind name formals }
{
    match kind {
        ProcedureKind::Sub => Part::ExternalSub(name, formals),
        ProcedureKind::Function => Part::ExternalFunction(name, formals),
    }
}

/// `"EXTERNAL" ( "SUB" | "FUNCTION" ) name [ formals ]`
#[tactic(auto, unfolding(crate::specs::Reading::external_line, bas_form::specs::Reader::built, bas_form::specs::Reader::both, bas_form::specs::Reader::terminal))]
pub fn external_line(alloc: Global, line: &TokenLine<'_>, at: usize) -> Read<Part>
    ensures { IfOk result (λ o. o ≡ reading.external_line line.now at) }
{
    let Some(_) = word_at(line, at) else {
        return Ok(None);
    };
    let at = at + 1;
    let Some(kind) = procedure_word(line, at) else {
        return Ok(None);
    };
    let Some(((name, formals), after)) = heading(alloc, line, at + 1)? else {
        return Ok(None);
    };
    Ok(Some((external(kind, name, formals), after)))
}

/// `"DEF" name [ formals ] "=" expr`
#[tactic(auto, unfolding(crate::specs::Reading::def_line, bas_form::specs::Reader::built, bas_form::specs::Reader::both, bas_form::specs::Reader::terminal))]
pub fn def_line(alloc: Global, line: &TokenLine<'_>, at: usize) -> Read<Part>
    ensures { IfOk result (λ o. o ≡ reading.def_line line.now at) }
{
    let Some(_) = word_at(line, at) else {
        return Ok(None);
    };
    let Some(((name, formals), at)) = heading(alloc, line, at + 1)? else {
        return Ok(None);
    };
    let Some(()) = equals(line, at) else {
        return Ok(None);
    };
    let Some((value, after)) = longest_expr(alloc, line, at + 1, LEVELS)? else {
        return Ok(None);
    };
    Ok(Some((Part::Def(name, formals, value), after)))
}

/// `"SUB" name [ formals ]`
#[tactic(auto, unfolding(crate::specs::Reading::headed, bas_form::specs::Reader::built, bas_form::specs::Reader::both, bas_form::specs::Reader::terminal))]
pub fn sub_line(alloc: Global, line: &TokenLine<'_>, at: usize) -> Read<Part>
    ensures { IfOk result (λ o. o ≡ reading.headed line.now tree.Sub at) }
{
    let Some(_) = word_at(line, at) else {
        return Ok(None);
    };
    let Some(((name, formals), after)) = heading(alloc, line, at + 1)? else {
        return Ok(None);
    };
    Ok(Some((Part::Sub(name, formals), after)))
}

/// `"FUNCTION" name [ formals ]`
#[tactic(auto, unfolding(crate::specs::Reading::headed, bas_form::specs::Reader::built, bas_form::specs::Reader::both, bas_form::specs::Reader::terminal))]
pub fn function_line(alloc: Global, line: &TokenLine<'_>, at: usize) -> Read<Part>
    ensures { IfOk result (λ o. o ≡ reading.headed line.now tree.Function at) }
{
    let Some(_) = word_at(line, at) else {
        return Ok(None);
    };
    let Some(((name, formals), after)) = heading(alloc, line, at + 1)? else {
        return Ok(None);
    };
    Ok(Some((Part::Function(name, formals), after)))
}

/// `"PROGRAM" name [ formals ]`
#[tactic(auto, unfolding(crate::specs::Reading::headed, bas_form::specs::Reader::built, bas_form::specs::Reader::both, bas_form::specs::Reader::terminal))]
pub fn program_line(alloc: Global, line: &TokenLine<'_>, at: usize) -> Read<Part>
    ensures { IfOk result (λ o. o ≡ reading.headed line.now tree.Program at) }
{
    let Some(_) = word_at(line, at) else {
        return Ok(None);
    };
    let Some(((name, formals), after)) = heading(alloc, line, at + 1)? else {
        return Ok(None);
    };
    Ok(Some((Part::Program(name, formals), after)))
}
