//! Declarations.

ghost use Rattle.std.specs.Prelude.{◌≡◌, IfOk};
ghost use Rattle.bas_ast.specs.declared.declaration.Decl.TheVariants as tree;
ghost use Rattle.bas_declaration.specs.Declaring as reading;

use crate::declared_item::{items, names, type_spec};
use crate::digits::base;
use crate::keyword::{
    Keyword, arithmetic_word, base_word, decimal_word, external_word, fixed_word, kind_word,
    procedure_word, public_word, word_at,
};
use bas_ast::{Decl, DeclaredKind, Items, ProcedureKind, TypeSpec};
use bas_base::{Name, Seq};
use bas_expr::TokenLine;
use std::alloc::{AllocError, Global};

type Read<T> = Result<Option<(T, usize)>, AllocError>;

/// `( "NUMERIC" | "STRING" ) items`
#[tactic(auto, unfolding(crate::specs::Declaring::kinded, bas_form::specs::Reader::both, bas_form::specs::Reader::terminal))]
fn kinded(alloc: Global, line: &TokenLine<'_>, at: usize) -> Read<(DeclaredKind, Items)>
    ensures { IfOk result (λ o. o ≡ reading.kinded line.now at) }
{
    let Some(kind) = kind_word(line, at) else {
        return Ok(None);
    };
    let Some((items, after)) = items(alloc, line, at + 1)? else {
        return Ok(None);
    };
    Ok(Some(((kind, items), after)))
}

/// `"BASE" ( "0" | "1" )`
#[tactic(auto, unfolding(crate::specs::Declaring::base_part, bas_form::specs::Reader::built, bas_form::specs::Reader::both, bas_form::specs::Reader::terminal))]
fn base_part(line: &TokenLine<'_>, at: usize) -> Option<(Decl, usize)>
    ensures { result ≡ reading.base_part line.now at }
{
    let Some(()) = base_word(line, at) else {
        return None;
    };
    let at = at + 1;
    let Some(value) = base(line, at) else {
        return None;
    };
    Some((value, at + 1))
}

/// `"FIXED" type`
#[tactic(auto, unfolding(crate::specs::Declaring::fixed, bas_form::specs::Reader::built, bas_form::specs::Reader::both, bas_form::specs::Reader::terminal))]
fn fixed(line: &TokenLine<'_>, at: usize) -> Option<(TypeSpec, usize)>
    ensures { result ≡ reading.fixed line.now at }
{
    let Some(()) = fixed_word(line, at) else {
        return None;
    };
    let Some((next, after)) = type_spec(line, at + 1) else {
        return None;
    };
    Some((next, after))
}

/// `"DECIMAL" | "FIXED" type`
#[tactic(auto, unfolding(crate::specs::Declaring::arithmetic, bas_form::specs::Reader::either, bas_form::specs::Reader::built, bas_form::specs::Reader::terminal))]
fn arithmetic(line: &TokenLine<'_>, at: usize) -> Option<(Decl, usize)>
    ensures { result ≡ reading.arithmetic line.now at }
{
    if let Some(()) = decimal_word(line, at) {
        return Some((Decl::OptionArithmeticDecimal, at + 1));
    }
    match fixed(line, at) {
        Some((spec, after)) => Some((Decl::OptionArithmeticFixed(spec), after)),
        None => None,
    }
}

/// `"ARITHMETIC" ( "DECIMAL" | "FIXED" type )`
#[tactic(auto, unfolding(crate::specs::Declaring::arithmetic_part, bas_form::specs::Reader::built, bas_form::specs::Reader::both, bas_form::specs::Reader::terminal))]
fn arithmetic_part(line: &TokenLine<'_>, at: usize) -> Option<(Decl, usize)>
    ensures { result ≡ reading.arithmetic_part line.now at }
{
    let Some(()) = arithmetic_word(line, at) else {
        return None;
    };
    let Some((next, after)) = arithmetic(line, at + 1) else {
        return None;
    };
    Some((next, after))
}

/// What stands behind `OPTION`.
#[tactic(auto, unfolding(crate::specs::Declaring::option_part, bas_form::specs::Reader::either))]
fn option_part(line: &TokenLine<'_>, at: usize) -> Option<(Decl, usize)>
    ensures { result ≡ reading.option_part line.now at }
{
    match base_part(line, at) {
        Some(found) => Some(found),
        None => arithmetic_part(line, at),
    }
}

/// `"OPTION" ( "BASE" ( "0" | "1" ) | "ARITHMETIC" ( "DECIMAL" | "FIXED" type ) )`
#[tactic(auto, unfolding(crate::specs::Declaring::option_line, bas_form::specs::Reader::built, bas_form::specs::Reader::both, bas_form::specs::Reader::terminal))]
fn option_line(line: &TokenLine<'_>, at: usize) -> Option<(Decl, usize)>
    ensures { result ≡ reading.option_line line.now at }
{
    let Some(_) = word_at(line, at) else {
        return None;
    };
    let Some((next, after)) = option_part(line, at + 1) else {
        return None;
    };
    Some((next, after))
}

/// `"DIM" items`
#[tactic(auto, unfolding(crate::specs::Declaring::dim_line, bas_form::specs::Reader::built, bas_form::specs::Reader::both, bas_form::specs::Reader::terminal))]
fn dim_line(alloc: Global, line: &TokenLine<'_>, at: usize) -> Read<Decl>
    ensures { IfOk result (λ o. o ≡ reading.dim_line line.now at) }
{
    let Some(_) = word_at(line, at) else {
        return Ok(None);
    };
    let Some((items, after)) = items(alloc, line, at + 1)? else {
        return Ok(None);
    };
    Ok(Some((Decl::Dim(items), after)))
}

/// `"PUBLIC" ( "NUMERIC" | "STRING" ) items`
#[tactic(auto, unfolding(crate::specs::Declaring::kinded_line, bas_form::specs::Reader::built, bas_form::specs::Reader::both, bas_form::specs::Reader::terminal))]
fn public_line(alloc: Global, line: &TokenLine<'_>, at: usize) -> Read<Decl>
    ensures { IfOk result (λ o. o ≡ reading.kinded_line line.now tree.Public at) }
{
    let Some(_) = word_at(line, at) else {
        return Ok(None);
    };
    let Some(((kind, items), after)) = kinded(alloc, line, at + 1)? else {
        return Ok(None);
    };
    Ok(Some((Decl::Public(kind, items), after)))
}

/// `"SHARE" ( "NUMERIC" | "STRING" ) items`
#[tactic(auto, unfolding(crate::specs::Declaring::kinded_line, bas_form::specs::Reader::built, bas_form::specs::Reader::both, bas_form::specs::Reader::terminal))]
fn share_line(alloc: Global, line: &TokenLine<'_>, at: usize) -> Read<Decl>
    ensures { IfOk result (λ o. o ≡ reading.kinded_line line.now tree.Share at) }
{
    let Some(_) = word_at(line, at) else {
        return Ok(None);
    };
    let Some(((kind, items), after)) = kinded(alloc, line, at + 1)? else {
        return Ok(None);
    };
    Ok(Some((Decl::Share(kind, items), after)))
}

/// `"PUBLIC" ( "NUMERIC" | "STRING" ) items`
#[tactic(auto, unfolding(crate::specs::Declaring::public_part, bas_form::specs::Reader::built, bas_form::specs::Reader::both, bas_form::specs::Reader::terminal))]
fn public_part(alloc: Global, line: &TokenLine<'_>, at: usize) -> Read<(DeclaredKind, Items)>
    ensures { IfOk result (λ o. o ≡ reading.public_part line.now at) }
{
    let Some(()) = public_word(line, at) else {
        return Ok(None);
    };
    let Some((next, after)) = kinded(alloc, line, at + 1)? else {
        return Ok(None);
    };
    Ok(Some((next, after)))
}

/// `( "SUB" | "FUNCTION" ) name { "," name }`
#[tactic(auto, unfolding(crate::specs::Declaring::procedure_names, bas_form::specs::Reader::both, bas_form::specs::Reader::terminal))]
fn procedure_names(
    alloc: Global,
    line: &TokenLine<'_>,
    at: usize,
) -> Read<(ProcedureKind, Seq<Name>)>
    ensures { IfOk result (λ o. o ≡ reading.procedure_names line.now at) }
{
    let Some(kind) = procedure_word(line, at) else {
        return Ok(None);
    };
    let Some((names, after)) = names(alloc, line, at + 1)? else {
        return Ok(None);
    };
    Ok(Some(((kind, names), after)))
}

/// `"EXTERNAL" ( "SUB" | "FUNCTION" ) name { "," name }`
#[tactic(auto, unfolding(crate::specs::Declaring::external_names, bas_form::specs::Reader::built, bas_form::specs::Reader::both, bas_form::specs::Reader::terminal))]
fn external_names(
    alloc: Global,
    line: &TokenLine<'_>,
    at: usize,
) -> Read<(ProcedureKind, Seq<Name>)>
    ensures { IfOk result (λ o. o ≡ reading.external_names line.now at) }
{
    let Some(()) = external_word(line, at) else {
        return Ok(None);
    };
    let Some((next, after)) = procedure_names(alloc, line, at + 1)? else {
        return Ok(None);
    };
    Ok(Some((next, after)))
}

/// What stands behind `DECLARE` where it names something public or external.
#[tactic(auto, unfolding(crate::specs::Declaring::public_or_external, bas_form::specs::Reader::either, bas_form::specs::Reader::built))]
fn public_or_external(alloc: Global, line: &TokenLine<'_>, at: usize) -> Read<Decl>
    ensures { IfOk result (λ o. o ≡ reading.public_or_external line.now at) }
{
    if let Some(((kind, items), after)) = public_part(alloc, line, at)? {
        return Ok(Some((Decl::DeclarePublic(kind, items), after)));
    }
    match external_names(alloc, line, at)? {
        Some(((kind, names), after)) => Ok(Some((Decl::DeclareExternal(kind, names), after))),
        None => Ok(None),
    }
}

/// What stands behind `DECLARE`.
#[tactic(auto, unfolding(crate::specs::Declaring::declare_part, bas_form::specs::Reader::either, bas_form::specs::Reader::built))]
fn declare_part(alloc: Global, line: &TokenLine<'_>, at: usize) -> Read<Decl>
    ensures { IfOk result (λ o. o ≡ reading.declare_part line.now at) }
{
    match kinded(alloc, line, at)? {
        Some(((kind, items), after)) => Ok(Some((Decl::Declare(kind, items), after))),
        None => public_or_external(alloc, line, at),
    }
}

/// `"DECLARE"` and what is declared.
#[tactic(auto, unfolding(crate::specs::Declaring::declare_line, bas_form::specs::Reader::built, bas_form::specs::Reader::both, bas_form::specs::Reader::terminal))]
fn declare_line(alloc: Global, line: &TokenLine<'_>, at: usize) -> Read<Decl>
    ensures { IfOk result (λ o. o ≡ reading.declare_line line.now at) }
{
    let Some(_) = word_at(line, at) else {
        return Ok(None);
    };
    let Some((next, after)) = declare_part(alloc, line, at + 1)? else {
        return Ok(None);
    };
    Ok(Some((next, after)))
}

/// `"PRIVATE" name { "," name }`
#[tactic(auto, unfolding(crate::specs::Declaring::private_line, bas_form::specs::Reader::built, bas_form::specs::Reader::both, bas_form::specs::Reader::terminal))]
fn private_line(alloc: Global, line: &TokenLine<'_>, at: usize) -> Read<Decl>
    ensures { IfOk result (λ o. o ≡ reading.private_line line.now at) }
{
    let Some(_) = word_at(line, at) else {
        return Ok(None);
    };
    let Some((names, after)) = names(alloc, line, at + 1)? else {
        return Ok(None);
    };
    Ok(Some((Decl::Private(names), after)))
}

/// The longest declaration, other than `DATA`, from a place on.
#[tactic(auto, unfolding(crate::specs::Declaring::decl_at, bas_form::specs::Reader::dispatched))]
pub fn decl(alloc: Global, line: &TokenLine<'_>, at: usize) -> Read<Decl>
    ensures { IfOk result (λ o. o ≡ reading.decl_at line.now at) }
{
    match word_at(line, at) {
        Some(Keyword::Option) => Ok(option_line(line, at)),
        Some(Keyword::Dim) => dim_line(alloc, line, at),
        Some(Keyword::Declare) => declare_line(alloc, line, at),
        Some(Keyword::Public) => public_line(alloc, line, at),
        Some(Keyword::Share) => share_line(alloc, line, at),
        Some(Keyword::Private) => private_line(alloc, line, at),
        _ => Ok(None),
    }
}
