//! Declarations.

use bas_base::{Name, Seq};
use bas_text::Datum;

/// `* digits [ . digits ]`. A number that digits spell is 4,294,967,295 where it is greater.
#[derive(Clone, Copy, Debug, PartialEq, Eq)]
pub struct TypeSpec {
    pub whole: u32,
    pub fraction: Option<u32>,
}

/// `[ [ - ] digits TO ] [ - ] digits`. The size of a number is at most 4,294,967,295.
#[derive(Clone, Copy, Debug, PartialEq, Eq)]
pub struct Bound {
    pub low: Option<i64>,
    pub high: i64,
}

/// `name [ ( bound { , bound } ) ] [ type ]`: an array where there are bounds.
#[derive(Drop)]
pub struct DeclaredItem {
    pub name: Name,
    pub bounds: Seq<Bound>,
    pub spec: Option<TypeSpec>,
}

/// What is declared, separated by commas.
#[derive(Drop)]
pub struct Items {
    pub items: Seq<DeclaredItem>,
}

/// The kind of what is declared.
#[derive(Clone, Copy, Debug, PartialEq, Eq)]
pub enum DeclaredKind {
    Numeric,
    String,
}

/// The kind of a procedure.
#[derive(Clone, Copy, Debug, PartialEq, Eq)]
pub enum ProcedureKind {
    Sub,
    Function,
}

/// A declaration.
#[derive(Drop)]
pub enum Decl {
    OptionBaseZero,
    OptionBaseOne,
    OptionArithmeticDecimal,
    OptionArithmeticFixed(TypeSpec),
    Dim(Items),
    Declare(DeclaredKind, Items),
    Public(DeclaredKind, Items),
    Share(DeclaredKind, Items),
    DeclarePublic(DeclaredKind, Items),
    Private(Seq<Name>),
    DeclareExternal(ProcedureKind, Seq<Name>),
    Data(Seq<Datum>),
}
