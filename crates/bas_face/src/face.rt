//! The interface of a unit.

use crate::shape::{Cell, Shape};
use bas_base::{Name, Seq};

/// What is called: a `SUB` by `CALL`, or a `FUNCTION` in an expression.
#[derive(Clone, Copy, Debug, PartialEq, Eq)]
pub enum CallKind {
    Sub,
    Function,
}

/// A procedure that other units may call, and the number of its body in its unit.
#[derive(Drop)]
pub struct Export {
    pub name: Name,
    pub kind: CallKind,
    pub formals: Seq<Shape>,
    pub body: u16,
}

/// A call of a procedure of another unit.
#[derive(Drop)]
pub struct Import {
    pub name: Name,
    pub kind: CallKind,
    pub actuals: Seq<Shape>,
}

/// A variable that a module shows to other units, or that a unit uses of a module.
#[derive(Clone, Copy, Debug)]
pub struct Public {
    pub name: Name,
    pub cell: Cell,
}

/// What a unit is.
#[derive(Clone, Copy, Debug, PartialEq, Eq)]
pub enum UnitKind {
    Program,
    Procedure,
    Module,
}

/// The interface of a unit: what it offers, and what it needs of others.
#[derive(Drop)]
pub struct Face {
    pub unit: Name,
    pub kind: UnitKind,
    /// In the order of the first lines of their procedures.
    pub exports: Seq<Export>,
    /// One for each external call, in the order of the text.
    pub imports: Seq<Import>,
    /// In the order in which they are declared.
    pub publics: Seq<Public>,
    /// In the order in which they are declared.
    pub uses: Seq<Public>,
}
