//! The place of a line.

use bas_ast::{LineItem, NumLine};
use bas_claim::{FirstLines, Heading};
use bas_names::{Names, UnitNames};
use bas_reach::Around;
use bas_scope::BodyKind;
use std::collections::BTreeSet;

/// What is known of a unit.
#[derive(Drop)]
pub struct UnitFacts<'a> {
    /// All lines of the unit, in order.
    pub lines: Vec<&'a NumLine>,
    /// The numbers of its `DATA` lines.
    pub data_numbers: BTreeSet<u32>,
    /// Its options, and the variables and procedures of a module.
    pub names: UnitNames,
}

/// What is known of a body.
#[derive(Drop)]
pub struct BodyFacts<'a> {
    pub kind: BodyKind,
    /// What stands on its first line, or nothing where it has none.
    pub head: &'a LineItem,
    /// What its first line has declared.
    pub heading: Heading,
    /// The first line of each name that its own lines declare.
    pub claims: FirstLines,
    /// The first line of each of its detached handlers.
    pub handlers: FirstLines,
    /// What is around the lines of its top.
    pub top: Around<'a>,
}

/// The place of a line.
#[derive(Clone, Copy)]
pub struct Place<'a> {
    pub unit: &'a UnitFacts<'a>,
    /// The first line of each name that the container of its body declares.
    pub container: &'a FirstLines,
    /// The first line of each name that the bodies of its family use as a variable, and that a `SUB` has.
    pub uses: &'a FirstLines,
    pub body: &'a BodyFacts<'a>,
    pub names: Names<'a>,
    /// What is around the line.
    pub around: &'a Around<'a>,
}
