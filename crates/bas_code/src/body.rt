use crate::instr::Instr;
use bas_base::{Line, Name, Seq};

/// What a body is the text of.
#[derive(Clone, Copy, Debug)]
pub enum BodyKind {
    /// A program.
    Main,
    /// An external procedure.
    External,
    /// An internal procedure.
    Internal,
    /// The initial part of a module.
    Initial,
}

/// A line's code: its addresses are those from `start` on and below `end`, and `CONTINUE` goes on
/// at `next`.
#[derive(Clone, Copy, Debug)]
pub struct LineEntry {
    pub line: Line,
    pub start: u16,
    pub end: u16,
    pub next: u16,
}

/// The code of a `WHEN` block: its addresses are those from `from` on and below `to`. `outer` is the
/// index of the guard around it, or 65,535.
#[derive(Clone, Copy, Debug)]
pub struct Guard {
    pub from: u16,
    pub to: u16,
    pub outer: u16,
    pub handler: u16,
    pub after: u16,
}

/// A body: its kind, its unit, how many slots it has beside its formals, its code and its tables.
#[derive(Debug, Drop)]
pub struct Proc {
    pub kind: BodyKind,
    pub unit: Name,
    pub slots: u16,
    pub code: Seq<Instr>,
    pub lines: Seq<LineEntry>,
    pub guards: Seq<Guard>,
}

/// An image: its programs, each with the index of its body, and its bodies.
#[derive(Debug, Drop)]
pub struct Image {
    pub programs: Seq<(Name, u16)>,
    pub procs: Seq<Proc>,
}
