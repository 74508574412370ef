//! What was read so far, and what is open.

use crate::construct::Construct;
use crate::stack::Stack;
use bas_ast::{Block, NumLine, Procedure, Section, Stmt, Unit};
use bas_base::{Line, Name, Seq};
use sqlite_items::Items;

/// An open construct.
#[derive(Drop)]
pub struct Level {
    pub construct: Construct,
    /// The sections in front of the open one.
    pub sections: Items<Section>,
    /// The line of the open section.
    pub head: NumLine,
    /// What stands in the open section so far.
    pub stmts: Items<Stmt>,
}

/// What the open body is the body of.
#[derive(Drop)]
pub enum Owner {
    Program {
        name: Name,
        /// The `PROGRAM` line, where it is written.
        head: Option<NumLine>,
        /// The number of the program's first line.
        first: Line,
    },
    /// A procedure of its own.
    Procedure {
        head: NumLine,
    },
    /// The initial part of a module.
    Initial {
        head: NumLine,
    },
    /// A procedure of a module.
    Member {
        part: NumLine,
        initial: Block,
        procs: Seq<Procedure>,
        head: NumLine,
    },
}

/// An open body.
#[derive(Drop)]
pub struct Body {
    pub owner: Owner,
    /// Its top statements so far.
    pub stmts: Items<Stmt>,
    /// The open constructs.
    pub levels: Stack<Level>,
}

/// What is open.
#[derive(Drop)]
pub enum Open {
    /// Nothing; the remarks wait for the next unit.
    Outside {
        waiting: Seq<NumLine>,
    },
    Within(Body),
    /// A module, behind one of its procedures.
    Between {
        part: NumLine,
        initial: Block,
        procs: Seq<Procedure>,
    },
}

/// The units so far, and what is open.
#[derive(Drop)]
pub struct Reading {
    pub units: Seq<Unit>,
    pub opened: Open,
}
