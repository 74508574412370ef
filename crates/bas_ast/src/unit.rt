//! Programs, procedures and modules.

ghost use Rattle.std.specs.Prelude.{◌≡◌};

use crate::block::{Block, LineItem, NumLine};
use crate::part::Part;
use bas_base::{Name, Seq};

/// A program.
#[derive(Drop)]
pub struct Program {
    /// `MAIN` where there is no `PROGRAM` line.
    pub name: Name,
    /// The `PROGRAM` line, where it is written.
    pub head: Option<NumLine>,
    pub body: Block,
    /// The `END` line.
    pub end: NumLine,
}

/// An external procedure, or a procedure of a module.
#[derive(Drop)]
pub struct Procedure {
    /// The line that begins with `EXTERNAL`.
    pub head: NumLine,
    pub body: Block,
    pub end: NumLine,
}

/// A module.
#[derive(Drop)]
pub struct Module {
    /// The `MODULE` line.
    pub head: NumLine,
    /// The lines before the first procedure.
    pub initial: Block,
    pub procs: Seq<Procedure>,
    /// The `END MODULE` line.
    pub end: NumLine,
}

/// What a source file holds one or more of.
#[derive(Drop)]
pub enum Unit {
    Program(Program),
    Procedure(Procedure),
    Module(Module),
}

impl Procedure {
    ghost use Rattle.bas_ast.specs.Accessors.{procedure_name};
    ghost use Rattle.bas_ast.specs.BlockTree.{item_tree};

    /// The name that the first line gives, or `None` where it is no `EXTERNAL` line.
    #[tactic(auto, unfolding(crate::specs::BlockTree::item_tree, crate::specs::PartTree::part_tree))]
    pub fn name(&self) -> Option<Name>
        ensures { result ≡ procedure_name (item_tree self.now.head.item) }
    {
        match &self.head.item {
            LineItem::Part(part) => match part.get() {
                Part::ExternalSub(name, _) | Part::ExternalFunction(name, _) => Some(*name),
                _ => None,
            },
            _ => None,
        }
    }
}

impl Module {
    ghost use Rattle.bas_ast.specs.Accessors.{module_name};
    ghost use Rattle.bas_ast.specs.BlockTree.{item_tree};

    /// The name that the first line gives, or `None` where it is no `MODULE` line.
    #[tactic(auto, unfolding(crate::specs::BlockTree::item_tree, crate::specs::PartTree::part_tree))]
    pub fn name(&self) -> Option<Name>
        ensures { result ≡ module_name (item_tree self.now.head.item) }
    {
        match &self.head.item {
            LineItem::Part(part) => match part.get() {
                Part::Module(name) => Some(*name),
                _ => None,
            },
            _ => None,
        }
    }
}

impl Unit {
    ghost use Rattle.bas_ast.specs.Accessors.{unit_name};
    ghost use Rattle.bas_ast.specs.UnitTree.{unit_tree};

    /// The name of the program, procedure or module, or `None` where its first line gives none.
    #[tactic(auto, unfolding(crate::specs::UnitTree::unit_tree))]
    pub fn name(&self) -> Option<Name>
        ensures { result ≡ unit_name (unit_tree self.now) }
    {
        match self {
            Unit::Program(program) => Some(program.name),
            Unit::Procedure(procedure) => procedure.name(),
            Unit::Module(module) => module.name(),
        }
    }
}
