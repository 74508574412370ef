//! Numbered lines and blocks of them.

ghost use Rattle.std.specs.Prelude.{◌≡◌};

use crate::declaration::Decl;
use crate::part::Part;
use crate::statement::Simple;
use bas_base::{Line, Seq};
use sqlite_items::{Boxed, Items};

/// What stands on a line, without its number and without a remark behind it.
#[derive(Drop)]
pub enum LineItem {
    Nothing,
    /// The bytes behind `REM`.
    Rem(Seq<u8>),
    Simple(Boxed<Simple>),
    Part(Boxed<Part>),
    Decl(Boxed<Decl>),
}

/// A line with its number.
#[derive(Drop)]
pub struct NumLine {
    pub line: Line,
    pub item: LineItem,
}

/// A line of a construct, and the lines up to its next one.
#[cycle(block)]
#[derive(Drop)]
pub struct Section {
    pub head: NumLine,
    pub body: Block,
}

/// A line alone, or a construct: its sections, and the line that closes it.
#[cycle(block)]
#[derive(Drop)]
pub enum Stmt {
    Single(NumLine),
    Nest {
        sections: Items<Section>,
        end: NumLine,
    },
}

/// Lines and constructs in order.
#[cycle(block)]
#[derive(Drop)]
pub struct Block {
    pub stmts: Items<Stmt>,
}

impl LineItem {
    ghost use Rattle.bas_ast.specs.Accessors.{is_remark as is_remark_of};
    ghost use Rattle.bas_ast.specs.BlockTree.{item_tree};

    /// Whether the line is empty or holds `REM` alone.
    #[tactic(auto, unfolding(crate::specs::BlockTree::item_tree))]
    pub fn is_remark(&self) -> bool
        ensures { result ≡ is_remark_of (item_tree self.now) }
    {
        match self {
            LineItem::Nothing | LineItem::Rem(_) => true,
            LineItem::Simple(_) | LineItem::Part(_) | LineItem::Decl(_) => false,
        }
    }
}

impl Stmt {
    ghost use Rattle.bas_ast.specs.Accessors.{line_of};
    ghost use Rattle.bas_ast.specs.BlockTree.{stmt_tree};

    /// The line at which the statement begins: the line alone, the first line of a construct, or
    /// the line that closes it where it has no section.
    pub fn first_line(&self) -> Line
        ensures { result ≡ line_of (stmt_tree self.now) }
    {
        match self {
            Stmt::Single(line) => line.line,
            Stmt::Nest { sections, end } => first_line_of(sections.as_slice(), end),
        }
    }
}

ghost use Rattle.bas_ast.specs.Accessors.{first_of};
ghost use Rattle.bas_ast.specs.BlockTree.{sections_tree};

// The first line of the first section, else the one that closes the construct.
fn first_line_of(sections: &[Section], end: &NumLine) -> Line
    ensures { result ≡ first_of (sections_tree sections.now) end.now.line }
{
    match sections.first() {
        Some(section) => section.head.line,
        None => end.line,
    }
}
