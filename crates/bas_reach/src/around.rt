//! What is around a line.

ghost use Rattle.std.specs.Prelude.{◌≡◌, ◌++◌, ◌∷◌, [], IfOk, Option, Some, None, true, false};
ghost use Rattle.bas_ast.specs.Tree.{Expr, Nothing, OfPart, Do, For, Use, Handler};
ghost use Rattle.bas_ast.specs.BlockTree.{item_tree, block_tree};
ghost use Rattle.bas_ast.specs.PartTree.{part_tree};
ghost use Rattle.bas_rules.specs.Jumping.{is_listed};
ghost use Rattle.bas_rules.specs.Naming.{is_among};
ghost use Rattle.bas_rules.specs.Sites as rule;
ghost use Rattle.bas_reach.specs.Standing.{around_of, Tells, Enters};
ghost use Rattle.bas_reach.specs.declared.around.Around.{out-Around};

use crate::lines::{counted_lines, counted_lines_with};
use bas_ast::{Block, LineItem, Part};
use bas_base::{Line, Name};
use std::alloc::{AllocError, Global};
use std::collections::BTreeSet;

/// What is around a line of a body: the counted lines of the blocks around it, to which a jump may go;
/// whether it stands inside `DO`, `FOR` or a handler; and the variables of the `FOR` blocks around it.
#[derive(Drop)]
pub struct Around<'a> {
    // What is around the block; nothing is around the top of a body or a detached handler.
    outer: Option<&'a Around<'a>>,
    lines: BTreeSet<u32>,
    in_do: bool,
    in_for: bool,
    in_handler: bool,
    counter: Option<Name>,
}

fn outermost<'a>(lines: BTreeSet<u32>, in_handler: bool) -> Around<'a>
    ensures { out-Around result ≡ record { outer = None; lines = lines; in_do = false; in_for = false; in_handler = in_handler; counter = None } }
{
    Around {
        outer: None,
        lines,
        in_do: false,
        in_for: false,
        in_handler,
        counter: None,
    }
}

impl<'a> Around<'a> {
    /// The top of a procedure or an initial part.
    pub fn body(alloc: Global, block: &Block) -> Result<Around<'a>, AllocError>
        ensures { IfOk result (λ top. Tells top (rule.at_top (rule.counted_lines (block_tree block.now)))) }
    {
        let lines = counted_lines(alloc, block)?;
        Ok(outermost(lines, false))
    }

    /// The top of a program, of which `END` is a line.
    pub fn program(alloc: Global, block: &Block, end: Line) -> Result<Around<'a>, AllocError>
        ensures { IfOk result (λ top. Tells top (rule.at_top (rule.counted_lines (block_tree block.now) ++ end ∷ []))) }
    {
        let lines = counted_lines_with(alloc, block, Some(end))?;
        Ok(outermost(lines, false))
    }

    // Inside a block with these lines.
    fn within<'b>(&'b self, lines: BTreeSet<u32>) -> Around<'b>
        ensures { out-Around result ≡ record (out-Around self.now) { outer = Some self.entry; lines = lines; counter = None } }
    {
        Around {
            outer: Some(self),
            lines,
            in_do: self.in_do,
            in_for: self.in_for,
            in_handler: self.in_handler,
            counter: None,
        }
    }

    fn enter_do<'b>(
        &'b self,
        alloc: Global,
        block: &Block,
        close: Line,
    ) -> Result<Around<'b>, AllocError>
        ensures { IfOk result (λ inner. Enters self.now inner (OfPart (Do None)) (block_tree block.now) close) }
    {
        let lines = counted_lines_with(alloc, block, Some(close))?;
        Ok(Around {
            in_do: true,
            ..self.within(lines)
        })
    }

    fn enter_for<'b>(
        &'b self,
        alloc: Global,
        name: Name,
        block: &Block,
        close: Line,
    ) -> Result<Around<'b>, AllocError>
        ensures { IfOk result (λ inner. (start limit : Expr) (step : Option Expr) → Enters self.now inner (OfPart (For name start limit step)) (block_tree block.now) close) }
    {
        let lines = counted_lines_with(alloc, block, Some(close))?;
        Ok(Around {
            in_for: true,
            counter: Some(name),
            ..self.within(lines)
        })
    }

    fn enter_use<'b>(&'b self, alloc: Global, block: &Block) -> Result<Around<'b>, AllocError>
        ensures { IfOk result (λ inner. Enters self.now inner (OfPart Use) (block_tree block.now) 0) }
    {
        let lines = counted_lines(alloc, block)?;
        Ok(Around {
            in_handler: true,
            ..self.within(lines)
        })
    }

    fn enter_section<'b>(&'b self, alloc: Global, block: &Block) -> Result<Around<'b>, AllocError>
        ensures { IfOk result (λ inner. Enters self.now inner Nothing (block_tree block.now) 0) }
    {
        let lines = counted_lines(alloc, block)?;
        Ok(self.within(lines))
    }

    // Nothing is around a detached handler.
    fn enter_handler<'b>(alloc: Global, name: Name, block: &Block) -> Result<Around<'b>, AllocError>
        ensures { IfOk result (λ inner. (a : rule.Around) → Tells inner (rule.inside (OfPart (Handler name)) (block_tree block.now) 0 a)) }
    {
        let lines = counted_lines(alloc, block)?;
        Ok(outermost(lines, true))
    }

    #[tactic(auto, unfolding(bas_ast::specs::PartTree::part_tree))]
    fn enter_part<'b>(
        &'b self,
        alloc: Global,
        part: &Part,
        block: &Block,
        close: Line,
    ) -> Result<Around<'b>, AllocError>
        ensures { IfOk result (λ inner. Enters self.now inner (OfPart (part_tree part.now)) (block_tree block.now) close) }
    {
        match part {
            Part::Do(_) => self.enter_do(alloc, block, close),
            Part::For { name, .. } => self.enter_for(alloc, *name, block, close),
            Part::Use => self.enter_use(alloc, block),
            Part::Handler(name) => Around::enter_handler(alloc, *name, block),
            _ => self.enter_section(alloc, block),
        }
    }

    /// Inside the block that a line of a construct begins; `close` is the line that closes the construct.
    #[tactic(auto, unfolding(bas_ast::specs::BlockTree::item_tree))]
    pub fn enter<'b>(
        &'b self,
        alloc: Global,
        head: &LineItem,
        block: &Block,
        close: Line,
    ) -> Result<Around<'b>, AllocError>
        ensures { IfOk result (λ inner. Enters self.now inner (item_tree head.now) (block_tree block.now) close) }
    {
        match head {
            LineItem::Part(part) => self.enter_part(alloc, part.get(), block, close),
            _ => self.enter_section(alloc, block),
        }
    }

    // Whether a jump may go to a line.
    pub(crate) fn reaches(&self, line: Line) -> bool
        ensures { result ≡ is_listed (around_of self.now).reach line }
    {
        if self.lines.contains(&line.number()) {
            return true;
        }
        match self.outer {
            Some(outer) => outer.reaches(line),
            None => false,
        }
    }

    #[tactic(auto, using(crate::proofs::Layers::kept))]
    pub(crate) fn is_in_do(&self) -> bool
        ensures { result ≡ (around_of self.now).in_do }
    {
        self.in_do
    }

    #[tactic(auto, using(crate::proofs::Layers::kept))]
    pub(crate) fn is_in_for(&self) -> bool
        ensures { result ≡ (around_of self.now).in_for }
    {
        self.in_for
    }

    #[tactic(auto, using(crate::proofs::Layers::kept))]
    pub(crate) fn is_in_handler(&self) -> bool
        ensures { result ≡ (around_of self.now).in_handler }
    {
        self.in_handler
    }

    /// Whether a name is the variable of a `FOR` block around the line.
    pub fn counts(&self, name: &Name) -> bool
        ensures { (a : rule.Around) → Tells self.now a → result ≡ is_among name.now a.counters }
    {
        if Some(*name) == self.counter {
            return true;
        }
        match self.outer {
            Some(outer) => outer.counts(name),
            None => false,
        }
    }
}
