//! What is kept of a body.

ghost use Rattle.std.specs.Prelude.{◌≡◌, ◌++◌, ◌∷◌, [], ℕ, List, IfOk};
ghost use Rattle.std.specs.Option.{option_to_list};
ghost use Rattle.bas_ast.specs.Tree.{Expr, SourceUnit};
ghost use Rattle.bas_ast.specs.BlockTree.{block_tree, item_tree, line_tree};
ghost use Rattle.bas_rules.specs.Jumping.{end_line};
ghost use Rattle.bas_rules.specs.Sites.{at_top, counted_lines};
ghost use Rattle.bas_reach.specs.Standing.{Tells};
ghost use Rattle.bas_scope.specs.Bodies.{Body, head_item, internal_body};
ghost use Rattle.bas_scope.specs.Scope.{Outer, Table, definition_block};
ghost use Rattle.bas_place.specs.Standing.{OfBody};

use crate::place::BodyFacts;
use bas_ast::{Block, LineItem, NumLine};
use bas_base::Line;
use bas_claim::{FirstLines, Heading, first_claims, first_handlers};
use bas_names::own_lines;
use bas_reach::Around;
use bas_scope::BodyKind;
use sqlite_items::Items;
use std::alloc::{AllocError, Global};

#[tactic(auto, using(crate::proofs::Tops::no_end))]
fn top_of<'a>(alloc: Global, block: &Block, end: Option<Line>) -> Result<Around<'a>, AllocError>
    ensures { IfOk result (λ top. Tells top (at_top (counted_lines (block_tree block.now) ++ option_to_list end))) }
{
    match end {
        Some(end) => Around::program(alloc, block, end),
        None => Around::body(alloc, block),
    }
}

/// What is kept of a body, from what stands on its first line, or nothing where it has none, and its
/// block. `END` is a line of a program's top, and no other body has it.
pub fn body_facts<'a>(
    alloc: Global,
    kind: BodyKind,
    head: &'a LineItem,
    block: &Block,
    end: Option<Line>,
) -> Result<BodyFacts<'a>, AllocError>
    ensures { IfOk result (λ facts. (unit : SourceUnit) (body : Body) → body.kind ≡ kind → head_item body.head ≡ item_tree head.now → body.block ≡ block_tree block.now → end_line unit kind ≡ option_to_list end
        → OfBody facts unit body) }
{
    let lines = own_lines(alloc, block)?;
    let heading = Heading::of(alloc, head)?;
    let claims = first_claims(alloc, lines.as_slice())?;
    let handlers = first_handlers(alloc, lines.as_slice())?;
    let top = top_of(alloc, block, end)?;
    Ok(BodyFacts {
        kind,
        head,
        heading,
        claims,
        handlers,
        top,
    })
}

fn definition_top<'a>(alloc: Global, line: Line) -> Result<Around<'a>, AllocError>
    ensures { IfOk result (λ top. Tells top (at_top (line ∷ []))) }
{
    let nothing = Block {
        stmts: Items::new(alloc),
    };
    Around::program(alloc, &nothing, line)
}

/// What is kept of the body of the definition on a line: it has one line, at the same number, and
/// declares nothing.
#[tactic(auto, using(crate::proofs::Definitions::is_definition))]
pub fn definition_facts<'a>(alloc: Global, line: &'a NumLine) -> Result<BodyFacts<'a>, AllocError>
    ensures { let head = line_tree line.now in
        IfOk result (λ facts. (unit : SourceUnit) (outer : Outer) (container : Table) (name : List ℕ) (value : Expr) → OfBody facts unit (internal_body outer container (head, definition_block head.line name value))) }
{
    let heading = Heading::of(alloc, &line.item)?;
    let top = definition_top(alloc, line.line)?;
    Ok(BodyFacts {
        kind: BodyKind::Internal,
        head: &line.item,
        heading,
        claims: FirstLines::new(alloc),
        handlers: FirstLines::new(alloc),
        top,
    })
}
