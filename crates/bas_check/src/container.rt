//! The first fault of a program, an external procedure or an initial part, on what is kept of it.

ghost use Rattle.std.specs.Prelude.{◌≡◌, ◌++◌, IfOk};
ghost use Rattle.std.specs.Option.{option_map};
ghost use Rattle.bas_ast.specs.BlockTree.{block_tree, item_tree, line_tree};
ghost use Rattle.bas_ast.specs.Tree.{Nothing, SourceUnit};
ghost use Rattle.bas_scope.specs.Bodies.{head_item};
ghost use Rattle.bas_rules.specs.Sites.{Ground, block_sites, head_sites, line_sites};
ghost use Rattle.bas_place.specs.Standing.{OfUnit};
ghost use Rattle.bas_check.specs.Faults.{Finds};
ghost use Rattle.bas_check.specs.Containers.{EndsIn, KeepsFamily, ground_in, lent_line};
ghost use Rattle.bas_check.specs.Walks.{WalksOn};

use crate::block::block_fault;
use crate::fault::Fault;
use crate::walk::{Walk, lone_line_fault};
use bas_ast::{Block, LineItem, NumLine};
use bas_base::Line;
use bas_claim::FirstLines;
use bas_names::{Table, container_names, container_table};
use bas_place::{BodyFacts, Place, UnitFacts, body_facts, first_uses};
use bas_scope::BodyKind;
use std::alloc::{AllocError, Global};

/// The text of a program, an external procedure or an initial part.
#[derive(Clone, Copy)]
pub struct Container<'a> {
    pub kind: BodyKind,
    pub head: Option<&'a NumLine>,
    pub block: &'a Block,
    /// The line that ends a program.
    pub end: Option<Line>,
}

/// What is kept of a container and its internal procedures.
#[derive(Drop)]
pub struct Family<'a> {
    pub body: BodyFacts<'a>,
    /// The names of the container.
    pub names: Table,
    /// The first line of each name that a body of the family uses as a variable, and that a `SUB` has.
    pub uses: FirstLines,
}

fn head_of<'a>(head: Option<&'a NumLine>, nothing: &'a LineItem) -> &'a LineItem
    ensures { item_tree nothing.now ≡ Nothing → head_item (option_map lent_line head.entry) ≡ item_tree result.now }
{
    match head {
        Some(line) => &line.item,
        None => nothing,
    }
}

/// What is kept of a container. `nothing` is what stands on the first line of one that has none.
pub fn family_of<'a>(
    alloc: Global,
    unit: &'a UnitFacts<'a>,
    nothing: &'a LineItem,
    container: &Container<'a>,
) -> Result<Family<'a>, AllocError>
    ensures { IfOk result (λ family. (tree : SourceUnit) → OfUnit unit.now tree → item_tree nothing.now ≡ Nothing → EndsIn container.now tree
        → KeepsFamily family unit.now (ground_in container.now tree)) }
{
    let head = head_of(container.head, nothing);
    let body = body_facts(alloc, container.kind, head, container.block, container.end)?;
    let names = container_table(alloc, &unit.names, container.head, container.block)?;
    let uses = first_uses(alloc, &unit.names, &names, container.block)?;
    Ok(Family { body, names, uses })
}

/// At the top of a container.
pub fn walk_over<'a>(
    unit: &'a UnitFacts<'a>,
    nothing: &'a LineItem,
    family: &'a Family<'a>,
) -> Walk<'a>
    ensures { (g : Ground) → OfUnit unit.now g.unit → item_tree nothing.now ≡ Nothing → KeepsFamily family.now unit.now g → WalksOn result g }
{
    let names = container_names(&unit.names, &family.names);
    Walk {
        place: Place {
            unit,
            container: &family.body.claims,
            uses: &family.uses,
            body: &family.body,
            names,
            around: &family.body.top,
        },
        container: &family.names,
        nothing,
    }
}

fn head_fault(
    alloc: Global,
    head: Option<&NumLine>,
    walk: Walk<'_>,
) -> Result<Option<Fault>, AllocError>
    ensures { (g : Ground) → WalksOn walk.entry g → IfOk result (λ found. Finds found (head_sites g (option_map lent_line head.entry))) }
{
    match head {
        Some(line) => lone_line_fault(alloc, line, walk),
        None => Ok(None),
    }
}

fn block_and_close_fault(
    alloc: Global,
    block: &Block,
    close: &NumLine,
    walk: Walk<'_>,
) -> Result<Option<Fault>, AllocError>
    ensures { (g : Ground) → WalksOn walk.entry g → IfOk result (λ found. Finds found (block_sites g (block_tree block.now) ++ line_sites g (line_tree close.now))) }
{
    let found = block_fault(alloc, block, walk)?;
    if found.is_some() {
        return Ok(found);
    }
    lone_line_fault(alloc, close, walk)
}

/// What is broken on the lines of a program or an external procedure, from its first line, where it has
/// one, to the line that closes it.
pub fn lines_fault(
    alloc: Global,
    head: Option<&NumLine>,
    block: &Block,
    close: &NumLine,
    walk: Walk<'_>,
) -> Result<Option<Fault>, AllocError>
    ensures { (g : Ground) → WalksOn walk.entry g
        → IfOk result (λ found. Finds found (head_sites g (option_map lent_line head.entry) ++ (block_sites g (block_tree block.now) ++ line_sites g (line_tree close.now)))) }
{
    let found = head_fault(alloc, head, walk)?;
    if found.is_some() {
        return Ok(found);
    }
    block_and_close_fault(alloc, block, close, walk)
}
