//! The first lines of what the lines of a body declare.

ghost use Rattle.std.specs.Prelude.{◌≡◌, map, IfOk};
ghost use Rattle.bas_ast.specs.BlockTree.{item_tree};
ghost use Rattle.bas_ast.specs.PartTree.{part_tree};
ghost use Rattle.bas_ast.specs.Tree.{OfPart};
ghost use Rattle.bas_names.specs.Lent.{line_trees};
ghost use Rattle.bas_scope.specs.Bodies.{handler_on as handler_of};
ghost use Rattle.bas_rules.specs.Naming as rule;
ghost use Rattle.bas_claim.specs.First.{AreFirst, Notes};

use crate::first::FirstLines;
use bas_ast::{LineItem, NumLine, Part};
use bas_base::Name;
use bas_rules::{Claim, claims_on};
use std::alloc::{AllocError, Global};

/// The names of claims.
pub fn names_of(alloc: Global, claims: &[Claim]) -> Result<Vec<Name>, AllocError>
    ensures { IfOk result (λ names. names.items ≡ map rule.claimed_name claims.now) }
{
    let mut names = Vec::new(alloc);
    for claim in claims {
        names.push(claim.name())?;
    }
    Ok(names)
}

fn names_claimed(alloc: Global, item: &LineItem) -> Result<Vec<Name>, AllocError>
    ensures { IfOk result (λ names. names.items ≡ rule.names_claimed (item_tree item.now)) }
{
    let claims = claims_on(alloc, item)?;
    names_of(alloc, claims.as_slice())
}

fn note_claims(alloc: Global, first: &mut FirstLines, line: &NumLine) -> Result<(), AllocError>
    ensures { IfOk result (λ _. Notes first.old first.new (rule.names_claimed (item_tree line.now.item)) line.now.line) }
{
    let names = names_claimed(alloc, &line.item)?;
    first.note_all(names.as_slice(), line.line)
}

/// The first line of each name that lines declare in their body.
#[tactic(auto, using(crate::proofs::Lines::first_none, crate::proofs::Lines::first_more))]
pub fn first_claims(alloc: Global, lines: &[&NumLine]) -> Result<FirstLines, AllocError>
    ensures { IfOk result (λ first. AreFirst first rule.names_claimed (line_trees lines.now)) }
{
    let mut first = FirstLines::new(alloc);
    for line in lines {
        note_claims(alloc, &mut first, line)?;
    }
    Ok(first)
}

#[tactic(auto, unfolding(bas_ast::specs::BlockTree::item_tree, bas_ast::specs::PartTree::part_tree))]
fn handler_on(item: &LineItem) -> Option<Name>
    ensures { result ≡ handler_of (item_tree item.now) }
{
    match item {
        LineItem::Part(part) => match part.get() {
            Part::Handler(name) => Some(*name),
            _ => None,
        },
        _ => None,
    }
}

#[tactic(auto, using(crate::proofs::Noting::noted_none))]
fn note_handler(first: &mut FirstLines, line: &NumLine) -> Result<(), AllocError>
    ensures { IfOk result (λ _. Notes first.old first.new (rule.handler_name (item_tree line.now.item)) line.now.line) }
{
    match handler_on(&line.item) {
        Some(name) => first.note(name, line.line),
        None => Ok(()),
    }
}

/// The first line of each detached handler among lines.
#[tactic(auto, using(crate::proofs::Lines::first_none, crate::proofs::Lines::first_more))]
pub fn first_handlers(alloc: Global, lines: &[&NumLine]) -> Result<FirstLines, AllocError>
    ensures { IfOk result (λ first. AreFirst first rule.handler_name (line_trees lines.now)) }
{
    let mut first = FirstLines::new(alloc);
    for line in lines {
        note_handler(&mut first, line)?;
    }
    Ok(first)
}
