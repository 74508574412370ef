//! Where a walk over the lines of a unit stands.

ghost use Rattle.std.specs.Prelude.{◌≡◌, ◌∷◌, [], IfOk};
ghost use Rattle.std.specs.Option.{option_map};
ghost use Rattle.bas_ast.specs.BlockTree.{item_tree, line_tree};
ghost use Rattle.bas_scope.specs.Bodies.{Body, outer_of};
ghost use Rattle.bas_scope.specs.Senses.{senses_of};
ghost use Rattle.bas_names.specs.Names.{senses_in};
ghost use Rattle.bas_place.specs.Standing.{OfBody};
ghost use Rattle.bas_reach.specs.Standing.{Tells};
ghost use Rattle.bas_rules.specs.Sites as site;
ghost use Rattle.bas_check.specs.Faults.{Finds};
ghost use Rattle.bas_check.specs.Walks.{WalksOn};

use crate::fault::{Fault, fault_at};
use bas_ast::{LineItem, NumLine};
use bas_judge::line_fault;
use bas_names::{Names, Table};
use bas_place::{BodyFacts, Place};
use bas_reach::Around;
use std::alloc::{AllocError, Global};

/// Where a walk stands.
#[derive(Clone, Copy)]
pub struct Walk<'a> {
    pub place: Place<'a>,
    /// The names of the container of its body.
    pub container: &'a Table,
    /// What opens a line that divides and closes nothing.
    pub nothing: &'a LineItem,
}

/// Inside a block of the same body.
pub fn within<'b>(walk: Walk<'b>, around: &'b Around<'b>) -> Walk<'b>
    ensures { (g : site.Ground) (a : site.Around) → WalksOn walk.entry g → Tells around.now a → WalksOn result (record g { around = a }) }
{
    Walk {
        place: Place {
            around,
            ..walk.place
        },
        ..walk
    }
}

/// At the top of an internal procedure of the same container.
pub fn in_procedure<'b>(walk: Walk<'b>, body: &'b BodyFacts<'b>, names: Names<'b>) -> Walk<'b>
    ensures { (g : site.Ground) (inner : Body) (top : site.Around) → WalksOn walk.entry g → OfBody body.now g.unit inner → inner.scope.outer ≡ outer_of g.unit → senses_in names.entry ≡ senses_of inner.scope → Tells body.now.top top
        → WalksOn result (record g { body = inner; around = top }) }
{
    Walk {
        place: Place {
            body,
            names,
            around: &body.top,
            ..walk.place
        },
        ..walk
    }
}

/// What is broken at a line of a construct, by what opens that.
pub fn divided_line_fault(
    alloc: Global,
    opener: &LineItem,
    line: &NumLine,
    walk: Walk<'_>,
) -> Result<Option<Fault>, AllocError>
    ensures { (g : site.Ground) → WalksOn walk.entry g → IfOk result (λ found. Finds found ((site.site_at g (item_tree opener.now) (line_tree line.now) ∷ []) ∷ [])) }
{
    let rule = line_fault(alloc, &walk.place, opener, line)?;
    Ok(fault_at(line.line, rule))
}

/// What is broken at a line that divides and closes nothing.
pub fn lone_line_fault(
    alloc: Global,
    line: &NumLine,
    walk: Walk<'_>,
) -> Result<Option<Fault>, AllocError>
    ensures { (g : site.Ground) → WalksOn walk.entry g → IfOk result (λ found. Finds found (site.line_sites g (line_tree line.now))) }
{
    divided_line_fault(alloc, walk.nothing, line, walk)
}
