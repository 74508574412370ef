//! Which names a line declares or uses a second time.

ghost use Rattle.std.specs.Prelude.{◌≡◌, ◌||◌, ◌++◌, map, IfOk};
ghost use Rattle.std.specs.List.{list_any};
ghost use Rattle.bas_ast.specs.BlockTree.{item_tree};
ghost use Rattle.bas_ast.specs.Tree.{LineItem as ItemTree};
ghost use Rattle.bas_scope.specs.Senses.{sense_told};
ghost use Rattle.bas_rules.specs.Naming as rule;
ghost use Rattle.bas_names.specs.Names.{senses_in};
ghost use Rattle.bas_judge.specs.Answers.{IsOf};
ghost use Rattle.bas_judge.specs.Clashes.{is_sub_before, uses_sub};

use bas_ast::{LineItem, NumLine};
use bas_base::{Line, Name};
use bas_claim::{
    FirstLines, claims_are_refused, has_twice, is_any_before, is_any_refused, names_of,
    names_of_heading,
};
use bas_names::Names;
use bas_place::Place;
use bas_rules::{Claim, claims_on};
use bas_scope::Sense;
use bas_uses::names_on;
use std::alloc::{AllocError, Global};

fn is_sub(sense: Sense<'_>) -> bool
    ensures { result ≡ rule.is_sub_sense (sense_told sense.entry) }
{
    matches!(sense, Sense::Sub(_))
}

/// Whether one of some names is that of a `SUB` which stands before a line.
pub fn is_any_sub_before(names: &Names<'_>, first: &FirstLines, line: Line, used: &[Name]) -> bool
    ensures { result ≡ list_any (is_sub_before (senses_in names.now) first.now line) used.now }
{
    for name in used {
        if is_sub(names.named(*name)) && first.is_before(*name, line) {
            return true;
        }
    }
    false
}

fn uses_sub_before(
    alloc: Global,
    names: &Names<'_>,
    first: &FirstLines,
    line: Line,
    item: &LineItem,
) -> Result<bool, AllocError>
    ensures { IfOk result (λ used. used ≡ uses_sub (senses_in names.now) first.now line (item_tree item.now)) }
{
    let used = names_on(alloc, item)?;
    Ok(is_any_sub_before(names, first, line, used.as_slice()))
}

fn has_claim_twice(alloc: Global, claims: &[Claim]) -> Result<bool, AllocError>
    ensures { IfOk result (λ twice. twice ≡ rule.has_twice (map rule.claimed_name claims.now)) }
{
    let names = names_of(alloc, claims)?;
    has_twice(alloc, names.as_slice())
}

fn has_heading_twice(alloc: Global, item: &LineItem) -> Result<bool, AllocError>
    ensures { IfOk result (λ twice. twice ≡ rule.has_twice (rule.function_name (item_tree item.now) ++ rule.formal_names (item_tree item.now))) }
{
    let names = names_of_heading(alloc, item)?;
    has_twice(alloc, names.as_slice())
}

/// Whether a line gives a name a second declaration or a second kind.
pub fn declared_twice(alloc: Global, place: &Place<'_>, line: &NumLine) -> Result<bool, AllocError>
    ensures { IfOk result (λ twice. (opener : ItemTree) → IsOf place.now opener line.now rule.declared_twice twice) }
{
    claims_are_refused();
    let body = place.body;
    let claims = claims_on(alloc, &line.item)?;
    let is_refused = is_any_refused(
        body.kind,
        &body.heading,
        &body.claims,
        line.line,
        claims.as_slice(),
    );
    let is_repeated = has_claim_twice(alloc, claims.as_slice())?;
    let is_headed = has_heading_twice(alloc, &line.item)?;
    let uses_sub = uses_sub_before(alloc, &place.names, place.container, line.line, &line.item)?;
    let is_used = is_any_before(place.uses, line.line, claims.as_slice());
    Ok(is_refused | is_repeated | is_headed | uses_sub | is_used)
}
