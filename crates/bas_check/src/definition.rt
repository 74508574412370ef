//! The faults of a line that stands alone. A line of `DEF` has a second place, in the body of its
//! definition.

ghost use Rattle.std.specs.Prelude.{◌≡◌, ◌∷◌, [], IfOk};
ghost use Rattle.bas_ast.specs.BlockTree.{item_tree, line_tree};
ghost use Rattle.bas_ast.specs.ExpressionTree.{expr_tree};
ghost use Rattle.bas_ast.specs.Tree.{NumLine as LineTree, Single};
ghost use Rattle.bas_scope.specs.Scope.{definition_on};
ghost use Rattle.bas_rules.specs.Sites.{Ground, definition_sites, stmt_sites};
ghost use Rattle.bas_rules.specs.Well.{first_failed, rules};
ghost use Rattle.bas_check.specs.Faults.{Finds};
ghost use Rattle.bas_check.specs.Walks.{WalksOn, definition_of, definition_told};

use crate::fault::{Fault, fault_at};
use crate::walk::{Walk, in_procedure, lone_line_fault};
use bas_ast::{Expr, LineItem, NumLine, Part};
use bas_base::Name;
use bas_judge::{definition_fault, faults_of_places, line_fault};
use bas_names::{definition_table, internal_names};
use bas_operands::least;
use bas_place::definition_facts;
use std::alloc::{AllocError, Global};

// A name, and the value that it is set to in the body of its definition.
#[derive(Clone, Copy)]
struct Definition<'a> {
    name: Name,
    value: &'a Expr,
}

// The least rule that a definition breaks in its own body.
fn value_rule(
    alloc: Global,
    line: &NumLine,
    definition: &Definition<'_>,
    walk: Walk<'_>,
) -> Result<Option<u8>, AllocError>
    ensures { let head = line_tree line.now in let inner = definition_of head definition.now.name (expr_tree definition.now.value.now) in
        (g : Ground) → WalksOn walk.entry g → definition_on head head.item ≡ inner ∷ [] → IfOk result (λ rule. rule ≡ first_failed 1 rules (definition_sites g (inner ∷ []))) }
{
    let unit = walk.place.unit;
    let facts = definition_facts(alloc, line)?;
    let table = definition_table(alloc, unit.names.options, line)?;
    let names = internal_names(&unit.names, walk.container, &table);
    let inner = in_procedure(walk, &facts, names);
    definition_fault(
        alloc,
        &inner.place,
        line.line,
        definition.name,
        definition.value,
    )
}

// What is broken at a line of `DEF`, in its body and in that of its definition.
fn definition_line_fault(
    alloc: Global,
    line: &NumLine,
    definition: &Definition<'_>,
    walk: Walk<'_>,
) -> Result<Option<Fault>, AllocError>
    ensures { let head = line_tree line.now in
        (g : Ground) → WalksOn walk.entry g → definition_on head head.item ≡ definition_of head definition.now.name (expr_tree definition.now.value.now) ∷ []
        → IfOk result (λ found. Finds found (stmt_sites g (Single head))) }
{
    faults_of_places();
    let rule = line_fault(alloc, &walk.place, walk.nothing, line)?;
    let inner = value_rule(alloc, line, definition, walk)?;
    Ok(fault_at(line.line, least(rule, inner)))
}

// The name and the value of the definition on a line.
#[tactic(auto, unfolding(bas_ast::specs::BlockTree::item_tree, bas_ast::specs::PartTree::part_tree))]
fn definition_in(item: &LineItem) -> Option<Definition<'_>>
    ensures { (head : LineTree) → definition_on head (item_tree item.now) ≡ definition_told head result }
{
    match item {
        LineItem::Part(part) => match part.get() {
            Part::Def(name, _, value) => Some(Definition { name: *name, value }),
            _ => None,
        },
        _ => None,
    }
}

/// What is broken at a line that stands alone.
pub fn single_fault(
    alloc: Global,
    line: &NumLine,
    walk: Walk<'_>,
) -> Result<Option<Fault>, AllocError>
    ensures { (g : Ground) → WalksOn walk.entry g → IfOk result (λ found. Finds found (stmt_sites g (Single (line_tree line.now)))) }
{
    match definition_in(&line.item) {
        Some(definition) => definition_line_fault(alloc, line, &definition, walk),
        None => lone_line_fault(alloc, line, walk),
    }
}
