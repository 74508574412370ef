//! The first lines at which the bodies of a family use the names of `SUB`s as variables.

ghost use Rattle.std.specs.Prelude.{◌≡◌, ℕ, List, [], ◌∷◌, map, Option, IfOk};
ghost use Rattle.std.specs.List.{filter};
ghost use Rattle.bas_ast.specs.Tree.{Block as BlockTree, Expr as ExprTree, Nest, NumLine as LineTree};
ghost use Rattle.bas_ast.specs.BlockTree.{block_tree, item_tree, line_tree, section_tree, sections_tree, stmt_tree, stmts_tree};
ghost use Rattle.bas_ast.specs.ExpressionTree.{expr_tree};
ghost use Rattle.bas_scope.specs.Bodies.{Body, family_of, head_item, internal_body};
ghost use Rattle.bas_scope.specs.Scope.{Inner, Outer, Table as Entries, definition_block, definition_on, inner_of, internals_of, outer_names};
ghost use Rattle.bas_scope.specs.Senses.{sense_told, senses_of};
ghost use Rattle.bas_scope.specs.declared.body.BodyKind.{BodyKind};
ghost use Rattle.bas_rules.specs.Naming.{is_among, is_sub_sense, sub_names_used, used_before};
ghost use Rattle.bas_names.specs.Lent.{line_trees};
ghost use Rattle.bas_names.specs.Names.{senses_in};
ghost use Rattle.bas_names.specs.Tables.{HasBefore, HasOuter};
ghost use Rattle.bas_claim.specs.First.{Notes, stands_before};
ghost use Rattle.bas_place.specs.Uses.{Gains, Sees, subs_among as subs_among_of, used_above, used_in};

use bas_ast::{Block, Expr, LineItem, NumLine, Part, Section, Stmt};
use bas_base::{Line, Name};
use bas_claim::FirstLines;
use bas_names::{
    Names, Table, UnitNames, container_names, definition_table, internal_names, internal_table,
    opens_procedure, own_lines,
};
use bas_scope::Sense;
use bas_uses::{names_in_definition, names_on};
use std::alloc::{AllocError, Global};

// What the internal procedures of a container see: its names, and those of its unit.
#[derive(Clone, Copy)]
struct Seen<'a> {
    unit: &'a UnitNames,
    container: &'a Table,
}

fn is_sub(sense: Sense<'_>) -> bool
    ensures { result ≡ is_sub_sense (sense_told sense.entry) }
{
    match sense {
        Sense::Sub(_) => true,
        _ => false,
    }
}

fn subs_among(alloc: Global, names: &Names<'_>, used: &[Name]) -> Result<Vec<Name>, AllocError>
    ensures { IfOk result (λ subs. subs.items ≡ subs_among_of (senses_in names.now) used.now) }
{
    let mut subs = Vec::new(alloc);
    for name in used {
        if is_sub(names.named(*name)) {
            subs.push(*name)?;
        }
    }
    Ok(subs)
}

fn note_used(
    alloc: Global,
    uses: &mut FirstLines,
    names: &Names<'_>,
    used: &[Name],
    line: Line,
) -> Result<(), AllocError>
    ensures { IfOk result (λ _. Notes uses.old uses.new (subs_among_of (senses_in names.now) used.now) line) }
{
    let subs = subs_among(alloc, names, used)?;
    uses.note_all(subs.as_slice(), line)
}

fn note_line(
    alloc: Global,
    uses: &mut FirstLines,
    names: &Names<'_>,
    line: &NumLine,
) -> Result<(), AllocError>
    ensures { IfOk result (λ _. Notes uses.old uses.new (sub_names_used (senses_in names.now) (item_tree line.now.item)) line.now.line) }
{
    let used = names_on(alloc, &line.item)?;
    note_used(alloc, uses, names, used.as_slice(), line.line)
}

#[tactic(auto, using(crate::proofs::Gaining::gains_none, crate::proofs::Gaining::gains_line))]
fn note_lines(
    alloc: Global,
    uses: &mut FirstLines,
    names: &Names<'_>,
    lines: &[&NumLine],
) -> Result<(), AllocError>
    ensures { IfOk result (λ _. Gains uses.old uses.new (used_above (senses_in names.now) (line_trees lines.now))) }
{
    for line in lines {
        note_line(alloc, uses, names, line)?;
    }
    Ok(())
}

fn note_body(
    alloc: Global,
    uses: &mut FirstLines,
    names: &Names<'_>,
    block: &Block,
) -> Result<(), AllocError>
    ensures { IfOk result (λ _. (body : Body) → senses_in names.now ≡ senses_of body.scope → body.block ≡ block_tree block.now → Gains uses.old uses.new (used_in (body ∷ []))) }
{
    let lines = own_lines(alloc, block)?;
    note_lines(alloc, uses, names, lines.as_slice())
}

fn note_procedure(
    alloc: Global,
    uses: &mut FirstLines,
    seen: &Seen<'_>,
    section: &Section,
) -> Result<(), AllocError>
    ensures { IfOk result (λ _. (outer : Outer) (entries : Entries) → Sees seen.now outer entries → Gains uses.old uses.new (used_in (internal_body outer entries (section_tree section.now) ∷ []))) }
{
    let inner = internal_table(alloc, seen.unit.options, section)?;
    let names = internal_names(seen.unit, seen.container, &inner);
    note_body(alloc, uses, &names, &section.body)
}

// The line of the definition is that of its one statement.
fn note_value(
    alloc: Global,
    uses: &mut FirstLines,
    seen: &Seen<'_>,
    line: &NumLine,
    name: Name,
    value: &Expr,
) -> Result<(), AllocError>
    ensures { let head = line_tree line.now in
        IfOk result (λ _. (outer : Outer) (entries : Entries) → Sees seen.now outer entries → definition_on head head.item ≡ (head, definition_block head.line name (expr_tree value.now)) ∷ []
        → Gains uses.old uses.new (used_in (internal_body outer entries (head, definition_block head.line name (expr_tree value.now)) ∷ []))) }
{
    let inner = definition_table(alloc, seen.unit.options, line)?;
    let names = internal_names(seen.unit, seen.container, &inner);
    let used = names_in_definition(alloc, name, value)?;
    note_used(alloc, uses, &names, used.as_slice(), line.line)
}

#[tactic(auto, using(crate::proofs::Gaining::gains_none), unfolding(bas_ast::specs::BlockTree::item_tree, bas_ast::specs::PartTree::part_tree))]
fn note_definition(
    alloc: Global,
    uses: &mut FirstLines,
    seen: &Seen<'_>,
    line: &NumLine,
) -> Result<(), AllocError>
    ensures { let head = line_tree line.now in
        IfOk result (λ _. (outer : Outer) (entries : Entries) → Sees seen.now outer entries → Gains uses.old uses.new (used_in (map (internal_body outer entries) (definition_on head head.item)))) }
{
    match &line.item {
        LineItem::Part(part) => match part.get() {
            Part::Def(name, _, value) => note_value(alloc, uses, seen, line, *name, value),
            _ => Ok(()),
        },
        _ => Ok(()),
    }
}

#[tactic(auto, using(crate::proofs::Inners::gains_empty))]
fn note_first(
    alloc: Global,
    uses: &mut FirstLines,
    seen: &Seen<'_>,
    sections: &[Section],
) -> Result<(), AllocError>
    ensures { IfOk result (λ _. (outer : Outer) (entries : Entries) (close : LineTree) → Sees seen.now outer entries → Gains uses.old uses.new (used_in (map (internal_body outer entries) (inner_of (Nest (sections_tree sections.now) close))))) }
{
    if let Some(section) = sections.first() {
        if opens_procedure(&section.head.item) {
            note_procedure(alloc, uses, seen, section)?;
        }
    }
    Ok(())
}

fn note_internal(
    alloc: Global,
    uses: &mut FirstLines,
    seen: &Seen<'_>,
    stmt: &Stmt,
) -> Result<(), AllocError>
    ensures { IfOk result (λ _. (outer : Outer) (entries : Entries) → Sees seen.now outer entries → Gains uses.old uses.new (used_in (map (internal_body outer entries) (inner_of (stmt_tree stmt.now))))) }
{
    match stmt {
        Stmt::Single(line) => note_definition(alloc, uses, seen, line),
        Stmt::Nest { sections, .. } => note_first(alloc, uses, seen, sections.as_slice()),
    }
}

#[tactic(auto, using(crate::proofs::Gaining::gains_none))]
fn note_internals(
    alloc: Global,
    uses: &mut FirstLines,
    seen: &Seen<'_>,
    stmts: &[Stmt],
) -> Result<(), AllocError>
    ensures { IfOk result (λ _. (outer : Outer) (entries : Entries) → Sees seen.now outer entries → Gains uses.old uses.new (used_in (map (internal_body outer entries) (internals_of (stmts_tree stmts.now))))) }
{
    for stmt in stmts {
        note_internal(alloc, uses, seen, stmt)?;
    }
    Ok(())
}

/// The first line of each name that the bodies of a family use as a variable and that a `SUB` has in
/// them: its container, from the names that this declares and its block, and its internal procedures.
pub fn first_uses(
    alloc: Global,
    unit: &UnitNames,
    container: &Table,
    block: &Block,
) -> Result<FirstLines, AllocError>
    ensures { let tree = block_tree block.now in
        IfOk result (λ uses. (outer : Outer) (kind : BodyKind) (head : Option LineTree) → HasOuter unit.now outer → HasBefore container.now unit.now.variables (outer_names outer (head_item head) tree)
        → (name : List ℕ) (l : ℕ) → stands_before uses name l ≡ is_among name (used_before (family_of outer kind head tree) l)) }
{
    let mut uses = FirstLines::new(alloc);
    let names = container_names(unit, container);
    note_body(alloc, &mut uses, &names, block)?;
    note_internals(
        alloc,
        &mut uses,
        &Seen { unit, container },
        block.stmts.as_slice(),
    )?;
    Ok(uses)
}
