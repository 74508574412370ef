//! The first fault of a unit.

ghost use Rattle.std.specs.Prelude.{◌≡◌, ◌++◌, map, IfOk};
ghost use Rattle.std.specs.Option.{option_map};
ghost use Rattle.bas_ast.specs.BlockTree.{block_tree, item_tree, line_tree};
ghost use Rattle.bas_ast.specs.Tree.{ModuleUnit, Nothing, ProgramUnit, SourceUnit};
ghost use Rattle.bas_ast.specs.UnitTree.{module_tree, procedure_tree, program_tree, unit_tree};
ghost use Rattle.bas_scope.specs.Bodies.{outer_of};
ghost use Rattle.bas_scope.specs.Lines.{gathered};
ghost use Rattle.bas_place.specs.Standing.{OfUnit};
ghost use Rattle.bas_rules.specs.Sites.{Ground, block_sites, line_sites, procedure_sites, sites_of};
ghost use Rattle.bas_rules.specs.Well.{first_fault as first_fault_of};
ghost use Rattle.bas_check.specs.Containers.{EndsIn, ground_in, lent_line};
ghost use Rattle.bas_check.specs.Faults.{Finds, fault_told};
ghost use Rattle.bas_check.specs.Units.{lines_in};
ghost use Rattle.bas_check.specs.Walks.{WalksOn};

use crate::block::block_fault;
use crate::container::{Container, family_of, lines_fault, walk_over};
use crate::fault::Fault;
use crate::walk::{Walk, lone_line_fault};
use bas_ast::{LineItem, Module, NumLine, Procedure, Program, Unit};
use bas_place::{UnitFacts, unit_facts};
use bas_scope::BodyKind;
use std::alloc::{AllocError, Global};

fn container_fault<'a>(
    alloc: Global,
    unit: &'a UnitFacts<'a>,
    nothing: &'a LineItem,
    container: &Container<'a>,
    close: &NumLine,
) -> Result<Option<Fault>, AllocError>
    ensures { (tree : SourceUnit) → OfUnit unit.now tree → item_tree nothing.now ≡ Nothing → EndsIn container.now tree
        → IfOk result (λ found. Finds found (lines_in container.now tree (line_tree close.now))) }
{
    let family = family_of(alloc, unit, nothing, container)?;
    let walk = walk_over(unit, nothing, &family);
    lines_fault(alloc, container.head, container.block, close, walk)
}

fn lent_head(head: &Option<NumLine>) -> Option<&NumLine>
    ensures { option_map lent_line result ≡ option_map line_tree head.now }
{
    match head {
        Some(line) => Some(line),
        None => None,
    }
}

fn program_fault<'a>(
    alloc: Global,
    unit: &'a UnitFacts<'a>,
    nothing: &'a LineItem,
    program: &'a Program,
) -> Result<Option<Fault>, AllocError>
    ensures { let tree = ProgramUnit (program_tree program.now) in
        OfUnit unit.now tree → item_tree nothing.now ≡ Nothing → IfOk result (λ found. Finds found (sites_of tree)) }
{
    let container = Container {
        kind: BodyKind::Main,
        head: lent_head(&program.head),
        block: &program.body,
        end: Some(program.end.line),
    };
    container_fault(alloc, unit, nothing, &container, &program.end)
}

fn procedure_fault<'a>(
    alloc: Global,
    unit: &'a UnitFacts<'a>,
    nothing: &'a LineItem,
    procedure: &'a Procedure,
) -> Result<Option<Fault>, AllocError>
    ensures { (tree : SourceUnit) → OfUnit unit.now tree → item_tree nothing.now ≡ Nothing
        → IfOk result (λ found. Finds found (procedure_sites tree (outer_of tree) (procedure_tree procedure.now))) }
{
    let container = Container {
        kind: BodyKind::External,
        head: Some(&procedure.head),
        block: &procedure.body,
        end: None,
    };
    container_fault(alloc, unit, nothing, &container, &procedure.end)
}

fn procedures_fault<'a>(
    alloc: Global,
    unit: &'a UnitFacts<'a>,
    nothing: &'a LineItem,
    procedures: &'a [Procedure],
) -> Result<Option<Fault>, AllocError>
    ensures { (tree : SourceUnit) → OfUnit unit.now tree → item_tree nothing.now ≡ Nothing
        → IfOk result (λ found. Finds found (gathered (procedure_sites tree (outer_of tree)) (map procedure_tree procedures.now))) }
{
    for procedure in procedures {
        let found = procedure_fault(alloc, unit, nothing, procedure)?;
        if found.is_some() {
            return Ok(found);
        }
    }
    Ok(None)
}

// The procedures of a module, and the line that closes it.
fn later_lines_fault<'a>(
    alloc: Global,
    part: &'a Module,
    walk: Walk<'a>,
) -> Result<Option<Fault>, AllocError>
    ensures { let m = module_tree part.now in
        (g : Ground) → WalksOn walk.entry g → IfOk result (λ found. Finds found (gathered (procedure_sites g.unit (outer_of g.unit)) m.procs ++ line_sites g m.close)) }
{
    let procedures = part.procs.items();
    let found = procedures_fault(alloc, walk.place.unit, walk.nothing, procedures)?;
    if found.is_some() {
        return Ok(found);
    }
    lone_line_fault(alloc, &part.end, walk)
}

// The initial part of a module, and what follows it.
fn initial_lines_fault<'a>(
    alloc: Global,
    part: &'a Module,
    walk: Walk<'a>,
) -> Result<Option<Fault>, AllocError>
    ensures { let m = module_tree part.now in
        (g : Ground) → WalksOn walk.entry g → IfOk result (λ found. Finds found (block_sites g m.initial ++ (gathered (procedure_sites g.unit (outer_of g.unit)) m.procs ++ line_sites g m.close))) }
{
    let found = block_fault(alloc, &part.initial, walk)?;
    if found.is_some() {
        return Ok(found);
    }
    later_lines_fault(alloc, part, walk)
}

fn module_lines_fault<'a>(
    alloc: Global,
    part: &'a Module,
    walk: Walk<'a>,
) -> Result<Option<Fault>, AllocError>
    ensures { let m = module_tree part.now in
        (g : Ground) → WalksOn walk.entry g → IfOk result (λ found. Finds found (line_sites g m.head ++ (block_sites g m.initial ++ (gathered (procedure_sites g.unit (outer_of g.unit)) m.procs ++ line_sites g m.close)))) }
{
    let found = lone_line_fault(alloc, &part.head, walk)?;
    if found.is_some() {
        return Ok(found);
    }
    initial_lines_fault(alloc, part, walk)
}

fn module_fault<'a>(
    alloc: Global,
    unit: &'a UnitFacts<'a>,
    nothing: &'a LineItem,
    part: &'a Module,
) -> Result<Option<Fault>, AllocError>
    ensures { let tree = ModuleUnit (module_tree part.now) in
        OfUnit unit.now tree → item_tree nothing.now ≡ Nothing → IfOk result (λ found. Finds found (sites_of tree)) }
{
    let container = Container {
        kind: BodyKind::Initial,
        head: None,
        block: &part.initial,
        end: None,
    };
    let family = family_of(alloc, unit, nothing, &container)?;
    module_lines_fault(alloc, part, walk_over(unit, nothing, &family))
}

#[tactic(auto, unfolding(bas_ast::specs::UnitTree::unit_tree))]
fn unit_fault<'a>(
    alloc: Global,
    facts: &'a UnitFacts<'a>,
    nothing: &'a LineItem,
    unit: &'a Unit,
) -> Result<Option<Fault>, AllocError>
    ensures { OfUnit facts.now (unit_tree unit.now) → item_tree nothing.now ≡ Nothing → IfOk result (λ found. Finds found (sites_of (unit_tree unit.now))) }
{
    match unit {
        Unit::Program(program) => program_fault(alloc, facts, nothing, program),
        Unit::Procedure(procedure) => procedure_fault(alloc, facts, nothing, procedure),
        Unit::Module(part) => module_fault(alloc, facts, nothing, part),
    }
}

fn fault_beside<'a>(
    alloc: Global,
    nothing: &'a LineItem,
    unit: &'a Unit,
) -> Result<Option<Fault>, AllocError>
    ensures { item_tree nothing.now ≡ Nothing → IfOk result (λ found. Finds found (sites_of (unit_tree unit.now))) }
{
    let facts: UnitFacts<'a> = unit_facts(alloc, unit)?;
    unit_fault(alloc, &facts, nothing, unit)
}

/// The first line of a unit at which a rule is broken, and the least such rule.
#[tactic(auto, unfolding(bas_ast::specs::BlockTree::item_tree))]
pub fn first_fault(alloc: Global, unit: &Unit) -> Result<Option<Fault>, AllocError>
    ensures { IfOk result (λ found. option_map fault_told found ≡ first_fault_of (unit_tree unit.now)) }
{
    fault_beside(alloc, &LineItem::Nothing, unit)
}
