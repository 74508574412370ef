//! What is kept of a unit.

ghost use Rattle.std.specs.Prelude.{◌≡◌, ◌||◌, ◌++◌, ◌∷◌, [], ℕ, nat_eq, List, IfOk};
ghost use Rattle.std.specs.Option.{is_some};
ghost use Rattle.std.specs.Ordering.{nat_cmp};
ghost use Rattle.std.specs.BTreeSet.{contains};
ghost use Rattle.bas_ast.specs.BlockTree.{item_tree, line_tree};
ghost use Rattle.bas_ast.specs.Tree.{NumLine as LineTree};
ghost use Rattle.bas_ast.specs.UnitTree.{unit_tree};
ghost use Rattle.bas_scope.specs.Bodies.{data_on};
ghost use Rattle.bas_names.specs.Lent.{line_trees};
ghost use Rattle.bas_place.specs.Data.{HasData};
ghost use Rattle.bas_place.specs.Standing.{OfUnit};

use crate::place::UnitFacts;
use bas_ast::{Decl, LineItem, NumLine, Unit};
use bas_base::Line;
use bas_names::{names_of_unit, unit_lines};
use std::alloc::{AllocError, Global};
use std::collections::BTreeSet;

#[tactic(auto, unfolding(bas_ast::specs::BlockTree::item_tree, bas_ast::specs::DeclarationTree::decl_tree))]
fn is_data(item: &LineItem) -> bool
    ensures { result ≡ is_some (data_on (item_tree item.now)) }
{
    match item {
        LineItem::Decl(decl) => matches!(decl.get(), Decl::Data(_)),
        _ => false,
    }
}

fn insert_number(numbers: &mut BTreeSet<u32>, line: Line) -> Result<(), AllocError>
    ensures { IfOk result (λ _. (l : ℕ) → contains nat_cmp numbers.new l ≡ (nat_eq l line || contains nat_cmp numbers.old l)) }
{
    numbers.insert(line.number())?;
    Ok(())
}

#[tactic(auto, using(crate::proofs::Numbers::data_put, crate::proofs::Numbers::data_kept))]
fn insert_data(numbers: &mut BTreeSet<u32>, line: &NumLine) -> Result<(), AllocError>
    ensures { IfOk result (λ _. (before : List LineTree) → HasData numbers.old before → HasData numbers.new (before ++ line_tree line.now ∷ [])) }
{
    if is_data(&line.item) {
        insert_number(numbers, line.line)?;
    }
    Ok(())
}

#[tactic(auto, using(crate::proofs::Numbers::no_data))]
fn data_numbers(alloc: Global, lines: &[&NumLine]) -> Result<BTreeSet<u32>, AllocError>
    ensures { IfOk result (λ numbers. HasData numbers (line_trees lines.now)) }
{
    let mut numbers = BTreeSet::new(alloc);
    for line in lines {
        insert_data(&mut numbers, line)?;
    }
    Ok(numbers)
}

/// What is kept of a unit, from all of its lines.
pub fn unit_facts<'a>(alloc: Global, unit: &'a Unit) -> Result<UnitFacts<'a>, AllocError>
    ensures { IfOk result (λ facts. OfUnit facts (unit_tree unit.now)) }
{
    let lines = unit_lines(alloc, unit)?;
    let data_numbers = data_numbers(alloc, lines.as_slice())?;
    let names = names_of_unit(alloc, unit)?;
    Ok(UnitFacts {
        lines,
        data_numbers,
        names,
    })
}
