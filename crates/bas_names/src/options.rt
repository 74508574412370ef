//! The options of a unit.

ghost use Rattle.std.specs.Prelude.{◌≡◌, IfOk};
ghost use Rattle.std.specs.Option.{option_map};
ghost use Rattle.bas_ast.specs.BlockTree.{item_tree};
ghost use Rattle.bas_ast.specs.DeclarationTree.{type_tree};
ghost use Rattle.bas_ast.specs.UnitTree.{unit_tree};
ghost use Rattle.bas_scope.specs.Lines.{unit_lines as unit_lines_of};
ghost use Rattle.bas_scope.specs.Shapes.{
  base_on as base_on_item,
  first_given,
  fixed as fixed_of,
  numbers_on as numbers_on_item,
  options_of as options_of_lines,
};
ghost use Rattle.bas_scope.specs.Senses.{type_written};
ghost use Rattle.bas_names.specs.Lent.{line_trees};
ghost use Rattle.bas_names.specs.Tables.{options_told};

use crate::lines::unit_lines;
use bas_ast::{Decl, LineItem, NumLine, TypeSpec, Unit};
use bas_scope::WrittenType;
use std::alloc::{AllocError, Global};

/// What the `OPTION` lines of a unit set.
#[derive(Clone, Copy, Debug)]
pub struct UnitOptions {
    /// The lower bound of arrays, where a bound has none.
    pub base: i64,
    /// The type of the numbers that nothing declares.
    pub numbers: WrittenType,
}

/// The type that a program writes.
pub fn fixed(spec: TypeSpec) -> WrittenType
    ensures { type_written result ≡ fixed_of (type_tree spec) }
{
    WrittenType::Fixed(spec.whole, spec.fraction.unwrap_or(0))
}

#[tactic(auto, unfolding(bas_ast::specs::BlockTree::item_tree, bas_ast::specs::DeclarationTree::decl_tree))]
fn base_on(item: &LineItem) -> Option<i64>
    ensures { result ≡ base_on_item (item_tree item.now) }
{
    match item {
        LineItem::Decl(decl) => match decl.get() {
            Decl::OptionBaseZero => Some(0),
            Decl::OptionBaseOne => Some(1),
            _ => None,
        },
        _ => None,
    }
}

#[tactic(auto, unfolding(bas_ast::specs::BlockTree::item_tree, bas_ast::specs::DeclarationTree::decl_tree))]
fn numbers_on(item: &LineItem) -> Option<WrittenType>
    ensures { option_map type_written result ≡ numbers_on_item (item_tree item.now) }
{
    match item {
        LineItem::Decl(decl) => match decl.get() {
            Decl::OptionArithmeticDecimal => Some(WrittenType::General),
            Decl::OptionArithmeticFixed(spec) => Some(fixed(*spec)),
            _ => None,
        },
        _ => None,
    }
}

fn first_base(lines: &[&NumLine]) -> Option<i64>
    ensures { result ≡ first_given base_on_item (line_trees lines.now) }
{
    for line in lines {
        if let Some(base) = base_on(&line.item) {
            return Some(base);
        }
    }
    None
}

fn first_numbers(lines: &[&NumLine]) -> Option<WrittenType>
    ensures { option_map type_written result ≡ first_given numbers_on_item (line_trees lines.now) }
{
    for line in lines {
        if let Some(numbers) = numbers_on(&line.item) {
            return Some(numbers);
        }
    }
    None
}

fn options_on(lines: &[&NumLine]) -> UnitOptions
    ensures { options_told result ≡ options_of_lines (line_trees lines.now) }
{
    UnitOptions {
        base: first_base(lines).unwrap_or(1),
        numbers: first_numbers(lines).unwrap_or(WrittenType::General),
    }
}

/// The options of a unit, from all of its lines.
pub fn options_of(alloc: Global, unit: &Unit) -> Result<UnitOptions, AllocError>
    ensures { IfOk result (λ options. options_told options ≡ options_of_lines (unit_lines_of (unit_tree unit.now))) }
{
    let lines = unit_lines(alloc, unit)?;
    Ok(options_on(lines.as_slice()))
}
