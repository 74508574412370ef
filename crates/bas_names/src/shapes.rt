//! The shapes of variables as a program writes them.

ghost use Rattle.std.specs.Prelude.{◌≡◌};
ghost use Rattle.std.specs.Option.{option_map};
ghost use Rattle.bas_ast.specs.DeclarationTree.{declared_tree};
ghost use Rattle.bas_scope.specs.Shapes.{
  number_shape as number_shape_of,
  number_type as number_type_of,
  shape_of as shape_of_name,
  text_length as text_length_of,
  text_shape as text_shape_of,
};
ghost use Rattle.bas_scope.specs.Senses.{shape_written, type_written};
ghost use Rattle.bas_names.specs.Tables.{options_told};

use crate::options::{UnitOptions, fixed};
use bas_ast::DeclaredItem;
use bas_base::Name;
use bas_scope::{WrittenShape, WrittenType, is_text_name};
use bas_text::MAX_STRING_LEN;

fn number_type(options: UnitOptions, declared: Option<&DeclaredItem>) -> WrittenType
    ensures { type_written result ≡ number_type_of (options_told options) (option_map (λ item. declared_tree item.now) declared.entry) }
{
    match declared {
        None => options.numbers,
        Some(item) => match item.spec {
            Some(spec) => fixed(spec),
            None => WrittenType::General,
        },
    }
}

fn text_length(declared: Option<&DeclaredItem>) -> u32
    ensures { result ≡ text_length_of (option_map (λ item. declared_tree item.now) declared.entry) }
{
    match declared {
        None => MAX_STRING_LEN as u32,
        Some(item) => match item.spec {
            Some(spec) => spec.whole,
            None => MAX_STRING_LEN as u32,
        },
    }
}

#[tactic(auto, using(crate::proofs::Dimensions::number_array))]
fn number_shape(numbers: WrittenType, dimensions: usize) -> WrittenShape
    ensures { shape_written result ≡ number_shape_of (type_written numbers) dimensions }
{
    if dimensions == 0 {
        WrittenShape::Num(numbers)
    } else {
        WrittenShape::NumArray(numbers, dimensions)
    }
}

#[tactic(auto, using(crate::proofs::Dimensions::text_array))]
fn text_shape(length: u32, dimensions: usize) -> WrittenShape
    ensures { shape_written result ≡ text_shape_of length dimensions }
{
    if dimensions == 0 {
        WrittenShape::Str(length)
    } else {
        WrittenShape::StrArray(length, dimensions)
    }
}

/// The shape of the variable of a name, by its declaration and its dimensions.
pub fn shape_of(
    options: UnitOptions,
    name: Name,
    declared: Option<&DeclaredItem>,
    dimensions: usize,
) -> WrittenShape
    ensures { shape_written result ≡ shape_of_name (options_told options) name (option_map (λ item. declared_tree item.now) declared.entry) dimensions }
{
    if is_text_name(name) {
        text_shape(text_length(declared), dimensions)
    } else {
        number_shape(number_type(options, declared), dimensions)
    }
}
