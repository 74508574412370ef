//! Types and bounds of declared variables.

ghost use Rattle.std.specs.Prelude.{◌≡◌};
ghost use Rattle.bas_ast.specs.DeclarationTree.{type_tree, declared_tree};
ghost use Rattle.bas_rules.specs.Declaring.{is_number_type as is_number_type_of, is_text_type as is_text_type_of, has_bad_type as has_bad_type_of, is_type_of as type_of};

use bas_ast::{DeclaredItem, TypeSpec};
use bas_base::Name;
use bas_dec::PLACES;
use bas_scope::is_text_name;
use bas_text::MAX_STRING_LEN;

/// Whether a type has 1 to 38 digits, and no more places than a number has.
pub fn is_number_type(spec: TypeSpec) -> bool
    ensures { result ≡ is_number_type_of (type_tree spec) }
{
    let places = spec.fraction.unwrap_or(0);
    if spec.whole > 38 || places > PLACES as u32 {
        return false;
    }
    (1..=38).contains(&(spec.whole + places))
}

/// Whether a type is a length of 1 to 65,535 without a fraction.
pub fn is_text_type(spec: TypeSpec) -> bool
    ensures { result ≡ is_text_type_of (type_tree spec) }
{
    spec.whole >= 1 && spec.whole <= MAX_STRING_LEN as u32 && spec.fraction.is_none()
}

fn is_type_of(name: Name, spec: TypeSpec) -> bool
    ensures { result ≡ type_of name (type_tree spec) }
{
    if is_text_name(name) {
        is_text_type(spec)
    } else {
        is_number_type(spec)
    }
}

/// Whether a declared variable has a type out of bounds.
pub fn has_bad_type(item: &DeclaredItem) -> bool
    ensures { result ≡ has_bad_type_of (declared_tree item.now) }
{
    match item.spec {
        Some(spec) => !is_type_of(item.name, spec),
        None => false,
    }
}
