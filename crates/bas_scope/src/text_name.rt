//! The kind of a name.

ghost use Rattle.std.specs.Prelude.{◌≡◌};
ghost use Rattle.bas_scope.specs.Shapes.{is_text_name as is_text_name_of};

use bas_base::Name;

/// Whether a name is that of a string: it ends with `$`.
pub fn is_text_name(name: Name) -> bool
    ensures { result ≡ is_text_name_of name }
{
    name.bytes().ends_with(b"$")
}
