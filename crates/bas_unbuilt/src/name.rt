//! Names of numeric variables.

ghost use Rattle.std.specs.Prelude.{◌≡◌};
ghost use Rattle.bas_mean.specs.Built.{is_numeric_name as is_numeric};

use bas_ast::is_supplied;
use bas_base::Name;

/// Whether a name is that of a numeric variable.
#[tactic(auto, unfolding(bas_mean::specs::Built::is_numeric_name, bas_ast::specs::Supplied::is_supplied))]
pub fn is_numeric_name(name: Name) -> bool
    ensures { result ≡ is_numeric name }
{
    let text = name.bytes();
    !text.ends_with(b"$") && !is_supplied(text)
}
