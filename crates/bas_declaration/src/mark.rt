//! The signs that stand alone in these lines.

ghost use Rattle.std.specs.Prelude.{◌≡◌, ◌<◌, IfSome};
ghost use Rattle.bas_declaration.specs.Parts.{equals};
ghost use Rattle.bas_declaration.specs.Declarations.{minus, asterisk};

use bas_ast::{FactorSign, Rel, Sign};
use bas_expr::TokenLine;

/// The `=` at a place.
pub fn equals(line: &TokenLine<'_>, at: usize) -> Option<()>
    ensures value { result ≡ equals line.now at }
    ensures within { IfSome result (λ _. at < 4096) }
{
    match line.rel(at) {
        Some(Rel::Equal) => Some(()),
        _ => None,
    }
}

/// The `-` at a place.
pub fn minus(line: &TokenLine<'_>, at: usize) -> Option<()>
    ensures value { result ≡ minus line.now at }
    ensures within { IfSome result (λ _. at < 4096) }
{
    match line.sign(at) {
        Some(Sign::Minus) => Some(()),
        _ => None,
    }
}

/// The `*` at a place.
pub fn asterisk(line: &TokenLine<'_>, at: usize) -> Option<()>
    ensures value { result ≡ asterisk line.now at }
    ensures within { IfSome result (λ _. at < 4096) }
{
    match line.factor_sign(at) {
        Some(FactorSign::Multiply) => Some(()),
        _ => None,
    }
}
