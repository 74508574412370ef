//! Which claims of a line are not taken.

ghost use Rattle.std.specs.Prelude.{◌≡◌};
ghost use Rattle.std.specs.List.{list_any};
ghost use Rattle.bas_rules.specs.Naming.{claimed_name};
ghost use Rattle.bas_claim.specs.First.{stands_before};
ghost use Rattle.bas_claim.specs.Headings.{is_refused};

use crate::first::FirstLines;
use crate::heading::Heading;
use bas_base::Line;
use bas_rules::Claim;
use bas_scope::BodyKind;

/// Whether one of the claims on a line names what was declared before, or is one that the body does
/// not take.
pub fn is_any_refused(
    kind: BodyKind,
    heading: &Heading,
    first: &FirstLines,
    line: Line,
    claims: &[Claim],
) -> bool
    ensures { result ≡ list_any (is_refused kind heading.now first.now line) claims.now }
{
    for claim in claims {
        if first.is_before(claim.name(), line) || heading.refuses(kind, *claim) {
            return true;
        }
    }
    false
}

/// Whether one of the names that a line claims stands at a line before it.
pub fn is_any_before(first: &FirstLines, line: Line, claims: &[Claim]) -> bool
    ensures { result ≡ list_any (λ claim. stands_before first.now (claimed_name claim) line) claims.now }
{
    for claim in claims {
        if first.is_before(claim.name(), line) {
            return true;
        }
    }
    false
}
