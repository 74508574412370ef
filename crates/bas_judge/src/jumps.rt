//! Where the jumps and exits of a line go.

ghost use Rattle.std.specs.Prelude.{◌≡◌};
ghost use Rattle.bas_ast.specs.Tree.{LineItem as ItemTree};
ghost use Rattle.bas_rules.specs.Jumping as rule;
ghost use Rattle.bas_judge.specs.Answers.{IsOf};

use bas_ast::NumLine;
use bas_place::Place;
use bas_scope::BodyKind;

/// Whether a jump on a line goes into a block.
pub fn jumps_into_block(place: &Place<'_>, line: &NumLine) -> bool
    ensures { (opener : ItemTree) → IsOf place.now opener line.now rule.jumps_into_block result }
{
    bas_reach::jumps_into_block(place.around, &line.item)
}

/// Whether `GOSUB` on a line goes into a block.
pub fn gosub_into_block(place: &Place<'_>, line: &NumLine) -> bool
    ensures { (opener : ItemTree) → IsOf place.now opener line.now rule.gosub_into_block result }
{
    bas_reach::gosub_into_block(&place.body.top, &line.item)
}

/// Whether an `EXIT` on a line stands inside of no such construct of its body.
pub fn exits_nothing(place: &Place<'_>, line: &NumLine) -> bool
    ensures { (opener : ItemTree) → IsOf place.now opener line.now rule.exits_nothing result }
{
    bas_reach::exits_nothing(place.around, place.body.head, &line.item)
}

/// Whether `RETRY`, `CONTINUE` or `EXIT HANDLER` on a line stands in no handler.
pub fn resumes_nothing(place: &Place<'_>, line: &NumLine) -> bool
    ensures { (opener : ItemTree) → IsOf place.now opener line.now rule.resumes_nothing result }
{
    bas_reach::resumes_nothing(place.around, &line.item)
}

/// Whether a body is the initial part of a module.
pub fn is_initial(kind: BodyKind) -> bool
    ensures { result ≡ rule.is_initial kind }
{
    matches!(kind, BodyKind::Initial)
}

/// Whether `CHAIN` stands on a line of an initial part.
pub fn chains_in_initial_part(place: &Place<'_>, line: &NumLine) -> bool
    ensures { (opener : ItemTree) → IsOf place.now opener line.now rule.chains_in_initial_part result }
{
    bas_reach::chains_in_initial_part(is_initial(place.body.kind), &line.item)
}
