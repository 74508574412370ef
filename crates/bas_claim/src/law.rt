//! What a claim is refused for.

ghost use Rattle.bas_claim.specs.Headings.{AreRefused};

/// Claims are refused by tables as by the lines before them and the first line of their body.
#[tactic(auto, using(crate::proofs::Refusing::are_refused))]
pub fn claims_are_refused()
    ensures { AreRefused }
{}
