//! What the rules see of a scope is found by looking names up.

ghost use Rattle.bas_names.specs.Law.{AreLookedUp};

/// The rules see of a scope what there is to look up in it, and the same in its tables.
#[tactic(auto, using(crate::proofs::Lookups::are_looked_up))]
pub fn senses_are_looked_up()
    ensures { AreLookedUp }
{}
