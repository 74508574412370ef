//! What fitting means.

ghost use Rattle.bas_face.specs.Fits.{FitsAsDescribed};

/// A value fits exactly the scalars of its kind, and any other argument exactly its equal.
#[tactic(auto, using(crate::proofs::Passing::fits_as_described))]
pub fn fits_as_described()
    ensures { FitsAsDescribed }
{}
