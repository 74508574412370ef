//! What the faults of nodes in a row are.

ghost use Rattle.bas_operands.specs.Operands.{FaultsOfRows};

/// Of nodes in a row the lesser fault counts, and no nodes have none.
#[tactic(auto, using(crate::proofs::Rows::rows_hold))]
pub fn faults_of_rows()
    ensures { FaultsOfRows }
{}
