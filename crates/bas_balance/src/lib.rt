//! The tokens of an expression or a condition have their parentheses in pairs and no `:` outside them.
//!
//! Where a form ends at a `:`, as `USING expr :`, any other reading of the same tokens therefore ends
//! there or before. `specs/Balance.antt` has the definitions, and `proofs/BalanceLaws.antt` a lemma for
//! each form of a grammar, for the grammars of the crates above.
#![tactic(auto)]

mod law;

pub use law::balance_law;
