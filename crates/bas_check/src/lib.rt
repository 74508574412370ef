//! Which units keep the 24 rules: a unit is accepted, or refused at the first line at which a rule is
//! broken, with the least such rule.
//!
//! A walk goes over the lines in the order of the text and judges each in its place; what a line asks of
//! its unit, its body and the blocks around it is kept in tables that are made before. Promised:
//! `first_fault` answers exactly what `specs/Well.antt` of `bas_rules` says of the unit's tree, for every
//! unit, and `check` accepts it where there is no fault.
#![tactic(auto)]

mod block;
mod checked;
mod container;
mod definition;
mod fault;
mod unit;
mod walk;

pub use checked::{CheckFault, Checked, check};
pub use fault::Fault;
pub use unit::first_fault;
