//! What units show of themselves to one another: the shapes of variables, formals and arguments,
//! and the interface of a unit.
//!
//! Promised: `fits` answers exactly where an argument may be passed to a formal (`specs/Fits.antt`).
#![tactic(auto)]

mod face;
mod fitting;
mod laws;
mod link;
mod shape;

pub use face::{CallKind, Export, Face, Import, Public, UnitKind};
pub use fitting::fits;
pub use laws::fits_as_described;
pub use link::{LinkFault, LinkKind};
pub use shape::{Cell, Shape};
