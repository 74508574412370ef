//! Small units, each with the first line at which a rule is broken, or none.

mod calls;
mod control;
mod declarations;
mod faces;
mod kinds;
mod names;
mod records;

pub use calls::arguments_fit;
pub use control::{blocks_and_jumps, handlers_and_loops};
pub use declarations::{declarations_in_bounds, declarations_in_place};
pub use faces::interfaces;
pub use kinds::operands_have_their_kinds;
pub use names::{array_uses, function_uses, names_declared_once};
pub use records::attributes_and_waits;
