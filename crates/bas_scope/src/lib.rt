//! What each name of a body stands for, and where it belongs: a variable with its shape and bounds, a
//! procedure with its formals, or a supplied function; of this body, of the body that contains it, of
//! the module, or of another unit.
//!
//! Definitions alone, over the plain trees: `specs/Scope.antt` for names, `specs/Bodies.antt` for the
//! bodies of a unit with their variables, handlers and data, `specs/Nodes.antt` for every operand on a
//! line. The functions compute them for four units.
#![tactic(auto)]

mod body;
mod examples;
mod head;
mod sense;
mod supplied;
mod text_name;
mod written;

pub use body::BodyKind;
pub use examples::{
    internal_procedures_share, names_of_a_module, names_of_other_units, types_and_bounds,
};
pub use head::{formals_on, procedure_on};
pub use sense::Sense;
pub use supplied::{Forms, forms_of};
pub use text_name::is_text_name;
pub use written::{WrittenShape, WrittenType};
