//! What a name is, looked up in the symbol tables of a unit.
//!
//! A table has an entry for each name, in the order of names, and is made from the trees in time
//! n log n. Promised: a name in a body is what `specs/Senses.antt` of `bas_scope` says of its scope.
#![tactic(auto)]

mod behind;
mod body;
mod container;
mod declaration;
mod declared;
mod entry;
mod external;
mod formals;
mod internal;
mod law;
mod lines;
mod names;
mod options;
mod procedure;
mod shapes;
mod unit_names;
mod variables;

pub use body::{container_names, internal_names};
pub use container::container_table;
pub use entry::{Entry, Table};
pub use internal::{definition_table, internal_table};
pub use law::senses_are_looked_up;
pub use lines::{opens_procedure, own_lines, unit_lines};
pub use names::Names;
pub use options::{UnitOptions, options_of};
pub use unit_names::{UnitNames, names_of_unit};
