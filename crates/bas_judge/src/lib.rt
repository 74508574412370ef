//! The rules that a line breaks in its place, each told by a test of its own, and the least of them.
//!
//! Promised: each test answers exactly as its rule does on every ground on which the place stands
//! (`specs/Answers.antt`), `line_fault` answers just the least rule that is broken there, and
//! `definition_fault` that of the one line in the body of a `DEF`. A line takes time in proportion to its
//! length, with a few look-ups for each name; an `OPTION` line looks at all lines of its unit.
#![tactic(auto)]

mod claims;
mod declarations;
mod definition;
mod jumps;
mod law;
mod line;
mod names;
mod statements;

pub use claims::declared_twice;
pub use declarations::{
    has_bounds_out_of_range, has_late_option, has_program_formal, has_type_out_of_bounds,
    has_wrong_kind,
};
pub use definition::definition_fault;
pub use jumps::{
    chains_in_initial_part, exits_nothing, gosub_into_block, jumps_into_block, resumes_nothing,
};
pub use law::faults_of_places;
pub use line::line_fault;
pub use names::{counts_by_wrong_variable, handler_is_not_one, is_out_of_module};
pub use statements::{
    awaits_what_never_comes, has_bad_attributes, lists_too_many, restores_no_data,
};
