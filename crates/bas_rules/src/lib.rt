//! The rules that a unit keeps: 24 tests on a line in its place, and the first line that fails one.
#![tactic(auto)]

mod attributes;
mod bounds;
mod claims;
mod declared;
mod examples;
mod formals;
mod limits;
mod lists;
mod options;
mod types;
mod waits;

pub use attributes::are_bad_attributes;
pub use bounds::declares_bad_bounds;
pub use claims::{Claim, claims_on};
pub use declared::{declares_bad_type, declares_other_kind};
pub use examples::{
    arguments_fit, array_uses, attributes_and_waits, blocks_and_jumps, declarations_in_bounds,
    declarations_in_place, function_uses, handlers_and_loops, interfaces, names_declared_once,
    operands_have_their_kinds,
};
pub use formals::{has_other_than_scalars, have_many_dimensions};
pub use limits::{
    FARTHEST_BOUND, LARGEST_RECORD, LAST_CHANNEL, LEAST_RECORD, LONGEST_LIST, MOST_DIMENSIONS,
    MOST_ELEMENTS,
};
pub use lists::{are_too_many_formals, has_too_long_list};
pub use options::{OptionKind, is_late_option, option_on};
pub use types::{has_bad_type, is_number_type, is_text_type};
pub use waits::awaits_wrongly;
