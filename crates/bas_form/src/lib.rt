//! The forms of a grammar and their readers, for texts of any elements: bytes, tokens or lines.
//! A form is a relation between a place, a tree and the place after it. The eight
//! forms are an element, one form after another, a form or nothing, any number of times, one of two,
//! the one that an element chooses, nothing ahead, and a tree of the parts. Beside each there is a reader,
//! and each law says that it takes the longest form, of whatever forms the parts are.
#![tactic(auto)]

mod byte_class;
mod law;
mod quoted;
mod scan;

pub use byte_class::ByteClass;
pub use law::{
    Nothing, ReadableForm, ReadableForms, between_law, built_law, chain_law, dispatched_law,
    not_ahead_law, optional_law, or_law, perhaps_law, repeated_law, terminal_law, then_law,
    worked_grammar,
};
pub use quoted::piece_end;
pub use scan::{byte_end, past};
