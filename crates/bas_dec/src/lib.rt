// Decimal numbers of a sign, up to 38 digits and up to 18 places behind the point.
// Each operation gives exactly the value that its definition in specs/ has over whole numbers
// without bound, and each fault exactly where that definition has it.
// A number has one form: two numbers of one value are equal.
// Bodies use 128-bit words, checked products and single divisions.
#![tactic(auto)]

mod fault;
pub mod laws;
mod number;
mod numeral;
mod strip;
mod text;
mod types;
mod wide;
mod words;

pub use fault::DecFault;
pub use number::Dec;
pub use numeral::{
    Numeral, form_gives_answer, form_has_one_reading, not_numeral_without_form, read_numeral,
    worked_numerals,
};
pub use text::{printed_number_reads_back, worked_texts};
pub use types::{FixType, NumType};

/// The most places that a number has behind its point.
pub const PLACES: u8 = 18;

/// The fewest places that a product, a quotient or the square under a root is computed to.
pub const SHORT: u8 = 18;

/// The largest exponent, in size, of a number other than 0, 1 and -1.
pub const LARGEST_EXPONENT: u16 = 4096;
