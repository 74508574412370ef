//! The shapes of variables, formals and arguments.

use bas_dec::NumType;

/// What a variable, a formal or an argument is.
#[derive(Clone, Copy, Debug, PartialEq, Eq)]
pub enum Shape {
    /// A number that is passed by value.
    NumValue,
    /// A string that is passed by value.
    StrValue,
    /// A numeric variable or element.
    Num(NumType),
    /// A string variable or element, with the most bytes that it holds.
    Str(u16),
    /// An array of numbers, with its number of dimensions.
    NumArray(NumType, u8),
    /// An array of strings, with the most bytes of each and its number of dimensions.
    StrArray(u16, u8),
    /// A channel.
    Channel,
}

/// A variable: its shape, and the lower and upper bound of each dimension of an array. The bounds
/// past the dimensions are 0.
#[derive(Clone, Copy, Debug, PartialEq, Eq)]
pub struct Cell {
    pub shape: Shape,
    pub bounds: [(i32, i32); 3],
}
