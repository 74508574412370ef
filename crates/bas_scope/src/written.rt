//! Shapes as a program writes them.

/// A numeric type as it is written: it may have more digits than a number has.
#[derive(Clone, Copy, Debug, PartialEq, Eq)]
pub enum WrittenType {
    General,
    /// The digits before the point, and behind it.
    Fixed(u32, u32),
}

/// A shape as it is written: its digits, length and dimensions may be out of bounds, which a rule
/// finds later.
#[derive(Clone, Copy, Debug, PartialEq, Eq)]
pub enum WrittenShape {
    NumValue,
    StrValue,
    Num(WrittenType),
    Str(u32),
    NumArray(WrittenType, usize),
    StrArray(u32, usize),
    Channel,
}
