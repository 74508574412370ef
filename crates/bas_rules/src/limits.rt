//! The limits that the rules keep.

/// The most dimensions of an array.
pub const MOST_DIMENSIONS: u32 = 3;

/// The farthest bound of an array from 0.
pub const FARTHEST_BOUND: i64 = 1_000_000;

/// The most elements of an array.
pub const MOST_ELEMENTS: u64 = 1_000_000;

/// The most entries of a list of arguments, formals, targets or values.
pub const LONGEST_LIST: usize = 255;

/// The greatest number of a channel.
pub const LAST_CHANNEL: u32 = 99;

/// The fewest bytes of a record of fixed size.
pub const LEAST_RECORD: u32 = 16;

/// The most bytes of a record of fixed size.
pub const LARGEST_RECORD: u32 = 1024;
