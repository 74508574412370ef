//! Why a value was not stored.

use bas_base::Ex;

/// Why a value was not stored.
#[derive(Clone, Copy, Debug)]
pub enum StoreFault {
    /// The exception that is raised because the value does not fit its cell: 1010 for a number, 1106
    /// for a string.
    Ex(Ex),
    /// There was no memory. A store moves its value in and takes no memory, so no store answers this
    /// today.
    Memory,
}
