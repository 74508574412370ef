//! How many units a file has, or its fault.

use bas_block::{SourceFault, units_of};
use std::alloc::Global;

/// The number of the file's units.
pub fn count_of(alloc: Global, file: &[u8]) -> Result<usize, SourceFault> {
    match units_of(alloc, file) {
        Ok(units) => Ok(units.len()),
        Err(fault) => Err(fault),
    }
}
