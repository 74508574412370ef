//! What a case of a table has to be.

use std::process::Abort;

/// Ends the test where the case does not hold.
pub fn check(rt: &impl Abort, case: &str, holds: bool) {
    assert!(rt; holds, "{case}");
}

/// What the text has after its front, if that is its front.
pub fn after<'a>(text: &'a [u8], front: &[u8]) -> Option<&'a [u8]> {
    text.strip_prefix(front)
}
