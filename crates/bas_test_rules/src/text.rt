//! Units by their text, and the fault of each.

use bas_ast::Unit;
use bas_block::units_of;
use bas_check::{Fault, first_fault};
use std::alloc::Global;

/// A unit by its text, the first line that breaks a rule, and the least rule that is broken there; 0 and 0
/// where it keeps all rules.
pub type Row = (&'static str, u32, u8);

/// What no row tells: the text is refused, or is not one unit, or there was no memory.
pub const UNREAD: (u32, u8) = (u32::MAX, u8::MAX);

/// The unit of a text, or none where the text is refused or is not one unit.
pub fn unit_in(alloc: Global, text: &[u8]) -> Option<Unit> {
    let mut units = units_of(alloc, text).ok()?;
    if units.len() == 1 { units.pop() } else { None }
}

// The line and the rule of a fault, or 0 and 0 where there is none.
fn told(found: Option<Fault>) -> (u32, u8) {
    match found {
        Some(fault) => (fault.line.number(), fault.rule),
        None => (0, 0),
    }
}

/// The first line of a unit that breaks a rule, and the least rule that is broken there.
pub fn fault_of(alloc: Global, text: &[u8]) -> (u32, u8) {
    let Some(unit) = unit_in(alloc, text) else {
        return UNREAD;
    };
    match first_fault(alloc, &unit) {
        Ok(found) => told(found),
        Err(_) => UNREAD,
    }
}

/// The first row whose unit has another fault than the row tells, with that other fault.
pub fn first_other(alloc: Global, rows: &[Row]) -> Option<Row> {
    for &(text, line, rule) in rows {
        let found = fault_of(alloc, text.as_bytes());
        if found.0 != line || found.1 != rule {
            return Some((text, found.0, found.1));
        }
    }
    None
}
