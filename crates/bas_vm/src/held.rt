use crate::operand::Operand;
use bas_dec::Dec;

/// What a run holds: its operand stack, with the top at the end, the numbers in the cells of the
/// program's slots, the print column, and the lines left.
#[derive(Debug, Drop)]
pub struct Held {
    pub stack: Vec<Operand>,
    pub cells: Vec<Dec>,
    pub column: usize,
    pub left: u64,
}
