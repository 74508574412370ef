//! The code and the line table as they grow, and the sizes that the layout listed.

ghost use Rattle.std.specs.Prelude.{◌≡◌, ◌≤◌, OnOk};
ghost use Rattle.bas_genexpr.specs.Counts.{code_limit};
ghost use Rattle.bas_gen.specs.Emitting.{Entered, Took};

use bas_base::Line;
use bas_code::LineEntry;
use bas_genexpr::{CODE_LIMIT, Code, Sizes};
use std::alloc::AllocError;

/// Code and lines, and the sizes that are still to be read.
#[derive(Drop)]
pub struct Output {
    pub code: Code,
    pub lines: Vec<LineEntry>,
    pub sizes: Sizes,
}

/// The next size, or 0 where none is ahead.
pub fn next_size(output: &mut Output) -> u32
    ensures { Took output.old output.new result }
{
    output.sizes.next()
}

// An address, which is none of the body past the limit.
fn address(at: usize) -> u16
    ensures { at ≤ code_limit → result ≡ at }
{
    at.min(CODE_LIMIT as usize) as u16
}

/// Enters a line in the table.
pub fn enter(
    output: &mut Output,
    line: Line,
    start: usize,
    end: usize,
    next: usize,
) -> Result<(), AllocError>
    ensures { OnOk result (Entered output.old output.new line start end next) }
{
    output.lines.push(LineEntry {
        line,
        start: address(start),
        end: address(end),
        next: address(next),
    })?;
    Ok(())
}
