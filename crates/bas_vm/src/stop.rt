ghost use Rattle.std.specs.Prelude.{◌≡◌, [], nat_le, nat_lt, ◌&&◌};
ghost use Rattle.bas_code.specs.Guards.{entry_at};
ghost use Rattle.bas_vm.specs.Rows.{StopsBy};

use crate::turn::Turn;
use bas_base::{Ex, ExAt};
use bas_code::{LineEntry, Proc};

fn covers(entry: &LineEntry, pc: usize) -> bool
    ensures { result ≡ (nat_le entry.now.start pc && nat_lt pc entry.now.end) }
{
    usize::from(entry.start) <= pc && pc < usize::from(entry.end)
}

// The entry of the line at an address.
fn entry_at(lines: &[LineEntry], pc: usize) -> Option<LineEntry>
    ensures { result ≡ entry_at lines.now pc }
{
    for entry in lines {
        if covers(entry, pc) {
            return Some(*entry);
        }
    }
    None
}

/// The stop by an exception that arises at an address of a body without `WHEN` blocks.
pub fn stop(proc: &Proc, pc: usize, ex: Ex) -> Turn
    requires { proc.now.guards ≡ [] }
    ensures { StopsBy proc.now pc ex result }
{
    match entry_at(proc.lines.items(), pc) {
        Some(entry) => Turn::Stopped(ExAt {
            ex,
            line: entry.line,
            unit: proc.unit,
        }),
        None => Turn::Lost,
    }
}
