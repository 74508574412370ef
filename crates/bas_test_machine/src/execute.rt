//! A program that goes round, one that ends, and one with lines that do nothing.

use crate::text::{program_of, units_in};
use bas_execute::execute;
use bas_vm::Turn;
use bas_world::SureSink;
use std::test::Fail;

const ROUND: &str = "10 DO\n20 PRINT\n30 LOOP\n40 END\n";

const REMARKED: &str = "10 PROGRAM P\n20 REM A\n30\n40 PRINT\n50 END\n";

/// A program, the lines of its run, whether it ends with them, and its output.
const RUNS: [(&str, u64, bool, &str); 8] = [
    (ROUND, 1, false, ""),
    (ROUND, 2, false, "\n"),
    (ROUND, 4, false, "\n"),
    (ROUND, 5, false, "\n\n"),
    ("40 END\n", 1, true, ""),
    (REMARKED, 2, false, ""),
    (REMARKED, 3, false, "\n"),
    (REMARKED, 4, true, "\n"),
];

#[test]
fn lines_are_counted(rt: HostRuntime) -> Result<(), Fail> {
    let alloc = rt.alloc();
    for (text, lines, ends, output) in RUNS {
        let units = units_in(alloc, text)?;
        let program = program_of(units.as_slice())?;
        let mut out = SureSink::new(alloc);
        let turn = execute(alloc, program, lines, &mut out).map_err(|_| "refused")?;
        let wanted = match turn {
            Turn::Ended => ends,
            Turn::LinesSpent => !ends,
            _ => false,
        };
        assert!(rt; wanted, "{text}, {lines}");
        assert!(rt; out.bytes() == output.as_bytes(), "{text}, {lines}");
    }
    Ok(())
}
