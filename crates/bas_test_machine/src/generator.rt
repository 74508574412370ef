//! The body of a program with a loop and a jump, and of one with lines that do nothing.

use crate::text::{program_of, units_in};
use bas_code::{Instr, JumpInstr, RunInstr};
use bas_gen::generate;
use std::test::Fail;

#[test]
fn a_loop_is_left(rt: HostRuntime) -> Result<(), Fail> {
    let alloc = rt.alloc();
    let units = units_in(alloc, "10 DO\n20 EXIT DO\n30 LOOP\n40 GOTO 10\n50 END\n")?;
    let made = generate(alloc, program_of(units.as_slice())?).map_err(|_| "refused")?;
    assert_eq!(rt; made.slots, 0);
    let code = made.code.items();
    assert_eq!(rt; code.len(), 9);
    assert!(rt; matches!(code.get(2), Some(Instr::Jump(JumpInstr::Jump(5)))));
    assert!(rt; matches!(code.get(4), Some(Instr::Jump(JumpInstr::Jump(0)))));
    assert!(rt; matches!(code.get(6), Some(Instr::Jump(JumpInstr::Jump(0)))));
    assert!(rt; matches!(code.get(8), Some(Instr::Run(RunInstr::End))));
    assert_eq!(rt; made.lines.items().len(), 5);
    Ok(())
}

#[test]
fn remarks_are_marked(rt: HostRuntime) -> Result<(), Fail> {
    let alloc = rt.alloc();
    let units = units_in(alloc, "10 REM A\n20\n30 GOTO 20\n40 END\n")?;
    let made = generate(alloc, program_of(units.as_slice())?).map_err(|_| "refused")?;
    let code = made.code.items();
    assert_eq!(rt; code.len(), 6);
    assert!(rt; matches!(code.get(0), Some(Instr::Mark(_))));
    assert!(rt; matches!(code.get(1), Some(Instr::Mark(_))));
    assert!(rt; matches!(code.get(3), Some(Instr::Jump(JumpInstr::Jump(1)))));
    let lines = made.lines.items();
    assert_eq!(rt; lines.len(), 4);
    let empty = lines.get(1).ok_or("no entry")?;
    assert_eq!(rt; empty.line.number(), 20);
    assert_eq!(rt; (empty.start, empty.end, empty.next), (1, 2, 2));
    Ok(())
}
