//! The image of a program, and what its run comes to.

use crate::image::{END, END_LINE, PRINT, image, mark, number, row};
use bas_run::run_carried;
use bas_vm::Turn;
use bas_world::SureSink;
use std::test::Fail;

// 10 PRINT 7, 20 END
#[test]
fn a_program_prints(rt: HostRuntime) -> Result<(), Fail> {
    let alloc = rt.alloc();
    let code = vec![in alloc; mark(10)?, number(7)?, PRINT, END_LINE, mark(20)?, END]?;
    let mut last = row(20, 4, 6)?;
    last.next = 4;
    let image = image(alloc, 0, code, vec![in alloc; row(10, 0, 4)?, last]?)?;
    let mut out = SureSink::new(alloc);
    assert!(rt; matches!(run_carried(alloc, &image, 2, &mut out), Turn::Ended));
    assert_eq!(rt; out.bytes(), b" 7 \n".as_slice());
    Ok(())
}
