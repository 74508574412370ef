//! Images that no program has or that are short enough to follow by hand, and what their runs come to.

use crate::image::{END, END_LINE, PRINT, image, mark, number, row};
use bas_base::ExAt;
use bas_code::{
    ArithInstr, CompareInstr, Image, Instr, JumpInstr, Place, PushInstr, Relation, Space,
    StoreInstr,
};
use bas_vm::{Turn, run};
use bas_world::{MemSink, SureSink};
use std::alloc::Global;
use std::test::Fail;

const STORE: Instr = Instr::Store(StoreInstr::Store(1));

fn slot(number: u16) -> Place {
    Place {
        space: Space::Own,
        number,
    }
}

fn load(number: u16) -> Instr {
    Instr::Push(PushInstr::Load(slot(number)))
}

fn refer(number: u16) -> Instr {
    Instr::Push(PushInstr::Ref(slot(number)))
}

fn go(a: u16) -> Instr {
    Instr::Jump(JumpInstr::Jump(a))
}

// 10 DO WHILE I < 3, 20 LET I = I + 1, 30 LOOP, 40 PRINT I / 8, 50 END
fn counting(alloc: Global) -> Result<Image, Fail> {
    let code = vec![in alloc;
        mark(10)?,
        load(0),
        number(3)?,
        Instr::Compare(CompareInstr::CompareNum(Relation::Less)),
        Instr::Jump(JumpInstr::JumpFalse(13)),
        mark(20)?,
        refer(0),
        load(0),
        number(1)?,
        Instr::Arith(ArithInstr::Add),
        STORE,
        mark(30)?,
        go(0),
        mark(40)?,
        load(0),
        number(8)?,
        Instr::Arith(ArithInstr::Div),
        PRINT,
        END_LINE,
        mark(50)?,
        END,
    ]?;
    let lines = vec![in alloc;
        row(10, 0, 5)?,
        row(20, 5, 11)?,
        row(30, 11, 13)?,
        row(40, 13, 19)?,
        row(50, 19, 21)?,
    ]?;
    image(alloc, 1, code, lines)
}

// 10 PRINT 1, 20 PRINT 1 / D, 30 END
fn zero_divisor(alloc: Global) -> Result<Image, Fail> {
    let code = vec![in alloc;
        mark(10)?,
        number(1)?,
        PRINT,
        END_LINE,
        mark(20)?,
        number(1)?,
        load(0),
        Instr::Arith(ArithInstr::Div),
        PRINT,
        END_LINE,
        mark(30)?,
        END,
    ]?;
    let lines = vec![in alloc; row(10, 0, 4)?, row(20, 4, 10)?, row(30, 10, 12)?]?;
    image(alloc, 1, code, lines)
}

#[test]
fn a_loop_is_counted(rt: HostRuntime) -> Result<(), Fail> {
    let image = counting(rt.alloc())?;
    let mut out = SureSink::new(rt.alloc());
    assert!(rt; matches!(run(rt.alloc(), &image, 10, &mut out), Turn::LinesSpent));
    assert_eq!(rt; out.bytes(), b"".as_slice());
    assert!(rt; matches!(run(rt.alloc(), &image, 11, &mut out), Turn::LinesSpent));
    assert_eq!(rt; out.bytes(), b" .375 \n".as_slice());
    let mut out = SureSink::new(rt.alloc());
    assert!(rt; matches!(run(rt.alloc(), &image, 12, &mut out), Turn::Ended));
    assert_eq!(rt; out.bytes(), b" .375 \n".as_slice());
    Ok(())
}

#[test]
fn a_zero_divisor_stops(rt: HostRuntime) -> Result<(), Fail> {
    let image = zero_divisor(rt.alloc())?;
    let mut out = SureSink::new(rt.alloc());
    match run(rt.alloc(), &image, 9, &mut out) {
        Turn::Stopped(ExAt { ex, line, unit }) => {
            assert_eq!(rt; ex.0, 3001);
            assert_eq!(rt; line.number(), 20);
            assert_eq!(rt; unit.bytes(), b"MAIN".as_slice());
        }
        _ => return Err(Fail::from("stopped")),
    }
    assert_eq!(rt; out.bytes(), b" 1 \n".as_slice());
    let mut out = MemSink::new(rt.alloc(), vec![in rt.alloc(); 2]?);
    assert!(rt; matches!(run(rt.alloc(), &image, 9, &mut out), Turn::OutputFault));
    assert_eq!(rt; out.bytes(), b" 1 ".as_slice());
    Ok(())
}

#[test]
fn a_line_is_broken_at_the_margin(rt: HostRuntime) -> Result<(), Fail> {
    let alloc = rt.alloc();
    let n = number(10_i128.pow(37))?;
    let code = vec![in alloc; mark(10)?, n, PRINT, n, PRINT, n, PRINT, END]?;
    let image = image(alloc, 0, code, vec![in alloc; row(10, 0, 8)?]?)?;
    let mut out = SureSink::new(alloc);
    assert!(rt; matches!(run(alloc, &image, 1, &mut out), Turn::Ended));
    assert_eq!(rt;
        out.bytes(),
        b" 10000000000000000000000000000000000000  10000000000000000000000000000000000000 \n 10000000000000000000000000000000000000 ".as_slice()
    );
    Ok(())
}

#[test]
fn images_of_no_program(rt: HostRuntime) -> Result<(), Fail> {
    let alloc = rt.alloc();
    let mut out = SureSink::new(alloc);
    let to_no_mark = vec![in alloc; mark(10)?, number(1)?, go(1)]?;
    let refused = image(alloc, 0, to_no_mark, vec![in alloc; row(10, 0, 3)?]?)?;
    assert!(rt; matches!(run(alloc, &refused, 5, &mut out), Turn::Refused));
    let no_operand = vec![in alloc; mark(10)?, PRINT]?;
    let lost = image(alloc, 0, no_operand, vec![in alloc; row(10, 0, 2)?]?)?;
    assert!(rt; matches!(run(alloc, &lost, 5, &mut out), Turn::Lost));
    Ok(())
}
