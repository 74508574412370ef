//! Each public call on its happy path, and the first name that has no slot.

use crate::text::{condition_at, program_of, units_in, value_at};
use bas_base::Name;
use bas_code::{ArithInstr, Instr, JumpInstr, PushInstr};
use bas_genexpr::{
    Aim, Code, GenFault, Slots, condition_size, expression_size, number_condition,
    number_expression, put_condition, put_expression,
};
use std::test::Fail;

#[test]
fn code_of_an_expression(rt: HostRuntime) -> Result<(), Fail> {
    let alloc = rt.alloc();
    let units = units_in(alloc, "10 LET X = -B + A\n20 END\n")?;
    let e = value_at(program_of(units.as_slice())?, 0)?;
    let a = Name::of(b"A").ok_or("no name")?;
    let b = Name::of(b"B").ok_or("no name")?;
    let mut slots = Slots::new(alloc);
    number_expression(&mut slots, e).map_err(|_| "not numbered")?;
    assert_eq!(rt; slots.count(), 2);
    assert_eq!(rt; slots.number(&a), Some(1));
    assert_eq!(rt; slots.number(&b), Some(0));
    let mut code = Code::new(alloc);
    put_expression(&mut code, &slots, e)?;
    assert_eq!(rt; expression_size(e), 4);
    let made = code.into_seq();
    assert_eq!(rt; made.items().len(), 4);
    assert!(rt;
        matches!(made.items().first(), Some(Instr::Push(PushInstr::Load(place))) if place.number == 0)
    );
    assert!(rt; matches!(made.items().get(1), Some(Instr::Arith(ArithInstr::Negate))));
    assert!(rt;
        matches!(made.items().get(2), Some(Instr::Push(PushInstr::Load(place))) if place.number == 1)
    );
    assert!(rt; matches!(made.items().get(3), Some(Instr::Arith(ArithInstr::Add))));
    Ok(())
}

// The first comparison jumps to the end where it is true, the second to the target where it is false.
#[test]
fn jumps_of_a_condition(rt: HostRuntime) -> Result<(), Fail> {
    let alloc = rt.alloc();
    let units = units_in(alloc, "10 DO WHILE A = 1 OR A = 2\n20 LOOP\n30 END\n")?;
    let c = condition_at(program_of(units.as_slice())?, 0)?;
    let mut slots = Slots::new(alloc);
    number_condition(&mut slots, c).map_err(|_| "not numbered")?;
    assert_eq!(rt; condition_size(alloc, c)?, 8);
    let mut code = Code::new(alloc);
    let aim = Aim {
        wanted: false,
        to: 99,
    };
    put_condition(alloc, &mut code, &slots, c, aim)?;
    assert_eq!(rt; code.len(), 8);
    let made = code.into_seq();
    assert!(rt;
        matches!(
            made.items().get(3),
            Some(Instr::Jump(JumpInstr::JumpTrue(8)))
        )
    );
    assert!(rt;
        matches!(
            made.items().get(7),
            Some(Instr::Jump(JumpInstr::JumpFalse(99)))
        )
    );
    Ok(())
}

#[test]
fn slots_have_a_limit(rt: HostRuntime) -> Result<(), Fail> {
    let alloc = rt.alloc();
    let mut slots = Slots::new(alloc);
    for k in 0..4096u32 {
        let text = format!(in alloc; "V{k}")?;
        let name = Name::of(text.as_bytes()).ok_or("no name")?;
        slots.add(name).map_err(|_| "not added")?;
    }
    let last = Name::of(b"V4096").ok_or("no name")?;
    match slots.add(last) {
        Err(GenFault::TooLarge { size, limit }) => {
            assert_eq!(rt; size, 4097);
            assert_eq!(rt; limit, 4096);
        }
        _ => return Err(Fail::from("taken")),
    }
    let first = Name::of(b"V0").ok_or("no name")?;
    slots.add(first).map_err(|_| "not added")?;
    assert_eq!(rt; slots.count(), 4096);
    Ok(())
}
