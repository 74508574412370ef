//! Stores and reads through references. The values are those of the language's rules.

use bas_base::Ex;
use bas_cell::{Cells, StoreFault};
use bas_dec::{Dec, FixType, NumType};
use bas_face::{Cell, Shape};
use bas_fileval::Value;
use bas_text::StrVal;
use std::mem::size_of;
use std::test::Fail;

fn number(ex: Ex) -> u32 {
    ex.0
}

/// The number of the exception, or 1 for want of memory.
fn fault_number(fault: StoreFault) -> u32 {
    match fault {
        StoreFault::Ex(ex) => number(ex),
        StoreFault::Memory => 1,
    }
}

/// The number of the exception that a store raised, or 0 where it stored the value.
fn raised(answer: Result<(), StoreFault>) -> u32 {
    match answer {
        Ok(()) => 0,
        Err(fault) => fault_number(fault),
    }
}

/// The coefficient and the scale of a number.
fn parts(value: &Value) -> Option<(i128, u8)> {
    match value {
        Value::Num(x) => Some(x.parts()),
        Value::Text(_) => None,
    }
}

/// Whether the value is a string of these bytes.
fn is_text(value: &Value, bytes: &[u8]) -> bool {
    match value {
        Value::Num(_) => false,
        Value::Text(text) => text.bytes() == bytes,
    }
}

#[test]
fn two_references_are_to_one_element(rt: HostRuntime) -> Result<(), Fail> {
    let alloc = rt.alloc();
    let mut cells = Cells::new(alloc);
    let table = Cell {
        shape: Shape::NumArray(NumType::General, 2),
        bounds: [(1, 2), (0, 2), (0, 0)],
    };
    let cell = cells.make(alloc, &table)?;
    let one = cells.element(cell, &[2, 1]).ok_or("an element")?;
    let same = cells.element(cell, &[2, 1]).ok_or("an element")?;
    let other = cells.element(cell, &[2, 2]).ok_or("an element")?;
    let five = Dec::of_parts(5, 0).ok_or("a number")?;
    assert_eq!(rt; raised(cells.write(one, Value::Num(five))), 0);
    assert!(rt; parts(&cells.read(alloc, same)?) == Some((5, 0)));
    assert!(rt; parts(&cells.read(alloc, other)?) == Some((0, 0)));
    Ok(())
}

#[test]
fn a_number_is_rounded_or_too_large(rt: HostRuntime) -> Result<(), Fail> {
    let alloc = rt.alloc();
    let mut cells = Cells::new(alloc);
    let digits = FixType::of(3, 2).ok_or("a type")?;
    let typed = Cell {
        shape: Shape::Num(NumType::Fix(digits)),
        bounds: [(0, 0), (0, 0), (0, 0)],
    };
    let cell = cells.make(alloc, &typed)?;
    let variable = cells.whole(cell);
    let fine = Dec::of_parts(-2345, 3).ok_or("a number")?;
    let large = Dec::of_parts(1000, 0).ok_or("a number")?;
    assert_eq!(rt; raised(cells.write(variable, Value::Num(fine))), 0);
    assert_eq!(rt; raised(cells.write(variable, Value::Num(large))), 1010);
    assert!(rt; parts(&cells.read(alloc, variable)?) == Some((-235, 2)));
    Ok(())
}

#[test]
fn a_string_is_kept_or_too_long(rt: HostRuntime) -> Result<(), Fail> {
    let alloc = rt.alloc();
    let mut cells = Cells::new(alloc);
    let words = Cell {
        shape: Shape::StrArray(5, 1),
        bounds: [(-1, 1), (0, 0), (0, 0)],
    };
    let cell = cells.make(alloc, &words)?;
    let word = cells.element(cell, &[-1]).ok_or("an element")?;
    let last = cells.element(cell, &[1]).ok_or("an element")?;
    assert_eq!(rt;
        raised(cells.write(word, Value::Text(StrVal::of(alloc, b"HELLO")?))),
        0
    );
    assert_eq!(rt;
        raised(cells.write(word, Value::Text(StrVal::of(alloc, b"HELLO!")?))),
        1106
    );
    assert!(rt; is_text(&cells.read(alloc, word)?, b"HELLO"));
    assert!(rt; is_text(&cells.read(alloc, last)?, b""));
    Ok(())
}

#[test]
fn bounds_and_elements_end(rt: HostRuntime) -> Result<(), Fail> {
    let alloc = rt.alloc();
    let mut cells = Cells::new(alloc);
    let box_of_twelve = Cell {
        shape: Shape::NumArray(NumType::General, 3),
        bounds: [(0, 1), (1, 2), (-3, -1)],
    };
    let cell = cells.make(alloc, &box_of_twelve)?;
    assert!(rt; cells.bound(cell, 3) == Some((-3, -1)));
    assert!(rt; cells.bound(cell, 0).is_none());
    assert!(rt; cells.bound(cell, 4).is_none());
    assert!(rt; cells.element(cell, &[1, 2, -1]).is_some());
    assert!(rt; cells.element(cell, &[1, 2, 0]).is_none());
    assert!(rt; cells.element(cell, &[2, 1, -3]).is_none());
    assert!(rt; cells.element(cell, &[1, 2]).is_none());
    Ok(())
}

#[test]
fn a_number_after_the_dropped_ones_is_given_again(rt: HostRuntime) -> Result<(), Fail> {
    let alloc = rt.alloc();
    let mut cells = Cells::new(alloc);
    let text = Cell {
        shape: Shape::StrValue,
        bounds: [(0, 0), (0, 0), (0, 0)],
    };
    assert_eq!(rt; cells.make(alloc, &text)?, 0);
    assert_eq!(rt; cells.make(alloc, &text)?, 1);
    cells.drop_from(1);
    assert_eq!(rt; cells.make(alloc, &text)?, 1);
    Ok(())
}

#[test]
fn an_element_takes_at_most_40_bytes(rt: HostRuntime) -> Result<(), Fail> {
    assert!(rt; size_of::<Dec>() <= 40);
    assert!(rt; size_of::<StrVal>() <= 40);
    Ok(())
}
