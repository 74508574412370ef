//! Line numbers, names, file names, lists and exceptions.

use bas_base::{Ex, ExAt, FileName, Line, Name, Seq};
use std::alloc::{AllocError, Global};

fn number_of(number: u32) -> Option<u32> {
    Some(Line::of(number)?.number())
}

fn name_is(text: &[u8], wanted: &[u8]) -> bool {
    match Name::of(text) {
        Some(name) => name.bytes() == wanted,
        None => false,
    }
}

fn is_kept_as_file_name(text: &[u8]) -> bool {
    match FileName::of(text) {
        Ok(name) => name.bytes() == text,
        Err(_) => false,
    }
}

fn list(alloc: Global, items: &[u8]) -> Result<Seq<u8>, AllocError> {
    Ok(Seq::of(items.to_vec(alloc)?))
}

fn is_kept(alloc: Global, items: &[u8]) -> bool {
    match list(alloc, items) {
        Ok(kept) => kept.items() == items,
        Err(_) => false,
    }
}

fn length_of(alloc: Global, items: &[u8]) -> Option<usize> {
    match list(alloc, items) {
        Ok(kept) => Some(kept.into_items().len()),
        Err(_) => None,
    }
}

#[test]
fn values_are_kept(rt: HostRuntime) {
    assert!(rt; number_of(99999) == Some(99999));
    assert!(rt; number_of(0).is_none());
    assert!(rt; name_is(b"city$", b"CITY$"));
    assert!(rt; Name::of(b"2a").is_none());
    assert!(rt; is_kept_as_file_name(b"a.bas"));
    assert!(rt; FileName::of(b"").is_err());
    assert!(rt; is_kept(rt.alloc(), b"xyz"));
    assert!(rt; length_of(rt.alloc(), b"xyz") == Some(3));
}

fn files_rise(first: &[u8], second: &[u8]) -> bool {
    match (FileName::of(first), FileName::of(second)) {
        (Ok(a), Ok(b)) => a < b,
        _ => false,
    }
}

fn files_are_one(first: &[u8], second: &[u8]) -> bool {
    match (FileName::of(first), FileName::of(second)) {
        (Ok(a), Ok(b)) => a == b,
        _ => false,
    }
}

fn names_rise(first: &[u8], second: &[u8]) -> bool {
    match (Name::of(first), Name::of(second)) {
        (Some(a), Some(b)) => a < b,
        _ => false,
    }
}

fn names_are_one(first: &[u8], second: &[u8]) -> bool {
    match (Name::of(first), Name::of(second)) {
        (Some(a), Some(b)) => a == b,
        _ => false,
    }
}

#[test]
fn names_are_in_the_order_of_their_bytes(rt: HostRuntime) {
    assert!(rt; files_rise(b"a.bas", b"a.dat"));
    assert!(rt; files_are_one(b"a.bas", b"a.bas"));
    assert!(rt; names_rise(b"ab", b"ABC"));
    assert!(rt; names_are_one(b"ABC", b"abc"));
}

// An exception in line 20 of `MAIN`, and a copy of it.
fn raised() -> Option<(ExAt, ExAt)> {
    let raised = ExAt {
        ex: Ex(3001),
        line: Line::of(20)?,
        unit: Name::of(b"MAIN")?,
    };
    let again = raised;
    Some((raised, again))
}

fn number_of_copy(raised: Option<(ExAt, ExAt)>) -> Option<u32> {
    Some(raised?.1.ex.0)
}

fn line_of(raised: Option<(ExAt, ExAt)>) -> Option<u32> {
    Some(raised?.0.line.number())
}

fn unit_is(raised: Option<(ExAt, ExAt)>, wanted: &[u8]) -> bool {
    match raised {
        Some((first, _)) => first.unit.bytes() == wanted,
        None => false,
    }
}

#[test]
fn an_exception_has_its_place(rt: HostRuntime) {
    assert!(rt; number_of_copy(raised()) == Some(3001));
    assert!(rt; line_of(raised()) == Some(20));
    assert!(rt; unit_is(raised(), b"MAIN"));
}
