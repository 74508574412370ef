//! Decimal numbers: what is computed, what is read and what is printed.

use crate::cases::check;
use DecFault::{BadRoot, NotWhole, Overflow, ZeroDivide};
use Operation::*;
use bas_dec::{Dec, DecFault, FixType, Numeral, read_numeral};
use std::cmp::Ordering;

/// A coefficient and a scale.
type Parts = (i128, u8);

/// The greatest coefficient.
const NINES: i128 = 99_999_999_999_999_999_999_999_999_999_999_999_999;

#[derive(Clone, Copy, Debug, PartialEq, Eq)]
enum Operation {
    Add,
    Sub,
    Mul,
    Div,
    Modulo,
    Remainder,
    Power,
    Sqr,
    Floor,
    Ceil,
    Ip,
    Fp,
    Abs,
    Sgn,
    Negate,
    Round,
    Truncate,
    Compare,
    Whole,
    Fit,
}

/// -1, 0 or 1 for below, equal and above.
fn sign(order: Ordering) -> i128 {
    match order {
        Ordering::Less => -1,
        Ordering::Equal => 0,
        Ordering::Greater => 1,
    }
}

/// The operation on two numbers.
fn on_two(operation: Operation, x: Dec, y: Dec) -> Result<Dec, DecFault> {
    match operation {
        Add => x.add(y),
        Sub => x.sub(y),
        Mul => x.mul(y),
        Div => x.div(y),
        Modulo => x.modulo(y),
        Remainder => x.remainder(y),
        Power => x.power(y),
        Round => x.round_to(y.whole()),
        Truncate => x.truncate_to(y.whole()),
        _ => on_one(operation, x),
    }
}

/// The operation on one number.
fn on_one(operation: Operation, x: Dec) -> Result<Dec, DecFault> {
    match operation {
        Sqr => x.sqr(),
        Floor => Ok(x.floor()),
        Ceil => Ok(x.ceil()),
        Ip => Ok(x.ip()),
        Fp => Ok(x.fp()),
        Abs => Ok(x.abs()),
        Sgn => Ok(x.sgn()),
        _ => Ok(x.negate()),
    }
}

fn parts(found: Result<Dec, DecFault>) -> Result<Parts, DecFault> {
    match found {
        Ok(number) => Ok(number.parts()),
        Err(fault) => Err(fault),
    }
}

/// The parts of the number in a type of so many digits and such a scale, if there is that type.
fn fitted(x: Dec, digits: i128, scale: u8) -> Option<Result<Parts, DecFault>> {
    let digits = u8::try_from(digits).ok()?;
    Some(parts(x.fit(FixType::of(digits, scale)?)))
}

/// The parts of what the operation gives, if both are numbers. `Fit` takes a type in place of the
/// second number.
fn outcome(operation: Operation, x: Dec, second: Parts) -> Option<Result<Parts, DecFault>> {
    if operation == Fit {
        return fitted(x, second.0, second.1);
    }
    let y = Dec::of_parts(second.0, second.1)?;
    Some(match operation {
        Compare => Ok((sign(x.compare(y)), 0)),
        Whole => Ok((i128::from(x.whole()), 0)),
        _ => parts(on_two(operation, x, y)),
    })
}

/// What is computed, of what, and what it gives.
type Case = (Operation, Parts, Parts, Result<Parts, DecFault>);

static CASES: [Case; 168] = [
    (Add, (2, 0), (40, 0), Ok((42, 0))),
    (Add, (15, 1), (-5, 1), Ok((1, 0))),
    (Add, (1, 18), (-1, 18), Ok((0, 0))),
    (
        Add,
        (99_999_999_999_999_999_999_999_999_999_999_999_998, 0),
        (1, 0),
        Ok((NINES, 0)),
    ),
    (Add, (NINES, 0), (1, 0), Err(Overflow)),
    (Add, (-NINES, 0), (-1, 0), Err(Overflow)),
    (
        Add,
        (99_999_999_999_999_999_999, 0),
        (1, 18),
        Ok((99_999_999_999_999_999_999_000_000_000_000_000_001, 18)),
    ),
    (
        Add,
        (100_000_000_000_000_000_000, 0),
        (1, 18),
        Err(Overflow),
    ),
    (
        Add,
        (1, 18),
        (-100_000_000_000_000_000_000, 0),
        Err(Overflow),
    ),
    (
        Add,
        (99_000_000_000_000_000_001, 0),
        (9_999_999_999_999_999_999, 18),
        Ok((99_000_000_000_000_000_010_999_999_999_999_999_999, 18)),
    ),
    (Sub, (42, 0), (50, 0), Ok((-8, 0))),
    (Sub, (-NINES, 0), (1, 0), Err(Overflow)),
    (
        Sub,
        (-99_999_999_999_999_999_999_999_999_999_999_999_998, 0),
        (1, 0),
        Ok((-NINES, 0)),
    ),
    (Sub, (25, 1), (5, 1), Ok((2, 0))),
    (Sub, (0, 0), (1, 18), Ok((-1, 18))),
    (
        Sub,
        (100_000_000_000_000_000_000, 0),
        (-5, 1),
        Ok((1_000_000_000_000_000_000_005, 1)),
    ),
    (Mul, (-3, 0), (25, 1), Ok((-75, 1))),
    (Mul, (1, 9), (5, 10), Ok((1, 18))),
    (Mul, (-1, 9), (5, 10), Ok((-1, 18))),
    (Mul, (1, 9), (4, 10), Ok((0, 0))),
    (Mul, (1, 18), (1, 18), Ok((0, 0))),
    (
        Mul,
        (333_333_333_333_333_333, 18),
        (3, 0),
        Ok((999_999_999_999_999_999, 18)),
    ),
    (
        Mul,
        (-9_999_999_999_999_999_999, 0),
        (10_000_000_000_000_000_001, 0),
        Ok((-NINES, 0)),
    ),
    (
        Mul,
        (10_000_000_000_000_000_000, 0),
        (10_000_000_000_000_000_000, 0),
        Err(Overflow),
    ),
    (
        Mul,
        (-10_000_000_000_000_000_000, 0),
        (10_000_000_000_000_000_000, 0),
        Err(Overflow),
    ),
    (
        Mul,
        (999_999_999_999_999_999, 18),
        (999_999_999_999_999_999, 18),
        Ok((999_999_999_999_999_998, 18)),
    ),
    (Mul, (NINES, 0), (1, 0), Ok((NINES, 0))),
    (
        Mul,
        (50_000_000_000_000_000_000_000_000_000_000_000_000, 0),
        (-2, 0),
        Err(Overflow),
    ),
    (Mul, (0, 0), (NINES, 0), Ok((0, 0))),
    (Div, (1, 0), (3, 0), Ok((333_333_333_333_333_333, 18))),
    (Div, (2, 0), (3, 0), Ok((666_666_666_666_666_667, 18))),
    (Div, (2, 0), (-3, 0), Ok((-666_666_666_666_666_667, 18))),
    (Div, (-1, 0), (-8, 0), Ok((125, 3))),
    (Div, (NINES, 0), (0, 0), Err(ZeroDivide)),
    (
        Div,
        (99_999_999_999_999_999_999, 0),
        (1, 0),
        Ok((99_999_999_999_999_999_999, 0)),
    ),
    (Div, (100_000_000_000_000_000_000, 0), (1, 0), Err(Overflow)),
    (
        Div,
        (-100_000_000_000_000_000_000, 0),
        (7, 0),
        Err(Overflow),
    ),
    (Div, (1, 18), (2, 0), Ok((1, 18))),
    (Div, (1, 18), (-2, 0), Ok((-1, 18))),
    (Div, (1, 18), (3, 0), Ok((0, 0))),
    (Div, (1, 0), (1, 18), Ok((1_000_000_000_000_000_000, 0))),
    (Div, (100, 0), (1, 18), Err(Overflow)),
    (Div, (99, 0), (1, 18), Ok((99_000_000_000_000_000_000, 0))),
    (Div, (0, 0), (NINES, 0), Ok((0, 0))),
    (Div, (1, 18), (1, 18), Ok((1, 0))),
    (Div, (5, 1), (NINES, 0), Ok((0, 0))),
    (Modulo, (-7, 0), (3, 0), Ok((2, 0))),
    (Modulo, (7, 0), (-3, 0), Ok((-2, 0))),
    (Modulo, (-75, 1), (2, 0), Ok((5, 1))),
    (Modulo, (-6, 0), (3, 0), Ok((0, 0))),
    (
        Modulo,
        (1_000_000_000_000_000_000_000_000_000_000, 0),
        (0, 0),
        Err(ZeroDivide),
    ),
    (
        Modulo,
        (100_000_000_000_000_000_000, 0),
        (1, 18),
        Err(Overflow),
    ),
    (Modulo, (99_999_999_999_999_999_999, 0), (1, 18), Ok((0, 0))),
    (
        Modulo,
        (1, 18),
        (-10_000_000_000_000_000_000, 0),
        Ok((-9_999_999_999_999_999_999_999_999_999_999_999_999, 18)),
    ),
    (Remainder, (-7, 0), (3, 0), Ok((-1, 0))),
    (Remainder, (7, 0), (-3, 0), Ok((1, 0))),
    (Remainder, (-75, 1), (2, 0), Ok((-15, 1))),
    (Remainder, (1, 0), (0, 0), Err(ZeroDivide)),
    (Remainder, (NINES, 0), (7, 1), Err(Overflow)),
    (
        Remainder,
        (1, 18),
        (100_000_000_000_000_000_000, 0),
        Err(Overflow),
    ),
    (Power, (2, 0), (2, 0), Ok((4, 0))),
    (Power, (2, 0), (-2, 0), Ok((25, 2))),
    (Power, (25, 1), (0, 0), Ok((1, 0))),
    (Power, (-25, 1), (1, 0), Ok((-25, 1))),
    (Power, (8, 0), (-1, 0), Ok((125, 3))),
    (Power, (0, 0), (0, 0), Ok((1, 0))),
    (Power, (0, 0), (5_000, 0), Ok((0, 0))),
    (Power, (0, 0), (-1, 0), Err(ZeroDivide)),
    (Power, (0, 0), (-5_000, 0), Err(ZeroDivide)),
    (Power, (-1, 0), (4_097, 0), Ok((-1, 0))),
    (
        Power,
        (-1, 0),
        (-1_000_000_000_000_000_000_000_000_000_000, 0),
        Ok((1, 0)),
    ),
    (Power, (1, 0), (NINES, 0), Ok((1, 0))),
    (Power, (5, 1), (4_096, 0), Ok((1, 18))),
    (Power, (5, 1), (4_097, 0), Err(Overflow)),
    (Power, (5, 1), (-60, 0), Ok((1_000_000_000_000_000_000, 0))),
    (Power, (5, 1), (-4_097, 0), Err(Overflow)),
    (Power, (1, 10), (-2, 0), Err(ZeroDivide)),
    (Power, (2, 0), (5, 1), Err(NotWhole)),
    (Power, (NINES, 0), (15, 1), Err(NotWhole)),
    (
        Power,
        (10, 0),
        (37, 0),
        Ok((10_000_000_000_000_000_000_000_000_000_000_000_000, 0)),
    ),
    (Power, (10, 0), (38, 0), Err(Overflow)),
    (
        Power,
        (1_000_000_001, 9),
        (4, 0),
        Ok((1_000_000_004_000_000_006, 18)),
    ),
    (Power, (10, 0), (-18, 0), Ok((1, 18))),
    (Power, (10, 0), (-21, 0), Ok((0, 0))),
    (Sqr, (0, 0), (0, 0), Ok((0, 0))),
    (Sqr, (2, 0), (0, 0), Ok((1_414_213_562, 9))),
    (Sqr, (625, 2), (0, 0), Ok((25, 1))),
    (Sqr, (1, 18), (0, 0), Ok((1, 9))),
    (Sqr, (NINES, 18), (0, 0), Ok((9_999_999_999_999_999_999, 9))),
    (
        Sqr,
        (99_999_999_999_999_999_999, 0),
        (0, 0),
        Ok((9_999_999_999_999_999_999, 9)),
    ),
    (Sqr, (100_000_000_000_000_000_000, 0), (0, 0), Err(Overflow)),
    (Sqr, (NINES, 0), (0, 0), Err(Overflow)),
    (Sqr, (-1, 18), (0, 0), Err(BadRoot)),
    (Floor, (-25, 1), (0, 0), Ok((-3, 0))),
    (Ceil, (-25, 1), (0, 0), Ok((-2, 0))),
    (Floor, (25, 1), (0, 0), Ok((2, 0))),
    (Ceil, (25, 1), (0, 0), Ok((3, 0))),
    (Floor, (-3, 0), (0, 0), Ok((-3, 0))),
    (Ceil, (-3, 0), (0, 0), Ok((-3, 0))),
    (Floor, (1, 18), (0, 0), Ok((0, 0))),
    (Ceil, (1, 18), (0, 0), Ok((1, 0))),
    (Floor, (-1, 18), (0, 0), Ok((-1, 0))),
    (Ceil, (-1, 18), (0, 0), Ok((0, 0))),
    (
        Floor,
        (NINES, 18),
        (0, 0),
        Ok((99_999_999_999_999_999_999, 0)),
    ),
    (
        Ceil,
        (NINES, 18),
        (0, 0),
        Ok((100_000_000_000_000_000_000, 0)),
    ),
    (
        Floor,
        (-NINES, 18),
        (0, 0),
        Ok((-100_000_000_000_000_000_000, 0)),
    ),
    (
        Ceil,
        (-NINES, 18),
        (0, 0),
        Ok((-99_999_999_999_999_999_999, 0)),
    ),
    (Ip, (-25, 1), (0, 0), Ok((-2, 0))),
    (Fp, (-25, 1), (0, 0), Ok((-5, 1))),
    (Ip, (NINES, 18), (0, 0), Ok((99_999_999_999_999_999_999, 0))),
    (Fp, (NINES, 18), (0, 0), Ok((999_999_999_999_999_999, 18))),
    (Ip, (-1, 18), (0, 0), Ok((0, 0))),
    (Fp, (-1, 18), (0, 0), Ok((-1, 18))),
    (Abs, (-25, 1), (0, 0), Ok((25, 1))),
    (Abs, (NINES, 0), (0, 0), Ok((NINES, 0))),
    (Sgn, (-1, 18), (0, 0), Ok((-1, 0))),
    (Sgn, (0, 0), (0, 0), Ok((0, 0))),
    (Sgn, (NINES, 0), (0, 0), Ok((1, 0))),
    (Negate, (0, 0), (0, 0), Ok((0, 0))),
    (Negate, (-NINES, 18), (0, 0), Ok((NINES, 18))),
    (Round, (-25, 1), (0, 0), Ok((-2, 0))),
    (Round, (25, 1), (0, 0), Ok((3, 0))),
    (Round, (2_345, 3), (2, 0), Ok((235, 2))),
    (Round, (-2_345, 3), (2, 0), Ok((-234, 2))),
    (Round, (15, 0), (-1, 0), Ok((20, 0))),
    (Round, (-15, 0), (-1, 0), Ok((-10, 0))),
    (Round, (NINES, 0), (-1, 0), Err(Overflow)),
    (Round, (NINES, 0), (-38, 0), Err(Overflow)),
    (
        Round,
        (49_999_999_999_999_999_999_999_999_999_999_999_999, 0),
        (-38, 0),
        Ok((0, 0)),
    ),
    (Round, (NINES, 0), (-39, 0), Ok((0, 0))),
    (
        Round,
        (-NINES, 18),
        (17, 0),
        Ok((-100_000_000_000_000_000_000, 0)),
    ),
    (Round, (1, 18), (18, 0), Ok((1, 18))),
    (Round, (1, 18), (9_223_372_036_854_775_807, 0), Ok((1, 18))),
    (Round, (5, 18), (-9_223_372_036_854_775_808, 0), Ok((0, 0))),
    (Round, (5, 18), (17, 0), Ok((1, 17))),
    (Truncate, (-2_789, 3), (2, 0), Ok((-278, 2))),
    (Truncate, (2_789, 3), (0, 0), Ok((2, 0))),
    (
        Truncate,
        (NINES, 0),
        (-37, 0),
        Ok((90_000_000_000_000_000_000_000_000_000_000_000_000, 0)),
    ),
    (Truncate, (-NINES, 0), (-38, 0), Ok((0, 0))),
    (
        Truncate,
        (NINES, 18),
        (-19, 0),
        Ok((90_000_000_000_000_000_000, 0)),
    ),
    (
        Truncate,
        (1, 18),
        (9_223_372_036_854_775_807, 0),
        Ok((1, 18)),
    ),
    (Truncate, (-1, 18), (17, 0), Ok((0, 0))),
    (Compare, (1, 0), (1, 0), Ok((0, 0))),
    (Compare, (NINES, 0), (1, 18), Ok((1, 0))),
    (Compare, (-NINES, 0), (-1, 18), Ok((-1, 0))),
    (Compare, (1, 18), (NINES, 0), Ok((-1, 0))),
    (Compare, (-1, 18), (-NINES, 0), Ok((1, 0))),
    (Compare, (25, 1), (251, 2), Ok((-1, 0))),
    (Compare, (0, 0), (-1, 18), Ok((1, 0))),
    (Whole, (25, 1), (0, 0), Ok((3, 0))),
    (Whole, (-25, 1), (0, 0), Ok((-2, 0))),
    (Whole, (-26, 1), (0, 0), Ok((-3, 0))),
    (
        Whole,
        (9_223_372_036_854_775_808, 0),
        (0, 0),
        Ok((9_223_372_036_854_775_807, 0)),
    ),
    (
        Whole,
        (92_233_720_368_547_758_074, 1),
        (0, 0),
        Ok((9_223_372_036_854_775_807, 0)),
    ),
    (
        Whole,
        (92_233_720_368_547_758_075, 1),
        (0, 0),
        Ok((9_223_372_036_854_775_807, 0)),
    ),
    (
        Whole,
        (-NINES, 0),
        (0, 0),
        Ok((-9_223_372_036_854_775_808, 0)),
    ),
    (
        Whole,
        (-92_233_720_368_547_758_085, 1),
        (0, 0),
        Ok((-9_223_372_036_854_775_808, 0)),
    ),
    (Fit, (2_345, 3), (3, 2), Ok((235, 2))),
    (Fit, (-2_345, 3), (3, 2), Ok((-235, 2))),
    (Fit, (99_999, 2), (3, 2), Ok((99_999, 2))),
    (Fit, (999_995, 3), (3, 2), Err(Overflow)),
    (Fit, (-999_994, 3), (3, 2), Ok((-99_999, 2))),
    (Fit, (5, 1), (1, 0), Ok((1, 0))),
    (Fit, (4, 1), (0, 1), Ok((4, 1))),
    (Fit, (95, 2), (0, 1), Err(Overflow)),
    (Fit, (NINES, 0), (38, 0), Ok((NINES, 0))),
    (Fit, (10, 0), (1, 18), Err(Overflow)),
    (Fit, (95, 1), (1, 0), Err(Overflow)),
];

/// Whether the first number of the case has its parts.
fn is_made(case: &Case) -> bool {
    match Dec::of_parts(case.1.0, case.1.1) {
        Some(x) => x.parts() == case.1,
        None => false,
    }
}

/// Whether the operation of the case gives what it is to give.
fn is_computed(case: &Case) -> bool {
    match Dec::of_parts(case.1.0, case.1.1) {
        Some(x) => outcome(case.0, x, case.2) == Some(case.3),
        None => false,
    }
}

#[test]
fn computes(rt: HostRuntime) {
    for case in &CASES {
        let (operation, (coefficient, scale), _, _) = case;
        assert!(rt; is_made(case), "{operation:?} of {coefficient}, {scale}");
        assert!(rt;
            is_computed(case),
            "{operation:?} of {coefficient}, {scale}"
        );
    }
}

/// Each text, and the coefficient and the scale that it is read as.
static VALUES: [(&str, i128, u8); 21] = [
    ("0", 0, 0),
    ("0042", 42, 0),
    (".5", 5, 1),
    ("5.", 5, 0),
    ("2.50", 25, 1),
    ("12.5E1", 125, 0),
    ("12.5e+3", 12_500, 0),
    ("7E-2", 7, 2),
    (
        "1E037",
        10_000_000_000_000_000_000_000_000_000_000_000_000,
        0,
    ),
    ("0E999", 0, 0),
    ("1E-999", 0, 0),
    ("1e-19", 0, 0),
    ("4E-19", 0, 0),
    ("5E-19", 1, 18),
    (".1234567890123456784", 123_456_789_012_345_678, 18),
    (".1234567890123456785", 123_456_789_012_345_679, 18),
    (".9999999999999999995", 1, 0),
    (
        "100000000000000000000.0000000000000000000",
        100_000_000_000_000_000_000,
        0,
    ),
    (
        "12345678901234567890123456789012345.4999999999999999999",
        123_456_789_012_345_678_901_234_567_890_123_455,
        1,
    ),
    (
        "99999999999999999999999999999999999999",
        99_999_999_999_999_999_999_999_999_999_999_999_999,
        0,
    ),
    (
        "000000000000000000000000000000000000000000000000000000000007",
        7,
        0,
    ),
];

/// Each text that is a numeral too large to have a value.
static TOO_LARGE: [&str; 8] = [
    "1E38",
    "1E999",
    "1E0001",
    "1E-0001",
    "999999999999999999999999999999999999999",
    "99999999999999999999999999999999999999.9999999999999999999",
    "0000000000000000000000000000000000000000000000000000000000007",
    ".0000000000000000000000000000000000000000000000000000000000000",
];

/// Each text that is no numeral.
static NO_NUMERALS: [&str; 13] = [
    "", ".", "E5", ".E5", "1E", "1E+", "1E+-2", "1E2.0", "1.2.3", "-5", "- 5", "5 ", "1F2",
];

/// The coefficient and the scale that `text` is read as, if it has a value.
fn value(text: &str) -> Option<Parts> {
    match read_numeral(text.as_bytes()) {
        Numeral::Value(number) => Some(number.parts()),
        Numeral::TooLarge | Numeral::NotNumeral => None,
    }
}

fn is_too_large(text: &str) -> bool {
    matches!(read_numeral(text.as_bytes()), Numeral::TooLarge)
}

fn is_no_numeral(text: &str) -> bool {
    matches!(read_numeral(text.as_bytes()), Numeral::NotNumeral)
}

#[test]
fn reads_numerals(rt: HostRuntime) {
    for (text, coefficient, scale) in &VALUES {
        check(&rt, text, value(text) == Some((*coefficient, *scale)));
    }
    for text in &TOO_LARGE {
        check(&rt, text, is_too_large(text));
    }
    for text in &NO_NUMERALS {
        check(&rt, text, is_no_numeral(text));
    }
}

/// A coefficient and a scale, and the text that they are printed as.
static TEXTS: [(i128, u8, &str); 9] = [
    (0, 0, " 0 "),
    (7, 0, " 7 "),
    (-4, 0, "-4 "),
    (120, 0, " 120 "),
    (125, 1, " 12.5 "),
    (-25, 2, "-.25 "),
    (-1005, 3, "-1.005 "),
    (1, 18, " .000000000000000001 "),
    (
        99_999_999_999_999_999_999_999_999_999_999_999_999,
        0,
        " 99999999999999999999999999999999999999 ",
    ),
];

/// Whether the number is printed as the text, and whether the bytes behind it are left as they were.
fn prints(coefficient: i128, scale: u8, text: &str) -> Option<(bool, bool)> {
    let number = Dec::of_parts(coefficient, scale)?;
    let mut out = [b'#'; 64];
    let length = number.print_into(&mut out);
    Some((&out[..length] == text.as_bytes(), are_left(&out[length..])))
}

fn are_left(bytes: &[u8]) -> bool {
    for byte in bytes {
        if *byte != b'#' {
            return false;
        }
    }
    true
}

#[test]
fn prints_numbers(rt: HostRuntime) {
    for (coefficient, scale, text) in &TEXTS {
        let (is_printed, is_left) = prints(*coefficient, *scale, text).unwrap_or((false, false));
        check(&rt, text, is_printed);
        check(&rt, text, is_left);
    }
}
