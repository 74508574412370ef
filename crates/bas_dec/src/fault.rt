/// Why an operation on numbers has no value.
#[derive(Clone, Copy, Debug, PartialEq, Eq)]
pub enum DecFault {
    /// No number has the value, or a number on the way to it has more than 38 digits.
    Overflow,
    /// The divisor is 0.
    ZeroDivide,
    /// The exponent is not whole.
    NotWhole,
    /// A root of a number below 0.
    BadRoot,
}
