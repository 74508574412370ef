ghost use Rattle.std.specs.Prelude.{◌≡◌, ℕ, ◌*◌, ◌%◌, ◌^◌, ◌<◌, ◌≤◌};
ghost use Rattle.bas_dec.specs.Number.{stripped};

use crate::words::ten_to;

/// The digits and the places of `size / 10^scale` without the zeros at the end of its fraction, in a
/// fixed number of divisions for each 16 places.
#[tactic(auto, using(crate::proofs::Lowest::stripped_nonzero))]
pub fn strip(size: u128, scale: u8) -> (u128, u8)
    ensures stripped { (result.0, result.1) ≡ stripped size scale }
    ensures lowest { 0 < result.1 → 0 < result.0 % 10 }
{
    if scale == 0 || size % 10 != 0 {
        return (size, scale);
    }
    let (size, scale) = strip_sixteens(size, scale);
    let (size, scale) = strip_zeros(size, scale, 8);
    let (size, scale) = strip_zeros(size, scale, 4);
    let (size, scale) = strip_zeros(size, scale, 2);
    strip_zeros(size, scale, 1)
}

/// The same without sixteen zeros, as often as they stand at the end.
#[tactic(auto, using(crate::proofs::Lowest::stripped_zeros))]
fn strip_sixteens(mut size: u128, mut scale: u8) -> (u128, u8)
    ensures stripped { stripped result.0 result.1 ≡ stripped size scale }
    ensures few { 16 ≤ result.1 → 0 < result.0 % 10 ^ 16 }
{
    while scale >= 16 && size % ten_to(16) == 0 {
        size /= ten_to(16);
        scale -= 16;
    }
    (size, scale)
}

/// The same without that many zeros, where fewer than twice as many stand at the end.
#[tactic(auto, using(crate::proofs::Lowest::stripped_zeros, crate::proofs::Lowest::fewer_zeros))]
fn strip_zeros(size: u128, scale: u8, zeros: u8) -> (u128, u8)
    requires some { 0 < zeros }
    requires most { zeros ≤ 8 }
    requires few { 2 * zeros ≤ scale → 0 < size % 10 ^ (2 * zeros) }
    ensures stripped { stripped result.0 result.1 ≡ stripped size scale }
    ensures fewer { zeros ≤ result.1 → 0 < result.0 % 10 ^ zeros }
{
    let power = ten_to(zeros);
    if scale >= zeros && size % power == 0 {
        (size / power, scale - zeros)
    } else {
        (size, scale)
    }
}
