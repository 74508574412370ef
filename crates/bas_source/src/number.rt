//! The number that a line begins with.

ghost use Rattle.std.specs.Prelude.{◌≡◌, ◌≤◌, length, Option, Some, None};
ghost use Rattle.std.specs.Option.{option_map};
ghost use Rattle.std.specs.Char.{is_ascii_digit};
ghost use Rattle.bas_source.specs.Number.{digits_at, number_of, numbered, spelled};

use bas_base::Line;

fn digit_count(line: &[u8]) -> usize
    ensures value { result ≡ digits_at line.now }
    ensures within { result ≤ length line.now }
{
    line.iter().take_while(|c| c.is_ascii_digit()).count()
}

// The most digits of a line number.
const LINE_DIGITS: usize = 8;

fn spelled(digits: &[u8]) -> u32
    requires { length digits.now ≤ 8 }
    ensures { result ≡ spelled digits.now }
{
    let mut n: u32 = 0;
    for digit in digits {
        n = 10 * n + u32::from(digit.saturating_sub(b'0'));
    }
    n
}

fn number_of(digits: &[u8]) -> Option<Line>
    ensures { result ≡ number_of digits.now }
{
    if digits.len() > LINE_DIGITS {
        return None;
    }
    Line::of(spelled(digits))
}

/// The number of a line, and what stands behind it; `None` where the digits at its front are no line
/// number, which has 1 to 8 digits and a value from 1 to 99999.
pub fn numbered(line: &[u8]) -> Option<(Line, &[u8])>
    ensures { option_map (λ r. (r.0, r.1.now)) result ≡ numbered line.now }
{
    let (digits, rest) = line.split_at(digit_count(line));
    match number_of(digits) {
        Some(number) => Some((number, rest)),
        None => None,
    }
}
