//! Words on the bytes of a line.

ghost use Rattle.std.specs.Prelude.{◌≡◌, ◌==◌, ◌+◌, ◌≤◌, length, drop, not};
ghost use Rattle.std.specs.List.{list_all, prefix_len, before_first, after_first, position_or_len};
ghost use Rattle.bas_source.specs.Lines.{begins_with_line_end, comes_from, end_of, goes_on, is_dropped, is_space, is_written, spaced, start_of};

/// A space for a tab.
pub fn spaced(c: u8) -> u8
    ensures { result ≡ spaced c }
{
    if c == b'\t' { b' ' } else { c }
}

/// The text begins with an LF.
fn begins_with_line_end(text: &[u8]) -> bool
    ensures { result ≡ begins_with_line_end text.now }
{
    match text.split_first() {
        Some((c, _)) => *c == b'\n',
        None => false,
    }
}

/// The byte is a CR in front of an LF.
pub fn is_dropped(c: u8, behind: &[u8]) -> bool
    ensures { result ≡ is_dropped c behind.now }
{
    c == b'\r' && begins_with_line_end(behind)
}

/// The line has a byte other than a space.
pub fn is_written(line: &[u8]) -> bool
    ensures { result ≡ is_written line.now }
{
    line.iter().any(|c| *c != b' ')
}

fn byte_place(text: &[u8], byte: u8) -> usize
    ensures value { result ≡ position_or_len (λ c. c == byte) text.now }
    ensures within { result ≤ length text.now }
{
    text.iter().take_while(|c| **c != byte).count()
}

/// What stands behind the byte at a place.
pub fn behind_place(text: &[u8], place: usize) -> &[u8]
    requires { place ≤ length text.now }
    ensures { result.now ≡ drop (place + 1) text.now }
{
    if place < text.len() {
        &text[place + 1..]
    } else {
        &[]
    }
}

/// What stands in front of the first such byte, and what stands behind it.
pub fn split_at_byte(text: &[u8], byte: u8) -> (&[u8], &[u8])
    ensures front { result.0.now ≡ before_first (λ c. c == byte) text.now }
    ensures behind { result.1.now ≡ after_first (λ c. c == byte) text.now }
{
    let place = byte_place(text, byte);
    (&text[..place], behind_place(text, place))
}

/// The place of the first byte that is no space.
pub fn start_of(line: &[u8]) -> usize
    ensures value { result ≡ start_of line.now }
    ensures within { result ≤ length line.now }
{
    line.iter().take_while(|c| **c == b' ').count()
}

/// How many bytes stand in front of the spaces at the end.
pub fn end_of(line: &[u8]) -> usize
    ensures value { result ≡ end_of line.now }
    ensures within { result ≤ length line.now }
{
    let mut end = line.len();
    while end > 0 && line[end - 1] == b' ' {
        end -= 1;
    }
    end
}

/// The last byte but spaces is a `&`.
pub fn goes_on(line: &[u8]) -> bool
    ensures { result ≡ goes_on line.now }
{
    let end = end_of(line);
    end > 0 && line[end - 1] == b'&'
}

/// The first byte but spaces is a `&`.
pub fn comes_from(line: &[u8]) -> bool
    ensures { result ≡ comes_from line.now }
{
    let start = start_of(line);
    start < line.len() && line[start] == b'&'
}
