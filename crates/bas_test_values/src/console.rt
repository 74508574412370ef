//! Print lines. The values are those of a second program, which cuts an item in its pieces.

use crate::cases::after;
use bas_console::PrintLine;
use std::alloc::{AllocError, Global};
use std::process::Abort;

/// Margin, column and length of an item; the lengths of the parts between the line ends that are
/// printed; the column after it.
static ITEMS: [(u32, u32, usize, &[usize], u32); 33] = [
    (80, 0, 0, &[0], 0),
    (80, 80, 0, &[0], 80),
    (80, 0, 1, &[1], 1),
    (80, 60, 20, &[20], 80),
    (80, 60, 21, &[0, 21], 21),
    (80, 79, 1, &[1], 80),
    (80, 79, 2, &[0, 2], 2),
    (80, 80, 1, &[0, 1], 1),
    (80, 0, 80, &[80], 80),
    (80, 1, 80, &[0, 80], 80),
    (80, 80, 80, &[0, 80], 80),
    (80, 0, 81, &[80, 1], 1),
    (80, 1, 81, &[0, 80, 1], 1),
    (80, 80, 81, &[0, 80, 1], 1),
    (80, 0, 160, &[80, 80], 80),
    (80, 5, 160, &[0, 80, 80], 80),
    (80, 0, 161, &[80, 80, 1], 1),
    (80, 1, 161, &[0, 80, 80, 1], 1),
    (80, 80, 241, &[0, 80, 80, 80, 1], 1),
    (1, 0, 1, &[1], 1),
    (1, 1, 1, &[0, 1], 1),
    (1, 0, 3, &[1, 1, 1], 1),
    (1, 1, 2, &[0, 1, 1], 1),
    (7, 3, 4, &[4], 7),
    (7, 3, 5, &[0, 5], 5),
    (7, 3, 15, &[0, 7, 7, 1], 1),
    (65_535, 0, 65_535, &[65_535], 65_535),
    (65_535, 65_534, 1, &[1], 65_535),
    (65_535, 65_535, 1, &[0, 1], 1),
    (65_535, 65_530, 6, &[0, 6], 6),
    (65_535, 9, 65_536, &[0, 65_535, 1], 1),
    (4_294_967_295, 4_294_967_295, 2, &[0, 2], 2),
    (4_294_967_295, 4_294_967_290, 5, &[5], 4_294_967_295),
];

/// Margin and column before a comma; whether the line ends; the spaces; the column after it.
static COMMAS: [(u32, u32, bool, usize, u32); 27] = [
    (80, 0, false, 16, 16),
    (80, 1, false, 15, 16),
    (80, 15, false, 1, 16),
    (80, 16, false, 16, 32),
    (80, 47, false, 1, 48),
    (80, 48, false, 16, 64),
    (80, 63, false, 1, 64),
    (80, 64, true, 0, 0),
    (80, 65, true, 0, 0),
    (80, 79, true, 0, 0),
    (80, 80, true, 0, 0),
    (1, 0, true, 0, 0),
    (1, 1, true, 0, 0),
    (16, 0, true, 0, 0),
    (17, 0, false, 16, 16),
    (17, 16, true, 0, 0),
    (33, 16, false, 16, 32),
    (32, 16, true, 0, 0),
    (65_535, 0, false, 16, 16),
    (65_535, 65_503, false, 1, 65_504),
    (65_535, 65_504, false, 16, 65_520),
    (65_535, 65_519, false, 1, 65_520),
    (65_535, 65_520, true, 0, 0),
    (65_535, 65_535, true, 0, 0),
    (4_294_967_295, 4_294_967_279, false, 1, 4_294_967_280),
    (4_294_967_295, 4_294_967_280, true, 0, 0),
    (4_294_967_295, 4_294_967_295, true, 0, 0),
];

/// Margin, column and `n` of a `TAB(n)`; whether the line ends first; the spaces; the column after it.
static TABS: [(u32, u32, u32, bool, usize, u32); 29] = [
    (80, 0, 1, false, 0, 0),
    (80, 1, 1, true, 0, 0),
    (80, 4, 11, false, 6, 10),
    (80, 10, 11, false, 0, 10),
    (80, 11, 11, true, 10, 10),
    (80, 10, 5, true, 4, 4),
    (80, 0, 80, false, 79, 79),
    (80, 79, 80, false, 0, 79),
    (80, 80, 80, true, 79, 79),
    (80, 0, 81, false, 0, 0),
    (80, 7, 81, true, 0, 0),
    (80, 80, 81, true, 0, 0),
    (80, 2, 85, false, 2, 4),
    (80, 5, 85, true, 4, 4),
    (80, 0, 160, false, 79, 79),
    (80, 0, 161, false, 0, 0),
    (80, 1, 241, true, 0, 0),
    (1, 0, 1, false, 0, 0),
    (1, 1, 1, true, 0, 0),
    (1, 0, 9, false, 0, 0),
    (1, 1, 9, true, 0, 0),
    (7, 2, 14, false, 4, 6),
    (7, 6, 15, true, 0, 0),
    (65_535, 0, 65_536, false, 0, 0),
    (65_535, 3, 65_540, false, 1, 4),
    (65_535, 65_535, 65_535, true, 65_534, 65_534),
    (80, 0, 4_294_967_295, false, 14, 14),
    (4_294_967_295, 0, 3, false, 2, 2),
    (
        4_294_967_295,
        4_294_967_294,
        4_294_967_295,
        false,
        0,
        4_294_967_294,
    ),
];

/// So many letters, in the order of the alphabet.
fn letters(alloc: Global, count: usize) -> Result<Vec<u8>, AllocError> {
    let mut text = Vec::new(alloc);
    for i in 0..count {
        text.push(b'a' + (i % 26) as u8)?;
    }
    Ok(text)
}

/// Whether the output is the text, with line ends between parts of these lengths, after a `#`.
fn is_in_parts(out: &[u8], text: &[u8], lengths: &[usize]) -> bool {
    let mut front: &[u8] = b"#";
    let (mut out, mut text) = (out, text);
    for length in lengths {
        let (part, left) = text.split_at((*length).min(text.len()));
        match after_part(out, front, part) {
            Some(rest) => out = rest,
            None => return false,
        }
        text = left;
        front = b"\n";
    }
    out.is_empty()
}

fn after_part<'a>(out: &'a [u8], front: &[u8], part: &[u8]) -> Option<&'a [u8]> {
    after(after(out, front)?, part)
}

/// Whether the output is so many spaces, after a `#` and perhaps the end of a line.
fn is_spaced(out: &[u8], ended: bool, spaces: usize) -> bool {
    let front: &[u8] = if ended { b"#\n" } else { b"#" };
    match after(out, front) {
        Some(rest) => rest.len() == spaces && are_spaces(rest),
        None => false,
    }
}

fn are_spaces(bytes: &[u8]) -> bool {
    for byte in bytes {
        if *byte != b' ' {
            return false;
        }
    }
    true
}

/// An output on which something stands already.
fn begun(alloc: Global) -> Result<Vec<u8>, AllocError> {
    let mut out = Vec::new(alloc);
    out.push(b'#')?;
    Ok(out)
}

/// A line with this margin and column, if there is one.
fn line_at(margin: u32, column: u32) -> Option<PrintLine> {
    if 1 <= margin && column <= margin {
        Some(PrintLine::new(margin, column))
    } else {
        None
    }
}

/// Whether an item of so many letters is printed in these parts, and the column after it.
fn item(alloc: Global, line: PrintLine, length: usize, lengths: &[usize]) -> Option<(bool, u32)> {
    let text = letters(alloc, length).ok()?;
    let mut out = begun(alloc).ok()?;
    let mut line = line;
    line.item(&text, &mut out).ok()?;
    Some((is_in_parts(&out, &text, lengths), line.column()))
}

/// Whether a comma is printed so, and the column after it.
fn comma(alloc: Global, line: PrintLine, ended: bool, spaces: usize) -> Option<(bool, u32)> {
    let mut out = begun(alloc).ok()?;
    let mut line = line;
    line.comma(&mut out).ok()?;
    Some((is_spaced(&out, ended, spaces), line.column()))
}

/// Whether a `TAB(n)` is printed so, and the column after it.
fn tab(alloc: Global, line: PrintLine, n: u32, ended: bool, spaces: usize) -> Option<(bool, u32)> {
    if n < 1 {
        return None;
    }
    let mut out = begun(alloc).ok()?;
    let mut line = line;
    line.tab(n, &mut out).ok()?;
    Some((is_spaced(&out, ended, spaces), line.column()))
}

/// Ends the test where the output is not as it has to be, or the column after it is another.
fn check_printed(rt: &impl Abort, found: Option<(bool, u32)>, after: u32, case: (u32, u32, usize)) {
    let (margin, column, size) = case;
    let (is_right, reached) = found.unwrap_or((false, 0));
    assert!(rt; is_right, "{size} at {column} of {margin}");
    assert!(rt;
        reached == after,
        "{size} at {column} of {margin}: {reached}"
    );
}

#[test]
fn items_are_placed_or_cut(rt: HostRuntime) {
    for (margin, column, length, lengths, after) in &ITEMS {
        let found = match line_at(*margin, *column) {
            Some(line) => item(rt.alloc(), line, *length, lengths),
            None => None,
        };
        check_printed(&rt, found, *after, (*margin, *column, *length));
    }
}

#[test]
fn commas_go_to_the_next_zone(rt: HostRuntime) {
    for (margin, column, ended, spaces, after) in &COMMAS {
        let found = match line_at(*margin, *column) {
            Some(line) => comma(rt.alloc(), line, *ended, *spaces),
            None => None,
        };
        check_printed(&rt, found, *after, (*margin, *column, *spaces));
    }
}

#[test]
fn tabs_go_to_their_place(rt: HostRuntime) {
    for (margin, column, n, ended, spaces, after) in &TABS {
        let found = match line_at(*margin, *column) {
            Some(line) => tab(rt.alloc(), line, *n, *ended, *spaces),
            None => None,
        };
        check_printed(&rt, found, *after, (*margin, *column, *n as usize));
    }
}

/// `PRINT "Name", "Count"; TAB(30); "Sum"`.
fn print_titles(line: &mut PrintLine, out: &mut Vec<u8>) -> Result<(), AllocError> {
    line.item(b"Name", out)?;
    line.comma(out)?;
    line.item(b"Count", out)?;
    line.tab(30, out)?;
    line.item(b"Sum", out)?;
    line.end(out)
}

/// A prompt and its reply, and `PRINT "more"`: the columns after each.
fn ask(line: &mut PrintLine, out: &mut Vec<u8>) -> Result<[u32; 3], AllocError> {
    line.item(b"? ", out)?;
    let asked = line.column();
    line.replied();
    let replied = line.column();
    line.item(b"more", out)?;
    Ok([asked, replied, line.column()])
}

/// Whether all that is printed as it has to be, and the columns.
fn dialogue(alloc: Global) -> Option<(bool, [u32; 3])> {
    let mut out = Vec::new(alloc);
    let mut line = PrintLine::new(80, 0);
    print_titles(&mut line, &mut out).ok()?;
    let columns = ask(&mut line, &mut out).ok()?;
    let wanted = b"Name            Count        Sum\n? more";
    Some((out.as_slice() == wanted.as_slice(), columns))
}

#[test]
fn calls_follow_one_another(rt: HostRuntime) {
    let (is_right, [asked, replied, more]) = dialogue(rt.alloc()).unwrap_or((false, [9; 3]));
    assert!(rt; asked == 2);
    assert!(rt; replied == 0);
    assert!(rt; more == 4);
    assert!(rt; is_right);
}
