//! Lines of data.

use crate::cases::{Text, check_text};
use bas_data::{data, data_word};
use bas_text::Datum;
use std::alloc::Global;

/// Each line with its items, each behind a bar, and `q` before one in quotes; or `none`; or `other`.
static LINES: [(&str, &str); 18] = [
    ("DATA", "|"),
    ("  data 1, 2", "|1|2"),
    ("DATA,", "||"),
    ("DATA\"a!b\"", "|qa!b"),
    ("DATA 1 ! two", "|1"),
    ("DATA 1!", "|1"),
    ("DATA \"a\"\"!\" ! b", "|qa\"!"),
    ("DATA \"a ! b", "none"),
    ("DATA a\"!\"", "none"),
    ("DATA a ! \u{1}", "none"),
    ("DATA ! a \"b", "|"),
    ("Data red cap , blue", "|red cap|blue"),
    ("DATA1", "other"),
    ("DATA$", "other"),
    ("DATA_", "other"),
    ("DAT", "other"),
    ("", "other"),
    ("X DATA", "other"),
];

fn put_item(text: &mut Text, item: &Datum) {
    text.put("|");
    if item.quoted {
        text.put("q");
    }
    text.put_bytes(item.text.bytes());
}

fn put_items(text: &mut Text, items: &[Datum]) {
    for item in items {
        put_item(text, item);
    }
}

fn put_data(text: &mut Text, alloc: Global, behind: &[u8]) {
    match data(alloc, behind) {
        Ok(Some(items)) => put_items(text, items.items()),
        Ok(None) => text.put("none"),
        Err(_) => text.put("no memory"),
    }
}

fn shown(alloc: Global, line: &[u8]) -> Text {
    let mut text = Text::new(alloc);
    match data_word(line) {
        Some(behind) => put_data(&mut text, alloc, &line[behind..]),
        None => text.put("other"),
    }
    text
}

#[test]
fn lines_have_their_data(rt: HostRuntime) {
    for (line, wanted) in &LINES {
        check_text(&rt, line, &shown(rt.alloc(), line.as_bytes()), wanted);
    }
}
