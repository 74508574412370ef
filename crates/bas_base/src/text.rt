ghost use Rattle.std.specs.Prelude.{◌≡◌, ◌≤◌, length, IsTrue, slice_index};
ghost use Rattle.std.specs.List.{list_all};
ghost use Rattle.std.specs.Char.{is_ascii_alphabetic, is_ascii_alphanumeric};
ghost use Rattle.bas_base.specs.Names.{is_word_byte, is_file_byte, is_word, is_name, is_file_name, stem_of, padded_text};

/// The most bytes of a name.
pub const NAME_BYTES: usize = 31;

/// The most bytes of a file name.
pub const FILE_NAME_BYTES: usize = 68;

fn is_word_byte(c: u8) -> bool
    ensures { result ≡ is_word_byte c }
{
    c.is_ascii_alphanumeric() || c == b'_'
}

fn is_file_byte(c: u8) -> bool
    ensures { result ≡ is_file_byte c }
{
    c.is_ascii_alphanumeric() || c == b'.' || c == b'_' || c == b'-'
}

fn has_word_bytes(text: &[u8]) -> bool
    ensures { result ≡ list_all is_word_byte text.now }
{
    text.iter().all(|c| is_word_byte(*c))
}

fn has_file_bytes(text: &[u8]) -> bool
    ensures { result ≡ list_all is_file_byte text.now }
{
    text.iter().all(|c| is_file_byte(*c))
}

fn begins_with_letter(text: &[u8]) -> bool
    ensures { result ≡ is_ascii_alphabetic (slice_index text.now 0) }
{
    !text.is_empty() && text[0].is_ascii_alphabetic()
}

fn begins_with_letter_or_digit(text: &[u8]) -> bool
    ensures { result ≡ is_ascii_alphanumeric (slice_index text.now 0) }
{
    !text.is_empty() && text[0].is_ascii_alphanumeric()
}

fn is_word(text: &[u8]) -> bool
    ensures { result ≡ is_word text.now }
{
    begins_with_letter(text) && has_word_bytes(text)
}

// What stands in front of a `$` at the end, or the whole text.
fn stem_of(text: &[u8]) -> &[u8]
    ensures { result.now ≡ stem_of text.now }
{
    let end = text.len();
    if end > 0 && text[end - 1] == b'$' {
        &text[..end - 1]
    } else {
        text
    }
}

pub fn is_name(text: &[u8]) -> bool
    ensures value { result ≡ is_name text.now }
    ensures short { IsTrue result → length text.now ≤ 31 }
{
    text.len() <= NAME_BYTES && is_word(stem_of(text))
}

pub fn is_file_name(text: &[u8]) -> bool
    ensures value { result ≡ is_file_name text.now }
    ensures short { IsTrue result → length text.now ≤ 68 }
{
    text.len() <= FILE_NAME_BYTES && begins_with_letter_or_digit(text) && has_file_bytes(text)
}

/// The text in a buffer, with zeros behind it.
pub fn padded<const N: usize>(text: &[u8]) -> [u8; N]
    requires { length text.now ≤ N }
    ensures { result ≡ padded_text N text.now }
{
    let mut buffer = [0; N];
    buffer[..text.len()].copy_from_slice(text);
    buffer
}
