//! The classes of bytes that the texts of the language are made of.

ghost use Rattle.std.specs.Prelude.{◌≡◌};
ghost use Rattle.bas_form.specs.Bytes.{is_of_class, is_standing, is_unquoted};

/// A class of bytes. A byte may be of several.
#[derive(Clone, Copy)]
pub enum ByteClass {
    /// A space, or a tab, which counts as one.
    Space,
    /// `A` to `Z` and `a` to `z`.
    Letter,
    /// A letter, a digit or `_`.
    WordPart,
    /// `$`.
    Dollar,
    /// `0` to `9`.
    Digit,
    /// `.`.
    Point,
    /// `E` or `e`.
    LetterE,
    /// `+` or `-`.
    PlusOrMinus,
    /// `"`.
    Quote,
    /// What may stand in quotes: no quote, and no control byte but a tab.
    InQuotes,
    /// A sign that is no part of a longer one: `+-*/^&(),;:#`.
    PlainSign,
    /// `<`.
    Less,
    /// `=`.
    Equal,
    /// `>`.
    Greater,
    /// `=` or `>`.
    EqualOrGreater,
    /// `<` or `>`.
    LessOrGreater,
    /// `<` or `=`.
    LessOrEqual,
    /// `!`.
    ExclamationMark,
    /// `R` or `r`.
    LetterR,
    /// `M` or `m`.
    LetterM,
    /// What may stand in a remark: no control byte but a tab.
    InRemark,
    /// `,`.
    Comma,
    /// What begins a datum with no quotes: a byte of 33 to 126 but a quote or a comma.
    DataStart,
    /// What may stand in a datum with no quotes: `DataStart`, a space or a tab.
    DataPart,
}

/// Whether the byte may stand in quotes and in remarks.
fn is_standing(byte: u8) -> bool
    ensures { result ≡ is_standing byte }
{
    (byte >= 32 && byte != 127) || byte == b'\t'
}

/// Whether the byte may stand in a datum with no quotes.
fn is_unquoted(byte: u8) -> bool
    ensures { result ≡ is_unquoted byte }
{
    byte >= 32 && byte <= 126 && byte != b'"' && byte != b','
}

impl ByteClass {
    /// Whether the byte is of the class.
    pub fn has(self, byte: u8) -> bool
        ensures { result ≡ is_of_class self byte }
    {
        match self {
            ByteClass::Space => byte == b' ' || byte == b'\t',
            ByteClass::Letter => byte.is_ascii_alphabetic(),
            ByteClass::WordPart => {
                byte.is_ascii_alphabetic() || byte.is_ascii_digit() || byte == b'_'
            }
            ByteClass::Dollar => byte == b'$',
            ByteClass::Digit => byte.is_ascii_digit(),
            ByteClass::Point => byte == b'.',
            ByteClass::LetterE => byte == b'E' || byte == b'e',
            ByteClass::PlusOrMinus => byte == b'+' || byte == b'-',
            ByteClass::Quote => byte == b'"',
            ByteClass::InQuotes => is_standing(byte) && byte != b'"',
            ByteClass::PlainSign => b"+-*/^&(),;:#".contains(&byte),
            ByteClass::Less => byte == b'<',
            ByteClass::Equal => byte == b'=',
            ByteClass::Greater => byte == b'>',
            ByteClass::EqualOrGreater => byte == b'=' || byte == b'>',
            ByteClass::LessOrGreater => byte == b'<' || byte == b'>',
            ByteClass::LessOrEqual => byte == b'<' || byte == b'=',
            ByteClass::ExclamationMark => byte == b'!',
            ByteClass::LetterR => byte == b'R' || byte == b'r',
            ByteClass::LetterM => byte == b'M' || byte == b'm',
            ByteClass::InRemark => is_standing(byte),
            ByteClass::Comma => byte == b',',
            ByteClass::DataStart => is_unquoted(byte) && byte != b' ',
            ByteClass::DataPart => is_unquoted(byte) || byte == b'\t',
        }
    }
}
