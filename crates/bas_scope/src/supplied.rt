//! The supplied functions with the arguments that each takes.

ghost use Rattle.std.specs.Prelude.{◌≡◌, bytes_eq, take, drop};
ghost use Rattle.std.specs.Option.{option_map};
ghost use Rattle.std.specs.Map.{lookup};
ghost use Rattle.bas_scope.specs.Supplied.{supplied, forms_of as forms_of_name, forms_told};

use bas_base::Name;

/// What a supplied function takes, in each of its forms.
#[derive(Clone, Copy, Debug, PartialEq, Eq)]
pub enum Forms {
    Nothing,
    Number,
    Numbers,
    Text,
    /// An array, and perhaps the number of a dimension.
    Bound,
    /// Two strings, and perhaps a number.
    Position,
    /// A string and a number.
    Repetition,
}

fn spells(name: &[u8], other: &[u8]) -> bool
    ensures { result ≡ bytes_eq name.now other.now }
{
    name == other
}

fn first_forms(name: &[u8]) -> Option<Forms>
    ensures { option_map forms_told result ≡ lookup (bytes_eq name.now) (take 10 supplied) }
{
    if spells(name, b"ABS")
        || spells(name, b"SGN")
        || spells(name, b"INT")
        || spells(name, b"IP")
        || spells(name, b"FP")
        || spells(name, b"CEIL")
    {
        Some(Forms::Number)
    } else if spells(name, b"MOD")
        || spells(name, b"REMAINDER")
        || spells(name, b"ROUND")
        || spells(name, b"TRUNCATE")
    {
        Some(Forms::Numbers)
    } else {
        None
    }
}

fn second_forms(name: &[u8]) -> Option<Forms>
    ensures { option_map forms_told result ≡ lookup (bytes_eq name.now) (take 10 (drop 10 supplied)) }
{
    if spells(name, b"SQR") {
        Some(Forms::Number)
    } else if spells(name, b"MAX") || spells(name, b"MIN") {
        Some(Forms::Numbers)
    } else if spells(name, b"MAXNUM")
        || spells(name, b"RND")
        || spells(name, b"EXTYPE")
        || spells(name, b"EXLINE")
    {
        Some(Forms::Nothing)
    } else if spells(name, b"LBOUND") || spells(name, b"UBOUND") {
        Some(Forms::Bound)
    } else if spells(name, b"LEN") {
        Some(Forms::Text)
    } else {
        None
    }
}

fn third_forms(name: &[u8]) -> Option<Forms>
    ensures { option_map forms_told result ≡ lookup (bytes_eq name.now) (drop 20 supplied) }
{
    if spells(name, b"ORD") {
        Some(Forms::Text)
    } else if spells(name, b"CHR$") {
        Some(Forms::Number)
    } else if spells(name, b"POS") {
        Some(Forms::Position)
    } else if spells(name, b"STR$") {
        Some(Forms::Number)
    } else if spells(name, b"VAL")
        || spells(name, b"UCASE$")
        || spells(name, b"LCASE$")
        || spells(name, b"LTRIM$")
        || spells(name, b"RTRIM$")
    {
        Some(Forms::Text)
    } else if spells(name, b"REPEAT$") {
        Some(Forms::Repetition)
    } else {
        None
    }
}

/// What the supplied function of a name takes, or `None` where no supplied function has the name.
pub fn forms_of(name: Name) -> Option<Forms>
    ensures { option_map forms_told result ≡ forms_of_name name }
{
    let bytes = name.bytes();
    first_forms(bytes)
        .or(second_forms(bytes))
        .or(third_forms(bytes))
}
