ghost use Rattle.std.specs.Prelude.{◌≡◌, map, string_bytes, if◌then◌else◌, ◌≤◌, length, IfSome, IsTrue, Some, None};
ghost use Rattle.std.specs.List.{list_all};
ghost use Rattle.std.specs.Char.{is_ascii_digit};
ghost use Rattle.bas_source.specs.Number.{spelled};
ghost use Rattle.bas_drive.specs.Answer.{command_of, go_of, is_line_count, is_source_name, line_count_of, lines_of, name_of};

use bas_base::FileName;

/// What the words of the command line ask for.
#[derive(Clone, Copy, Debug)]
pub enum Command {
    /// Compiles the program in this file, and runs it for this number of lines.
    Go(FileName, u64),
}

/// The most bytes of a file name on the command line.
pub const WORD_NAME_BYTES: usize = 64;

/// The most digits of a number of lines.
pub const LINES_DIGITS: usize = 12;

/// The number of lines where the words tell none.
pub const DEFAULT_LINES: u64 = 1_000_000_000;

// The name of a source file, or `None` where the text is none.
fn source_name(text: &[u8]) -> Option<FileName>
    ensures value { result ≡ (if is_source_name text.now then Some text.now else None) }
    ensures short { IfSome result (λ name. length name ≤ WORD_NAME_BYTES) }
{
    if text.len() <= WORD_NAME_BYTES && text.ends_with(b".bas") {
        FileName::of(text).ok()
    } else {
        None
    }
}

fn spelled(digits: &[u8]) -> u64
    requires { length digits.now ≤ LINES_DIGITS }
    ensures { result ≡ spelled digits.now }
{
    let mut n: u64 = 0;
    for digit in digits {
        n = 10 * n + u64::from(digit.saturating_sub(b'0'));
    }
    n
}

fn has_digits(word: &[u8]) -> bool
    ensures { result ≡ list_all is_ascii_digit word.now }
{
    word.iter().all(|c| c.is_ascii_digit())
}

// Whether a word is digits, and not too many.
fn is_line_count(word: &[u8]) -> bool
    ensures value { result ≡ is_line_count word.now }
    ensures short { IsTrue result → length word.now ≤ LINES_DIGITS }
{
    !word.is_empty() && word.len() <= LINES_DIGITS && has_digits(word)
}

// The number of lines that a word tells.
fn line_count_of(word: &[u8]) -> Option<u64>
    ensures { result ≡ line_count_of word.now }
{
    if is_line_count(word) {
        Some(spelled(word))
    } else {
        None
    }
}

fn go_of(verb: &String, name: &String, lines: Option<u64>) -> Option<Command>
    ensures value { result ≡ go_of (string_bytes verb.now) (string_bytes name.now) lines }
    ensures short { IfSome result (λ command. length (name_of command) ≤ WORD_NAME_BYTES) }
{
    let lines = lines?;
    if verb.as_str() != "go" {
        return None;
    }
    let name = source_name(name.as_bytes())?;
    Some(Command::Go(name, lines))
}

// The number of lines that an option tells.
fn lines_of(option: &String, value: &String) -> Option<u64>
    ensures { result ≡ lines_of (string_bytes option.now) (string_bytes value.now) }
{
    if option.as_str() != "--lines" {
        return None;
    }
    line_count_of(value.as_bytes())
}

/// The command that the words are, or `None` where they are none.
#[tactic(auto, using(crate::proofs::Wording::no_command))]
pub fn command_of(words: &[String]) -> Option<Command>
    ensures value { result ≡ command_of (map string_bytes words.now) }
    ensures short { IfSome result (λ command. length (name_of command) ≤ WORD_NAME_BYTES) }
{
    if words.len() == 2 {
        return go_of(&words[0], &words[1], Some(DEFAULT_LINES));
    }
    if words.len() == 4 {
        return go_of(&words[0], &words[1], lines_of(&words[2], &words[3]));
    }
    None
}
