//! The words that statements on channels are made of.

ghost use Rattle.std.specs.Prelude.{◌≡◌, ◌<◌, IfSome};
ghost use Rattle.std.specs.Option.{option_map};
ghost use Rattle.bas_record.specs.Words as words;

use bas_ast::{Access, Create, MissThen, MissWhen, Organization, Rectype};
use bas_expr::TokenLine;
use bas_token::TokenKind;

/// A word that a statement on a channel begins with.
#[derive(Clone, Copy)]
pub enum Verb {
    Print,
    Line,
    Input,
    Open,
    Close,
    Set,
    Read,
    Write,
    Rewrite,
    Delete,
}

/// A word that a setter begins with.
#[derive(Clone, Copy)]
pub enum SetterWord {
    Begin,
    End,
    Next,
    Same,
    Record,
    Key,
}

/// A word that an attribute begins with.
#[derive(Clone, Copy)]
pub enum AttrWord {
    Organization,
    Rectype,
    Access,
    Create,
    Recsize,
}

/// What stands between `KEY` and the key.
#[derive(Clone, Copy)]
pub enum KeyRelation {
    Equal,
    AtLeast,
    Greater,
}

/// The text of the word at a place.
#[tactic(auto, unfolding(crate::specs::Words::spelled, bas_form::specs::Element::element_at))]
fn spelled<'a>(line: &TokenLine<'a>, at: usize) -> Option<&'a [u8]>
    ensures value { option_map (λ t. t.now) result ≡ words.spelled line.now at }
    ensures within { IfSome result (λ _. at < 4096) }
{
    match line.lexeme(at) {
        Some((TokenKind::Word, text)) => Some(text),
        _ => None,
    }
}

/// The word at a place that begins a statement on a channel.
#[tactic(auto, unfolding(crate::specs::Words::verb))]
pub fn verb_at(line: &TokenLine<'_>, at: usize) -> Option<Verb>
    ensures value { result ≡ words.verb line.now at }
    ensures within { IfSome result (λ _. at < 4096) }
{
    let text = spelled(line, at)?;
    if text.eq_ignore_ascii_case(b"PRINT") {
        Some(Verb::Print)
    } else if text.eq_ignore_ascii_case(b"LINE") {
        Some(Verb::Line)
    } else if text.eq_ignore_ascii_case(b"INPUT") {
        Some(Verb::Input)
    } else if text.eq_ignore_ascii_case(b"OPEN") {
        Some(Verb::Open)
    } else if text.eq_ignore_ascii_case(b"CLOSE") {
        Some(Verb::Close)
    } else if text.eq_ignore_ascii_case(b"SET") {
        Some(Verb::Set)
    } else if text.eq_ignore_ascii_case(b"READ") {
        Some(Verb::Read)
    } else if text.eq_ignore_ascii_case(b"WRITE") {
        Some(Verb::Write)
    } else if text.eq_ignore_ascii_case(b"REWRITE") {
        Some(Verb::Rewrite)
    } else if text.eq_ignore_ascii_case(b"DELETE") {
        Some(Verb::Delete)
    } else {
        None
    }
}

/// The word at a place that begins a setter.
#[tactic(auto, unfolding(crate::specs::Words::setter_word))]
pub fn setter_word(line: &TokenLine<'_>, at: usize) -> Option<SetterWord>
    ensures value { result ≡ words.setter_word line.now at }
    ensures within { IfSome result (λ _. at < 4096) }
{
    let text = spelled(line, at)?;
    if text.eq_ignore_ascii_case(b"BEGIN") {
        Some(SetterWord::Begin)
    } else if text.eq_ignore_ascii_case(b"END") {
        Some(SetterWord::End)
    } else if text.eq_ignore_ascii_case(b"NEXT") {
        Some(SetterWord::Next)
    } else if text.eq_ignore_ascii_case(b"SAME") {
        Some(SetterWord::Same)
    } else if text.eq_ignore_ascii_case(b"RECORD") {
        Some(SetterWord::Record)
    } else if text.eq_ignore_ascii_case(b"KEY") {
        Some(SetterWord::Key)
    } else {
        None
    }
}

/// The word at a place that begins an attribute.
#[tactic(auto, unfolding(crate::specs::Words::attr_word))]
pub fn attr_word(line: &TokenLine<'_>, at: usize) -> Option<AttrWord>
    ensures value { result ≡ words.attr_word line.now at }
    ensures within { IfSome result (λ _. at < 4096) }
{
    let text = spelled(line, at)?;
    if text.eq_ignore_ascii_case(b"ORGANIZATION") {
        Some(AttrWord::Organization)
    } else if text.eq_ignore_ascii_case(b"RECTYPE") {
        Some(AttrWord::Rectype)
    } else if text.eq_ignore_ascii_case(b"ACCESS") {
        Some(AttrWord::Access)
    } else if text.eq_ignore_ascii_case(b"CREATE") {
        Some(AttrWord::Create)
    } else if text.eq_ignore_ascii_case(b"RECSIZE") {
        Some(AttrWord::Recsize)
    } else {
        None
    }
}

/// How the values of a file stand in it, as the word at a place says.
#[tactic(auto, unfolding(crate::specs::Words::organization))]
pub fn organization(line: &TokenLine<'_>, at: usize) -> Option<Organization>
    ensures value { result ≡ words.organization line.now at }
    ensures within { IfSome result (λ _. at < 4096) }
{
    let text = spelled(line, at)?;
    if text.eq_ignore_ascii_case(b"STREAM") {
        Some(Organization::Stream)
    } else if text.eq_ignore_ascii_case(b"SEQUENTIAL") {
        Some(Organization::Sequential)
    } else if text.eq_ignore_ascii_case(b"RELATIVE") {
        Some(Organization::Relative)
    } else if text.eq_ignore_ascii_case(b"KEYED") {
        Some(Organization::Keyed)
    } else {
        None
    }
}

/// Whether a file has text or values, as the word at a place says.
#[tactic(auto, unfolding(crate::specs::Words::rectype))]
pub fn rectype(line: &TokenLine<'_>, at: usize) -> Option<Rectype>
    ensures value { result ≡ words.rectype line.now at }
    ensures within { IfSome result (λ _. at < 4096) }
{
    let text = spelled(line, at)?;
    if text.eq_ignore_ascii_case(b"DISPLAY") {
        Some(Rectype::Display)
    } else if text.eq_ignore_ascii_case(b"INTERNAL") {
        Some(Rectype::Internal)
    } else {
        None
    }
}

/// Whether a file is read, written or both, as the word at a place says.
#[tactic(auto, unfolding(crate::specs::Words::access))]
pub fn access(line: &TokenLine<'_>, at: usize) -> Option<Access>
    ensures value { result ≡ words.access line.now at }
    ensures within { IfSome result (λ _. at < 4096) }
{
    let text = spelled(line, at)?;
    if text.eq_ignore_ascii_case(b"INPUT") {
        Some(Access::Input)
    } else if text.eq_ignore_ascii_case(b"OUTPUT") {
        Some(Access::Output)
    } else if text.eq_ignore_ascii_case(b"OUTIN") {
        Some(Access::Outin)
    } else {
        None
    }
}

/// Whether a file must be new or old, as the word at a place says.
#[tactic(auto, unfolding(crate::specs::Words::create))]
pub fn create(line: &TokenLine<'_>, at: usize) -> Option<Create>
    ensures value { result ≡ words.create line.now at }
    ensures within { IfSome result (λ _. at < 4096) }
{
    let text = spelled(line, at)?;
    if text.eq_ignore_ascii_case(b"NEW") {
        Some(Create::New)
    } else if text.eq_ignore_ascii_case(b"OLD") {
        Some(Create::Old)
    } else if text.eq_ignore_ascii_case(b"NEWOLD") {
        Some(Create::Newold)
    } else {
        None
    }
}

/// What a statement waits for, as the word at a place says.
#[tactic(auto, unfolding(crate::specs::Words::miss_when))]
pub fn miss_when(line: &TokenLine<'_>, at: usize) -> Option<MissWhen>
    ensures value { result ≡ words.miss_when line.now at }
    ensures within { IfSome result (λ _. at < 4096) }
{
    let text = spelled(line, at)?;
    if text.eq_ignore_ascii_case(b"MISSING") {
        Some(MissWhen::Missing)
    } else if text.eq_ignore_ascii_case(b"THERE") {
        Some(MissWhen::There)
    } else {
        None
    }
}

/// Which loop `EXIT` leaves, as the word at a place says.
#[tactic(auto, unfolding(crate::specs::Words::exit))]
pub fn exit(line: &TokenLine<'_>, at: usize) -> Option<MissThen>
    ensures value { result ≡ words.exit line.now at }
    ensures within { IfSome result (λ _. at < 4096) }
{
    let text = spelled(line, at)?;
    if text.eq_ignore_ascii_case(b"DO") {
        Some(MissThen::ExitDo)
    } else if text.eq_ignore_ascii_case(b"FOR") {
        Some(MissThen::ExitFor)
    } else {
        None
    }
}

fn key_relation_of_text(text: &[u8]) -> Option<KeyRelation>
    ensures { result ≡ words.key_relation_of_text text.now }
{
    match text {
        [b'='] => Some(KeyRelation::Equal),
        [b'>'] => Some(KeyRelation::Greater),
        [b'>', b'='] => Some(KeyRelation::AtLeast),
        _ => None,
    }
}

/// The relation of a key at a place.
#[tactic(auto, unfolding(crate::specs::Words::key_relation, bas_form::specs::Element::element_at))]
pub fn key_relation(line: &TokenLine<'_>, at: usize) -> Option<KeyRelation>
    ensures value { result ≡ words.key_relation line.now at }
    ensures within { IfSome result (λ _. at < 4096) }
{
    match line.lexeme(at) {
        Some((TokenKind::Sign, text)) => key_relation_of_text(text),
        _ => None,
    }
}
