//! The item of a line.

ghost use Rattle.std.specs.Prelude.{◌≡◌, ℕ, ◌≤◌, List, length, Some, None, IfOk, IsErrOf};
ghost use Rattle.bas_ast.specs.declared.block.LineItem.{LineItem};
ghost use Rattle.bas_ast.specs.declared.block.LineItem.TheVariants as tree;
ghost use Rattle.bas_declaration.specs.Reading.{part_at};
ghost use Rattle.bas_declaration.specs.Declaring.{decl_at};
ghost use Rattle.bas_line.specs.Cut.{tokens_of};
ghost use Rattle.bas_line.specs.Items.{IsItem};
ghost use Rattle.bas_line.specs.Itemizing as reading;
ghost use Rattle.bas_line.specs.Plains.{plain_at};
ghost use Rattle.bas_line.specs.Reading.{simple_at};

use crate::simple::simple;
use crate::word::{line_ends, rem};
use bas_ast::{Decl, LineItem};
use bas_data::{data, data_word};
use bas_declaration::{decl, part};
use bas_expr::TokenLine;
use bas_token::{Token, TokenFault, tokens};
use sqlite_items::Boxed;
use std::alloc::{AllocError, Global};

/// Why a line has no item.
#[derive(Clone, Copy, Debug, PartialEq, Eq)]
pub enum LineFault {
    /// The line is none of the grammar.
    NotItem,
    /// There was no memory for it.
    Memory,
}

impl From<AllocError> for LineFault {
    ghost use Rattle.std.specs.Prelude.{◌≡◌};
    ghost use Rattle.bas_line.specs.declared.whole_line.LineFault.TheVariants.{Memory};

    ghost from_gives = { λ _ e. e ≡ Memory };

    fn from(_: AllocError) -> LineFault {
        LineFault::Memory
    }
}

type Read = Result<Option<LineItem>, AllocError>;

/// What was read, where the line ends behind it.
#[tactic(auto, unfolding(crate::specs::Itemizing::ended))]
fn ended<T: Drop>(line: &TokenLine<'_>, found: Option<(T, usize)>) -> Option<T>
    ensures { result ≡ reading.ended line.now found }
{
    let (tree, after) = found?;
    if line_ends(line, after) {
        Some(tree)
    } else {
        None
    }
}

/// The line of a construct, procedure or unit, where nothing stands behind it.
fn whole_part(alloc: Global, line: &TokenLine<'_>) -> Read
    ensures { IfOk result (λ o. o ≡ reading.closed line.now tree.Part (part_at line.now 0)) }
{
    match ended(line, part(alloc, line, 0)?) {
        Some(found) => Ok(Some(LineItem::Part(Boxed::new(alloc, found)?))),
        None => Ok(None),
    }
}

/// The declaration, where nothing stands behind it.
fn whole_decl(alloc: Global, line: &TokenLine<'_>) -> Read
    ensures { IfOk result (λ o. o ≡ reading.closed line.now tree.Decl (decl_at line.now 0)) }
{
    match ended(line, decl(alloc, line, 0)?) {
        Some(found) => Ok(Some(LineItem::Decl(Boxed::new(alloc, found)?))),
        None => Ok(None),
    }
}

/// The statement, where nothing stands behind it.
fn whole_simple(alloc: Global, line: &TokenLine<'_>) -> Read
    ensures { IfOk result (λ o. o ≡ reading.closed line.now tree.Simple (simple_at line.now (plain_at line.now) 0)) }
{
    match ended(line, simple(alloc, line, 0)?) {
        Some(found) => Ok(Some(LineItem::Simple(Boxed::new(alloc, found)?))),
        None => Ok(None),
    }
}

/// A part, a declaration or a statement.
fn worded(alloc: Global, line: &TokenLine<'_>) -> Read
    ensures { IfOk result (λ o. o ≡ reading.worded line.now (plain_at line.now)) }
{
    if let Some(found) = whole_part(alloc, line)? {
        return Ok(Some(found));
    }
    if let Some(found) = whole_decl(alloc, line)? {
        return Ok(Some(found));
    }
    whole_simple(alloc, line)
}

/// The item of a line that is cut into tokens.
#[tactic(auto, unfolding(crate::specs::Itemizing::item_by))]
fn token_item(alloc: Global, line: &TokenLine<'_>) -> Read
    ensures { IfOk result (λ o. o ≡ reading.item_by line.now (plain_at line.now)) }
{
    if let Some(bytes) = rem(alloc, line, 0)? {
        return Ok(Some(LineItem::Rem(bytes)));
    }
    if line_ends(line, 0) {
        return Ok(Some(LineItem::Nothing));
    }
    worded(alloc, line)
}

/// The item of a line of data, from what stands behind the word.
fn data_item(alloc: Global, text: &[u8]) -> Read
    ensures { IfOk result (λ o. o ≡ reading.data_item_of text.now) }
{
    match data(alloc, text)? {
        Some(items) => Ok(Some(LineItem::Decl(Boxed::new(alloc, Decl::Data(items))?))),
        None => Ok(None),
    }
}

/// The tokens of a line.
fn cut(alloc: Global, line: &[u8]) -> Result<Vec<Token>, LineFault>
    requires { length line.now ≤ 4096 }
    ensures found { IfOk result (λ found. tokens_of line.now ≡ Some found.items) }
    ensures none { IsErrOf result LineFault.NotItem → tokens_of line.now ≡ None }
{
    match tokens(alloc, line) {
        Ok(found) => Ok(found),
        Err(TokenFault::BadToken { .. }) => Err(LineFault::NotItem),
        Err(TokenFault::Memory) => Err(LineFault::Memory),
    }
}

/// The item of a line that does not begin with the word `DATA`.
fn cut_item(alloc: Global, line: &[u8]) -> Result<LineItem, LineFault>
    requires { length line.now ≤ 4096 }
    ensures found { IfOk result (λ item. reading.item_behind line.now plain_at None ≡ Some item) }
    ensures none { IsErrOf result LineFault.NotItem → reading.item_behind line.now plain_at None ≡ None }
{
    let found = cut(alloc, line)?;
    match token_item(alloc, &TokenLine::new(line, &found))? {
        Some(item) => Ok(item),
        None => Err(LineFault::NotItem),
    }
}

/// The item of a line that begins with the word `DATA`, from what stands behind it.
fn data_line(alloc: Global, text: &[u8]) -> Result<LineItem, LineFault>
    ensures found { IfOk result (λ item. reading.data_item_of text.now ≡ Some item) }
    ensures none { IsErrOf result LineFault.NotItem → reading.data_item_of text.now ≡ None }
{
    match data_item(alloc, text)? {
        Some(item) => Ok(item),
        None => Err(LineFault::NotItem),
    }
}

/// The item of a line of at most 4,096 bytes, without its number. `NotItem` comes exactly where the line
/// has none. A line of data is read from its bytes, and every other one from its tokens.
pub fn line_item(alloc: Global, line: &[u8]) -> Result<LineItem, LineFault>
    requires short { length line.now ≤ 4096 }
    ensures found { IfOk result (λ item. IsItem line.now item) }
    ensures only { IfOk result (λ item. (other : LineItem) → IsItem line.now other → other ≡ item) }
    ensures none { IsErrOf result LineFault.NotItem → (item : LineItem) → IsItem line.now item → ⊥ }

    // The same by one reading of the line, as a function of its bytes.
    ensures value { IfOk result (λ item. reading.item_of line.now ≡ Some item) }
    ensures no_value { IsErrOf result LineFault.NotItem → reading.item_of line.now ≡ None }
{
    match data_word(line) {
        Some(behind) => data_line(alloc, &line[behind..]),
        None => cut_item(alloc, line),
    }
}
