//! What a name is, as far as the rules ask.

use crate::supplied::Forms;
use crate::written::WrittenShape;

/// What a name is. The formals of a procedure of another unit are not known.
#[derive(Clone, Copy, Debug)]
pub enum Sense<'a> {
    Variable(WrittenShape),
    /// The shapes of its formals.
    Sub(Option<&'a [WrittenShape]>),
    /// The shapes of its formals, and whether its value may be set here.
    Function(Option<&'a [WrittenShape]>, bool),
    Supplied(Forms),
}
