//! What a body is.

/// What a body is of.
#[derive(Clone, Copy, Debug, PartialEq, Eq)]
pub enum BodyKind {
    /// A program.
    Main,
    /// An external procedure, or a procedure of a module.
    External,
    Internal,
    /// The initial part of a module.
    Initial,
}
