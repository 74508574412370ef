//! How interfaces may disagree.

use bas_base::Name;

/// Why units cannot be linked.
#[derive(Clone, Copy, Debug, PartialEq, Eq)]
pub enum LinkKind {
    /// Two programs have one name.
    ProgramDoubled,
    /// Two modules, procedures or public variables have one name.
    Doubled,
    /// Nothing has the name that is called or used.
    Missing,
    /// An argument does not fit its formal, or their counts differ.
    Shape,
    /// A public variable is used with another type or other bounds.
    PublicType,
    /// No unit is a program.
    NoProgram,
}

/// The first disagreement: its kind, the unit that has it, and the name that it is about.
#[derive(Clone, Copy, Debug)]
pub struct LinkFault {
    pub kind: LinkKind,
    pub unit: Name,
    pub name: Name,
}
