//! The first line at which each name stands.

ghost use Rattle.std.specs.Prelude.{◌≡◌, ℕ, List, [], ◌∷◌, OnOk, None};
ghost use Rattle.std.specs.Option.{is_some};
ghost use Rattle.bas_claim.specs.First.{line_of, stands_before, is_noted_at, Notes};

use bas_base::{Line, Name};
use std::alloc::{AllocError, Global};
use std::collections::BTreeMap;

/// Names, each with the least line at which it stands.
#[derive(Drop)]
pub struct FirstLines {
    lines: BTreeMap<Name, u32>,
}

impl FirstLines {
    /// No names.
    pub fn new(alloc: Global) -> FirstLines
        ensures { (name : List ℕ) → line_of result name ≡ None }
    {
        FirstLines {
            lines: BTreeMap::new(alloc),
        }
    }

    /// Whether a name stands at some line.
    pub fn stands(&self, name: Name) -> bool
        ensures { result ≡ is_some (line_of self.now name) }
    {
        self.lines.contains_key(&name)
    }

    /// Whether a name stands at a line before that one.
    pub fn is_before(&self, name: Name, line: Line) -> bool
        ensures { result ≡ stands_before self.now name line }
    {
        match self.lines.get(&name) {
            Some(first) => *first < line.number(),
            None => false,
        }
    }

    // Whether a name stands at a line or at one before it.
    fn is_noted(&self, name: Name, line: Line) -> bool
        ensures { result ≡ is_noted_at (line_of self.now name) line }
    {
        match self.lines.get(&name) {
            Some(first) => *first <= line.number(),
            None => false,
        }
    }

    /// Notes that a name stands at a line.
    #[tactic(auto, using(crate::proofs::Noting::kept, crate::proofs::Noting::put))]
    pub fn note(&mut self, name: Name, line: Line) -> Result<(), AllocError>
        ensures { OnOk result (Notes self.old self.new (name ∷ []) line) }
    {
        if self.is_noted(name, line) {
            return Ok(());
        }
        self.lines.insert(name, line.number())?;
        Ok(())
    }

    /// Notes that names stand at a line.
    #[tactic(auto, using(crate::proofs::Noting::noted_none, crate::proofs::Noting::noted_more))]
    pub fn note_all(&mut self, names: &[Name], line: Line) -> Result<(), AllocError>
        ensures { OnOk result (Notes self.old self.new names.now line) }
    {
        for name in names {
            self.note(*name, line)?;
        }
        Ok(())
    }
}
