//! The address of each target, looked up by its line.

ghost use Rattle.std.specs.Prelude.{◌≡◌, IfOk, OnOk};
ghost use Rattle.bas_mean.specs.Outcome as outcome;
ghost use Rattle.bas_carry.specs.Tables.{address_in};
ghost use Rattle.bas_gen.specs.Layouts.{target_of, labels_of};
ghost use Rattle.bas_gen.specs.Addresses.{address_at, Puts};

use crate::layout::{Label, Target};
use std::alloc::{AllocError, Global};
use std::collections::BTreeMap;

/// The address of each line, of the end of each loop, and of its next turn.
#[derive(Drop)]
pub struct Targets {
    pub lines: BTreeMap<u32, u16>,
    pub ends: BTreeMap<u32, u16>,
    pub turns: BTreeMap<u32, u16>,
}

impl Targets {
    /// The address of a target, or 0 where it has none.
    pub fn address(&self, target: Target) -> u16
        ensures { result ≡ address_at self.now (target_of target) }
    {
        match target {
            Target::Line(number) => self.lines.get(&number).copied().unwrap_or(0),
            Target::End(number) => self.ends.get(&number).copied().unwrap_or(0),
            Target::Turn(number) => self.turns.get(&number).copied().unwrap_or(0),
        }
    }

    // Gives a target its address, in place of an earlier one.
    fn put(&mut self, label: Label) -> Result<(), AllocError>
        ensures { OnOk result (Puts self.old self.new (target_of label.target) label.address) }
    {
        match label.target {
            Target::Line(number) => self.lines.insert(number, label.address)?,
            Target::End(number) => self.ends.insert(number, label.address)?,
            Target::Turn(number) => self.turns.insert(number, label.address)?,
        };
        Ok(())
    }
}

/// The addresses of these targets; of several that are the same the first counts.
pub fn targets_of(alloc: Global, labels: Vec<Label>) -> Result<Targets, AllocError>
    ensures { IfOk result (λ targets. (t : outcome.Target) → address_at targets t ≡ address_in (labels_of labels.items) t) }
{
    let mut targets = Targets {
        lines: BTreeMap::new(alloc),
        ends: BTreeMap::new(alloc),
        turns: BTreeMap::new(alloc),
    };
    let mut labels = labels;
    while let Some(label) = labels.pop() {
        targets.put(label)?;
    }
    Ok(targets)
}
