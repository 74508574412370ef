//! Units that keep all rules.

ghost use Rattle.std.specs.Prelude.{◌≡◌, ◌⊎◌, None, IfOk, IsErrOf};
ghost use Rattle.bas_ast.specs.UnitTree.{unit_tree};
ghost use Rattle.bas_rules.specs.Well.{first_fault as first_fault_of};
ghost use Rattle.bas_check.specs.Refusals.{fault_in};
ghost use Rattle.bas_check.specs.declared.checked.CheckFault.{CheckFault};
ghost use Rattle.bas_check.specs.declared.checked.CheckFault.TheVariants.{Memory};

use crate::unit::first_fault;
use bas_ast::Unit;
use bas_base::Line;
use std::alloc::{AllocError, Global};
use thiserror::Error;

/// Why a unit is refused.
#[derive(Clone, Copy, Debug, Error)]
pub enum CheckFault {
    /// The first line at which a rule is broken, and the least such rule.
    #[error("rule {rule} is broken")]
    Rule { line: Line, rule: u8 },
    /// There was no memory for it.
    #[error("out of memory")]
    Memory,
}

impl From<AllocError> for CheckFault {
    ghost use Rattle.std.specs.Prelude.{◌≡◌};
    ghost use Rattle.bas_check.specs.declared.checked.CheckFault.TheVariants.{Memory};

    ghost from_gives = { λ _ fault. fault ≡ Memory };

    fn from(_: AllocError) -> CheckFault {
        CheckFault::Memory
    }
}

/// A unit that keeps all rules.
#[derive(Drop)]
pub struct Checked {
    unit: Unit,
}

impl Checked {
    ghost use Rattle.std.specs.Prelude.{◌≡◌};

    /// The unit that was checked.
    pub fn unit(&self) -> &Unit
        ensures { result.now ≡ self.now.unit }
    {
        &self.unit
    }
}

/// The unit, where it keeps all rules; else the first line at which one is broken, and the least such
/// rule. It takes time n log n in the size of the unit, but that an `OPTION` line looks at all lines.
pub fn check(alloc: Global, unit: Unit) -> Result<Checked, CheckFault>
    ensures same { IfOk result (λ checked. checked.unit ≡ unit) }
    ensures sound { IfOk result (λ checked. first_fault_of (unit_tree unit) ≡ None) }
    ensures refused { (fault : CheckFault) → IsErrOf result fault → (fault ≡ Memory) ⊎ (first_fault_of (unit_tree unit) ≡ fault_in fault) }
{
    match first_fault(alloc, &unit)? {
        Some(found) => Err(CheckFault::Rule {
            line: found.line,
            rule: found.rule,
        }),
        None => Ok(Checked { unit }),
    }
}
