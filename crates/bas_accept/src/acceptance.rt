//! The units of a file that may be compiled.

ghost use Rattle.std.specs.Prelude.{◌≡◌, ◌⊎◌, List, [], ◌∷◌, map, IfOk, IsErrOf, Ok, Err};
ghost use Rattle.std.specs.Option.{option_map, option_copied};
ghost use Rattle.bas_ast.specs.Tree.{SourceUnit};
ghost use Rattle.bas_ast.specs.UnitTree.{unit_tree, program_tree};
ghost use Rattle.bas_mean.specs.Meaning.{first_program};
ghost use Rattle.bas_check.specs.Faults.{fault_told};
ghost use Rattle.bas_block.specs.declared.file.SourceFault.TheVariants as fault;
ghost use Rattle.bas_accept.specs.Accepted.{
  HasSoundProgram,
  IsAccepted,
  accepted_of,
  accepted_units,
  fault_in_units,
  unless_fault,
  unless_refused,
};
ghost use Rattle.bas_accept.specs.declared.acceptance.Refusal.{Refusal};
ghost use Rattle.bas_accept.specs.declared.acceptance.Refusal.TheVariants.{Source};

use bas_ast::{Program, Unit};
use bas_base::Line;
use bas_block::{SourceFault, units_of};
use bas_check::{Fault, first_fault};
use bas_unbuilt::unbuilt_line;
use std::alloc::{AllocError, Global};

/// Why a source file is refused.
#[derive(Clone, Copy, Debug)]
pub enum Refusal {
    /// It has no units, or a line with a construct that is not built; or there was no memory.
    Source(SourceFault),
    /// A rule of a unit is broken at a line: the least one that is broken at the first such line. Rules
    /// are numbered from 1 to 24.
    Rule(u8, Line),
}

impl From<SourceFault> for Refusal {
    ghost use Rattle.std.specs.Prelude.{◌≡◌};
    ghost use Rattle.bas_accept.specs.declared.acceptance.Refusal.TheVariants.{Source};

    ghost from_gives = { λ fault r. r ≡ Source fault };

    fn from(fault: SourceFault) -> Refusal {
        Refusal::Source(fault)
    }
}

impl From<AllocError> for Refusal {
    ghost use Rattle.std.specs.Prelude.{◌≡◌};
    ghost use Rattle.bas_block.specs.declared.file.SourceFault.TheVariants.{Memory};
    ghost use Rattle.bas_accept.specs.declared.acceptance.Refusal.TheVariants.{Source};

    ghost from_gives = { λ _ r. r ≡ Source Memory };

    fn from(_: AllocError) -> Refusal {
        Refusal::Source(SourceFault::Memory)
    }
}

// The program that a unit is.
#[tactic(auto, unfolding(bas_ast::specs::UnitTree::unit_tree))]
fn program_of(unit: &Unit) -> Option<&Program>
    ensures { option_map program_tree (option_copied result) ≡ first_program (unit_tree unit.now ∷ []) }
{
    match unit {
        Unit::Program(program) => Some(program),
        Unit::Procedure(_) | Unit::Module(_) => None,
    }
}

/// The first program of a list of units.
#[tactic(auto, using(crate::proofs::Accepting::first_is, crate::proofs::Accepting::first_is_behind))]
pub fn first_program(units: &[Unit]) -> Option<&Program>
    ensures { option_map program_tree (option_copied result) ≡ first_program (map unit_tree units.now) }
{
    for unit in units {
        if let Some(program) = program_of(unit) {
            return Some(program);
        }
    }
    None
}

// The first line of some units in order at which a rule is broken, and the least such rule.
fn fault_in_units(alloc: Global, units: &[Unit]) -> Result<Option<Fault>, AllocError>
    ensures { IfOk result (λ found. option_map fault_told found ≡ fault_in_units (map unit_tree units.now)) }
{
    for unit in units {
        if let Some(fault) = first_fault(alloc, unit)? {
            return Ok(Some(fault));
        }
    }
    Ok(None)
}

// The refusal of a rule that some units break, if there is one.
fn rule_refusal(alloc: Global, units: &[Unit]) -> Result<Option<Refusal>, AllocError>
    ensures { IfOk result (λ r. unless_fault (map unit_tree units.now) (fault_in_units (map unit_tree units.now)) ≡ unless_refused (map unit_tree units.now) r) }
{
    match fault_in_units(alloc, units)? {
        Some(fault) => Ok(Some(Refusal::Rule(fault.rule, fault.line))),
        None => Ok(None),
    }
}

// The refusal of some units, if there is one.
fn refusal_of(alloc: Global, units: &[Unit]) -> Result<Option<Refusal>, AllocError>
    ensures { IfOk result (λ r. accepted_units (Ok (map unit_tree units.now)) ≡ unless_refused (map unit_tree units.now) r) }
{
    match unbuilt_line(units) {
        Some(line) => Ok(Some(Refusal::Source(SourceFault::BadLine(line)))),
        None => rule_refusal(alloc, units),
    }
}

// The units of a file, or its first refusal.
fn first_answer(alloc: Global, file: &[u8]) -> Result<Vec<Unit>, Refusal>
    ensures value { IfOk result (λ units. accepted_of file.now ≡ Ok (map unit_tree units.items)) }
    ensures refused { (r : Refusal) → IsErrOf result r → (r ≡ Source fault.Memory) ⊎ (accepted_of file.now ≡ Err r) }
{
    let units = units_of(alloc, file)?;
    match refusal_of(alloc, &units)? {
        Some(refusal) => Err(refusal),
        None => Ok(units),
    }
}

/// The units of a source file, in their order, or its first refusal: by its lines and their nesting,
/// then `BadLine` at the first line with a construct that is not built, then the first line at which a
/// rule is broken, unit by unit. It takes memory in proportion to the file, and so much time, but for
/// the tables in which names and line numbers are looked up.
#[tactic(auto, using(crate::proofs::Accepting::has_sound_program))]
pub fn accepted(alloc: Global, file: &[u8]) -> Result<Vec<Unit>, Refusal>
    ensures found { IfOk result (λ units. IsAccepted file.now (map unit_tree units.items)) }
    ensures value { IfOk result (λ units. accepted_of file.now ≡ Ok (map unit_tree units.items)) }
    ensures sound { IfOk result (λ units. HasSoundProgram (map unit_tree units.items)) }

    // A refusal is the first one of the file, and a file that has one is not accepted.
    ensures refused { (r : Refusal) → IsErrOf result r → (r ≡ Source fault.Memory) ⊎ (accepted_of file.now ≡ Err r) }
    ensures none { (r : Refusal) (units : List SourceUnit) → IsErrOf result r → IsAccepted file.now units → r ≡ Source fault.Memory }
{
    match first_answer(alloc, file) {
        Ok(units) => Ok(units),
        Err(refusal) => Err(refusal),
    }
}
