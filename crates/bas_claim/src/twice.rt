//! Names that stand twice.

ghost use Rattle.std.specs.Prelude.{◌≡◌, ℕ, List, [], IfOk};
ghost use Rattle.std.specs.Ordering.{nat_cmp};
ghost use Rattle.std.specs.Cmp.Lexicographic.{slice_cmp};
ghost use Rattle.std.specs.BTreeSet.{contains};
ghost use Rattle.bas_rules.specs.Naming.{has_twice as has_twice_of};
ghost use Rattle.bas_claim.specs.Sets.{HasNames};

use bas_base::Name;
use std::alloc::{AllocError, Global};
use std::collections::BTreeSet;

// Puts the names into a set that has none.
#[tactic(auto, using(crate::proofs::Doubles::first_is_new))]
fn put_all(names: &[Name], set: &mut BTreeSet<Name>) -> Result<bool, AllocError>
    requires { HasNames set.old [] }
    ensures { IfOk result (λ twice. (twice ≡ has_twice_of names.now) × HasNames set.new names.now) }
{
    match names.split_first() {
        None => Ok(false),
        Some((name, others)) => {
            let is_later = put_all(others, set)?;
            let is_new = set.insert(*name)?;
            Ok(!is_new || is_later)
        }
    }
}

/// Whether a name stands twice among some.
pub fn has_twice(alloc: Global, names: &[Name]) -> Result<bool, AllocError>
    ensures { IfOk result (λ twice. twice ≡ has_twice_of names.now) }
{
    put_all(names, &mut BTreeSet::new(alloc))
}

/// The set of some names.
pub(crate) fn set_of(alloc: Global, names: &[Name]) -> Result<BTreeSet<Name>, AllocError>
    ensures { IfOk result (λ set. HasNames set names.now) }
{
    let mut set = BTreeSet::new(alloc);
    put_all(names, &mut set)?;
    Ok(set)
}
