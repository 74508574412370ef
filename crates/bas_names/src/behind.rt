//! What is put into a map behind what is there.

ghost use Rattle.std.specs.Prelude.{◌≡◌, ℕ, List, Some, None, IfOk, if◌then◌else◌};
ghost use Rattle.std.specs.Option.{option_or};
ghost use Rattle.std.specs.Ordering.{nat_cmp};
ghost use Rattle.std.specs.Cmp.Lexicographic.{slice_cmp};
ghost use Rattle.std.specs.Str.{bytes_eq};
ghost use Rattle.std.specs.BTreeMap.{get};

use bas_base::Name;
use std::alloc::AllocError;
use std::collections::BTreeMap;

/// Gives a name a value where it has none.
pub fn put_behind<V: Drop>(
    map: &mut BTreeMap<Name, V>,
    name: Name,
    value: V,
) -> Result<(), AllocError>
    ensures { IfOk result (λ _. (other : List ℕ) → get (slice_cmp nat_cmp) map.new other ≡ option_or (get (slice_cmp nat_cmp) map.old other) (if bytes_eq other name then Some value else None)) }
{
    if !map.contains_key(&name) {
        map.insert(name, value)?;
    }
    Ok(())
}
