//! Sets of exclusions, put to the modules that are reached under them.
ghost use Rattle.std.specs.Prelude.{◌≡◌, IfOk, OnOk, is_none};
ghost use Rattle.exclusion_sets.specs.Minimal.{covering_place, sets_after};

use super::least::LeastSets;
use super::marked::MarkedSet;
use res_base::NoMemory;
use std::alloc::Global;

/// Adds a set, unless a kept one is within it, and says whether it was added.
pub(crate) fn put_in(alloc: Global, kept: &mut LeastSets, set: MarkedSet) -> Result<bool, NoMemory>
    ensures sets { OnOk result (kept.new.sets ≡ sets_after kept.old.sets set) }
    ensures answer { IfOk result (λ new. new ≡ is_none (covering_place kept.old.sets set)) }
{
    match kept.place_within(&set) {
        Some(_) => Ok(false),
        None => {
            kept.put(alloc, set)?;
            Ok(true)
        }
    }
}
