//! The least sets of exclusions under which a module is reached.
ghost use Rattle.std.specs.Prelude.{◌≡◌, [], OnOk};
ghost use Rattle.exclusion_sets.specs.Minimal.{covering_place, without_covered};

use super::marked::MarkedSet;
use res_base::{List, NoMemory};
use std::alloc::Global;
use std::mem::replace;

/// The least sets of those that were put in: a set goes as soon as one comes that is within it.
#[derive(Drop)]
pub(crate) struct LeastSets {
    pub sets: List<MarkedSet>,
}

impl LeastSets {
    pub fn new(alloc: Global) -> LeastSets
        ensures { result.sets ≡ [] }
    {
        LeastSets {
            sets: List::new(alloc),
        }
    }

    /// The place of the first set that is within this one.
    pub fn place_within(&self, set: &MarkedSet) -> Option<usize>
        ensures { result ≡ covering_place self.now.sets set.now }
    {
        self.sets
            .as_slice()
            .iter()
            .position(|kept| kept.within(set))
    }

    /// Takes out the sets that the new one is within, and puts that last.
    pub fn put(&mut self, alloc: Global, set: MarkedSet) -> Result<(), NoMemory>
        ensures { OnOk result (self.new.sets ≡ without_covered self.old.sets set) }
    {
        let mut kept = replace(&mut self.sets, List::new(alloc)).into_vec();
        kept.retain(|one| !set.within(one));
        kept.push(set)?;
        self.sets = List::from_vec(kept);
        Ok(())
    }
}
