//! Managed lists that are built once.
ghost use Rattle.std.specs.Prelude.{◌≡◌, []};
ghost use Rattle.std.specs.Option.{option_copied, option_map};
ghost use Rattle.pom_build.specs.Tries.{kept_at};

use res_base::{Coord, DepRecord, List};
use std::alloc::Global;
use std::collections::BTreeMap;

/// The managed list of a project, and with how many levels it can be built.
#[derive(Drop)]
pub(crate) struct Kept {
    pub rows: List<DepRecord>,
    pub levels: u32,
}

/// The managed lists that were built so far, by their projects.
#[derive(Drop)]
pub(crate) struct Memo {
    pub kept: BTreeMap<Coord, Kept>,
}

impl Memo {
    pub fn new(alloc: Global) -> Memo
        ensures { result.kept.entries ≡ [] }
    {
        Memo {
            kept: BTreeMap::new(alloc),
        }
    }

    /// With how many levels the list of a project was built, if it was.
    pub fn levels(&self, coord: &Coord) -> Option<u32>
        ensures { result ≡ option_map (λ kept. kept.levels) (kept_at self.now coord.now) }
    {
        match self.kept.get(coord) {
            None => None,
            Some(kept) => Some(kept.levels),
        }
    }

    pub fn at(&self, coord: &Coord) -> Option<&Kept>
        ensures { option_copied result ≡ kept_at self.now coord.now }
    {
        self.kept.get(coord)
    }
}
