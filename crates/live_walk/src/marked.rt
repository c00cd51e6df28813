//! Sets of exclusions with marks.
ghost use Rattle.std.specs.Prelude.{◌≡◌, IfOk};
ghost use Rattle.exclusion_sets.specs.Exclusions.{is_excluded, is_within, join_of};

use super::mark::{cover_mask, own_mask};
use exclusion_sets::ExclSet;
use res_base::{Copied, Module, NoMemory};
use std::alloc::Global;
use std::marker::Model;

/// A set of exclusions with its marks. Contracts see the set.
#[derive(Drop)]
pub(crate) struct MarkedSet {
    set: ExclSet,
    /// The bits that its rules leave.
    own: u64,
    /// The bits that the rules leave of each set that is within this one, at the least.
    cover: u64,
}

impl Model for MarkedSet {
    ghost use Rattle.std.specs.Prelude.{◌≡◌};
    ghost use Rattle.exclusion_sets.specs.declared.excl_set.ExclSet.{ExclSet as Set};
    ghost use Rattle.live_walk.specs.Marks.{cover_mask, own_mask};

    ghost Value = { Set };

    ghost view = { λ marked. marked.set };

    ghost invariant = { λ marked.
        (marked.own ≡ own_mask marked.set.rules) × (marked.cover ≡ cover_mask marked.set.rules) };
}

impl MarkedSet {
    pub fn of(set: ExclSet) -> MarkedSet
        ensures { result ≡ set }
    {
        let own = own_mask(set.rules.as_slice());
        let cover = cover_mask(set.rules.as_slice());
        MarkedSet { set, own, cover }
    }

    pub fn excludes(&self, module: &Module) -> bool
        ensures { result ≡ is_excluded self.now «module».now }
    {
        self.set.excludes(module)
    }

    /// Whether each rule is covered by one rule of the other set. Most sets that aren't within each
    /// other have marks that say so.
    pub fn within(&self, other: &MarkedSet) -> bool
        ensures { result ≡ is_within self.now other.now }
    {
        if self.own & other.cover != other.cover {
            return false;
        }
        self.set.within(&other.set)
    }

    pub fn join(&self, alloc: Global, other: &ExclSet) -> Result<MarkedSet, NoMemory>
        ensures { IfOk result (λ joined. joined ≡ join_of self.now other.now) }
    {
        Ok(MarkedSet::of(self.set.join(alloc, other)?))
    }
}

impl Copied for MarkedSet {
    fn copy(&self, alloc: Global) -> Result<MarkedSet, NoMemory> {
        Ok(MarkedSet {
            set: self.set.copy(alloc)?,
            own: self.own,
            cover: self.cover,
        })
    }
}
