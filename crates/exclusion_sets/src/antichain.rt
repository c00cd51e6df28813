//! Sets of exclusions of which none is within another.
ghost use Rattle.std.specs.Prelude.{◌≡◌, ◌↔◌, ℕ, ◌<◌, [], IsTrue, OnOk, OnErr};
ghost use Rattle.exclusion_sets.specs.Minimal.{IsMinimal, covering_place, without_covered, sets_after};
ghost use Rattle.exclusion_sets.specs.Additions.{answer_at};

use super::ExclSet;
use res_base::{List, NoMemory};
use std::alloc::Global;
use std::marker::Model;
use std::mem::replace;

/// What became of a set that was to be added.
#[derive(Clone, Copy, Debug, PartialEq, Eq, Drop)]
pub enum Added {
    /// It stands last.
    Added,
    /// The set at this place, and none before it, is within the new one.
    Covered(usize),
}

/// Whether two answers are one.
pub fn is_same_added(one: Added, other: Added) -> bool
    ensures { IsTrue result ↔ (one ≡ other) }
{
    one == other
}

/// The least sets of those that were added: a set goes as soon as one comes that is within it.
/// Contracts see the sets, and how many more of them take no memory.
#[derive(Drop)]
pub struct Antichain {
    pub sets: List<ExclSet>,
    /// Where the sets move when one is added.
    spare: Vec<ExclSet>,
}

impl Model for Antichain {
    ghost use Rattle.std.specs.Prelude.{◌≡◌, ◌-◌, [], length, vec_capacity};
    ghost use Rattle.exclusion_sets.specs.Kept.{Kept};

    ghost Value = { Kept };

    ghost view = { λ chain. record { sets = chain.sets; room = vec_capacity chain.spare - length chain.sets } };

    ghost invariant = { λ chain. chain.spare.items ≡ [] };
}

impl Antichain {
    pub fn new(alloc: Global) -> Antichain
        ensures { result.sets ≡ [] }
    {
        Antichain {
            sets: List::new(alloc),
            spare: Vec::new(alloc),
        }
    }

    /// Makes room for one more set.
    pub fn add_room(&mut self) -> Result<(), NoMemory>
        ensures sets { self.new.sets ≡ self.old.sets }
        ensures ok { OnOk result (0 < self.new.room) }
        ensures err { OnErr result (self.new ≡ self.old) }
    {
        let wanted = self.sets.as_slice().len() + 1;
        self.spare.reserve(wanted)?;
        Ok(())
    }

    /// The place of the first set that is within this one.
    fn place_within(&self, set: &ExclSet) -> Option<usize>
        ensures { result ≡ covering_place self.now.sets set.now }
    {
        self.sets
            .as_slice()
            .iter()
            .position(|kept| kept.within(set))
    }

    /// Takes out the sets that the new one is within, and puts that last.
    fn put(&mut self, set: ExclSet)
        requires { 0 < self.old.room }
        ensures { self.new.sets ≡ without_covered self.old.sets set }
    {
        let alloc = *self.spare.allocator();
        let mut kept = replace(&mut self.sets, List::new(alloc)).into_vec();
        let mut next = replace(&mut self.spare, Vec::new(alloc));
        next.append(&mut kept).unwrap();
        next.retain(|one| !set.within(one));
        next.push(set).unwrap();
        self.sets = List::from_vec(next);
        self.spare = kept;
    }

    /// Adds a set, unless a kept one is within it: that one is as good, since it excludes no more.
    /// It takes no memory.
    ///
    /// After `Added` the new set stands last, after those that it is not within, in their order.
    /// After `Covered` nothing has changed.
    pub fn add(&mut self, set: ExclSet) -> Added
        requires { 0 < self.old.room }
        ensures answer { result ≡ answer_at (covering_place self.old.sets set) }
        ensures sets { self.new.sets ≡ sets_after self.old.sets set }
        ensures covered { (place : ℕ) → result ≡ Added.Covered place → self.new ≡ self.old }
        ensures minimal { IsMinimal self.old.sets → IsMinimal self.new.sets }
    {
        match self.place_within(&set) {
            Some(place) => Added::Covered(place),
            None => {
                self.put(set);
                Added::Added
            }
        }
    }
}
