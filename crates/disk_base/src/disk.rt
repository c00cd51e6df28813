//! Disks.
ghost use Rattle.std.specs.Prelude.{◌≡◌, ◌≤◌, [], ◌∷◌, ℕ, List, Option, IfOk, OnOk, length};
ghost use Rattle.std.specs.Option.{ForSome};
ghost use Rattle.res_base.specs.Causes.{HasCause};
ghost use Rattle.disk_base.specs.Calls.{NamesLast};
ghost use Rattle.disk_base.specs.Images.{Image, IsImageOf};
ghost use Rattle.disk_base.specs.Names.{Names, IsBoundIn, read_name};
ghost use Rattle.disk_base.specs.Reads.{AnswersRead, AreListed, FitsRoom};
ghost use Rattle.disk_base.specs.Runs.{Done, Ran};
ghost use Rattle.disk_base.specs.declared.disk_errors.DiskCall.{DiskCall};

use crate::{DiskCall, DiskErr, DiskStep};
use res_base::{List, Text};
use std::alloc::Global;

/// What a read found: so many bytes, which stand at the start of the room; or no such name.
#[derive(Clone, Copy, Debug, PartialEq, Eq)]
pub enum Read {
    Bytes(usize),
    Missing,
}

/// Names that are bound to contents.
///
/// A disk in memory tells what its names are bound to. A real one tells nothing of it, and then no
/// clause speaks of its names or of what a crash may leave; the same code runs over it.
///
/// Between two syncs of a content, what was appended since the last one may be any bytes of any
/// number; what was synced stays. After a crash each name by itself has one of the bindings that
/// it had since the names were synced last. A rename is one step. Of a call that failed the effect
/// may stand or not.
pub trait Disk: Drop {
    /// What each name is bound to, where it is told.
    ghost told: { Self → Option Names };

    /// The moment, as a number that doesn't fall.
    ghost moment: { Self → ℕ };

    /// What a crash at some moment from that one on may leave, or might have left, in a call or
    /// between two.
    ghost since: { Self → ℕ → Image → Type 0 };

    /// How often it failed.
    ghost faults: { Self → ℕ };

    /// The kind of the call that failed last, if one did.
    ghost last: { Self → Option DiskCall };

    /// Reads the bytes of a name from a place on, as many as there are and as the room holds.
    fn read_at(
        &mut self,
        alloc: Global,
        name: &str,
        at: u64,
        into: &mut [u8],
    ) -> Result<Read, DiskErr>
        ensures ran { Ran told moment since [] self.old self.new }
        ensures answer { ForSome (told self.old)
            (λ s. IfOk result (AnswersRead (read_name s name.now) at into.new)) }
        ensures within { IfOk result (FitsRoom at (length into.old)) }
        ensures room { length into.new ≡ length into.old }
        ensures cause { HasCause DiskErr.Failed (faults self.old) (faults self.new) result }
        ensures last { NamesLast DiskCall.Read (last self.old) (last self.new) result };

    /// Binds a name to new empty content.
    fn start(&mut self, alloc: Global, name: &str) -> Result<(), DiskErr>
        ensures ran { Ran told moment since (DiskStep.Start name.now ∷ []) self.old self.new }
        ensures done { OnOk result (Done told (DiskStep.Start name.now ∷ []) self.old self.new) }
        ensures cause { HasCause DiskErr.Failed (faults self.old) (faults self.new) result }
        ensures last { NamesLast DiskCall.Start (last self.old) (last self.new) result };

    /// Puts bytes at the end of a content. Until it is synced they may be any bytes of any number.
    fn append(&mut self, alloc: Global, name: &str, bytes: &[u8]) -> Result<(), DiskErr>
        requires { IsBoundIn (told self.old) name.now }
        ensures ran { Ran told moment since (DiskStep.Append name.now bytes.now ∷ []) self.old self.new }
        ensures done { OnOk result (Done told (DiskStep.Append name.now bytes.now ∷ []) self.old self.new) }
        ensures cause { HasCause DiskErr.Failed (faults self.old) (faults self.new) result }
        ensures last { NamesLast DiskCall.Append (last self.old) (last self.new) result };

    /// Makes a content firm.
    fn sync(&mut self, alloc: Global, name: &str) -> Result<(), DiskErr>
        requires { IsBoundIn (told self.old) name.now }
        ensures ran { Ran told moment since (DiskStep.Sync name.now ∷ []) self.old self.new }
        ensures done { OnOk result (Done told (DiskStep.Sync name.now ∷ []) self.old self.new) }
        ensures cause { HasCause DiskErr.Failed (faults self.old) (faults self.new) result }
        ensures last { NamesLast DiskCall.Sync (last self.old) (last self.new) result };

    /// Binds a name to what another one is bound to, which becomes unbound.
    fn rename(&mut self, alloc: Global, from: &str, to: &str) -> Result<(), DiskErr>
        requires { IsBoundIn (told self.old) from.now }
        ensures ran { Ran told moment since (DiskStep.Rename from.now to.now ∷ []) self.old self.new }
        ensures done { OnOk result (Done told (DiskStep.Rename from.now to.now ∷ []) self.old self.new) }
        ensures cause { HasCause DiskErr.Failed (faults self.old) (faults self.new) result }
        ensures last { NamesLast DiskCall.Rename (last self.old) (last self.new) result };

    /// Unbinds a name. It needn't be bound.
    fn remove(&mut self, alloc: Global, name: &str) -> Result<(), DiskErr>
        ensures ran { Ran told moment since (DiskStep.Remove name.now ∷ []) self.old self.new }
        ensures done { OnOk result (Done told (DiskStep.Remove name.now ∷ []) self.old self.new) }
        ensures cause { HasCause DiskErr.Failed (faults self.old) (faults self.new) result }
        ensures last { NamesLast DiskCall.Remove (last self.old) (last self.new) result };

    /// After it a crash leaves each name bound as it is.
    fn sync_names(&mut self, alloc: Global) -> Result<(), DiskErr>
        ensures ran { Ran told moment since (DiskStep.SyncNames ∷ []) self.old self.new }
        ensures done { OnOk result (Done told (DiskStep.SyncNames ∷ []) self.old self.new) }
        ensures cause { HasCause DiskErr.Failed (faults self.old) (faults self.new) result }
        ensures last { NamesLast DiskCall.SyncNames (last self.old) (last self.new) result };

    /// The bound names that begin so, by bytes.
    fn list(&mut self, alloc: Global, prefix: &str) -> Result<List<Text>, DiskErr>
        ensures ran { Ran told moment since [] self.old self.new }
        ensures answer { ForSome (told self.old) (λ s. IfOk result (AreListed s prefix.now)) }
        ensures cause { HasCause DiskErr.Failed (faults self.old) (faults self.new) result }
        ensures last { NamesLast DiskCall.List (last self.old) (last self.new) result };

    /// This moment is one of those since an earlier one.
    ghost counts_now: { (disk : Self) (t : ℕ) (i : Image) → t ≤ moment disk
        → IsImageOf (told disk) i → since disk t i };

    /// Since this moment there is no other.
    ghost only_now: { (disk : Self) (i : Image) → since disk (moment disk) i → IsImageOf (told disk) i };
}
