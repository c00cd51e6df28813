//! Laws of disks without files, with nothing to run.
ghost use Rattle.std.specs.Prelude.{◌≡◌, Some};
ghost use Rattle.cache_images.specs.Sound.{IsFaithful};
ghost use Rattle.disk_base.specs.MemoryMembers.{told_of};
ghost use Rattle.disk_base.specs.Names.{no_names};
ghost use Rattle.disk_base.specs.declared.memory_disk.MemDisk.{MemDisk};
ghost use Rattle.fetch_pool.specs.Turns.{AllNow};
ghost use Rattle.link_base.specs.Links.{Rows};

/// A law: a disk without files is faithful to every world.
pub(crate) fn empty_disks()
    ensures { (disk : MemDisk) (w : Rows) → told_of disk ≡ Some no_names → AllNow told_of (IsFaithful w) disk }
{}
