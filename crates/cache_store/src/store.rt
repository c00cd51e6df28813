//! A store: files of the cache over a disk, and the parts by which they are written.
use crate::part::Part;
use disk_base::Disk;

/// Files under their names over a disk, each beside a record of its digests, and the open parts.
/// After a fault of the disk it isn't live, and can only be taken apart.
#[derive(Drop)]
pub struct Store<D: Disk> {
    pub(crate) disk: D,
    pub(crate) parts: Vec<Option<Part>>,
    pub(crate) live: bool,
}

impl<D: Disk> Store<D> {
    ghost use Rattle.std.specs.Prelude.{◌≡◌};
    ghost use Rattle.cache_store.specs.Stands.{disk_of, is_live};

    pub fn is_live(&self) -> bool
        ensures { result ≡ is_live self.now }
    {
        self.live
    }

    /// The disk as it is. Open parts stay there.
    pub fn into_disk(self) -> D
        ensures { result ≡ disk_of self }
    {
        let Store { disk, .. } = self;
        disk
    }
}
