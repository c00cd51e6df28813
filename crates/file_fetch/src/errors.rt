//! Why a file was not got.
ghost use Rattle.std.specs.Prelude.{◌≡◌};
ghost use Rattle.cache_store.specs.Causes.{IsFromDisk};
ghost use Rattle.file_fetch.specs.Causes.{link_fault, store_fault};
ghost use Rattle.file_fetch.specs.declared.errors.GetErr.TheVariants.{NoMemory as OutOfMemory};

use cache_store::StoreErr;
use disk_base::DiskCall;
use link_base::LinkErr;
use res_base::NoMemory;

/// Why a file was not got.
#[derive(Clone, Copy, Debug, PartialEq, Eq, Drop)]
pub enum GetErr {
    /// The link failed.
    Link,
    /// The cache has nothing that is usable, and nobody may be asked.
    NotCached,
    /// The disk failed, at a call of this kind. The store is no longer live.
    Disk(DiskCall),
    /// Out of memory. A part may be left open; if the want came from the disk, the store is no
    /// longer live.
    NoMemory,
}

impl From<NoMemory> for GetErr {
    ghost from_gives = { λ _ e. e ≡ OutOfMemory };

    fn from(_: NoMemory) -> GetErr {
        GetErr::NoMemory
    }
}

/// What is said of a link that gave no answer.
pub(crate) fn link_fault(err: LinkErr) -> GetErr
    ensures { result ≡ link_fault err }
{
    match err {
        LinkErr::Failed => GetErr::Link,
        LinkErr::NoMemory => GetErr::NoMemory,
    }
}

/// What is said of a store whose disk gave no answer.
pub(crate) fn store_fault(err: StoreErr) -> GetErr
    requires { IsFromDisk err }
    ensures { result ≡ store_fault err }
{
    match err {
        StoreErr::DiskFault(call) => GetErr::Disk(call),
        StoreErr::NoMemory => GetErr::NoMemory,
        StoreErr::Full => unreachable!(),
        StoreErr::PartUnknown(_) => unreachable!(),
        StoreErr::Differs(_, _) => unreachable!(),
    }
}
