//! What is done with any disk.
ghost use Rattle.std.specs.Prelude.{OnOk};
ghost use Rattle.disk_base.specs.Names.{IsBoundIn};

use cache_layout::Found;
use cache_reads::Upgraded;
use disk_base::{Disk, DiskErr};
use std::alloc::{AllocError, Global};

/// The name of the file.
pub(crate) const NAME: &str = "http/r1/x";

/// The name of its record.
pub(crate) const RECORD: &str = "records/http/r1/x";

/// The name of its absence record.
pub(crate) const GONE: &str = "gone/http/r1/x";

/// Binds a name to these bytes.
pub(crate) fn write<D: Disk>(
    alloc: Global,
    disk: &mut D,
    name: &str,
    bytes: &[u8],
) -> Result<(), DiskErr>
    ensures { OnOk result (IsBoundIn (D.told disk.new) name.now) }
{
    disk.start(alloc, name)?;
    disk.append(alloc, name, bytes)
}

/// What was found, in a few words.
pub(crate) fn found_words(alloc: Global, found: &Found) -> Result<String, AllocError> {
    match found {
        Found::Whole(entry) => format!(in alloc; "whole {}", entry.moment),
        Found::Gone(moment) => format!(in alloc; "gone {moment}"),
        Found::Nothing => format!(in alloc; "nothing"),
        Found::Broken { wanted: None, got } => {
            let second = got.sha256.is_some();
            format!(in alloc; "broken: nothing wanted, {} bytes, {second}", got.length)
        }
        Found::Broken {
            wanted: Some(wanted),
            got,
        } => {
            let second = got.sha256.is_some();
            format!(in alloc;
                "broken: {} wanted, {} bytes, {second}",
                wanted.length, got.length
            )
        }
    }
}

/// What an upgrade comes to, in a few words.
pub(crate) fn upgraded_words(alloc: Global, up: &Upgraded) -> Result<String, AllocError> {
    match up {
        Upgraded::Already(entry) => format!(in alloc; "already {}", entry.moment),
        Upgraded::Done(entry) => {
            let second = entry.sha256.is_some();
            format!(in alloc; "done {} {second}", entry.moment)
        }
        Upgraded::Not => format!(in alloc; "not"),
    }
}
