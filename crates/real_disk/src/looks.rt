//! What stands at a path of the system.
ghost use Rattle.std.specs.Prelude.{◌≡◌, ◌↔◌, IsTrue};
ghost use Rattle.std.specs.IoError.{error_kind};
ghost use Rattle.real_disk.specs.DiskLooks.{IsLookOf, SaysAbsent};

use crate::places::{Place, folder_before};
use std::fs::{Files, Metadata};
use std::io;
use std::io::ErrorKind;

/// What stands at a path. What is neither a folder nor a file, as a link, is something else, and so
/// is what the system does not tell of.
#[derive(Clone, Copy, PartialEq, Eq)]
pub(crate) enum Look {
    Folder,
    File,
    Absent,
    Other,
}

/// Whether an error says that nothing is there: none of that name, a name that goes through a file,
/// or one that is too long for the system.
fn says_absent(error: &io::Error) -> bool
    ensures { IsTrue result ↔ SaysAbsent (error_kind error.now) }
{
    let kind = error.kind();
    kind == ErrorKind::NotFound
        || kind == ErrorKind::NotADirectory
        || kind == ErrorKind::InvalidFilename
}

/// What the system's answer to a look at a path says.
fn look_of(outcome: io::Result<Metadata>) -> Look
    ensures { IsLookOf outcome result }
{
    match outcome {
        Ok(metadata) if metadata.is_dir() => Look::Folder,
        Ok(metadata) if metadata.is_file() => Look::File,
        Ok(_) => Look::Other,
        Err(error) => {
            if says_absent(&error) {
                Look::Absent
            } else {
                Look::Other
            }
        }
    }
}

/// What stands at a path itself. A link there is not followed.
pub(crate) fn stands_at<R: Files>(runtime: &R, path: &str) -> Look {
    look_of(runtime.symlink_metadata(path))
}

/// What stands at a path, or where a link there leads.
pub(crate) fn stands_behind<R: Files>(runtime: &R, path: &str) -> Look {
    look_of(runtime.metadata(path))
}

/// What stands on the way to a place, from the disk's folder down: folders alone, or what the first
/// other one is. Nothing stands below a file.
fn look_along<R: Files>(runtime: &R, place: &Place) -> Look {
    let path = place.path.as_str();
    for end in place.from..path.len() {
        if let Some(folder) = folder_before(path, end) {
            match stands_at(runtime, folder) {
                Look::Folder => {}
                Look::File | Look::Absent => return Look::Absent,
                Look::Other => return Look::Other,
            }
        }
    }
    Look::Folder
}

/// What stands at a place, where no link on the way is followed.
pub(crate) fn find_place<R: Files>(runtime: &R, place: &Place) -> Look {
    match look_along(runtime, place) {
        Look::Folder => stands_at(runtime, place.path.as_str()),
        other => other,
    }
}
