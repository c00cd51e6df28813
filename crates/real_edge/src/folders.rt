//! Folders that `file:` addresses name, and the files in them.
ghost use Rattle.std.specs.Prelude.{◌≡◌, ◌++◌, ◌↔◌, ◌⊎◌, IfOk, IfErr, IfSome, IfNone, IsTrue, codes};
ghost use Rattle.std.specs.IoError.{error_kind};
ghost use Rattle.real_edge.specs.SystemFiles.{IsNoFolder, SaysAbsent, IsFoundOfError, IsLook};
ghost use Rattle.res_base.specs.Paths.{url_at};

use link_base::{Address, read_address};
use res_base::{NoMemory, Text, url_of};
use std::alloc::Global;
use std::fs::{Files, Metadata, OpenFile};
use std::io;
use std::io::ErrorKind;

/// What stands under a name: a file to read, nothing, or what can't be read as a file.
#[derive(Drop)]
pub(crate) enum Found<F> {
    File(F),
    Absent,
    Fault,
}

/// The name of the file with a path in the folder of an address: with `file:` before it, it is the
/// URL. An address that names no folder has no such file.
pub(crate) fn file_name(alloc: Global, address: &str, path: &str) -> Result<Option<Text>, NoMemory>
    ensures name { IfOk result (λ found. IfSome found (λ name. codes "file:" ++ name ≡ url_at address.now path.now)) }
    ensures none { IfOk result (λ found. IfNone found (IsNoFolder address.now)) }
{
    match read_address(address) {
        Some(Address::Folder(folder)) => Ok(Some(url_of(alloc, folder, path)?)),
        Some(Address::Http(_)) => Ok(None),
        None => Ok(None),
    }
}

/// Whether an error says that there is no such file: none of that name, a name that goes through
/// a file, or one that is too long for the system.
fn says_absent(error: &io::Error) -> bool
    ensures { IsTrue result ↔ SaysAbsent (error_kind error.now) }
{
    let kind = error.kind();
    kind == ErrorKind::NotFound
        || kind == ErrorKind::NotADirectory
        || kind == ErrorKind::InvalidFilename
}

/// What is found where the system answered with an error.
fn found_of_error<F>(error: &io::Error) -> Found<F>
    ensures { IsFoundOfError error.now result }
{
    if says_absent(error) {
        Found::Absent
    } else {
        Found::Fault
    }
}

/// What is found where the system looked at a name. What is no file, as a folder, is a fault.
fn look_at<F: Drop>(file: F, look: io::Result<Metadata>) -> Found<F>
    ensures { IsLook file look result }
{
    match look {
        Ok(metadata) if metadata.is_file() => Found::File(file),
        Ok(_) => Found::Fault,
        Err(error) => found_of_error(&error),
    }
}

/// What is found where the system opened a file. It is looked at once more: what stood there may
/// have become something else since the first look.
fn opened<F: OpenFile + Drop>(outcome: io::Result<F>) -> Found<F>
    ensures file { IfOk outcome (λ file. (result ≡ Found.File file) ⊎ (result ≡ Found.Fault)) }
    ensures error { IfErr outcome (λ error. IsFoundOfError error result) }
{
    match outcome {
        Ok(file) => match file.metadata() {
            Ok(now) if now.is_file() => Found::File(file),
            _ => Found::Fault,
        },
        Err(error) => found_of_error(&error),
    }
}

/// Opens the file with a name. It is looked at first, since opening a pipe would wait.
pub(crate) fn find<R: Files>(runtime: &R, name: &str) -> Found<R::File> {
    match look_at((), runtime.metadata(name)) {
        Found::File(()) => opened(std::fs::open(runtime, name)),
        Found::Absent => Found::Absent,
        Found::Fault => Found::Fault,
    }
}
