//! Disks below folders.
ghost use Rattle.std.specs.Prelude.{◌≡◌, None};
ghost use Rattle.res_base.specs.Causes.{HasCause};
ghost use Rattle.disk_base.specs.Calls.{NamesLast};

use crate::files::DiskFiles;
use disk_base::{Disk, DiskCall, DiskErr, Read};
use res_base::{List, Text};
use std::alloc::Global;
use std::fs::Files;

/// The files below one folder of the system. The folder is made at the first start or rename, with
/// its parents, where it is not there.
///
/// A name has steps with a slash between two, none of them empty, `.` or `..`, and does not begin
/// with `~`; another text is a fault. A link of the file system below the folder is not followed: a
/// name that goes through one, or that is one, is a fault, and is not listed. `sync` is an fsync of
/// the file, `sync_names` one of every folder in which a name changed since the last one. No file is
/// open between two calls.
#[derive(Drop)]
pub struct FolderDisk<R> {
    files: DiskFiles<R>,
    faults: u64,
    last: Option<DiskCall>,
}

impl<R: Files + Alloc + Clone + Drop> FolderDisk<R> {
    /// The disk below a folder, of which nothing is asked yet. An empty path is the folder in which
    /// the program runs.
    pub fn new(alloc: Global, runtime: R, folder: Text) -> FolderDisk<R>
        ensures faults { ⟦<FolderDisk<R> as Disk>⟧.faults result ≡ 0 }
        ensures last { ⟦<FolderDisk<R> as Disk>⟧.last result ≡ None }
    {
        FolderDisk {
            files: DiskFiles::new(alloc, runtime, folder),
            faults: 0,
            last: None,
        }
    }

    // Counts and notes a call that failed.
    fn noted<T: Drop>(&mut self, call: DiskCall, outcome: Result<T, DiskErr>) -> Result<T, DiskErr>
        ensures same { result ≡ outcome }
        ensures cause { HasCause DiskErr.Failed self.old.faults self.new.faults outcome }
        ensures last { NamesLast call self.old.last self.new.last outcome }
    {
        if let Err(DiskErr::Failed) = &outcome {
            self.faults = self.faults.saturating_add(1);
            self.last = Some(call);
        }
        outcome
    }
}

impl<R: Files + Alloc + Clone + Drop> Disk for FolderDisk<R> {
    ghost told = { λ disk. None };

    ghost moment = { λ disk. 0 };

    ghost since = { λ disk t i. ⊥ };

    ghost faults = { λ disk. disk.faults };

    ghost last = { λ disk. disk.last };

    ghost counts_now = { λ disk t i l h. h };

    ghost only_now = { λ disk i h. h };

    fn read_at(
        &mut self,
        alloc: Global,
        name: &str,
        at: u64,
        into: &mut [u8],
    ) -> Result<Read, DiskErr> {
        let outcome = self.files.read_at(alloc, name, at, into);
        self.noted(DiskCall::Read, outcome)
    }

    fn start(&mut self, alloc: Global, name: &str) -> Result<(), DiskErr> {
        let outcome = self.files.start(alloc, name);
        self.noted(DiskCall::Start, outcome)
    }

    fn append(&mut self, alloc: Global, name: &str, bytes: &[u8]) -> Result<(), DiskErr> {
        let outcome = self.files.append(alloc, name, bytes);
        self.noted(DiskCall::Append, outcome)
    }

    fn sync(&mut self, alloc: Global, name: &str) -> Result<(), DiskErr> {
        let outcome = self.files.sync(alloc, name);
        self.noted(DiskCall::Sync, outcome)
    }

    fn rename(&mut self, alloc: Global, from: &str, to: &str) -> Result<(), DiskErr> {
        let outcome = self.files.rename(alloc, from, to);
        self.noted(DiskCall::Rename, outcome)
    }

    fn remove(&mut self, alloc: Global, name: &str) -> Result<(), DiskErr> {
        let outcome = self.files.remove(alloc, name);
        self.noted(DiskCall::Remove, outcome)
    }

    fn sync_names(&mut self, _alloc: Global) -> Result<(), DiskErr> {
        let outcome = self.files.sync_names();
        self.noted(DiskCall::SyncNames, outcome)
    }

    fn list(&mut self, alloc: Global, prefix: &str) -> Result<List<Text>, DiskErr> {
        let outcome = self.files.list(alloc, prefix);
        self.noted(DiskCall::List, outcome)
    }
}
