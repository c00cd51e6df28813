//! The files of a disk, below one folder.
ghost use Rattle.std.specs.Prelude.{◌≡◌, IfOk, length};
ghost use Rattle.disk_base.specs.Reads.{FitsRoom};

use crate::looks::{Look, find_place, stands_at, stands_behind};
use crate::places::{FRESH, Place, folder_before, folder_of, place_of};
use crate::reads::{as_disk, opened, read_from};
use disk_base::{DiskErr, Read};
use indexmap::IndexSet;
use res_base::{Text, url_of};
use std::alloc::Global;
use std::fs::{Files, OpenFile, OpenOptions};
use std::io::Write;

/// The files below a folder. What touches the system goes by places, and follows no link below the
/// folder; the folder itself may be reached through links.
#[derive(Drop)]
pub(crate) struct DiskFiles<R> {
    pub(crate) runtime: R,
    folder: Text,
    /// The folders in which names changed since the last sync of names, or were about to.
    changed: IndexSet<Text>,
}

impl<R: Files + Drop> DiskFiles<R> {
    pub(crate) fn new(alloc: Global, runtime: R, folder: Text) -> DiskFiles<R> {
        DiskFiles {
            runtime,
            folder,
            changed: IndexSet::new(alloc),
        }
    }

    // The folder's path. Without one it is the folder in which the program runs.
    pub(crate) fn root(&self) -> &str {
        if self.folder.is_empty() {
            "."
        } else {
            self.folder.as_str()
        }
    }

    // Where a name stands. A text that is no name is refused.
    pub(crate) fn place(&self, alloc: Global, name: &str) -> Result<Place, DiskErr> {
        match place_of(alloc, self.root(), name)? {
            Some(place) => Ok(place),
            None => Err(DiskErr::Failed),
        }
    }

    // Notes that the name of a path changes in its folder. It is noted before it changes.
    fn note(&mut self, alloc: Global, path: &str) -> Result<(), DiskErr> {
        let folder = Text::of(alloc, folder_of(path))?;
        self.changed.insert(folder)?;
        Ok(())
    }

    // Makes a folder where none is.
    fn make_folder(&mut self, alloc: Global, path: &str, is_below: bool) -> Result<(), DiskErr> {
        let found = if is_below {
            stands_at(&self.runtime, path)
        } else {
            stands_behind(&self.runtime, path)
        };
        match found {
            Look::Folder => Ok(()),
            Look::Absent => {
                self.note(alloc, path)?;
                as_disk(self.runtime.create_dir(path))
            }
            Look::File | Look::Other => Err(DiskErr::Failed),
        }
    }

    // Makes the folders on the way to a place, the disk's own and its parents among them.
    fn make_way(&mut self, alloc: Global, place: &Place) -> Result<(), DiskErr> {
        let path = place.path.as_str();
        for end in 1..path.len() {
            if let Some(folder) = folder_before(path, end) {
                self.make_folder(alloc, folder, place.from <= end)?;
            }
        }
        Ok(())
    }

    // Makes an empty file where nothing stands.
    fn create(&self, path: &str) -> Result<(), DiskErr> {
        let mut how = OpenOptions::new();
        how.write(true).create_new(true);
        as_disk(how.open(&self.runtime, path))?;
        Ok(())
    }

    // Puts an empty file in the place of another one, in one step.
    fn replace(&mut self, alloc: Global, path: &str) -> Result<(), DiskErr> {
        let fresh = url_of(alloc, self.root(), FRESH)?;
        let fresh = fresh.as_str();
        self.note(alloc, fresh)?;
        if stands_at(&self.runtime, fresh) != Look::Absent {
            as_disk(self.runtime.remove_file(fresh))?;
        }
        self.create(fresh)?;
        as_disk(self.runtime.rename(fresh, path))
    }

    // Opens the file of a name; none where nothing is bound to it.
    fn open(
        &self,
        alloc: Global,
        name: &str,
        how: &OpenOptions,
    ) -> Result<Option<R::File>, DiskErr> {
        let place = self.place(alloc, name)?;
        match find_place(&self.runtime, &place) {
            Look::File => Ok(Some(opened(how.open(&self.runtime, place.path.as_str()))?)),
            Look::Absent | Look::Folder => Ok(None),
            Look::Other => Err(DiskErr::Failed),
        }
    }

    pub(crate) fn read_at(
        &self,
        alloc: Global,
        name: &str,
        at: u64,
        into: &mut [u8],
    ) -> Result<Read, DiskErr>
        ensures within { IfOk result (FitsRoom at (length into.old)) }
        ensures room { length into.new ≡ length into.old }
    {
        let mut how = OpenOptions::new();
        how.read(true);
        match self.open(alloc, name, &how)? {
            None => Ok(Read::Missing),
            Some(file) => read_from(file, at, into),
        }
    }

    pub(crate) fn start(&mut self, alloc: Global, name: &str) -> Result<(), DiskErr> {
        let place = self.place(alloc, name)?;
        self.make_way(alloc, &place)?;
        let path = place.path.as_str();
        self.note(alloc, path)?;
        match stands_at(&self.runtime, path) {
            Look::Absent => self.create(path),
            Look::File => self.replace(alloc, path),
            Look::Folder | Look::Other => Err(DiskErr::Failed),
        }
    }

    pub(crate) fn append(&self, alloc: Global, name: &str, bytes: &[u8]) -> Result<(), DiskErr> {
        let mut how = OpenOptions::new();
        how.append(true);
        match self.open(alloc, name, &how)? {
            Some(mut file) => as_disk(file.write_all(bytes)),
            None => Err(DiskErr::Failed),
        }
    }

    pub(crate) fn sync(&self, alloc: Global, name: &str) -> Result<(), DiskErr> {
        let mut how = OpenOptions::new();
        how.read(true);
        match self.open(alloc, name, &how)? {
            Some(file) => as_disk(file.sync_all()),
            None => Err(DiskErr::Failed),
        }
    }

    pub(crate) fn rename(&mut self, alloc: Global, from: &str, to: &str) -> Result<(), DiskErr> {
        let from = self.place(alloc, from)?;
        let to = self.place(alloc, to)?;
        if find_place(&self.runtime, &from) != Look::File {
            return Err(DiskErr::Failed);
        }
        self.make_way(alloc, &to)?;
        let old = from.path.as_str();
        let new = to.path.as_str();
        if stands_at(&self.runtime, new) == Look::Other {
            return Err(DiskErr::Failed);
        }
        self.note(alloc, old)?;
        self.note(alloc, new)?;
        as_disk(self.runtime.rename(old, new))
    }

    pub(crate) fn remove(&mut self, alloc: Global, name: &str) -> Result<(), DiskErr> {
        let place = self.place(alloc, name)?;
        let path = place.path.as_str();
        match find_place(&self.runtime, &place) {
            Look::File => {
                self.note(alloc, path)?;
                as_disk(self.runtime.remove_file(path))
            }
            Look::Absent | Look::Folder => Ok(()),
            Look::Other => Err(DiskErr::Failed),
        }
    }

    // Makes the names in a folder firm.
    fn sync_folder(&self, path: &str) -> Result<(), DiskErr> {
        let mut how = OpenOptions::new();
        how.read(true);
        let folder = as_disk(how.open(&self.runtime, path))?;
        as_disk(folder.sync_all())
    }

    pub(crate) fn sync_names(&mut self) -> Result<(), DiskErr> {
        for folder in self.changed.iter() {
            self.sync_folder(folder.as_str())?;
        }
        self.changed.clear();
        Ok(())
    }
}
