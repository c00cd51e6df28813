//! The names of a disk that begin alike.
use crate::files::DiskFiles;
use crate::looks::{Look, find_place, stands_at, stands_behind};
use crate::places::place_of;
use crate::reads::as_disk;
use disk_base::DiskErr;
use res_base::{List, Text};
use std::alloc::Global;
use std::fs::Files;
use std::io::ErrorKind;
use std::{fs, io};

/// Names that were found, and folders that are still to be looked through. A folder's text is empty
/// or ends in a slash.
#[derive(Drop)]
struct Listing {
    names: Vec<Text>,
    folders: Vec<Text>,
}

/// What a text begins with, up to its last slash; nothing without one.
fn before_last_slash(text: &str) -> Option<&str> {
    match text.rsplit_once('/') {
        Some((folder, _)) => Some(folder),
        None => None,
    }
}

/// Whether the system gave a name that is no text. No content has such a name.
fn is_no_text<T>(outcome: &io::Result<T>) -> bool {
    match outcome {
        Ok(_) => false,
        Err(error) => error.kind() == ErrorKind::InvalidFilename,
    }
}

impl<R: Files + Alloc + Clone + Drop> DiskFiles<R> {
    // The folder in which all names stand that begin so, where it is there.
    fn first_folder(&self, alloc: Global, prefix: &str) -> Result<Option<Text>, DiskErr> {
        let Some(folder) = before_last_slash(prefix) else {
            return match stands_behind(&self.runtime, self.root()) {
                Look::Folder => Ok(Some(Text::new(alloc))),
                Look::Absent => Ok(None),
                Look::File | Look::Other => Err(DiskErr::Failed),
            };
        };
        let Some(place) = place_of(alloc, self.root(), folder)? else {
            return Ok(None);
        };
        match find_place(&self.runtime, &place) {
            Look::Folder => Ok(Some(Text::from_string(format!(in alloc; "{folder}/")?))),
            Look::Absent | Look::File => Ok(None),
            Look::Other => Err(DiskErr::Failed),
        }
    }

    // Takes what stands under a name into the listing.
    fn take_entry(
        &self,
        alloc: Global,
        name: Text,
        prefix: &str,
        listing: &mut Listing,
    ) -> Result<(), DiskErr> {
        let Some(place) = place_of(alloc, self.root(), name.as_str())? else {
            return Ok(());
        };
        match stands_at(&self.runtime, place.path.as_str()) {
            Look::File => {
                if name.as_str().starts_with(prefix) {
                    listing.names.push(name)?;
                }
            }
            Look::Folder => {
                let mut folder = name;
                folder.push_str("/")?;
                if folder.as_str().starts_with(prefix) {
                    listing.folders.push(folder)?;
                }
            }
            Look::Absent | Look::Other => {}
        }
        Ok(())
    }

    // Takes what stands in a folder into the listing.
    fn look_into(
        &self,
        alloc: Global,
        folder: &str,
        prefix: &str,
        listing: &mut Listing,
    ) -> Result<(), DiskErr> {
        let root = self.root();
        let path = format!(in alloc; "{root}/{folder}")?;
        for entry in as_disk(fs::read_dir(&self.runtime, path.as_str()))? {
            if is_no_text(&entry) {
                continue;
            }
            let entry = as_disk(entry)?;
            let inner = entry.file_name();
            let name = Text::from_string(format!(in alloc; "{folder}{inner}")?);
            self.take_entry(alloc, name, prefix, listing)?;
        }
        Ok(())
    }

    pub(crate) fn list(&self, alloc: Global, prefix: &str) -> Result<List<Text>, DiskErr> {
        let mut listing = Listing {
            names: Vec::new(alloc),
            folders: Vec::new(alloc),
        };
        if let Some(folder) = self.first_folder(alloc, prefix)? {
            listing.folders.push(folder)?;
        }
        for _turn in 0..u64::MAX {
            match listing.folders.pop() {
                Some(folder) => self.look_into(alloc, folder.as_str(), prefix, &mut listing)?,
                None => break,
            }
        }
        listing.names.sort()?;
        Ok(List::from_vec(listing.names))
    }
}
