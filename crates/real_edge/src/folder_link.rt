//! Links to folders.
ghost use Rattle.std.specs.Prelude.{◌≡◌, ◌≤◌, None};
ghost use Rattle.std.specs.Option.{option_map};
ghost use Rattle.res_base.specs.Causes.{counted};

use crate::folders::{Found, file_name, find};
use crate::pieces::{read_found, read_piece};
use link_base::{Got, Link, LinkErr, Next, OpenFile, Opened};
use res_base::{NoMemory, url_of};
use std::alloc::Global;
use std::fs::Files;

/// A file that is given in pieces.
#[derive(Drop)]
struct Reading<F> {
    file: F,
    place: OpenFile,
    ghost within: { place.given ≤ place.limit },
}

/// Gives the files of folders, which `file:` addresses name: `file:/srv/maven`, or `file:maven`
/// below the folder that the program runs in. A file that isn't there is absent, and so is one
/// whose name goes through a file or is too long for the system. A folder in its place and what
/// the system refuses are faults. It has no way to other addresses, so these are faults too.
#[derive(Drop)]
pub struct FolderLink<R: Files> {
    runtime: R,
    asked: u64,
    faults: u64,
    reading: Option<Reading<R::File>>,
}

impl<R: Files + Drop> FolderLink<R> {
    /// A link that reads files through a runtime.
    pub fn new(runtime: R) -> FolderLink<R>
        ensures faults { ⟦<FolderLink<R> as Link>⟧.faults result ≡ 0 }
        ensures asked { ⟦<FolderLink<R> as Link>⟧.asked result ≡ 0 }
        ensures closed { ⟦<FolderLink<R> as Link>⟧.open_file result ≡ None }
    {
        FolderLink {
            runtime,
            asked: 0,
            faults: 0,
            reading: None,
        }
    }

    // Counts a fault.
    fn fail(&mut self) -> LinkErr
        ensures failed { result ≡ LinkErr.Failed }
        ensures counts { self.new ≡ record self.old { faults = counted self.old.faults } }
    {
        self.faults = self.faults.saturating_add(1);
        LinkErr::Failed
    }

    // What stands at a path in the folder of an address.
    fn find(&self, alloc: Global, address: &str, path: &str) -> Result<Found<R::File>, NoMemory> {
        match file_name(alloc, address, path)? {
            Some(name) => Ok(find(&self.runtime, name.as_str())),
            None => Ok(Found::Fault),
        }
    }
}

impl<R: Files + Drop> Link for FolderLink<R> {
    ghost agrees = { λ link w. ⊥ };

    ghost faults = { λ link. link.faults };

    ghost asked = { λ link. link.asked };

    ghost open_file = { λ link. option_map (λ reading. reading.place) link.reading };

    ghost failed_urls = { λ link. None };

    fn get(
        &mut self,
        alloc: Global,
        address: &str,
        path: &str,
        limit: u64,
    ) -> Result<Got, LinkErr> {
        self.asked = self.asked.saturating_add(1);
        self.reading = None;
        let found = self.find(alloc, address, path)?;
        match read_found(alloc, found, limit) {
            Ok(got) => Ok(got),
            Err(LinkErr::Failed) => Err(self.fail()),
            Err(LinkErr::NoMemory) => Err(LinkErr::NoMemory),
        }
    }

    fn open(
        &mut self,
        alloc: Global,
        address: &str,
        path: &str,
        limit: u64,
    ) -> Result<Opened, LinkErr> {
        self.asked = self.asked.saturating_add(1);
        self.reading = None;
        let url = url_of(alloc, address, path)?;
        match self.find(alloc, address, path)? {
            Found::Absent => Ok(Opened::Absent),
            Found::Fault => Err(self.fail()),
            Found::File(file) => {
                let place = OpenFile {
                    url,
                    limit,
                    given: 0,
                };
                self.reading = Some(Reading { file, place });
                Ok(Opened::Ready)
            }
        }
    }

    fn next_piece(&mut self, _alloc: Global, into: &mut Vec<u8>) -> Result<Next, LinkErr> {
        let Some(
            Reading {
                mut file,
                mut place,
            },
        ) = self.reading.take()
        else {
            unreachable!()
        };
        match read_piece(&mut file, place.limit - place.given, into) {
            Ok(Next::Piece) => {
                place.given += into.len() as u64;
                self.reading = Some(Reading { file, place });
                Ok(Next::Piece)
            }
            Ok(Next::End) => Ok(Next::End),
            Ok(Next::TooLarge) => Ok(Next::TooLarge),
            Err(LinkErr::Failed) => Err(self.fail()),
            Err(LinkErr::NoMemory) => Err(LinkErr::NoMemory),
        }
    }

    fn is_open(&self) -> bool {
        self.reading.is_some()
    }

    fn close_file(&mut self) {
        self.reading = None;
    }
}
