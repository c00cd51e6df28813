//! Links to the repositories of servers and folders.
ghost use Rattle.std.specs.Prelude.{◌≡◌, IfOk, IsSome, None};
ghost use Rattle.std.specs.Option.{ForSome};
ghost use Rattle.res_base.specs.Causes.{HasCause, counted};
ghost use Rattle.link_base.specs.Links.{FitsLimit, IsWithinPiece, file_after_open, file_after_piece};
ghost use Rattle.link_base.specs.FilePaths.{IsFilePath};
ghost use Rattle.res_base.specs.Paths.{url_at};
ghost use Rattle.real_edge.specs.Ways.{IsWayTo, file_by};

use crate::folder_link::FolderLink;
use http_link::HttpLink;
use link_base::{Address, Got, Link, LinkErr, Next, Opened, read_address};
use std::alloc::Global;
use std::fs::Files;
use std::net::Net;
use std::time::Clock;
use tcp_wire::TcpWire;

/// How a file is reached.
#[derive(Clone, Copy)]
pub(crate) enum Way {
    Folders,
    Pages,
}

/// The way to an address.
fn way_to(address: &str) -> Way
    ensures { IsWayTo address.now result }
{
    match read_address(address) {
        Some(Address::Http(_)) => Way::Pages,
        Some(Address::Folder(_)) => Way::Folders,
        None => Way::Folders,
    }
}

/// Gives the files of servers, which `http://` addresses name, as pages over TCP say them, and
/// those of folders, which `file:` addresses name: `file:/srv/maven`, or `file:maven` below the
/// folder that the program runs in. It has no way to other addresses, so these are faults.
///
/// A file that isn't there is absent. In a folder, one whose name goes through a file or is too
/// long for the system is absent too, and a folder in its place and what the system refuses are
/// faults.
#[derive(Drop)]
pub struct RealLink<R: Files + Net + Clock + Drop> {
    folders: FolderLink<R>,
    pages: HttpLink<TcpWire<R>>,
    way: Way,
    asked: u64,
    faults: u64,
}

impl<R: Files + Net + Clock + Copy + Drop> RealLink<R> {
    /// A link that reads files and connects through a runtime.
    pub fn new(alloc: Global, runtime: R) -> RealLink<R>
        ensures faults { ⟦<RealLink<R> as Link>⟧.faults result ≡ 0 }
        ensures asked { ⟦<RealLink<R> as Link>⟧.asked result ≡ 0 }
        ensures closed { ⟦<RealLink<R> as Link>⟧.open_file result ≡ None }
    {
        RealLink {
            folders: FolderLink::new(runtime),
            pages: HttpLink::new(alloc, TcpWire::new(runtime)),
            way: Way::Folders,
            asked: 0,
            faults: 0,
        }
    }
}

impl<R: Files + Net + Clock + Drop> RealLink<R> {
    // A `get` or an `open` of this address begins, which closes an open file.
    fn begin(&mut self, address: &str)
        ensures way { IsWayTo address.now self.new.way }
        ensures asked { self.new.asked ≡ counted self.old.asked }
        ensures faults { self.new.faults ≡ self.old.faults }
    {
        self.asked = self.asked.saturating_add(1);
        self.way = way_to(address);
        self.folders.close_file();
        self.pages.close_file();
    }

    // Counts the fault of an answer.
    fn settle<T: Drop>(&mut self, answer: Result<T, LinkErr>) -> Result<T, LinkErr>
        ensures result { result ≡ answer }
        ensures cause { HasCause LinkErr.Failed self.old.faults self.new.faults result }
        ensures asked { self.new.asked ≡ self.old.asked }
        ensures way { self.new.way ≡ self.old.way }
        ensures folders { self.new.folders ≡ self.old.folders }
        ensures pages { self.new.pages ≡ self.old.pages }
    {
        match answer {
            Ok(got) => Ok(got),
            Err(LinkErr::NoMemory) => Err(LinkErr::NoMemory),
            Err(LinkErr::Failed) => {
                self.faults = self.faults.saturating_add(1);
                Err(LinkErr::Failed)
            }
        }
    }

    // The whole file, by the way that was set.
    fn got(&mut self, alloc: Global, address: &str, path: &str, limit: u64) -> Result<Got, LinkErr>
        requires { IsFilePath path.now }
        ensures within { IfOk result (FitsLimit limit) }
        ensures closed { ⟦<RealLink<R> as Link>⟧.open_file self.new ≡ None }
        ensures asked { self.new.asked ≡ self.old.asked }
        ensures faults { self.new.faults ≡ self.old.faults }
        ensures way { self.new.way ≡ self.old.way }
    {
        match self.way {
            Way::Folders => self.folders.get(alloc, address, path, limit),
            Way::Pages => self.pages.get(alloc, address, path, limit),
        }
    }

    // Opens a file, by the way that was set.
    fn opened(
        &mut self,
        alloc: Global,
        address: &str,
        path: &str,
        limit: u64,
    ) -> Result<Opened, LinkErr>
        requires { IsFilePath path.now }
        ensures opened { ⟦<RealLink<R> as Link>⟧.open_file self.new ≡ file_after_open (url_at address.now path.now) limit result }
        ensures asked { self.new.asked ≡ self.old.asked }
        ensures faults { self.new.faults ≡ self.old.faults }
        ensures way { self.new.way ≡ self.old.way }
    {
        match self.way {
            Way::Folders => self.folders.open(alloc, address, path, limit),
            Way::Pages => self.pages.open(alloc, address, path, limit),
        }
    }

    // The next piece, by the way that was set.
    fn next_of(&mut self, alloc: Global, into: &mut Vec<u8>) -> Result<Next, LinkErr>
        requires { IsSome (⟦<RealLink<R> as Link>⟧.open_file self.old) }
        ensures within { ForSome (⟦<RealLink<R> as Link>⟧.open_file self.old) (λ file. IsWithinPiece file result into.new.items) }
        ensures moved { ⟦<RealLink<R> as Link>⟧.open_file self.new ≡ file_after_piece (⟦<RealLink<R> as Link>⟧.open_file self.old) result into.new.items }
        ensures asked { self.new.asked ≡ self.old.asked }
        ensures faults { self.new.faults ≡ self.old.faults }
        ensures way { self.new.way ≡ self.old.way }
    {
        match self.way {
            Way::Folders => self.folders.next_piece(alloc, into),
            Way::Pages => self.pages.next_piece(alloc, into),
        }
    }
}

impl<R: Files + Net + Clock + Drop> Link for RealLink<R> {
    ghost agrees = { λ link w. ⊥ };

    ghost faults = { λ link. link.faults };

    ghost asked = { λ link. link.asked };

    ghost open_file = { λ link. file_by link.way (⟦<FolderLink<R> as Link>⟧.open_file link.folders)
        (⟦<HttpLink<TcpWire<R>> as Link>⟧.open_file link.pages) };

    ghost failed_urls = { λ link. None };

    fn get(
        &mut self,
        alloc: Global,
        address: &str,
        path: &str,
        limit: u64,
    ) -> Result<Got, LinkErr> {
        self.begin(address);
        let got = self.got(alloc, address, path, limit);
        self.settle(got)
    }

    fn open(
        &mut self,
        alloc: Global,
        address: &str,
        path: &str,
        limit: u64,
    ) -> Result<Opened, LinkErr> {
        self.begin(address);
        let opened = self.opened(alloc, address, path, limit);
        self.settle(opened)
    }

    fn next_piece(&mut self, alloc: Global, into: &mut Vec<u8>) -> Result<Next, LinkErr> {
        let next = self.next_of(alloc, into);
        self.settle(next)
    }

    fn is_open(&self) -> bool {
        match self.way {
            Way::Folders => self.folders.is_open(),
            Way::Pages => self.pages.is_open(),
        }
    }

    fn close_file(&mut self) {
        self.folders.close_file();
        self.pages.close_file();
    }
}
