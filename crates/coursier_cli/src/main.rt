//! The command `coursier`. Its words and its lines are those of docs/FORMATS.md.
#![tactic(auto)]

ghost use Rattle.std.specs.Prelude.{◌≡◌, IfOk, vec_len};

use coursier_run::run_still;
use link_base::{Sink, SinkErr};
use real_disk::FolderDisk;
use real_edge::{RealClock, RealLink, RealSink};
use res_base::Text;
use std::alloc::{AllocFailed, Global};
use std::env::VarError;
use std::io::ErrorKind;
use std::process::ExitCode;
use std::{env, io};

/// A job uses as many links at most.
const LINKS: usize = 16;

/// Why nothing was begun.
enum StartErr {
    /// A word isn't UTF-8.
    Usage,
    NoMemory,
}

impl From<io::Error> for StartErr {
    fn from(error: io::Error) -> StartErr {
        if error.kind() == ErrorKind::InvalidData {
            StartErr::Usage
        } else {
            StartErr::NoMemory
        }
    }
}

impl<T: Drop> From<AllocFailed<T>> for StartErr {
    fn from(_: AllocFailed<T>) -> StartErr {
        StartErr::NoMemory
    }
}

/// The words after the program's name.
fn command_words(rt: &HostRuntime) -> Result<Vec<String>, StartErr> {
    let mut words = Vec::new(rt.alloc());
    for word in env::args(rt)?.skip(1) {
        words.push(word)?;
    }
    Ok(words)
}

fn real_links(rt: HostRuntime) -> Result<Vec<RealLink<HostRuntime>>, StartErr>
    ensures { IfOk result (λ links. vec_len links ≡ 16) }
{
    let mut links = Vec::new(rt.alloc());
    for _link in 0..LINKS {
        links.push(RealLink::new(rt.alloc(), rt))?;
    }
    Ok(links)
}

/// The folder of the cache: that of the variable `COURSIER_CACHE`, or `coursier-cache` where it is
/// not set, empty or not UTF-8.
fn cache_folder(rt: &HostRuntime) -> Result<Text, StartErr> {
    match env::var(rt, "COURSIER_CACHE") {
        Ok(folder) => {
            if !folder.is_empty() {
                return Ok(Text::from_string(folder));
            }
        }
        Err(VarError::OutOfMemory) => return Err(StartErr::NoMemory),
        Err(_) => {}
    }
    match Text::of(rt.alloc(), "coursier-cache") {
        Ok(folder) => Ok(folder),
        Err(_) => Err(StartErr::NoMemory),
    }
}

/// Puts the line of what went wrong, and gives the status.
fn refuse(alloc: Global, why: StartErr, err: &mut RealSink) -> u8 {
    let (status, line) = match why {
        StartErr::Usage => (2, "coursier: words: usage 0\n"),
        StartErr::NoMemory => (5, "coursier: memory\n"),
    };
    match err.put(alloc, line.as_bytes()) {
        Ok(()) => status,
        Err(SinkErr::Failed) => 6,
        Err(SinkErr::NoMemory) => 5,
    }
}

fn main(rt: HostRuntime) -> ExitCode {
    let alloc = rt.alloc();
    let mut out = RealSink::out(rt.stdout());
    let mut err = RealSink::err(rt.stderr());
    let words = match command_words(&rt) {
        Ok(words) => words,
        Err(why) => return ExitCode::from(refuse(alloc, why, &mut err)),
    };
    let mut links = match real_links(rt) {
        Ok(links) => links,
        Err(why) => return ExitCode::from(refuse(alloc, why, &mut err)),
    };
    let folder = match cache_folder(&rt) {
        Ok(folder) => folder,
        Err(why) => return ExitCode::from(refuse(alloc, why, &mut err)),
    };
    let mut clock = RealClock::new(rt);
    let words = words.as_slice();
    let served = run_still(
        &rt,
        alloc,
        words,
        &mut links,
        FolderDisk::new(alloc, rt, folder),
        &mut clock,
        &mut out,
        &mut err,
    );
    ExitCode::from(served.status)
}
