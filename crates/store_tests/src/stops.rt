//! Runs that are stopped at each disk call, or of which each fails, and what is found then.
ghost use Rattle.std.specs.Prelude.{◌≡◌, true};
ghost use Rattle.cache_store.specs.Stands.{Stands, is_live};

use crate::cases::{Act, CASES, Case, GONE};
use crate::refusals::read;
use crate::runs::{NAME, RECORD, disk_of, put_file, put_two, upgraded};
use cache_store::{OpenFault, Store, StoreErr};
use disk_base::{Disk, DiskCall, FailDisk, FuseDisk, MemDisk, Read};
use res_base::{Check, List};
use std::alloc::Global;
use std::test::Fail;

/// The numbers that pick what a crash leaves.
const PICKS: [&[u64]; 4] = [
    &[],
    &[1, 1, 1, 1, 1, 1],
    &[0, 3, 0, 3, 0, 3],
    &[2, 2, 2, 2, 2, 2],
];

/// More calls of the disk than a run makes.
const MOST_CALLS: u64 = 80;

/// Each list of numbers for each call that opening makes, and more.
const MOST_OPENINGS: usize = 40;

/// How a run is cut short.
#[derive(Clone, Copy)]
enum Cut {
    /// Each call of the disk fails from one on.
    Stop,
    /// One call of the disk fails.
    Fault,
}

/// Begins a part and drops it.
fn drop_part<D: Disk>(alloc: Global, store: &mut Store<D>) -> Result<(), StoreErr>
    requires live { is_live store.old ≡ true }
    requires stands { Stands D.told store.old }
{
    let part_no = store.begin(alloc)?;
    store.append(alloc, part_no, b"abd")?;
    store.drop_part(alloc, part_no)
}

/// Seals a part for the name of the file and drops it.
fn drop_sealed<D: Disk>(alloc: Global, store: &mut Store<D>) -> Result<(), StoreErr>
    requires live { is_live store.old ≡ true }
    requires stands { Stands D.told store.old }
{
    let part_no = store.begin(alloc)?;
    store.append(alloc, part_no, b"abd")?;
    let checks = List::from_slice(alloc, &[Check::Sha1, Check::NoCheck])?;
    store.seal_record(alloc, part_no, NAME, &checks, None, 1500)?;
    store.drop_part(alloc, part_no)
}

/// Does something with a store.
fn do_act<D: Disk>(alloc: Global, store: &mut Store<D>, act: Act) -> Result<(), StoreErr>
    requires live { is_live store.old ≡ true }
    requires stands { Stands D.told store.old }
{
    match act {
        Act::Open => Ok(()),
        Act::Put => put_file(alloc, store, b"abd", 1500),
        Act::PutTwo => put_two(alloc, store),
        Act::PutGone => store.put_gone(alloc, NAME, 2000),
        Act::TakeAway => store.take_away(alloc, NAME),
        Act::Upgrade => match upgraded(alloc, store) {
            Ok(_) => Ok(()),
            Err(err) => Err(err),
        },
        Act::Drop => drop_part(alloc, store),
        Act::DropSealed => drop_sealed(alloc, store),
        Act::Read => match read(alloc, store) {
            Ok(_) => Ok(()),
            Err(err) => Err(err),
        },
    }
}

/// Opens a disk as a store and does something with it: the disk then, and how it ended.
fn run<D: Disk>(alloc: Global, disk: D, act: Act) -> (D, Result<(), StoreErr>) {
    match Store::open(alloc, disk) {
        Err(OpenFault { disk, err }) => (disk, Err(err)),
        Ok(mut store) => {
            let ended = do_act(alloc, &mut store, act);
            (store.into_disk(), ended)
        }
    }
}

/// A run that is cut short at the call of this number: the disk then, and how it ended.
fn cut_run(
    alloc: Global,
    case: &Case,
    cut: Cut,
    call: u64,
) -> Result<(MemDisk, Result<(), StoreErr>), Fail> {
    let disk = disk_of(alloc, case.before)?;
    match cut {
        Cut::Stop => {
            let (disk, ended) = run(alloc, FuseDisk::new(alloc, disk, call), case.act);
            Ok((disk.into_inner(), ended))
        }
        Cut::Fault => {
            let failing = List::from_slice(alloc, &[call])?;
            let (disk, ended) = run(alloc, FailDisk::new(alloc, disk, failing), case.act);
            Ok((disk.into_inner(), ended))
        }
    }
}

/// Puts what a name holds, of which it has at most 400 bytes, behind a text. Whether it is bound.
fn put_held(
    alloc: Global,
    disk: &mut MemDisk,
    name: &str,
    text: &mut String,
) -> Result<bool, Fail> {
    let mut room = [0; 400];
    match disk.read_at(alloc, name, 0, &mut room)? {
        Read::Missing => Ok(false),
        Read::Bytes(count) => {
            text.push_str(str::from_utf8(&room[..count])?)?;
            Ok(true)
        }
    }
}

/// What the names of the file show: its bytes, a space and its record, where it is there, and its
/// absence record.
fn shown(alloc: Global, disk: &mut MemDisk) -> Result<String, Fail> {
    let mut text = String::new(alloc);
    if put_held(alloc, disk, NAME, &mut text)? {
        text.push(' ')?;
        put_held(alloc, disk, RECORD, &mut text)?;
    }
    put_held(alloc, disk, GONE, &mut text)?;
    Ok(text)
}

/// Fails unless a run may show this.
fn check_shown(case: &Case, is_done: bool, text: String) -> Result<(), Fail> {
    if text.as_str() == case.end || (!is_done && case.shown.contains(&text.as_str())) {
        Ok(())
    } else {
        Err(Fail::from(text))
    }
}

/// Opens a disk, which leaves no parts and shows what it showed: the disk, and what that is.
fn reopen(alloc: Global, mut disk: MemDisk) -> Result<(MemDisk, String), Fail> {
    let first = shown(alloc, &mut disk)?;
    let (mut disk, opened) = run(alloc, disk, Act::Open);
    opened?;
    let parts = disk.list(alloc, "parts/")?;
    let second = shown(alloc, &mut disk)?;
    if parts.len() > 0 || second != first {
        return Err(Fail::from((first, second)));
    }
    Ok((disk, first))
}

/// Opens a disk and does the run again, which comes to its end: what was shown at first.
fn go_on(alloc: Global, disk: MemDisk, case: &Case) -> Result<String, Fail> {
    let (disk, first) = reopen(alloc, disk)?;
    let (mut disk, ended) = run(alloc, disk, case.act);
    ended?;
    let last = shown(alloc, &mut disk)?;
    if last.as_str() != case.end {
        return Err(Fail::from((first, last)));
    }
    Ok(first)
}

/// Opens a disk, which is stopped after some calls and crashes, and opens what that leaves: whether it
/// was open before it stopped, and what is shown.
fn reopen_twice(alloc: Global, disk: MemDisk, number: usize) -> Result<(bool, String), Fail> {
    let (calls, picks) = (number as u64 / 4, PICKS[number % 4]);
    let (disk, opened) = run(alloc, FuseDisk::new(alloc, disk, calls), Act::Open);
    let (_disk, text) = reopen(alloc, disk.into_inner().crash(alloc, picks)?)?;
    Ok((opened.is_ok(), text))
}

/// What a crash of a disk leaves shows this after each crash that comes while it is opened.
fn check_images(alloc: Global, disk: &MemDisk, picks: &[u64], first: &String) -> Result<(), Fail> {
    for number in 0..MOST_OPENINGS {
        let (is_open, again) = reopen_twice(alloc, disk.crash(alloc, picks)?, number)?;
        if again != *first {
            return Err(Fail::from((number, again)));
        }
        if is_open {
            return Ok(());
        }
    }
    Err(Fail::from(MOST_OPENINGS))
}

/// A run that was stopped and ends without a crash shows what it may show after each crash that comes
/// while the disk is opened again.
fn check_opening(alloc: Global, case: &Case, call: u64) -> Result<(), Fail> {
    for number in 0..MOST_OPENINGS {
        let (disk, ended) = cut_run(alloc, case, Cut::Stop, call)?;
        let (is_open, text) = reopen_twice(alloc, disk, number)?;
        check_shown(case, ended.is_ok(), text)?;
        if is_open {
            return Ok(());
        }
    }
    Err(Fail::from(MOST_OPENINGS))
}

/// What each crash of a disk leaves shows what a run may show, and goes on.
fn check_crashes(alloc: Global, disk: &MemDisk, case: &Case, is_done: bool) -> Result<(), Fail> {
    for picks in PICKS {
        let first = go_on(alloc, disk.crash(alloc, picks)?, case)?;
        check_images(alloc, disk, picks, &first)?;
        check_shown(case, is_done, first)?;
    }
    Ok(())
}

/// How a run ends that is cut short at the call of this number. Whatever a crash leaves of it is
/// whole.
fn check_cut(
    alloc: Global,
    case: &Case,
    cut: Cut,
    call: u64,
) -> Result<Result<(), StoreErr>, Fail> {
    let (disk, ended) = cut_run(alloc, case, cut, call)?;
    check_crashes(alloc, &disk, case, ended.is_ok())?;
    check_shown(case, ended.is_ok(), go_on(alloc, disk, case)?)?;
    if let Cut::Stop = cut {
        check_opening(alloc, case, call)?;
    }
    Ok(ended)
}

/// The kinds of the calls at which a run says that it was cut short, one after another, but for
/// those that read.
fn told_calls(alloc: Global, case: &Case, cut: Cut) -> Result<Vec<DiskCall>, Fail> {
    let mut told = Vec::new(alloc);
    for call in 0..MOST_CALLS {
        match check_cut(alloc, case, cut, call)? {
            Ok(()) => return Ok(told),
            Err(StoreErr::DiskFault(DiskCall::Read)) => {}
            Err(StoreErr::DiskFault(kind)) => told.push(kind)?,
            Err(err) => return Err(Fail::from((call, err))),
        }
    }
    Err(Fail::from(MOST_CALLS))
}

#[test]
fn a_stop_at_each_call_leaves_files_whole(rt: HostRuntime) -> Result<(), Fail> {
    for (number, case) in CASES.iter().enumerate() {
        let told = told_calls(rt.alloc(), case, Cut::Stop)?;
        assert!(rt; told.as_slice() == case.calls, "case {number}");
    }
    Ok(())
}

#[test]
fn each_call_that_fails_is_named_and_leaves_files_whole(rt: HostRuntime) -> Result<(), Fail> {
    for (number, case) in CASES.iter().enumerate() {
        let told = told_calls(rt.alloc(), case, Cut::Fault)?;
        assert!(rt; told.as_slice() == case.calls, "case {number}");
    }
    Ok(())
}
