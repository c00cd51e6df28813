//! That calls succeed, and what the others answer.
ghost use Rattle.std.specs.Prelude.{◌≡◌, true, IfOk, OnOk};
ghost use Rattle.cache_store.specs.Stands.{Stands, is_live};

use crate::cases::FILE_FIRST;
use crate::runs::{NAME, disk_of, opened, put_file, seen, upgraded};
use cache_layout::Found;
use cache_store::{PartNo, Store, StoreErr};
use disk_base::{Disk, MemDisk};
use res_base::{Check, Digest, List};
use std::alloc::Global;
use std::test::Fail;

/// The SHA-1 of `abc`.
const ABC: [u8; 20] = [
    0xa9, 0x99, 0x3e, 0x36, 0x47, 0x06, 0x81, 0x6a, 0xba, 0x3e, 0x25, 0x71, 0x78, 0x50, 0xc2, 0x6c,
    0x9c, 0xd0, 0xd8, 0x9d,
];

/// The bytes of the file, where it is whole.
pub(crate) fn read<D: Disk>(alloc: Global, store: &mut Store<D>) -> Result<List<u8>, StoreErr>
    requires live { is_live store.old ≡ true }
    requires stands { Stands D.told store.old }
    ensures live { IfOk result (λ bytes. is_live store.new ≡ true) }
    ensures stands { IfOk result (λ bytes. Stands D.told store.new) }
{
    let found = store.find(alloc, NAME)?;
    let Found::Whole(_) = found else {
        return Err(StoreErr::Full);
    };
    store.read_whole(alloc, NAME)
}

/// Upgrades a file, upgrades it again, puts another one in its place, reads it, and takes it away:
/// what is seen after each.
fn changed(alloc: Global, disk: MemDisk) -> Result<([u64; 7], List<u8>), StoreErr> {
    let mut store = opened(alloc, disk)?;
    let first = upgraded(alloc, &mut store)?;
    let second = upgraded(alloc, &mut store)?;
    let third = seen(alloc, &mut store)?;
    put_file(alloc, &mut store, b"abd", 1500)?;
    let fourth = seen(alloc, &mut store)?;
    let bytes = read(alloc, &mut store)?;
    store.take_away(alloc, NAME)?;
    let fifth = upgraded(alloc, &mut store)?;
    Ok((
        [first, second, third.0, third.1, fourth.0, fourth.1, fifth],
        bytes,
    ))
}

/// Seals a part that holds `abc` where another digest is wanted, and then where its own is.
fn sealed(alloc: Global, other: Digest) -> Result<(Result<(), StoreErr>, u64), StoreErr> {
    let mut store = opened(alloc, MemDisk::new(alloc))?;
    let part_no = store.begin(alloc)?;
    store.append(alloc, part_no, b"abc")?;
    let checks = List::from_slice(alloc, &[Check::Sha1])?;
    let refused = store.seal_record(alloc, part_no, NAME, &checks, Some(other), 1000);
    if !store.is_live() {
        return Err(StoreErr::NoMemory);
    }
    store.seal_record(alloc, part_no, NAME, &checks, Some(Digest::Sha1(ABC)), 1000)?;
    store.publish(alloc, part_no)?;
    Ok((refused, seen(alloc, &mut store)?.0))
}

/// Opens so many parts.
fn begun<D: Disk>(alloc: Global, store: &mut Store<D>, count: usize) -> Result<(), StoreErr>
    requires live { is_live store.old ≡ true }
    requires stands { Stands D.told store.old }
    ensures live { OnOk result (is_live store.new ≡ true) }
    ensures stands { OnOk result (Stands D.told store.new) }
{
    for _i in 0..count {
        store.begin(alloc)?;
    }
    Ok(())
}

/// The number of a fresh part once so many are open, 5000 where there is no room for one.
fn number_after(alloc: Global, count: usize) -> Result<u32, StoreErr> {
    let mut store = opened(alloc, MemDisk::new(alloc))?;
    begun(alloc, &mut store, count)?;
    match store.begin(alloc) {
        Ok(part_no) => Ok(part_no.number),
        Err(StoreErr::Full) => Ok(5000),
        Err(err) => Err(err),
    }
}

/// What an upgrade comes to where so many parts are open.
fn upgraded_after(alloc: Global, disk: MemDisk, count: usize) -> Result<u64, StoreErr> {
    let mut store = opened(alloc, disk)?;
    begun(alloc, &mut store, count)?;
    upgraded(alloc, &mut store)
}

/// What an append to a part answers that no store has opened.
fn appended(alloc: Global, part_no: PartNo) -> Result<(), StoreErr> {
    let mut store = opened(alloc, MemDisk::new(alloc))?;
    store.append(alloc, part_no, b"abc")
}

/// What dropping the only open part, taking a name away, and dropping the part again answer.
fn dropped(alloc: Global) -> Result<Result<(), StoreErr>, StoreErr> {
    let mut store = opened(alloc, MemDisk::new(alloc))?;
    let part_no = store.begin(alloc)?;
    store.drop_part(alloc, part_no)?;
    store.take_away(alloc, NAME)?;
    Ok(store.drop_part(alloc, part_no))
}

#[test]
fn files_are_upgraded_put_read_and_taken_away(rt: HostRuntime) -> Result<(), Fail> {
    let alloc = rt.alloc();
    let (kinds, bytes) = changed(alloc, disk_of(alloc, FILE_FIRST)?)?;
    assert!(rt; kinds == [2, 1, 1000, 2, 1500, 2, 0]);
    assert_eq!(rt; bytes.as_slice(), b"abd".as_slice());
    Ok(())
}

#[test]
fn another_digest_is_refused(rt: HostRuntime) -> Result<(), Fail> {
    let alloc = rt.alloc();
    let other = Digest::Sha1([7; 20]);
    let (refused, moment) = sealed(alloc, other)?;
    assert!(rt; refused == Err(StoreErr::Differs(other, Digest::Sha1(ABC))));
    assert!(rt; moment == 1000);
    Ok(())
}

#[test]
fn parts_are_counted(rt: HostRuntime) -> Result<(), Fail> {
    let alloc = rt.alloc();
    for (count, number) in [(0, 0), (7, 7), (4095, 4095), (4096, 5000)] {
        assert!(rt; number_after(alloc, count) == Ok(number), "after {count}");
    }
    for (count, up) in [(4095, Ok(2)), (4096, Err(StoreErr::Full))] {
        let disk = disk_of(alloc, FILE_FIRST)?;
        assert!(rt; upgraded_after(alloc, disk, count) == up, "after {count}");
    }
    let other = PartNo { number: 7 };
    assert!(rt; appended(alloc, other) == Err(StoreErr::PartUnknown(other)));
    let gone = PartNo { number: 0 };
    assert!(rt; dropped(alloc) == Ok(Err(StoreErr::PartUnknown(gone))));
    Ok(())
}
