//! Which seat has a claim on which key.
ghost use Rattle.std.specs.BTreeMap.{IsUnchanged, Updates, btree_map_len, get};
ghost use Rattle.std.specs.Prelude.{◌≡◌, ◌+◌, ◌↔◌, IsSome, IsTrue, None, Some, OnErr, OnOk};
ghost use Rattle.res_base.specs.Names.{key_cmp};

use res_base::{Copied, FileKey, NoMemory, equality_decided};
use std::alloc::Global;
use std::collections::BTreeMap;

/// Whether the seat has a claim on the key.
pub(crate) fn is_held(flights: &BTreeMap<FileKey, u32>, seat: u32, key: &FileKey) -> bool
    ensures { IsTrue result ↔ (get key_cmp flights.now key.now ≡ Some seat) }
{
    match flights.get(key) {
        None => false,
        Some(holder) => *holder == seat,
    }
}

/// Gives a key that is not in flight to a seat.
pub(crate) fn take_off(
    alloc: Global,
    flights: &mut BTreeMap<FileKey, u32>,
    seat: u32,
    key: &FileKey,
) -> Result<(), NoMemory>
    requires { get key_cmp flights.old key.now ≡ None }
    ensures ok { OnOk result (Updates key_cmp flights.old flights.new key.now (Some seat)) }
    ensures len { OnOk result (btree_map_len flights.new ≡ btree_map_len flights.old + 1) }
    ensures err { OnErr result (IsUnchanged flights.old flights.new) }
{
    let copied = key.copy(alloc)?;
    flights.insert(copied, seat)?;
    Ok(())
}

/// Takes a key out of those in flight. It comes back.
pub(crate) fn land(flights: &mut BTreeMap<FileKey, u32>, key: &FileKey) -> FileKey
    requires { IsSome (get key_cmp flights.old key.now) }
    ensures value { result ≡ key.now }
    ensures updates { Updates key_cmp flights.old flights.new key.now None }
    ensures len { btree_map_len flights.new + 1 ≡ btree_map_len flights.old }
{
    equality_decided();
    let (own, _) = flights.remove_entry(key).unwrap();
    own
}
