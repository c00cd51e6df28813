//! How often keys broke.
ghost use Rattle.std.specs.BTreeMap.{Updates, get};
ghost use Rattle.std.specs.Prelude.{◌≡◌, ◌<◌, ◌^◌, ◌-◌, IsSome, Some, OnOk};
ghost use Rattle.claim_log.specs.Tallies.{KeepsRows, is_broken_by, tally_after, tally_in};
ghost use Rattle.res_base.specs.Names.{key_cmp};

use claim_rules::Why;
use res_base::{Copied, FileKey, NoMemory, equality_decided};
use std::alloc::Global;
use std::collections::BTreeMap;

/// How often the link failed for a key, and whether the cache lacks it.
#[derive(Clone, Copy, Drop)]
pub(crate) struct Tally {
    pub(crate) link_breaks: u64,
    pub(crate) lacking: bool,
}

/// The tally of a key.
pub(crate) fn tally_at(tallies: &BTreeMap<FileKey, Tally>, key: &FileKey) -> Tally
    ensures { result ≡ tally_in tallies.now key.now }
{
    match tallies.get(key) {
        None => Tally {
            link_breaks: 0,
            lacking: false,
        },
        Some(tally) => *tally,
    }
}

/// Whether a key with this tally is broken, where it is tried again so many times.
pub(crate) fn is_broken(tally: Tally, retries: u32) -> bool
    ensures { result ≡ is_broken_by retries tally }
{
    u64::from(retries) < tally.link_breaks || tally.lacking
}

/// Makes the row of a key, if it has none.
pub(crate) fn add_row(
    alloc: Global,
    tallies: &mut BTreeMap<FileKey, Tally>,
    key: &FileKey,
) -> Result<(), NoMemory>
    ensures kept { KeepsRows tallies.old tallies.new }
    ensures ok { OnOk result (IsSome (get key_cmp tallies.new key.now)) }
{
    equality_decided();
    if tallies.contains_key(key) {
        return Ok(());
    }
    let copied = key.copy(alloc)?;
    tallies.insert(
        copied,
        Tally {
            link_breaks: 0,
            lacking: false,
        },
    )?;
    Ok(())
}

/// The tally after one break more.
fn after_break(tally: Tally, why: Why) -> Tally
    requires { tally.link_breaks < 2 ^ 64 - 1 }
    ensures { result ≡ tally_after tally why }
{
    match why {
        Why::Link => Tally {
            link_breaks: tally.link_breaks + 1,
            lacking: tally.lacking,
        },
        Why::NotCached => Tally {
            link_breaks: tally.link_breaks,
            lacking: true,
        },
    }
}

/// Counts a break of a key that has a row.
pub(crate) fn count_break(tallies: &mut BTreeMap<FileKey, Tally>, key: &FileKey, why: Why)
    requires there { IsSome (get key_cmp tallies.old key.now) }
    requires room { (tally_in tallies.old key.now).link_breaks < 2 ^ 64 - 1 }
    ensures { Updates key_cmp tallies.old tallies.new key.now (Some (tally_after (tally_in tallies.old key.now) why)) }
{
    let tally = tally_at(tallies, key);
    let row = tallies.get_mut(key).unwrap();
    *row = after_break(tally, why);
}
