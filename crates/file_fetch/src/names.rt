//! The name of a key's file in the cache.
ghost use Rattle.std.specs.Prelude.{◌≡◌, IfOk};
ghost use Rattle.cache_images.specs.Places.{IsDataName};
ghost use Rattle.cache_images.specs.Sound.{IsUrlOf};
ghost use Rattle.cache_layout.specs.Addresses.{IsAddress};
ghost use Rattle.file_fetch.specs.Keys.{address_of, name_in};
ghost use Rattle.hex.specs.Hex.{IsBytes};
ghost use Rattle.pool_rules.specs.Plans.{url_in};
ghost use Rattle.res_base.specs.Paths.{url_at};

use crate::plan::address_of;
use cache_layout::{NameErr, cache_name};
use pool_rules::Plan;
use res_base::{FileKey, NoMemory, Text};
use std::alloc::Global;

/// The URL of a path below an address has the bytes of both: nothing runs here.
fn urls_are_bytes(address: &[u8], path: &[u8])
    ensures { IsBytes (url_at address.now path.now) }
{}

/// The name in the cache of the file at a key.
pub(crate) fn name_of(alloc: Global, plan: &Plan, key: &FileKey) -> Result<Text, NoMemory>
    requires { IsAddress (address_of plan.now key.now) }
    ensures name { IfOk result (λ name. name ≡ name_in plan.now key.now) }
    ensures data_name { IfOk result IsDataName }
    ensures url { IfOk result (λ name. IsUrlOf name (url_in plan.now key.now)) }
{
    let address = address_of(plan, key);
    urls_are_bytes(address.as_bytes(), key.path.as_bytes());
    match cache_name(alloc, address, key.path.as_str()) {
        Ok(name) => Ok(name),
        Err(NameErr::BadAddress(_)) => unreachable!(),
        Err(NameErr::NoMemory) => Err(NoMemory),
    }
}
