//! What a plan says of a key.
ghost use Rattle.std.specs.Prelude.{◌≡◌};
ghost use Rattle.digest_check.specs.KeyAnswers.{limit_of};
ghost use Rattle.file_fetch.specs.Keys.{address_of};

use digest_check::TEXT_LIMIT;
use pool_rules::Plan;
use res_base::{FileKey, Role};

/// The address of a key's repository; empty where there is no such repository.
pub(crate) fn address_of<'a>(plan: &'a Plan, key: &FileKey) -> &'a str
    ensures { result.now ≡ address_of plan.now key.now }
{
    match plan.addresses.get(key.repo as usize) {
        Some(address) => address.as_str(),
        None => "",
    }
}

/// The greatest number of bytes of a file of a role: 16 MiB of a POM or a listing.
pub(crate) fn limit_at(plan: &Plan, role: Role) -> u64
    ensures { result ≡ limit_of role plan.now.limit }
{
    match role {
        Role::Pom | Role::Listing => TEXT_LIMIT,
        Role::Artifact => plan.limit,
    }
}
