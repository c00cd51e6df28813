//! Files that may become other ones at their URLs.
ghost use Rattle.std.specs.Prelude.{◌≡◌};
ghost use Rattle.std.specs.List.{slice_split};
ghost use Rattle.link_base.specs.FilePaths.{is_slash};
ghost use Rattle.pool_rules.specs.Plans.{is_changing, last_but_one};

use res_base::{FileKey, Role};

/// The segment before the last one of a path; empty where there is none.
fn version_in(path: &[u8]) -> &[u8]
    ensures { result.now ≡ last_but_one (slice_split is_slash path.now) }
{
    let mut earlier: &[u8] = &[];
    let mut last: &[u8] = &[];
    for segment in path.split(|byte| *byte == b'/') {
        earlier = last;
        last = segment;
    }
    earlier
}

/// Whether the file at a key may become another one: a listing, or a file of a version that ends in
/// `-SNAPSHOT`.
pub fn is_changing(key: &FileKey) -> bool
    ensures { result ≡ is_changing key.now }
{
    if key.role == Role::Listing {
        return true;
    }
    version_in(key.path.as_bytes()).ends_with(b"-SNAPSHOT")
}
