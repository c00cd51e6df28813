//! The names of a disk, and where they stand below its folder.
ghost use Rattle.std.specs.Prelude.{◌≡◌, ◌+◌, ◌++◌, ◌∷◌, IfNone, IfOk, IfSome, length};
ghost use Rattle.ascii_bytes.specs.Signs.{slash};
ghost use Rattle.res_base.specs.Plain.{is_at_most_two_dots};
ghost use Rattle.real_disk.specs.DiskNames.{IsName, has_steps, is_name};

use res_base::{NoMemory, Text, url_of};
use std::alloc::Global;

/// No name is this one, and none begins so. A new content stands here before it takes the place of
/// an old one.
pub(crate) const FRESH: &str = "~";

/// Where a name stands: its path, and the place in it where the name begins.
#[derive(Drop)]
pub(crate) struct Place {
    pub(crate) path: Text,
    pub(crate) from: usize,
}

fn is_at_most_two_dots(text: &[u8]) -> bool
    ensures { result ≡ is_at_most_two_dots text.now }
{
    text.iter().all(|byte| *byte == b'.') && text.len() <= 2
}

/// Whether a name has steps alone that lead down.
fn has_steps(name: &[u8]) -> bool
    ensures { result ≡ has_steps name.now }
{
    name.split(|byte| *byte == b'/')
        .all(|step| !is_at_most_two_dots(step))
}

/// Whether a text is the name of a content: steps down with a slash between two, and no `~` at its
/// start.
pub(crate) fn is_name(name: &[u8]) -> bool
    ensures { result ≡ is_name name.now }
{
    has_steps(name) && !name.starts_with(b"~")
}

/// Where a name stands below a folder. What is no name stands nowhere.
pub(crate) fn place_of(alloc: Global, folder: &str, name: &str) -> Result<Option<Place>, NoMemory>
    ensures name { IfOk result (λ found. IfSome found (λ place. IsName name.now)) }
    ensures path { IfOk result (λ found. IfSome found (λ place. place.path ≡ folder.now ++ slash ∷ name.now)) }
    ensures from { IfOk result (λ found. IfSome found (λ place. place.from ≡ length folder.now + 1)) }
    ensures none { IfOk result (λ found. IfNone found (IsName name.now → ⊥)) }
{
    if !is_name(name.as_bytes()) {
        return Ok(None);
    }
    Ok(Some(Place {
        path: url_of(alloc, folder, name)?,
        from: folder.len() + 1,
    }))
}

/// The folder that a slash at a place of a path ends.
pub(crate) fn folder_before(path: &str, end: usize) -> Option<&str> {
    match path.split_at_checked(end) {
        Some((folder, rest)) if rest.starts_with('/') => Some(folder),
        _ => None,
    }
}

/// The folder in which a path stands.
pub(crate) fn folder_of(path: &str) -> &str {
    match path.rsplit_once('/') {
        Some((folder, _)) if folder.is_empty() => "/",
        Some((folder, _)) => folder,
        None => ".",
    }
}
