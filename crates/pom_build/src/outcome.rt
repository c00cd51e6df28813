//! What comes of building a part of a project.
ghost use Rattle.std.specs.Prelude.{◌≡◌, ◌∷◌, [], IfOk};

use super::build::BuildFault;
use res_base::{FileKey, List, NoMemory, Reason};
use std::alloc::Global;

#[derive(Drop)]
pub(crate) enum Outcome<T> {
    Built(T),
    Needs(List<FileKey>),
    NotFound(List<Reason>),
    Refused(BuildFault),
}

pub(crate) fn one_key(alloc: Global, key: FileKey) -> Result<List<FileKey>, NoMemory>
    ensures { IfOk result (λ made. made ≡ key ∷ []) }
{
    let mut keys: List<FileKey> = List::new(alloc);
    keys.push(key)?;
    Ok(keys)
}
