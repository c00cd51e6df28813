//! Keys in the order in which they come, each once.
ghost use Rattle.std.specs.Prelude.{◌≡◌, [], fold, IfOk};
ghost use Rattle.pom_build.specs.Imports.{with_key as keys_with};

use res_base::{Copied, FileKey, List, NoMemory};
use std::alloc::Global;
use std::collections::BTreeMap;
use std::marker::Model;

/// Keys of which none comes twice, in order. Contracts see the list of them.
#[derive(Drop)]
pub(crate) struct KeyList {
    keys: List<FileKey>,
    /// The same keys in an ordered table: strangers choose the paths.
    among: BTreeMap<FileKey, ()>,
}

impl Model for KeyList {
    ghost use Rattle.std.specs.Prelude.{List};
    ghost use Rattle.res_base.specs.declared.key.FileKey.{FileKey as Key};
    ghost use Rattle.pom_build.specs.KeyLists.{HasKeys};

    ghost Value = { List Key };

    ghost view = { λ list. list.keys };

    ghost invariant = { λ list. HasKeys list.keys list.among };
}

impl KeyList {
    pub fn new(alloc: Global) -> KeyList
        ensures { result ≡ [] }
    {
        KeyList {
            keys: List::new(alloc),
            among: BTreeMap::new(alloc),
        }
    }

    /// The keys with one more at their end, unless it is among them.
    fn with_key(self, alloc: Global, key: FileKey) -> Result<KeyList, NoMemory>
        ensures { IfOk result (λ made. made ≡ keys_with self key) }
    {
        let KeyList {
            mut keys,
            mut among,
        } = self;
        if among.contains_key(&key) {
            return Ok(KeyList { keys, among });
        }
        among.insert(key.copy(alloc)?, ())?;
        keys.push(key)?;
        Ok(KeyList { keys, among })
    }

    /// The keys with more at their end, each once.
    pub fn with_keys(self, alloc: Global, more: List<FileKey>) -> Result<KeyList, NoMemory>
        ensures { IfOk result (λ made. made ≡ fold keys_with self more) }
    {
        let mut made = self;
        for key in more.into_vec() {
            made = made.with_key(alloc, key)?;
        }
        Ok(made)
    }

    pub fn into_keys(self) -> List<FileKey>
        ensures { result ≡ self }
    {
        let KeyList { keys, .. } = self;
        keys
    }
}
