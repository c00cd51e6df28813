//! Keys in order.
ghost use Rattle.std.specs.Prelude.{◌≡◌, [], IfOk};
ghost use Rattle.res_base.specs.Names.{key_cmp};
ghost use Rattle.std.specs.BTreeSet.{insert_key};
ghost use Rattle.round_core.specs.Needs.{with_keys as keys_with};

use res_base::{Copied, FileKey, List, NoMemory};
use std::alloc::Global;
use std::collections::BTreeSet;
use std::marker::Model;

/// Keys in key order, each once. Contracts see the list of them.
#[derive(Drop)]
pub(crate) struct KeySet {
    keys: BTreeSet<FileKey>,
}

impl Model for KeySet {
    ghost use Rattle.std.specs.Prelude.{List};
    ghost use Rattle.res_base.specs.declared.key.FileKey.{FileKey as Key};

    ghost Value = { List Key };

    ghost view = { λ set. set.keys.keys };
}

impl KeySet {
    pub fn new(alloc: Global) -> KeySet
        ensures { result ≡ [] }
    {
        KeySet {
            keys: BTreeSet::new(alloc),
        }
    }

    pub fn with_key(self, key: FileKey) -> Result<KeySet, NoMemory>
        ensures { IfOk result (λ made. made ≡ insert_key key_cmp self key) }
    {
        let KeySet { mut keys } = self;
        keys.insert(key)?;
        Ok(KeySet { keys })
    }

    pub fn with_keys(self, alloc: Global, more: &[FileKey]) -> Result<KeySet, NoMemory>
        ensures { IfOk result (λ made. made ≡ keys_with self more.now) }
    {
        let mut made = self;
        for key in more {
            made = made.with_key(key.copy(alloc)?)?;
        }
        Ok(made)
    }

    pub fn into_list(self, alloc: Global) -> Result<List<FileKey>, NoMemory>
        ensures { IfOk result (λ made. made ≡ self) }
    {
        let KeySet { keys } = self;
        let mut made: List<FileKey> = List::new(alloc);
        for key in keys {
            made.push(key)?;
        }
        Ok(made)
    }
}
