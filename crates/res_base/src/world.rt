//! Worlds: what stands at which URL.
ghost use Rattle.std.specs.Prelude.{◌≡◌, ◌∷◌, [], ◌++◌, OnOk, OnErr};
ghost use Rattle.std.specs.Option.{option_copied};
ghost use Rattle.res_base.specs.World.{at};

use crate::{Copied, List, NoMemory, Text};
use std::alloc::Global;

/// A file of a world.
#[derive(Debug, Drop)]
pub struct WorldRow {
    pub url: Text,
    pub bytes: List<u8>,
}

/// Files by their URLs. Of several rows with one URL the first counts.
#[derive(Debug, Drop)]
pub struct World {
    pub rows: List<WorldRow>,
}

impl World {
    /// The world without a file.
    pub fn new(alloc: Global) -> World
        ensures { result.rows ≡ [] }
    {
        World {
            rows: List::new(alloc),
        }
    }

    /// Puts a file last.
    pub fn add(&mut self, alloc: Global, url: &str, bytes: &[u8]) -> Result<(), NoMemory>
        ensures ok { OnOk result (self.new.rows ≡ self.old.rows ++ record { url = url.now; bytes = bytes.now } ∷ []) }
        ensures err { OnErr result (self.new ≡ self.old) }
    {
        let url = Text::of(alloc, url)?;
        let bytes = List::from_slice(alloc, bytes)?;
        self.rows.push(WorldRow { url, bytes })
    }

    /// The bytes of the first row with this URL. `None` is: the world is absent there.
    pub fn at(&self, url: &str) -> Option<&[u8]>
        ensures { option_copied result ≡ at self.now.rows url.now }
    {
        for row in self.rows.as_slice() {
            if row.url.as_str() == url {
                return Some(row.bytes.as_slice());
            }
        }
        None
    }
}

impl Copied for WorldRow {
    fn copy(&self, alloc: Global) -> Result<WorldRow, NoMemory> {
        Ok(WorldRow {
            url: self.url.copy(alloc)?,
            bytes: List::from_slice(alloc, self.bytes.as_slice())?,
        })
    }
}

impl Copied for World {
    fn copy(&self, alloc: Global) -> Result<World, NoMemory> {
        Ok(World {
            rows: self.rows.copy(alloc)?,
        })
    }
}
