//! The files of a world, to be found by their URLs.
ghost use Rattle.std.specs.Prelude.{◌≡◌, ◌≤◌, length, OnOk, Some};
ghost use Rattle.std.specs.Option.{option_copied};
ghost use Rattle.link_base.specs.UrlPlaces.{HasPlaces, bytes_at, place_from};
ghost use Rattle.res_base.specs.World.{at};

use indexmap::IndexMap;
use res_base::{Copied, NoMemory, Text, World, WorldRow};
use std::alloc::Global;

/// A world, and a table of the places of its URLs. The table is made at the first question, since
/// that takes memory; it is filled from the last row to the first, so that the first row of a URL
/// stays.
#[derive(Drop)]
pub(crate) struct WorldFiles {
    pub(crate) world: World,
    places: IndexMap<Text, usize>,
    /// The rows from here on are in the table.
    from: usize,
    ghost within: { from ≤ length world.rows },
    ghost has_places: { HasPlaces places from world.rows },
}

impl WorldFiles {
    pub(crate) fn new(alloc: Global, world: World) -> WorldFiles
        ensures { result.world ≡ world }
    {
        let from = world.rows.len();
        WorldFiles {
            world,
            places: IndexMap::new(alloc),
            from,
        }
    }

    /// Fills the table.
    pub(crate) fn prepare(&mut self, alloc: Global) -> Result<(), NoMemory>
        ensures world { self.new.world ≡ self.old.world }
        ensures ok { OnOk result (self.new.from ≡ 0) }
    {
        while self.from > 0 {
            let place = self.from - 1;
            let url = self.world.rows.as_slice()[place].url.copy(alloc)?;
            self.places.insert(url, place)?;
            self.from = place;
        }
        Ok(())
    }

    /// The place of the first row with a URL.
    fn place_of(&self, url: &Text) -> Option<usize>
        requires { self.now.from ≡ 0 }
        ensures { result ≡ place_from 0 self.now.world.rows url.now }
    {
        self.places.get(url).copied()
    }

    /// The bytes at a URL.
    pub(crate) fn at(&self, url: &Text) -> Option<&[u8]>
        requires { self.now.from ≡ 0 }
        ensures { option_copied result ≡ at self.now.world.rows url.now }
    {
        match self.place_of(url) {
            None => None,
            Some(place) => row_bytes(self.world.rows.as_slice(), place),
        }
    }
}

/// The bytes of the row at a place.
fn row_bytes(rows: &[WorldRow], place: usize) -> Option<&[u8]>
    ensures { option_copied result ≡ bytes_at rows.now (Some place) }
{
    match rows.get(place) {
        None => None,
        Some(row) => Some(row.bytes.as_slice()),
    }
}
