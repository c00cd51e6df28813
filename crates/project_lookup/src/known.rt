//! Known readings, by their keys.
ghost use Rattle.std.specs.BTreeMap.{IsUnchanged, Updates};
ghost use Rattle.std.specs.Option.{option_copied};
ghost use Rattle.std.specs.Prelude.{◌≡◌, ◌<◌, ◌≤◌, ◌∷◌, [], ◌++◌, true, None, Some, length, IfErr, OnOk, OnErr};
ghost use Rattle.project_lookup.specs.KnownPairs.{AreFit, HasPlaces, place_of, stands_at};
ghost use Rattle.res_base.specs.Known.{HasDistinctKeys, known_of};
ghost use Rattle.project_lookup.specs.Refusals.{IsRefusal};
ghost use Rattle.res_base.specs.Names.{key_cmp};

use res_base::{Copied, FileKey, NoMemory, Reading};
use std::alloc::Global;
use std::collections::BTreeMap;
use std::marker::Model;

/// Why a reading was not put in. Either hands it back.
#[derive(Drop)]
pub enum InsertErr {
    /// The key is known, by the pair at this place.
    AlreadyKnown(usize, Reading),
    NoMemory(Reading),
}

/// What is known: a reading for each of some keys, in the order in which they came. Contracts see
/// the number of repositories and the list of the pairs.
#[derive(Drop)]
pub struct Known {
    repos: u32,
    readings: Vec<(FileKey, Reading)>,
    /// The place of each key among the readings, in an ordered table: strangers choose the paths.
    places: BTreeMap<FileKey, usize>,
}

impl Model for Known {
    ghost use Rattle.std.specs.Prelude.{◌<◌, ◌≤◌};
    ghost use Rattle.project_lookup.specs.KnownPairs.{KnownPairs, AreFit, HasPlaces};
    ghost use Rattle.res_base.specs.Known.{HasDistinctKeys};

    ghost Value = { KnownPairs };

    ghost view = { λ known. record { repos = known.repos; pairs = known.readings.items } };

    ghost invariant = { λ known.
        (0 < known.repos)
        × (known.repos ≤ 16)
        × AreFit known.repos known.readings.items
        × HasDistinctKeys known.readings.items
        × HasPlaces known.readings.items known.places };
}

/// Notes the place of a key.
fn put_place(
    alloc: Global,
    places: &mut BTreeMap<FileKey, usize>,
    key: &FileKey,
    place: usize,
) -> Result<(), NoMemory>
    ensures ok { OnOk result (Updates key_cmp places.old places.new key.now (Some place)) }
    ensures err { OnErr result (IsUnchanged places.old places.new) }
{
    let copied = key.copy(alloc)?;
    places.insert(copied, place)?;
    Ok(())
}

/// Puts a reading last, and notes its place. It comes back when out of memory.
fn put_last(
    readings: &mut Vec<(FileKey, Reading)>,
    places: &mut BTreeMap<FileKey, usize>,
    key: FileKey,
    reading: Reading,
) -> Result<(), Reading>
    ensures ok { OnOk result (readings.new.items ≡ readings.old.items ++ (key, reading) ∷ []) }
    ensures places { OnOk result (Updates key_cmp places.old places.new key (Some (length readings.old.items))) }
    ensures err { IfErr result (λ back. back ≡ reading) }
    ensures unchanged { OnErr result (readings.new.items ≡ readings.old.items) }
    ensures places_unchanged { OnErr result (IsUnchanged places.old places.new) }
{
    let alloc = *readings.allocator();
    let place = readings.len();
    if readings.reserve(1).is_err() {
        return Err(reading);
    }
    if put_place(alloc, places, &key, place).is_err() {
        return Err(reading);
    }
    readings.push((key, reading)).unwrap();
    Ok(())
}

impl Known {
    /// Nothing is known of so many repositories, 1 to 16.
    pub fn new(alloc: Global, repos: u32) -> Known
        requires some { 0 < repos }
        requires most { repos ≤ 16 }
        ensures { result ≡ record { repos = repos; pairs = [] } }
    {
        Known {
            repos,
            readings: Vec::new(alloc),
            places: BTreeMap::new(alloc),
        }
    }

    /// The number of repositories, 1 to 16.
    pub fn repos(&self) -> u32
        ensures value { result ≡ self.now.repos }
        ensures some { 0 < result }
        ensures most { result ≤ 16 }
    {
        self.repos
    }

    /// The number of known keys. They are distinct, each is of one of the repositories, and has a
    /// reading of its role.
    pub fn len(&self) -> usize
        ensures value { result ≡ length self.now.pairs }
        ensures distinct { HasDistinctKeys self.now.pairs }
        ensures fit { AreFit self.now.repos self.now.pairs }
    {
        self.readings.len()
    }

    /// Puts a reading last, under a key that was not known.
    ///
    /// `AlreadyKnown` comes exactly where the key is known, and takes no memory. After a refusal
    /// all is as it was.
    pub fn insert(&mut self, key: FileKey, reading: Reading) -> Result<(), InsertErr>
        requires repo { key.repo < self.old.repos }
        requires role { stands_at reading key.role ≡ true }
        ensures ok { OnOk result (self.new ≡ record self.old { pairs = self.old.pairs ++ (key, reading) ∷ [] }) }
        ensures unknown { OnOk result (known_of self.old.pairs key ≡ None) }
        ensures refused { IfErr result (IsRefusal self.old.pairs key reading) }
        ensures unchanged { OnErr result (self.new ≡ self.old) }
    {
        match self.place(&key) {
            Some(place) => Err(InsertErr::AlreadyKnown(place, reading)),
            None => self.put(key, reading),
        }
    }

    /// The place of the pair with a key.
    fn place(&self, key: &FileKey) -> Option<usize>
        ensures { result ≡ place_of self.now.pairs key.now }
    {
        self.places.get(key).copied()
    }

    /// Puts a reading last, under a key that is not known.
    fn put(&mut self, key: FileKey, reading: Reading) -> Result<(), InsertErr>
        requires repo { key.repo < self.old.repos }
        requires role { stands_at reading key.role ≡ true }
        requires unknown { known_of self.old.pairs key ≡ None }
        requires unplaced { place_of self.old.pairs key ≡ None }
        ensures ok { OnOk result (self.new ≡ record self.old { pairs = self.old.pairs ++ (key, reading) ∷ [] }) }
        ensures unknown { OnOk result (known_of self.old.pairs key ≡ None) }
        ensures refused { IfErr result (IsRefusal self.old.pairs key reading) }
        ensures unchanged { OnErr result (self.new ≡ self.old) }
    {
        match put_last(&mut self.readings, &mut self.places, key, reading) {
            Ok(()) => Ok(()),
            Err(reading) => Err(InsertErr::NoMemory(reading)),
        }
    }

    /// The reading at a key. `None` is: the key is not known. It takes no memory.
    pub fn at(&self, key: &FileKey) -> Option<&Reading>
        ensures { option_copied result ≡ known_of self.now.pairs key.now }
    {
        match self.place(key) {
            None => None,
            Some(place) => Some(&self.readings[place].1),
        }
    }
}
