//! The log.
ghost use Rattle.std.specs.BTreeMap.{IsUnchanged, Updates, btree_map_len, get};
ghost use Rattle.std.specs.Prelude.{◌≡◌, ◌<◌, ◌≤◌, ◌+◌, ◌↔◌, ◌∷◌, [], ◌++◌, true, IfErr, IfOk, IsOk, IsSome, None, OnErr, OnOk, Some, length, vec_capacity};
ghost use Rattle.claim_log.specs.Events.{events_of};
ghost use Rattle.claim_log.specs.Logs.{IsRefusal, then_by};
ghost use Rattle.claim_log.specs.Tallies.{KeepsRows};
ghost use Rattle.claim_rules.specs.Claims.{is_free as passes};
ghost use Rattle.claim_rules.specs.Counts.{claims as claims_in};
ghost use Rattle.claim_rules.specs.Histories.{any_in_flight as some_flies, arrive, broke as breaks, claim as claims_it, give_back as returns_it, holder, known_in, pairs_in};
ghost use Rattle.project_lookup.specs.KnownPairs.{stands_at};
ghost use Rattle.res_base.specs.Known.{known_of};
ghost use Rattle.res_base.specs.Names.{key_cmp};

use super::event::{Event, EventKind, put_last};
use super::flights::{is_held, land, take_off};
use super::tallies::{Tally, add_row, count_break, is_broken, tally_at};
use claim_rules::{Why, flights_told};
use project_lookup::{InsertErr, Known};
use res_base::{Copied, FileKey, NoMemory, Reading, equality_decided};
use std::alloc::Global;
use std::collections::BTreeMap;
use std::marker::Model;

/// That seat has no claim on the key.
#[derive(Clone, Copy, Debug, PartialEq, Eq, Drop)]
pub struct NotClaimed;

/// Why a reading was not taken. Either hands it back.
#[derive(Drop)]
pub enum AbsorbErr {
    /// That seat has no claim on the key.
    NotClaimed(Reading),
    NoMemory(Reading),
}

/// What happened, who has a claim on which key, and how often keys broke. Contracts see the number
/// of repositories and the history.
#[derive(Drop)]
pub struct ClaimLog {
    known: Known,
    /// With room for the end of each claim in flight.
    events: Vec<Event>,
    /// The keys in flight, each by the copy that its end takes. Tables are ordered: strangers
    /// choose the paths.
    flights: BTreeMap<FileKey, u32>,
    tallies: BTreeMap<FileKey, Tally>,
    claims: u64,
}

impl Model for ClaimLog {
    ghost use Rattle.std.specs.BTreeMap.{btree_map_len};
    ghost use Rattle.std.specs.Prelude.{◌≤◌, ◌+◌, length, vec_capacity};
    ghost use Rattle.claim_log.specs.Logs.{Log};

    ghost Value = { Log };

    ghost use Rattle.claim_log.specs.Kept.{IsKept};
    ghost use Rattle.claim_log.specs.Told.{AreOf, history_of};

    ghost view = { λ log. record { repos = log.known.repos; history = history_of log.events.items log.known.pairs } };

    ghost invariant = { λ log.
        (length log.events.items + btree_map_len log.flights ≤ vec_capacity log.events)
        × AreOf (history_of log.events.items log.known.pairs) log.events.items log.known.pairs
        × IsKept log.known.repos (history_of log.events.items log.known.pairs) log.flights log.tallies log.claims };
}

/// Makes all room that a claim and its end take, and puts the key among those in flight. It gives a
/// copy of the key.
fn make_room(
    alloc: Global,
    events: &mut Vec<Event>,
    flights: &mut BTreeMap<FileKey, u32>,
    tallies: &mut BTreeMap<FileKey, Tally>,
    seat: u32,
    key: &FileKey,
) -> Result<FileKey, NoMemory>
    requires { get key_cmp flights.old key.now ≡ None }
    ensures copied { IfOk result (λ made. made ≡ key.now) }
    ensures events { events.new.items ≡ events.old.items }
    ensures capacity { vec_capacity events.old ≤ vec_capacity events.new }
    ensures room { OnOk result (length events.new.items + btree_map_len flights.new + 1 ≤ vec_capacity events.new) }
    ensures flights { OnOk result (Updates key_cmp flights.old flights.new key.now (Some seat)) }
    ensures unchanged { OnErr result (IsUnchanged flights.old flights.new) }
    ensures rows { KeepsRows tallies.old tallies.new }
    ensures row { OnOk result (IsSome (get key_cmp tallies.new key.now)) }
{
    let copied = key.copy(alloc)?;
    events.reserve(flights.len() + 2)?;
    add_row(alloc, tallies, key)?;
    take_off(alloc, flights, seat, key)?;
    Ok(copied)
}

/// Puts in what is known of a key, by a copy of the key.
fn put_known(
    alloc: Global,
    known: &mut Known,
    key: &FileKey,
    reading: Reading,
) -> Result<(), Reading>
    requires repo { key.now.repo < known.old.repos }
    requires role { stands_at reading key.now.role ≡ true }
    requires unknown { known_of known.old.pairs key.now ≡ None }
    ensures ok { OnOk result (known.new ≡ record known.old { pairs = known.old.pairs ++ (key.now, reading) ∷ [] }) }
    ensures err { IfErr result (λ back. back ≡ reading) }
    ensures unchanged { OnErr result (known.new ≡ known.old) }
{
    let Ok(copied) = key.copy(alloc) else {
        return Err(reading);
    };
    match known.insert(copied, reading) {
        Ok(()) => Ok(()),
        Err(InsertErr::AlreadyKnown(_, reading)) => Err(reading),
        Err(InsertErr::NoMemory(reading)) => Err(reading),
    }
}

impl ClaimLog {
    /// Nothing happened yet, in so many repositories, 1 to 16.
    pub fn new(alloc: Global, repos: u32) -> ClaimLog
        requires some { 0 < repos }
        requires most { repos ≤ 16 }
        ensures { result ≡ record { repos = repos; history = [] } }
    {
        ClaimLog {
            known: Known::new(alloc, repos),
            events: Vec::new(alloc),
            flights: BTreeMap::new(alloc),
            tallies: BTreeMap::new(alloc),
            claims: 0,
        }
    }

    /// What is known: the pairs that arrived, in their order.
    pub fn known(&self) -> &Known
        ensures { result.now ≡ record { repos = self.now.repos; pairs = pairs_in self.now.history } }
    {
        &self.known
    }

    /// What happened, in order. The arrivals name the places of their pairs, from 0 on.
    pub fn events(&self) -> &[Event]
        ensures { result.now ≡ events_of self.now.history }
    {
        self.events.as_slice()
    }

    /// How many claims were made.
    pub fn claims(&self) -> u64
        ensures { result ≡ claims_in self.now.history }
    {
        self.claims
    }

    /// Whether some claim is in flight.
    pub fn any_in_flight(&self) -> bool
        ensures { result ≡ some_flies self.now.history }
    {
        flights_told();
        self.flights.first_key_value().is_some()
    }

    /// Whether the key is neither known nor in flight nor broken, where it is tried again so many
    /// times.
    pub fn is_free(&self, key: &FileKey, retries: u32) -> bool
        ensures { result ≡ passes retries self.now.history key.now }
    {
        self.known.at(key).is_none()
            && !self.flights.contains_key(key)
            && !is_broken(tally_at(&self.tallies, key), retries)
    }

    /// Gives a key to a seat. The key is to be neither known nor in flight. All that the end of the
    /// claim takes is made here.
    pub fn claim(&mut self, alloc: Global, seat: u32, key: &FileKey) -> Result<(), NoMemory>
        requires repo { key.now.repo < self.old.repos }
        requires unknown { known_in self.old.history key.now ≡ None }
        requires landed { holder self.old.history key.now ≡ None }
        ensures ok { OnOk result (self.new ≡ then_by self.old seat (claims_it key.now)) }
        ensures err { OnErr result (self.new ≡ self.old) }
    {
        equality_decided();
        let copied = make_room(
            alloc,
            &mut self.events,
            &mut self.flights,
            &mut self.tallies,
            seat,
            key,
        )?;
        self.claims += 1;
        put_last(&mut self.events, seat, EventKind::Claim(copied));
        Ok(())
    }

    /// Takes the reading of a claimed key. Where the answer is an error all is as before, and the
    /// reading comes back.
    ///
    /// `NotClaimed` comes exactly where that seat has no claim on the key.
    pub fn absorb(
        &mut self,
        alloc: Global,
        seat: u32,
        key: &FileKey,
        reading: Reading,
    ) -> Result<(), AbsorbErr>
        requires { stands_at reading key.now.role ≡ true }
        ensures ok { OnOk result (self.new ≡ then_by self.old seat (arrive key.now reading)) }
        ensures claimed { OnOk result (holder self.old.history key.now ≡ Some seat) }
        ensures refused { IfErr result (IsRefusal self.old.history seat key.now reading) }
        ensures unchanged { OnErr result (self.new ≡ self.old) }
    {
        equality_decided();
        if !is_held(&self.flights, seat, key) {
            return Err(AbsorbErr::NotClaimed(reading));
        }
        let place = self.known.len() as u64;
        match put_known(alloc, &mut self.known, key, reading) {
            Err(reading) => Err(AbsorbErr::NoMemory(reading)),
            Ok(()) => {
                let own = land(&mut self.flights, key);
                put_last(&mut self.events, seat, EventKind::Arrive(own, place));
                Ok(())
            }
        }
    }

    /// A claim broke. It takes no memory.
    ///
    /// `NotClaimed` comes exactly where that seat has no claim on the key.
    pub fn broke(&mut self, seat: u32, key: &FileKey, why: Why) -> Result<(), NotClaimed>
        ensures claimed { IsOk result ↔ (holder self.old.history key.now ≡ Some seat) }
        ensures ok { OnOk result (self.new ≡ then_by self.old seat (breaks key.now why)) }
        ensures err { OnErr result (self.new ≡ self.old) }
    {
        equality_decided();
        if !is_held(&self.flights, seat, key) {
            return Err(NotClaimed);
        }
        count_break(&mut self.tallies, key, why);
        let own = land(&mut self.flights, key);
        put_last(&mut self.events, seat, EventKind::Broke(own, why));
        Ok(())
    }

    /// A claim is given back: the key is free again. It takes no memory.
    ///
    /// `NotClaimed` comes exactly where that seat has no claim on the key.
    pub fn give_back(&mut self, seat: u32, key: &FileKey) -> Result<(), NotClaimed>
        ensures claimed { IsOk result ↔ (holder self.old.history key.now ≡ Some seat) }
        ensures ok { OnOk result (self.new ≡ then_by self.old seat (returns_it key.now)) }
        ensures err { OnErr result (self.new ≡ self.old) }
    {
        equality_decided();
        if !is_held(&self.flights, seat, key) {
            return Err(NotClaimed);
        }
        let own = land(&mut self.flights, key);
        put_last(&mut self.events, seat, EventKind::GiveBack(own));
        Ok(())
    }
}
