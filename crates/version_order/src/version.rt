//! A version as a value, with its two orders.
ghost use Rattle.std.specs.Prelude.{◌≡◌, ℕ, List, IfOk};
ghost use Rattle.std.specs.Cmp.{IsTotalOrder};
ghost use Rattle.std.specs.declared.cmp.Ordering.TheVariants.{Equal};
ghost use Rattle.version_order.specs.Ranks.{items_cmp, full_cmp, same_series, ties_at, rank_in, rank_cmp, empty_rank};
ghost use Rattle.std.specs.Ordering.{is_eq};
ghost use Rattle.std.specs.Str.{str_to_ascii_lowercase};

use super::item::{Item, cmp_at, cmp_items, items_of};
use interval_sets::{NoMemory, Ranked};
use std::alloc::{AllocError, Global};
use std::cmp::Ordering;
use std::marker::Model;

/// A version: a text, and its items as they were read. Contracts see the text.
#[derive(Debug, Drop)]
pub struct Version {
    text: String,
    lowered: Vec<u8>,
    items: Vec<Item>,
}

impl Model for Version {
    ghost use Rattle.std.specs.Prelude.{ℕ, List};
    ghost use Rattle.std.specs.String.{string_bytes};
    ghost use Rattle.version_order.specs.Kept.{IsKept};

    ghost Value = { List ℕ };

    ghost view = { λ version. string_bytes version.text };

    ghost invariant = { λ version. IsKept (string_bytes version.text) version.lowered.items version.items.items };
}

fn lowered(alloc: Global, text: &str) -> Result<Vec<u8>, AllocError>
    ensures { IfOk result (λ made. made.items ≡ str_to_ascii_lowercase text.now) }
{
    let mut made = Vec::from_slice(alloc, text.as_bytes())?;
    made.as_mut_slice().make_ascii_lowercase();
    Ok(made)
}

impl Version {
    /// Reads a text of any bytes, in time in proportion to its length.
    pub fn read(alloc: Global, text: &str) -> Result<Version, NoMemory>
        ensures { IfOk result (λ version. version ≡ text.now) }
    {
        let lowered = lowered(alloc, text)?;
        let items = items_of(alloc, lowered.as_slice())?;
        let text = String::from_str(alloc, text)?;
        Ok(Version {
            text,
            lowered,
            items,
        })
    }

    pub fn text(&self) -> &str
        ensures { result.now ≡ self.now }
    {
        self.text.as_str()
    }

    /// The order by items, under which versions that differ may tie. It takes no memory.
    pub fn cmp_items(&self, other: &Version) -> Ordering
        ensures { result ≡ items_cmp self.now other.now }
    {
        cmp_items(
            self.items.as_slice(),
            self.lowered.as_slice(),
            other.items.as_slice(),
            other.lowered.as_slice(),
        )
    }

    /// The order by items with ties broken by the bytes of the texts. It takes no memory.
    pub fn cmp_full(&self, other: &Version) -> Ordering
        ensures { result ≡ full_cmp self.now other.now }
    {
        match self.cmp_items(other) {
            Ordering::Equal => self.text.as_str().cmp(other.text.as_str()),
            order => order,
        }
    }

    /// Whether the first items rank the same, and where they rank as the number 0 the second items
    /// too. It takes no memory.
    pub fn same_series(&self, other: &Version) -> bool
        ensures { result ≡ same_series self.now other.now }
    {
        self.ties_at(other, 0) && (!self.begins_as_zero() || self.ties_at(other, 1))
    }

    fn ties_at(&self, other: &Version, place: usize) -> bool
        ensures { result ≡ ties_at self.now other.now place }
    {
        cmp_at(
            self.items.as_slice(),
            self.lowered.as_slice(),
            other.items.as_slice(),
            other.lowered.as_slice(),
            place,
        )
        .is_eq()
    }

    fn begins_as_zero(&self) -> bool
        ensures { result ≡ is_eq (rank_cmp (rank_in self.now 0) empty_rank) }
    {
        cmp_at(self.items.as_slice(), self.lowered.as_slice(), &[], &[], 0).is_eq()
    }
}

impl Ranked for Version {
    ghost use Rattle.version_order.specs.Ranks.{items_cmp};
    ghost use Rattle.version_order.specs.Order.{items_total};

    ghost order = { items_cmp };

    fn cmp_rank(&self, other: &Version) -> Ordering {
        self.cmp_items(other)
    }

    fn copy(&self, alloc: Global) -> Result<Version, NoMemory> {
        let text = self.text.clone()?;
        let lowered = Vec::from_slice(alloc, self.lowered.as_slice())?;
        let items = Vec::from_slice(alloc, self.items.as_slice())?;
        Ok(Version {
            text,
            lowered,
            items,
        })
    }

    ghost total = { items_total };
}

/// A law, with nothing to run: over all texts the order by items is total up to ties, and the
/// full order is total and ties equal texts alone.
pub fn orders()
    ensures by_items { IsTotalOrder items_cmp }
    ensures full { IsTotalOrder full_cmp }
    ensures ties { (a b : List ℕ) → full_cmp a b ≡ Equal → a ≡ b }
{}
