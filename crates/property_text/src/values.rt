//! Values under names.
ghost use Rattle.std.specs.Prelude.{◌≡◌, [], IfOk};
ghost use Rattle.std.specs.Option.{option_copied};
ghost use Rattle.property_text.specs.Values.{place_of, seen, value_in, with_value};

use res_base::NoMemory;
use std::alloc::Global;
use std::collections::BTreeMap;
use std::marker::Model;

/// Values under distinct names, in the order in which they came. Both stand elsewhere. Contracts
/// see the pairs.
#[derive(Drop)]
pub struct Values<'a> {
    pairs: Vec<(&'a str, &'a str)>,
    /// The place of each name among the pairs, in an ordered table: strangers choose the names.
    places: BTreeMap<&'a str, usize>,
}

impl<'a> Model for Values<'a> {
    ghost use Rattle.std.specs.Prelude.{List};
    ghost use Rattle.property_text.specs.Values.{HasPlaces, Pair, seen};

    ghost Value = { List Pair };

    ghost view = { λ values. seen values.pairs.items };

    ghost invariant = { λ values. HasPlaces (seen values.pairs.items) values.places };
}

impl<'a> Values<'a> {
    pub fn new(alloc: Global) -> Values<'a>
        ensures { result ≡ [] }
    {
        Values {
            pairs: Vec::new(alloc),
            places: BTreeMap::new(alloc),
        }
    }

    /// The values with that of one more name, unless the name has one: the first value of a name
    /// counts.
    pub fn with(self, name: &'a str, value: &'a str) -> Result<Values<'a>, NoMemory>
        ensures { IfOk result (λ made. made ≡ with_value self.entry name.now value.now) }
    {
        let Values {
            mut pairs,
            mut places,
        } = self;
        if places.contains_key(name) {
            return Ok(Values { pairs, places });
        }
        places.insert(name, pairs.len())?;
        pairs.push((name, value))?;
        Ok(Values { pairs, places })
    }

    pub(crate) fn pairs(&self) -> &[(&'a str, &'a str)]
        ensures { seen result.now ≡ self.now }
    {
        &self.pairs
    }

    /// The place of a name.
    pub(crate) fn place(&self, name: &str) -> Option<usize>
        ensures { result ≡ place_of self.now name.now }
    {
        self.places.get(name).copied()
    }

    /// The value of a name.
    pub fn value(&self, name: &str) -> Option<&'a str>
        ensures { option_copied result ≡ value_in self.now name.now }
    {
        match self.place(name) {
            None => None,
            Some(place) => Some(self.pairs[place].1),
        }
    }
}
