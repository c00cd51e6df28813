//! The fields of an element.
ghost use Rattle.std.specs.Prelude.{◌≡◌, ◌<◌, IfOk, IsTrue};
ghost use Rattle.std.specs.Option.{option_copied};
ghost use Rattle.case_table.specs.Numbers.{name_at};
ghost use Rattle.pom_record.specs.Fields.{is_named, field, text_of, children_of};
ghost use Rattle.pom_record.specs.FieldNames.{name_rows};
ghost use Rattle.pom_record.specs.FieldPlaces.{ArePlaces};

use crate::names::COUNT;
use case_table::{Table, names_numbered};
use pom_text::Tree;
use res_base::{Copied, NoMemory, Text};
use std::alloc::Global;

/// The children of an element, sorted into its fields.
#[derive(Drop)]
pub(crate) struct Fields<'a> {
    pub children: &'a [Tree],
    /// At a name's number the place of the first child of that name; without one, the number of
    /// the children.
    pub places: [usize; COUNT],
}

fn places_of(names: &Table<usize>, children: &[Tree]) -> [usize; COUNT]
    requires { names.now ≡ name_rows }
    ensures { ArePlaces children.now result }
{
    names_numbered();
    let mut places = [children.len(); COUNT];
    let mut at = children.len();
    while at > 0 {
        at -= 1;
        if let Some(number) = names.find(children[at].name.as_str()) {
            places[*number] = at;
        }
    }
    places
}

impl<'a> Fields<'a> {
    /// Sorts the children, in one pass.
    pub(crate) fn of(names: &Table<usize>, children: &'a [Tree]) -> Fields<'a>
        requires { names.now ≡ name_rows }
        ensures children { result.children.now ≡ children.now }
        ensures places { ArePlaces children.now result.places }
    {
        let places = places_of(names, children);
        Fields { children, places }
    }

    /// The first child of a name, by its number.
    pub(crate) fn field(&self, number: usize) -> Option<&'a Tree>
        requires number { number < 18 }
        requires places { ArePlaces self.now.children.now self.now.places }
        ensures { option_copied result ≡ field (name_at name_rows number) self.now.children.now }
    {
        self.children.get(self.places[number])
    }

    /// The text of a field.
    pub(crate) fn text(&self, alloc: Global, number: usize) -> Result<Text, NoMemory>
        requires number { number < 18 }
        requires places { ArePlaces self.now.children.now self.now.places }
        ensures { IfOk result (λ text. text ≡ text_of (name_at name_rows number) self.now.children.now) }
    {
        match self.field(number) {
            Some(child) => child.text.copy(alloc),
            None => Ok(Text::new(alloc)),
        }
    }

    /// The children of a field.
    pub(crate) fn children(&self, number: usize) -> &'a [Tree]
        requires number { number < 18 }
        requires places { ArePlaces self.now.children.now self.now.places }
        ensures { result.now ≡ children_of (name_at name_rows number) self.now.children.now }
    {
        match self.field(number) {
            Some(child) => child.children.as_slice(),
            None => &[],
        }
    }
}

/// Whether an element has the name with this number.
pub(crate) fn is_named(names: &Table<usize>, tree: &Tree, number: usize) -> bool
    requires names { names.now ≡ name_rows }
    requires number { number < 18 }
    ensures { result ≡ is_named (name_at name_rows number) tree.now }
{
    names_numbered();
    match names.find(tree.name.as_str()) {
        Some(found) => *found == number,
        None => false,
    }
}
