//! Properties.

ghost use Rattle.std.specs.Prelude.{◌≡◌, [], ◌∷◌, ◌++◌, IfOk, OnOk};
ghost use Rattle.pom_record.specs.Record.{property, properties};

use pom_text::Tree;
use res_base::{Copied, List, NoMemory, Property};
use std::alloc::Global;
use std::collections::BTreeMap;

fn property(alloc: Global, tree: &Tree) -> Result<Property, NoMemory>
    ensures { IfOk result (λ made. made ≡ property tree.now) }
{
    Ok(Property {
        name: tree.name.copy(alloc)?,
        value: tree.text.copy(alloc)?,
    })
}

/// Puts an element's property at the end.
fn add(alloc: Global, made: &mut List<Property>, tree: &Tree) -> Result<(), NoMemory>
    ensures { OnOk result (made.new ≡ made.old ++ property tree.now ∷ []) }
{
    made.push(property(alloc, tree)?)?;
    Ok(())
}

/// The properties that elements spell: the first of each name.
///
/// The names come from strangers, so they are kept in order, and not by a hash.
pub(crate) fn properties(alloc: Global, children: &[Tree]) -> Result<List<Property>, NoMemory>
    ensures { IfOk result (λ made. made ≡ properties children.now) }
{
    let mut names: BTreeMap<&str, ()> = BTreeMap::new(alloc);
    let mut made: List<Property> = List::new(alloc);
    for child in children {
        let name = child.name.as_str();
        if !names.contains_key(name) {
            names.insert(name, ())?;
            add(alloc, &mut made, child)?;
        }
    }
    Ok(made)
}
