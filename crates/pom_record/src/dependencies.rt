//! Dependencies and coordinates.
ghost use Rattle.std.specs.Prelude.{◌≡◌, IfOk, map, codes};
ghost use Rattle.pom_record.specs.Fields.{named};
ghost use Rattle.pom_record.specs.FieldNames.{name_rows};
ghost use Rattle.pom_record.specs.Record.{coord_in, moved, exclusion, dependency};

use crate::fields::{Fields, is_named};
use crate::names;
use case_table::Table;
use pom_text::Tree;
use res_base::{Coord, DepRecord, Exclusion, List, Module, Moved, NoMemory};
use std::alloc::Global;

/// The coordinate that an element has, absent parts empty.
pub(crate) fn coord_in(alloc: Global, names: &Table<usize>, tree: &Tree) -> Result<Coord, NoMemory>
    requires { names.now ≡ name_rows }
    ensures { IfOk result (λ coord. coord ≡ coord_in tree.now) }
{
    let fields = Fields::of(names, tree.children.as_slice());
    Ok(Coord {
        module: Module {
            org: fields.text(alloc, names::GROUP_ID)?,
            name: fields.text(alloc, names::ARTIFACT_ID)?,
        },
        version: fields.text(alloc, names::VERSION)?,
    })
}

/// Where an element says that its project has moved to.
pub(crate) fn moved(alloc: Global, names: &Table<usize>, tree: &Tree) -> Result<Moved, NoMemory>
    requires { names.now ≡ name_rows }
    ensures { IfOk result (λ made. made ≡ moved tree.now) }
{
    let fields = Fields::of(names, tree.children.as_slice());
    Ok(Moved {
        org: fields.text(alloc, names::GROUP_ID)?,
        name: fields.text(alloc, names::ARTIFACT_ID)?,
        version: fields.text(alloc, names::VERSION)?,
    })
}

fn exclusion(alloc: Global, names: &Table<usize>, tree: &Tree) -> Result<Exclusion, NoMemory>
    requires { names.now ≡ name_rows }
    ensures { IfOk result (λ made. made ≡ exclusion tree.now) }
{
    let fields = Fields::of(names, tree.children.as_slice());
    Ok(Exclusion {
        org: fields.text(alloc, names::GROUP_ID)?,
        name: fields.text(alloc, names::ARTIFACT_ID)?,
    })
}

fn exclusions_of(
    alloc: Global,
    names: &Table<usize>,
    children: &[Tree],
) -> Result<List<Exclusion>, NoMemory>
    requires { names.now ≡ name_rows }
    ensures { IfOk result (λ made. made ≡ map exclusion (named (codes "exclusion") children.now)) }
{
    let mut made: List<Exclusion> = List::new(alloc);
    for child in children {
        if is_named(names, child, names::EXCLUSION) {
            made.push(exclusion(alloc, names, child)?)?;
        }
    }
    Ok(made)
}

fn dependency(alloc: Global, names: &Table<usize>, tree: &Tree) -> Result<DepRecord, NoMemory>
    requires { names.now ≡ name_rows }
    ensures { IfOk result (λ made. made ≡ dependency tree.now) }
{
    let fields = Fields::of(names, tree.children.as_slice());
    Ok(DepRecord {
        module: Module {
            org: fields.text(alloc, names::GROUP_ID)?,
            name: fields.text(alloc, names::ARTIFACT_ID)?,
        },
        version: fields.text(alloc, names::VERSION)?,
        kind: fields.text(alloc, names::TYPE)?,
        classifier: fields.text(alloc, names::CLASSIFIER)?,
        scope: fields.text(alloc, names::SCOPE)?,
        optional: fields.text(alloc, names::OPTIONAL)?,
        exclusions: exclusions_of(alloc, names, fields.children(names::EXCLUSIONS))?,
    })
}

/// The children that are dependencies.
pub(crate) fn rows_of(
    alloc: Global,
    names: &Table<usize>,
    children: &[Tree],
) -> Result<List<DepRecord>, NoMemory>
    requires { names.now ≡ name_rows }
    ensures { IfOk result (λ made. made ≡ map dependency (named (codes "dependency") children.now)) }
{
    let mut made: List<DepRecord> = List::new(alloc);
    for child in children {
        if is_named(names, child, names::DEPENDENCY) {
            made.push(dependency(alloc, names, child)?)?;
        }
    }
    Ok(made)
}
