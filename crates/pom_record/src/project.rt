//! Projects.
ghost use Rattle.std.specs.Prelude.{◌≡◌, IfOk, option_map, codes};
ghost use Rattle.std.specs.Option.{option_copied};
ghost use Rattle.pom_record.specs.Fields.{field};
ghost use Rattle.pom_record.specs.FieldNames.{name_rows};
ghost use Rattle.pom_record.specs.Record.{coord_in, moved, dependencies, record_in, required, first_absent, absent, or_jar};

use crate::dependencies::{coord_in, moved, rows_of};
use crate::fields::Fields;
use crate::names;
use crate::properties::properties;
use case_table::Table;
use pom_text::Tree;
use res_base::{Coord, DepRecord, Field, List, Moved, NoMemory, PomRecord, Text};
use std::alloc::Global;

fn or_jar(alloc: Global, text: Text) -> Result<Text, NoMemory>
    ensures { IfOk result (λ made. made ≡ or_jar text) }
{
    if text.as_str().is_empty() {
        Text::of(alloc, "jar")
    } else {
        Ok(text)
    }
}

fn parent_of(
    alloc: Global,
    names: &Table<usize>,
    tree: Option<&Tree>,
) -> Result<Option<Coord>, NoMemory>
    requires { names.now ≡ name_rows }
    ensures { IfOk result (λ made. made ≡ option_map coord_in (option_copied tree.entry)) }
{
    match tree {
        Some(tree) => Ok(Some(coord_in(alloc, names, tree)?)),
        None => Ok(None),
    }
}

fn relocation_of(
    alloc: Global,
    names: &Table<usize>,
    children: &[Tree],
) -> Result<Option<Moved>, NoMemory>
    requires { names.now ≡ name_rows }
    ensures { IfOk result (λ made. made ≡ option_map moved (field (codes "relocation") children.now)) }
{
    match Fields::of(names, children).field(names::RELOCATION) {
        Some(tree) => Ok(Some(moved(alloc, names, tree)?)),
        None => Ok(None),
    }
}

fn dependencies(
    alloc: Global,
    names: &Table<usize>,
    children: &[Tree],
) -> Result<List<DepRecord>, NoMemory>
    requires { names.now ≡ name_rows }
    ensures { IfOk result (λ made. made ≡ dependencies children.now) }
{
    let fields = Fields::of(names, children);
    rows_of(alloc, names, fields.children(names::DEPENDENCIES))
}

/// The fields of the root, absent texts empty.
pub(crate) fn record_in(
    alloc: Global,
    names: &Table<usize>,
    children: &[Tree],
) -> Result<PomRecord, NoMemory>
    requires { names.now ≡ name_rows }
    ensures { IfOk result (λ pom. pom ≡ record_in children.now) }
{
    let fields = Fields::of(names, children);
    Ok(PomRecord {
        parent: parent_of(alloc, names, fields.field(names::PARENT))?,
        org: fields.text(alloc, names::GROUP_ID)?,
        name: fields.text(alloc, names::ARTIFACT_ID)?,
        version: fields.text(alloc, names::VERSION)?,
        packaging: or_jar(alloc, fields.text(alloc, names::PACKAGING)?)?,
        properties: properties(alloc, fields.children(names::PROPERTIES))?,
        deps: rows_of(alloc, names, fields.children(names::DEPENDENCIES))?,
        managed: dependencies(alloc, names, fields.children(names::DEPENDENCY_MANAGEMENT))?,
        moved: relocation_of(
            alloc,
            names,
            fields.children(names::DISTRIBUTION_MANAGEMENT),
        )?,
    })
}

/// The first coordinate that a project without a parent lacks.
fn absent_alone(pom: &PomRecord) -> Option<Field>
    ensures { result ≡ first_absent (required None pom.now) }
{
    if pom.org.as_str().is_empty() {
        Some(Field::Org)
    } else if pom.name.as_str().is_empty() {
        Some(Field::Name)
    } else if pom.version.as_str().is_empty() {
        Some(Field::Version)
    } else {
        None
    }
}

/// The first coordinate that a project with a parent lacks.
fn absent_below(parent: &Coord, pom: &PomRecord) -> Option<Field>
    ensures { result ≡ first_absent (required (Some parent.now) pom.now) }
{
    if parent.module.org.as_str().is_empty() {
        Some(Field::ParentOrg)
    } else if parent.module.name.as_str().is_empty() {
        Some(Field::ParentName)
    } else if parent.version.as_str().is_empty() {
        Some(Field::ParentVersion)
    } else if pom.name.as_str().is_empty() {
        Some(Field::Name)
    } else {
        None
    }
}

/// The first coordinate that a project lacks.
pub(crate) fn absent(pom: &PomRecord) -> Option<Field>
    ensures { result ≡ absent pom.now }
{
    match &pom.parent {
        Some(parent) => absent_below(parent, pom),
        None => absent_alone(pom),
    }
}
