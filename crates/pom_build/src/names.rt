//! What names stand for in the texts of a project.
ghost use Rattle.std.specs.Prelude.{◌≡◌, codes, Some, IfOk};
ghost use Rattle.pom_build.specs.Names.{fill_in, is_field_name as field_name, org_part, part_of, version_part};
ghost use Rattle.pom_build.specs.Puts.{coordinates_under, parent_under, put_all, put_field, put_fields, put_project, put_projects, put_property, put_record};
ghost use Rattle.row_lists.specs.RowLists.{or_text};

use super::line::{Line, Project};
use property_text::{CutValues, Values};
use res_base::{Coord, NoMemory, PomRecord, Property, Text};
use std::alloc::Global;
use std::marker::Model;

/// A line of projects, with the values that names have in its texts.
#[derive(Drop)]
pub(crate) struct NamedLine<'a> {
    line: Line<'a>,
    values: CutValues<'a>,
}

impl<'a> Model for NamedLine<'a> {
    ghost use Rattle.std.specs.Prelude.{◌≡◌};
    ghost use Rattle.pom_build.specs.Names.{values_in};
    ghost use Rattle.pom_build.specs.declared.line.Line.{Line as Projects};
    ghost use Rattle.property_text.specs.Values.{value_in};

    ghost Value = { Projects };

    ghost view = { λ named. named.line };

    ghost invariant = { λ named. value_in named.values ≡ value_in (values_in named.line) };
}

fn is_field_name(name: &[u8]) -> bool
    ensures { result ≡ field_name name.now }
{
    name.starts_with(b"project.") || name.starts_with(b"pom.")
}

/// Gives a field's name its value, unless the field is absent.
fn put_present<'a>(
    values: Values<'a>,
    name: &'a str,
    value: &'a str,
) -> Result<Values<'a>, NoMemory>
    ensures { IfOk result (λ made. made ≡ put_field values.entry (name.now, value.now)) }
{
    if value.is_empty() {
        return Ok(values);
    }
    values.with(name, value)
}

/// The record's own org, or else its parent's.
fn org_of(pom: &PomRecord) -> &str
    ensures { result.now ≡ or_text pom.now.org (part_of org_part pom.now.parent) }
{
    if !pom.org.is_empty() {
        return pom.org.as_str();
    }
    match &pom.parent {
        None => "",
        Some(parent) => parent.module.org.as_str(),
    }
}

/// The record's own version, or else its parent's.
fn version_of(pom: &PomRecord) -> &str
    ensures { result.now ≡ or_text pom.now.version (part_of version_part pom.now.parent) }
{
    if !pom.version.is_empty() {
        return pom.version.as_str();
    }
    match &pom.parent {
        None => "",
        Some(parent) => parent.version.as_str(),
    }
}

/// Puts in the coordinates of a record, under these names.
fn put_short<'a>(
    values: Values<'a>,
    org: &'a str,
    name: &'a str,
    version: &'a str,
    pom: &'a PomRecord,
) -> Result<Values<'a>, NoMemory>
    ensures { IfOk result (λ made. made ≡ put_fields values.entry (coordinates_under org.now name.now version.now pom.now)) }
{
    let with_org = put_present(values, org, org_of(pom))?;
    let with_name = put_present(with_org, name, pom.name.as_str())?;
    put_present(with_name, version, version_of(pom))
}

/// Puts in the coordinates of a parent, under these names.
fn put_coord<'a>(
    values: Values<'a>,
    org: &'a str,
    name: &'a str,
    version: &'a str,
    parent: &'a Coord,
) -> Result<Values<'a>, NoMemory>
    ensures { IfOk result (λ made. made ≡ put_fields values.entry (parent_under org.now name.now version.now (Some parent.now))) }
{
    let with_org = put_present(values, org, parent.module.org.as_str())?;
    let with_name = put_present(with_org, name, parent.module.name.as_str())?;
    put_present(with_name, version, parent.version.as_str())
}

/// Puts in the coordinates of a parent, if there is one, under these names.
fn put_parent<'a>(
    values: Values<'a>,
    org: &'a str,
    name: &'a str,
    version: &'a str,
    parent: &'a Option<Coord>,
) -> Result<Values<'a>, NoMemory>
    ensures { IfOk result (λ made. made ≡ put_fields values.entry (parent_under org.now name.now version.now parent.now)) }
{
    match parent {
        None => Ok(values),
        Some(parent) => put_coord(values, org, name, version, parent),
    }
}

/// Puts in the fields of a record under `project.`.
fn put_project_fields<'a>(values: Values<'a>, pom: &'a PomRecord) -> Result<Values<'a>, NoMemory>
    ensures { IfOk result (λ made. made ≡ put_record values.entry (codes "project.") pom.now) }
{
    let coordinates = put_short(
        values,
        "project.groupId",
        "project.artifactId",
        "project.version",
        pom,
    )?;
    let packaged = put_present(coordinates, "project.packaging", pom.packaging.as_str())?;
    put_parent(
        packaged,
        "project.parent.groupId",
        "project.parent.artifactId",
        "project.parent.version",
        &pom.parent,
    )
}

/// Puts in the fields of a record under `pom.`.
fn put_pom_fields<'a>(values: Values<'a>, pom: &'a PomRecord) -> Result<Values<'a>, NoMemory>
    ensures { IfOk result (λ made. made ≡ put_record values.entry (codes "pom.") pom.now) }
{
    let coordinates = put_short(values, "pom.groupId", "pom.artifactId", "pom.version", pom)?;
    let packaged = put_present(coordinates, "pom.packaging", pom.packaging.as_str())?;
    put_parent(
        packaged,
        "pom.parent.groupId",
        "pom.parent.artifactId",
        "pom.parent.version",
        &pom.parent,
    )
}

fn put_one_property<'a>(values: Values<'a>, property: &'a Property) -> Result<Values<'a>, NoMemory>
    ensures { IfOk result (λ made. made ≡ put_property values.entry (property.now.name, property.now.value)) }
{
    if is_field_name(property.name.as_bytes()) {
        return Ok(values);
    }
    values.with(property.name.as_str(), property.value.as_str())
}

fn put_all_properties<'a>(values: Values<'a>, project: &Project<'a>) -> Result<Values<'a>, NoMemory>
    ensures { IfOk result (λ made. made ≡ put_project values.entry project.now) }
{
    let mut made = values;
    for property in project.pom.properties.as_slice() {
        made = put_one_property(made, property)?;
    }
    Ok(made)
}

fn put_parents<'a>(values: Values<'a>, parents: &[Project<'a>]) -> Result<Values<'a>, NoMemory>
    ensures { IfOk result (λ made. made ≡ put_projects values.entry parents.now) }
{
    let mut made = values;
    for project in parents {
        made = put_all_properties(made, project)?;
    }
    Ok(made)
}

/// The project's own record.
fn own_record<'a>(line: &Line<'a>) -> &'a PomRecord
    ensures { result.now ≡ line.now.own.pom }
{
    line.own.pom
}

/// The fields of the project's own record, the properties, the nearest first, and the coordinates
/// again. All of it is borrowed.
fn values_of<'a>(alloc: Global, line: &Line<'a>) -> Result<Values<'a>, NoMemory>
    ensures { IfOk result (λ made. made ≡ put_all line.now) }
{
    let pom = own_record(line);
    let fields = put_project_fields(Values::new(alloc), pom)?;
    let all_fields = put_pom_fields(fields, pom)?;
    let own = put_all_properties(all_fields, &line.own)?;
    let all = put_parents(own, line.parents.as_slice())?;
    put_short(all, "groupId", "artifactId", "version", pom)
}

impl<'a> NamedLine<'a> {
    pub fn of(alloc: Global, line: Line<'a>) -> Result<NamedLine<'a>, NoMemory>
        ensures { IfOk result (λ made. made ≡ line.entry) }
    {
        let values = CutValues::of(alloc, values_of(alloc, &line)?)?;
        Ok(NamedLine { line, values })
    }

    pub fn line(&self) -> &Line<'a>
        ensures { result.now ≡ self.now }
    {
        &self.line
    }

    /// A text with values in the places of names.
    pub fn fill(&self, alloc: Global, text: &Text) -> Result<Text, NoMemory>
        ensures { IfOk result (λ made. made ≡ fill_in self.now text.now) }
    {
        self.values.fill(alloc, text)
    }
}
