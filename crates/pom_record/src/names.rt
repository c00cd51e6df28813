//! The names of the fields that are read, and their numbers.
ghost use Rattle.std.specs.Prelude.{◌≡◌, IfOk, IfErr};
ghost use Rattle.pom_record.specs.FieldNames.{name_rows};

use case_table::{AddErr, Table, rows};
use res_base::NoMemory;
use std::alloc::Global;

pub(crate) const ARTIFACT_ID: usize = 0;

pub(crate) const CLASSIFIER: usize = 1;

pub(crate) const DEPENDENCIES: usize = 2;

pub(crate) const DEPENDENCY: usize = 3;

pub(crate) const DEPENDENCY_MANAGEMENT: usize = 4;

pub(crate) const DISTRIBUTION_MANAGEMENT: usize = 5;

pub(crate) const EXCLUSION: usize = 6;

pub(crate) const EXCLUSIONS: usize = 7;

pub(crate) const GROUP_ID: usize = 8;

pub(crate) const OPTIONAL: usize = 9;

pub(crate) const PACKAGING: usize = 10;

pub(crate) const PARENT: usize = 11;

pub(crate) const PROJECT: usize = 12;

pub(crate) const PROPERTIES: usize = 13;

pub(crate) const RELOCATION: usize = 14;

pub(crate) const SCOPE: usize = 15;

pub(crate) const TYPE: usize = 16;

pub(crate) const VERSION: usize = 17;

/// How many names there are.
pub(crate) const COUNT: usize = 18;

fn filled(alloc: Global) -> Result<Table<usize>, AddErr>
    ensures value { IfOk result (λ table. table ≡ name_rows) }
    ensures sorted { IfErr result (λ e. e ≡ AddErr.NoMemory) }
{
    Ok(rows! {
        alloc;
        "artifactId" => ARTIFACT_ID,
        "classifier" => CLASSIFIER,
        "dependencies" => DEPENDENCIES,
        "dependency" => DEPENDENCY,
        "dependencyManagement" => DEPENDENCY_MANAGEMENT,
        "distributionManagement" => DISTRIBUTION_MANAGEMENT,
        "exclusion" => EXCLUSION,
        "exclusions" => EXCLUSIONS,
        "groupId" => GROUP_ID,
        "optional" => OPTIONAL,
        "packaging" => PACKAGING,
        "parent" => PARENT,
        "project" => PROJECT,
        "properties" => PROPERTIES,
        "relocation" => RELOCATION,
        "scope" => SCOPE,
        "type" => TYPE,
        "version" => VERSION,
    })
}

/// The number of each name. The table is made once for a document.
pub(crate) fn field_names(alloc: Global) -> Result<Table<usize>, NoMemory>
    ensures { IfOk result (λ table. table ≡ name_rows) }
{
    match filled(alloc) {
        Ok(table) => Ok(table),
        Err(AddErr::NoMemory) => Err(NoMemory),
        Err(AddErr::NotSorted(_)) => unreachable!(),
    }
}
