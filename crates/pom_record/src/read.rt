//! The reader of project files.
ghost use Rattle.std.specs.Prelude.{◌≡◌, ◌+◌, length, IfOk, IfErr};
ghost use Rattle.pom_record.specs.Projects.{pom_of, IsPom};
ghost use Rattle.pom_record.specs.Readings.{read_pom, IsAnswered};
ghost use Rattle.pom_record.specs.Refusals.{IsRefusal};

use crate::fields::is_named;
use crate::names::{PROJECT, field_names};
use crate::pom_err::PomErr;
use crate::project::{absent, record_in};
use pom_text::{Tree, read_tree};
use res_base::{PomRecord, Steps};
use std::alloc::Global;
use std::sync::ledger::Ledger;

fn pom_of(alloc: Global, tree: &Tree) -> Result<PomRecord, PomErr>
    ensures { IsAnswered (pom_of tree.now) result }
{
    let names = field_names(alloc)?;
    if !is_named(&names, tree, PROJECT) {
        return Err(PomErr::NotProject);
    }
    let pom = record_in(alloc, &names, tree.children.as_slice())?;
    match absent(&pom) {
        Some(coordinate) => Err(PomErr::NoCoordinates(coordinate)),
        None => Ok(pom),
    }
}

/// Reads a project file: its text, and then the fields of its tree.
///
/// The root must be `project`. A field is the first child of its name, and an empty text counts as
/// absent, but for the values of properties. It takes one step for each byte.
pub fn read_pom<L: Ledger>(
    alloc: Global,
    bytes: &[u8],
    steps: &mut Steps<L>,
) -> Result<PomRecord, PomErr>
    ensures answer { IsAnswered (read_pom bytes.now) result }
    ensures read { IfOk result (IsPom bytes.now) }
    ensures refused { IfErr result (IsRefusal bytes.now) }
    ensures steps { steps.new ≡ steps.old + length bytes.now }
{
    steps.tick_times(bytes.len() as u64);
    let tree = read_tree(alloc, bytes)?;
    pom_of(alloc, &tree)
}
