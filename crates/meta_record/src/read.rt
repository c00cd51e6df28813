//! The reader of listings.
ghost use Rattle.std.specs.Prelude.{◌≡◌, ◌+◌, length, IfOk, IfErr};
ghost use Rattle.meta_record.specs.Listings.{listing_of, IsListing};
ghost use Rattle.meta_record.specs.Readings.{read_listing, IsAnswered};
ghost use Rattle.meta_record.specs.Refusals.{IsRefusal};

use crate::listing_err::ListingErr;
use crate::versions::{is_named, versions_in};
use pom_text::{Tree, read_tree};
use res_base::{List, Steps, Text};
use std::alloc::Global;
use std::sync::ledger::Ledger;

fn listing_of(alloc: Global, tree: Tree) -> Result<List<Text>, ListingErr>
    ensures { IsAnswered (listing_of tree) result }
{
    if !is_named(&tree, "metadata") {
        return Err(ListingErr::NotMetadata);
    }
    let versions = versions_in(alloc, tree.children)?;
    Ok(versions)
}

/// Reads a listing: its text, and then the versions in its tree.
///
/// The root must be `metadata`. The versions are the texts of the children `version` of its
/// `versioning/versions`, in order, without empty ones; `versioning` and `versions` are the first
/// of their names. It takes one step for each byte.
pub fn read_listing<L: Ledger>(
    alloc: Global,
    bytes: &[u8],
    steps: &mut Steps<L>,
) -> Result<List<Text>, ListingErr>
    ensures answer { IsAnswered (read_listing bytes.now) result }
    ensures read { IfOk result (IsListing bytes.now) }
    ensures refused { IfErr result (IsRefusal bytes.now) }
    ensures steps { steps.new ≡ steps.old + length bytes.now }
{
    steps.tick_times(bytes.len() as u64);
    let tree = read_tree(alloc, bytes)?;
    listing_of(alloc, tree)
}
