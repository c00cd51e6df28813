//! Laws of what is answered for bytes, with nothing to run.

ghost use Rattle.std.specs.Prelude.{◌≡◌, ◌≢◌, ℕ, List, Ok, Err, IfOk, IfErr};
ghost use Rattle.meta_record.specs.declared.listing_err.ListingErr.TheVariants.{NoMemory};
ghost use Rattle.meta_record.specs.Listings.{IsListing};
ghost use Rattle.meta_record.specs.Refusals.{IsRefusal};
ghost use Rattle.meta_record.specs.Readings.{read_listing};

use pom_grammar::verdict_says;

/// What is to be answered for bytes is so of them, is never that memory ran out, and is the only
/// listing that they are.
pub fn reading_laws()
    ensures read { (bytes : List ℕ) → IfOk (read_listing bytes) (IsListing bytes) }
    ensures refused { (bytes : List ℕ) → IfErr (read_listing bytes) (IsRefusal bytes) }
    ensures never_out_of_memory { (bytes : List ℕ) → read_listing bytes ≢ Err NoMemory }
    ensures only { (bytes : List ℕ) (versions : List (List ℕ)) → IsListing bytes versions
        → read_listing bytes ≡ Ok versions }
{
    verdict_says();
}
