//! The versions in listings: the `maven-metadata.xml` of the Maven 2 repository layout.
#![tactic(auto)]

mod laws;
mod listing_err;
mod read;
mod versions;

pub use laws::reading_laws;
pub use listing_err::ListingErr;
pub use read::read_listing;
