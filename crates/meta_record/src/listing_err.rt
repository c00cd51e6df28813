//! Refusals of listings.

ghost use Rattle.std.specs.Prelude.{◌≡◌};

use pom_text::TextErr;
use res_base::NoMemory;

/// Why no listing was read. Places are bytes from the start of the input.
#[derive(Debug, Drop)]
pub enum ListingErr {
    /// The longest prefix of the input that begins some document has this length.
    BadText(u64),
    /// A `<!DOCTYPE` stands before the root, at this place.
    Doctype(u64),
    /// A start tag opens the 65th level, at this place.
    TooDeep(u64),
    /// The declaration names an encoding that is not known, at this place.
    UnknownEncoding(u64),
    /// The root is not `metadata`.
    NotMetadata,
    NoMemory,
}

impl From<NoMemory> for ListingErr {
    ghost use Rattle.meta_record.specs.declared.listing_err.ListingErr.TheVariants.{NoMemory};

    ghost from_gives = { λ _ e. e ≡ NoMemory };

    fn from(_: NoMemory) -> ListingErr {
        ListingErr::NoMemory
    }
}

impl From<TextErr> for ListingErr {
    ghost use Rattle.meta_record.specs.Refusals.{of_text};

    ghost from_gives = { λ fault e. e ≡ of_text fault };

    fn from(fault: TextErr) -> ListingErr {
        match fault {
            TextErr::BadText(place) => ListingErr::BadText(place),
            TextErr::Doctype(place) => ListingErr::Doctype(place),
            TextErr::TooDeep(place) => ListingErr::TooDeep(place),
            TextErr::UnknownEncoding(place) => ListingErr::UnknownEncoding(place),
            TextErr::NoMemory => ListingErr::NoMemory,
        }
    }
}
