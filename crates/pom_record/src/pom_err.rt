//! Refusals of project files.
ghost use Rattle.std.specs.Prelude.{◌≡◌};

use pom_text::TextErr;
use res_base::{Field, NoMemory};

/// Why no record was read. Places are bytes from the start of the input.
#[derive(Debug, Drop)]
pub enum PomErr {
    /// The longest prefix of the input that begins some document has this length.
    BadText(u64),
    /// A `<!DOCTYPE` stands before the root, at this place.
    Doctype(u64),
    /// A start tag opens the 65th level, at this place.
    TooDeep(u64),
    /// The declaration names an encoding that is not known, at this place.
    UnknownEncoding(u64),
    /// The root is not `project`.
    NotProject,
    /// This coordinate is absent.
    NoCoordinates(Field),
    NoMemory,
}

impl From<NoMemory> for PomErr {
    ghost use Rattle.pom_record.specs.declared.pom_err.PomErr.TheVariants.{NoMemory};

    ghost from_gives = { λ _ e. e ≡ NoMemory };

    fn from(_: NoMemory) -> PomErr {
        PomErr::NoMemory
    }
}

impl From<TextErr> for PomErr {
    ghost use Rattle.pom_record.specs.Refusals.{of_text};

    ghost from_gives = { λ fault e. e ≡ of_text fault };

    fn from(fault: TextErr) -> PomErr {
        match fault {
            TextErr::BadText(place) => PomErr::BadText(place),
            TextErr::Doctype(place) => PomErr::Doctype(place),
            TextErr::TooDeep(place) => PomErr::TooDeep(place),
            TextErr::UnknownEncoding(place) => PomErr::UnknownEncoding(place),
            TextErr::NoMemory => PomErr::NoMemory,
        }
    }
}
