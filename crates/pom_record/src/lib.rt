//! The fields of project files, after the Maven POM reference.
#![tactic(auto)]

mod dependencies;
mod fields;
mod laws;
mod names;
mod pom_err;
mod project;
mod properties;
mod read;

pub use laws::reading_laws;
pub use pom_err::PomErr;
pub use read::read_pom;
