//! Texts with values in the places of names, as the properties of a project are.
#![tactic(auto)]

mod cuts;
mod fill;
mod holes;
mod laws;
mod values;

pub use fill::CutValues;
pub use laws::{cut_laws, fill_laws};
pub use values::Values;
