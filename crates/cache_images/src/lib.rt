//! The cache on a disk: which images are sound, and that each sequence of calls by which the cache
//! changes leaves sound images alone, wherever it is cut short.
#![tactic(auto)]

mod laws;

pub use laws::{images_along, wrong_orders};
