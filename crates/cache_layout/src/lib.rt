//! How the cache is laid out: the name of a URL's file, and the lines of records.
//!
//! For a URL with the name `n` the cache's folder holds the data file `n`, its record `records/n`,
//! or the absence record `gone/n`.
#![tactic(auto)]

mod addresses;
mod checks;
mod digests;
mod errors;
mod gone;
mod names;
mod numbers;
mod pieces;
mod record;
mod record_lines;

pub use addresses::is_address;
pub use errors::{BadLine, NameErr, RecordErr};
pub use gone::{gone_line, gone_lines_read, read_gone};
pub use names::{cache_name, names_apart};
pub use record::{Found, Measured, Record};
pub use record_lines::{read_record, record_line, record_lines_read};
