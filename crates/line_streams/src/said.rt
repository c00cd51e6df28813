//! What a command says.
use res_base::{List, Text};

/// Text for standard output, and the status that goes with it. Each line of it ends with a line
/// feed.
#[derive(Drop)]
pub struct Rendered {
    pub status: u8,
    pub bytes: List<u8>,
}

/// What a command says.
#[derive(Drop)]
pub enum Said {
    /// Its answer, for `out`.
    Prints(Rendered),
    /// Why it has none: a status, and a line for `err`, with its line feed.
    Tells(u8, Text),
}
