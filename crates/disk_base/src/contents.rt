//! What a name of a disk is bound to.
use res_base::List;

/// The content of a file: its bytes, and how many of them are firm, the first so many. The others
/// were appended since the content was synced last.
#[derive(Debug, Drop)]
pub struct Content {
    pub bytes: List<u8>,
    pub firm: usize,
}

/// What a name is bound to since the names were synced last: the present one, and those
/// before it, the one at that time first.
#[derive(Debug, Drop)]
pub struct Bindings {
    pub before: List<Option<Content>>,
    pub present: Option<Content>,
}
