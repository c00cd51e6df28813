//! Tables of values under names that rise.
//!
//! A caller fills a table once, a row at a time, and then looks names up by binary search. A row
//! out of order is refused, so a table never has two rows of one name.
#![tactic(auto)]

mod laws;
mod table;

pub use laws::names_numbered;
pub use table::{AddErr, NoMemory, Table};

/// A table of rows, one `add` each, in a function that answers `AddErr`.
#[macro_export]
macro_rules! rows {
    ($alloc:expr; $($name:literal => $value:expr),+ $(,)?) => {{
        let mut table = $crate::Table::new($alloc);
        $(table.add($alloc, $name, $value)?;)+
        table
    }};
}
