use pom_text::{TextErr, Tree, read_tree};
use std::alloc::{AllocError, Global};

fn add_elements(tree: &Tree, before: u64) -> u64 {
    let mut count = before.saturating_add(1);
    for child in tree.children.as_slice() {
        count = add_elements(child, count);
    }
    count
}

/// The line that is printed for a text.
pub fn line(alloc: Global, bytes: &[u8]) -> Result<String, AllocError> {
    match read_tree(alloc, bytes) {
        Ok(tree) => {
            let count = add_elements(&tree, 0);
            format!(in alloc; "ok {count}")
        }
        Err(TextErr::BadText(at)) => format!(in alloc; "bad text {at}"),
        Err(TextErr::Doctype(at)) => format!(in alloc; "doctype {at}"),
        Err(TextErr::TooDeep(at)) => format!(in alloc; "too deep {at}"),
        Err(TextErr::UnknownEncoding(at)) => format!(in alloc; "unknown encoding {at}"),
        Err(TextErr::NoMemory) => format!(in alloc; "no memory"),
    }
}
