//! The versions of a listing's tree.
ghost use Rattle.std.specs.Prelude.{◌≡◌, IfOk};
ghost use Rattle.meta_record.specs.Versions.{children_of, is_named, versions_among, versions_in};

use pom_text::Tree;
use res_base::{List, NoMemory, Text};
use std::alloc::Global;

/// Whether an element has this name.
pub(crate) fn is_named(tree: &Tree, name: &str) -> bool
    ensures { result ≡ is_named name.now tree.now }
{
    tree.name.as_str() == name
}

/// The children of the first child of a name.
fn children_of(alloc: Global, children: List<Tree>, name: &str) -> List<Tree>
    ensures { result ≡ children_of name.now children }
{
    for child in children.into_vec() {
        if is_named(&child, name) {
            return child.children;
        }
    }
    List::new(alloc)
}

/// The texts of the versions among elements. They are moved.
fn versions_among(alloc: Global, children: List<Tree>) -> Result<List<Text>, NoMemory>
    ensures { IfOk result (λ made. made ≡ versions_among children) }
{
    let mut made: List<Text> = List::new(alloc);
    for child in children.into_vec() {
        if is_named(&child, "version") && !child.text.as_str().is_empty() {
            made.push(child.text)?;
        }
    }
    Ok(made)
}

/// The versions below the root.
pub(crate) fn versions_in(alloc: Global, children: List<Tree>) -> Result<List<Text>, NoMemory>
    ensures { IfOk result (λ made. made ≡ versions_in children) }
{
    let versioning = children_of(alloc, children, "versioning");
    let versions = children_of(alloc, versioning, "versions");
    versions_among(alloc, versions)
}
