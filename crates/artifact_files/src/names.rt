//! Names of files.
ghost use Rattle.std.specs.Prelude.{◌≡◌, IfOk};
ghost use Rattle.std.proofs.Common.{rules};
ghost use Rattle.std.specs.Cmp.{partial_order_from_own_ties};
ghost use Rattle.std.specs.Cmp.Rules.{comparing};
ghost use Rattle.std.specs.Ordering.{as_partial_cmp};
ghost use Rattle.artifact_files.specs.Files.{node_file_cmp, node_file_eq};
ghost use Rattle.artifact_files.specs.Names.{by_docs as docs_name, by_jar as jar_name, by_kind as kind_name, by_other as other_name, by_packaging as packaging_name, by_sources as sources_name, file_name as name_of, is_archive as archive_test, is_fit as fit_test, is_jar as jar_test, named as name_for, or_else as text_or_else};
ghost use Rattle.res_base.specs.Plain.{is_plain_name as plain_test};

use res_base::{Coord, Copied, Module, NoMemory, Text, is_plain};
use std::alloc::Global;
use std::cmp::Ordering;

/// What a file of a project is called beside its coordinate.
#[derive(Drop)]
pub(crate) struct FileName {
    /// The extension.
    pub ext: Text,
    pub classifier: Text,
}

/// A file of a node. Files are ordered by node, then by extension, then by classifier.
#[derive(Drop)]
pub(crate) struct NodeFile {
    /// The place of the node.
    pub place: u64,
    pub name: FileName,
}

impl PartialEq for NodeFile {
    ghost eq = { node_file_eq };

    ghost laws = { Prim.search (comparing, rules) };

    fn eq(&self, other: &NodeFile) -> bool {
        self.place == other.place
            && self.name.ext == other.name.ext
            && self.name.classifier == other.name.classifier
    }
}

impl Eq for NodeFile {
    ghost laws = { Prim.search (comparing, rules) };
}

impl PartialOrd for NodeFile {
    ghost partial_cmp = { as_partial_cmp node_file_cmp };

    ghost laws = { partial_order_from_own_ties (Prim.search (comparing, rules)) (Prim.search (comparing, rules)) };

    fn partial_cmp(&self, other: &NodeFile) -> Option<Ordering> {
        Some(self.cmp(other))
    }
}

impl Ord for NodeFile {
    ghost cmp = { node_file_cmp };

    ghost total = { Prim.search (comparing, rules) };

    ghost matches_partial_cmp = { Prim.search (comparing, rules) };

    ghost matches_eq = { Prim.search (comparing, rules) };

    fn cmp(&self, other: &NodeFile) -> Ordering {
        let by_place = self.place.cmp(&other.place);
        let by_ext = self.name.ext.cmp(&other.name.ext);
        by_place
            .then(by_ext)
            .then(self.name.classifier.cmp(&other.name.classifier))
    }
}

fn file_name(alloc: Global, ext: &str, classifier: &str) -> Result<Option<FileName>, NoMemory>
    ensures { IfOk result (λ made. made ≡ name_of ext.now classifier.now) }
{
    Ok(Some(FileName {
        ext: Text::of(alloc, ext)?,
        classifier: Text::of(alloc, classifier)?,
    }))
}

/// A text, or another where it is empty.
fn or_else<'a>(text: &'a str, other: &'a str) -> &'a str
    ensures { result.now ≡ text_or_else text.now other.now }
{
    if text.is_empty() { other } else { text }
}

fn is_archive(packaging: &str) -> bool
    ensures { result ≡ archive_test packaging.now }
{
    packaging == "war"
        || packaging == "aar"
        || packaging == "ear"
        || packaging == "rar"
        || packaging == "zip"
}

fn by_packaging(alloc: Global, packaging: &str) -> Result<Option<FileName>, NoMemory>
    ensures { IfOk result (λ made. made ≡ packaging_name packaging.now) }
{
    if packaging == "pom" {
        return Ok(None);
    }
    if is_archive(packaging) {
        return file_name(alloc, packaging, "");
    }
    file_name(alloc, "jar", "")
}

fn is_jar(kind: &str) -> bool
    ensures { result ≡ jar_test kind.now }
{
    kind == "bundle" || kind == "ejb" || kind == "jar" || kind == "maven-plugin"
}

fn by_other(alloc: Global, kind: &str, classifier: &str) -> Result<Option<FileName>, NoMemory>
    ensures { IfOk result (λ made. made ≡ other_name kind.now classifier.now) }
{
    if kind == "test-jar" {
        return file_name(alloc, "jar", or_else(classifier, "tests"));
    }
    file_name(alloc, kind, classifier)
}

fn by_docs(alloc: Global, kind: &str, classifier: &str) -> Result<Option<FileName>, NoMemory>
    ensures { IfOk result (λ made. made ≡ docs_name kind.now classifier.now) }
{
    if kind == "javadoc" {
        return file_name(alloc, "jar", or_else(classifier, "javadoc"));
    }
    by_other(alloc, kind, classifier)
}

fn by_sources(alloc: Global, kind: &str, classifier: &str) -> Result<Option<FileName>, NoMemory>
    ensures { IfOk result (λ made. made ≡ sources_name kind.now classifier.now) }
{
    if kind == "java-source" {
        return file_name(alloc, "jar", or_else(classifier, "sources"));
    }
    by_docs(alloc, kind, classifier)
}

fn by_jar(alloc: Global, kind: &str, classifier: &str) -> Result<Option<FileName>, NoMemory>
    ensures { IfOk result (λ made. made ≡ jar_name kind.now classifier.now) }
{
    if is_jar(kind) {
        return file_name(alloc, "jar", classifier);
    }
    by_sources(alloc, kind, classifier)
}

fn by_kind(alloc: Global, kind: &str, classifier: &str) -> Result<Option<FileName>, NoMemory>
    ensures { IfOk result (λ made. made ≡ kind_name kind.now classifier.now) }
{
    if kind == "pom" {
        return Ok(None);
    }
    by_jar(alloc, kind, classifier)
}

/// The name of the artifact that an edge names, if there is one.
pub(crate) fn named(
    alloc: Global,
    packaging: &str,
    kind: &str,
    classifier: &str,
) -> Result<Option<FileName>, NoMemory>
    ensures { IfOk result (λ made. made ≡ name_for packaging.now kind.now classifier.now) }
{
    if kind == "jar" && classifier.is_empty() {
        return by_packaging(alloc, packaging);
    }
    by_kind(alloc, kind, classifier)
}

/// Whether a text is a plain name: the coordinate of that name then is plain.
fn is_plain_name(alloc: Global, text: &Text) -> Result<bool, NoMemory>
    ensures { IfOk result (λ plain. plain ≡ plain_test text.now) }
{
    let coord = Coord {
        module: Module {
            org: Text::of(alloc, "x")?,
            name: text.copy(alloc)?,
        },
        version: Text::of(alloc, "1")?,
    };
    Ok(is_plain(&coord))
}

/// Whether a file may have this name.
pub(crate) fn is_fit(alloc: Global, name: &FileName) -> Result<bool, NoMemory>
    ensures { IfOk result (λ fit. fit ≡ fit_test name.now) }
{
    if !is_plain_name(alloc, &name.ext)? {
        return Ok(false);
    }
    if name.classifier.is_empty() {
        return Ok(true);
    }
    is_plain_name(alloc, &name.classifier)
}
