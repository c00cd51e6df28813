//! Where a repository keeps its files: the Maven 2 repository layout.
ghost use Rattle.std.specs.Prelude.{◌≡◌, ◌<◌, ◌∷◌, ◌++◌, length, true, IfOk, IfSome, MatchOption};
ghost use Rattle.ascii_bytes.specs.Signs.{slash};
ghost use Rattle.res_base.specs.Plain.{is_plain_coord, is_plain_module};
ghost use Rattle.res_base.specs.declared.coord.Coord.{Coord};
ghost use Rattle.res_base.specs.declared.coord.Module.{Module};
ghost use Rattle.res_base.specs.Paths.{dash_of, file_path_of, listing_path_of, pom_path_of, slashed, url_at};

use crate::{Coord, Module, NoMemory, Text};
use std::alloc::Global;

/// What stands before and after the first dot.
fn split_at_dot(text: &str) -> Option<(&str, &str)>
    ensures parts { MatchOption result
        (slashed text.now ≡ text.now)
        (λ parts. slashed text.now ≡ parts.0.now ++ slash ∷ slashed parts.1.now) }
    ensures shorter { IfSome result (λ parts. length parts.1.now < length text.now) }
{
    text.split_once('.')
}

/// A text with a slash for each dot, as the folder of an org.
fn slashed(alloc: Global, org: &str) -> Result<Text, NoMemory>
    ensures { IfOk result (λ folder. folder ≡ slashed org.now) }
{
    let mut folder = Text::new(alloc);
    let mut rest = org;
    while let Some((part, after)) = split_at_dot(rest) {
        folder.push_str(part)?;
        folder.push_str("/")?;
        rest = after;
    }
    folder.push_str(rest)?;
    Ok(folder)
}

/// The path of a project's POM, `org/name/version/name-version.pom`, in which the org's dots are
/// slashes. Its parts are to be plain, else the path may lead elsewhere.
pub fn pom_path(alloc: Global, coord: &Coord) -> Result<Text, NoMemory>
    ensures { IfOk result (λ path. path ≡ pom_path_of coord.now) }
{
    let folder = slashed(alloc, coord.module.org.as_str())?;
    let folder = folder.as_str();
    let name = coord.module.name.as_str();
    let version = coord.version.as_str();
    let path = format!(in alloc; "{folder}/{name}/{version}/{name}-{version}.pom")?;
    Ok(Text::from_string(path))
}

/// The dash before a classifier, unless that is empty.
fn dash_before(classifier: &str) -> &'static str
    ensures { result.now ≡ dash_of classifier.now }
{
    if classifier.is_empty() { "" } else { "-" }
}

/// The path of a file of a project, `org/name/version/name-version.ext`, with `-classifier` before
/// the extension where the classifier is not empty.
pub fn file_path(
    alloc: Global,
    coord: &Coord,
    ext: &str,
    classifier: &str,
) -> Result<Text, NoMemory>
    ensures { IfOk result (λ path. path ≡ file_path_of coord.now ext.now classifier.now) }
{
    let folder = slashed(alloc, coord.module.org.as_str())?;
    let folder = folder.as_str();
    let name = coord.module.name.as_str();
    let version = coord.version.as_str();
    let dash = dash_before(classifier);
    let path = format!(in alloc;
        "{folder}/{name}/{version}/{name}-{version}{dash}{classifier}.{ext}"
    )?;
    Ok(Text::from_string(path))
}

/// The path of a module's listing of versions, `org/name/maven-metadata.xml`.
pub fn listing_path(alloc: Global, module: &Module) -> Result<Text, NoMemory>
    ensures { IfOk result (λ path. path ≡ listing_path_of «module».now) }
{
    let folder = slashed(alloc, module.org.as_str())?;
    let folder = folder.as_str();
    let name = module.name.as_str();
    let path = format!(in alloc; "{folder}/{name}/maven-metadata.xml")?;
    Ok(Text::from_string(path))
}

/// The URL of a path below a repository's address.
pub fn url_of(alloc: Global, address: &str, path: &str) -> Result<Text, NoMemory>
    ensures { IfOk result (λ url. url ≡ url_at address.now path.now) }
{
    let url = format!(in alloc; "{address}/{path}")?;
    Ok(Text::from_string(url))
}

/// A law, with nothing to run: two plain coordinates have two POM paths, and two plain modules two
/// paths of listings.
pub fn paths_apart()
    ensures poms { (c d : Coord) → is_plain_coord c ≡ true → is_plain_coord d ≡ true
        → pom_path_of c ≡ pom_path_of d → c ≡ d }
    ensures listings { (m n : Module) → is_plain_module m ≡ true → is_plain_module n ≡ true
        → listing_path_of m ≡ listing_path_of n → m ≡ n }
{}
