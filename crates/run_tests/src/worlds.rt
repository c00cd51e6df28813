//! Repositories in memory, whose files are written as short texts.
use case_words::words::pieces_of;
use res_base::World;
use std::alloc::{AllocError, Global};
use std::test::Fail;

/// A coordinate in two parts or three, as in `x:a:1`: its org, its name and its version, which is
/// empty where it is absent.
fn parts_of(coord: &str) -> (&str, &str, &str) {
    let (org, rest) = coord.split_once(':').unwrap_or((coord, ""));
    let (name, version) = rest.split_once(':').unwrap_or((rest, ""));
    (org, name, version)
}

/// Puts the elements of a coordinate.
fn put_coord(text: &mut String, coord: &str) -> Result<(), AllocError> {
    let (org, name, version) = parts_of(coord);
    text.push_str("<groupId>")?;
    text.push_str(org)?;
    text.push_str("</groupId><artifactId>")?;
    text.push_str(name)?;
    text.push_str("</artifactId>")?;
    if version.is_empty() {
        return Ok(());
    }
    text.push_str("<version>")?;
    text.push_str(version)?;
    text.push_str("</version>")
}

/// Puts a dependency, as `x:b:1`, or `x:b:1!x:c` where it excludes something.
fn put_dependency(text: &mut String, word: &str) -> Result<(), AllocError> {
    let (coord, excluded) = word.split_once('!').unwrap_or((word, ""));
    text.push_str("<dependency>")?;
    put_coord(text, coord)?;
    if !excluded.is_empty() {
        text.push_str("<exclusions><exclusion>")?;
        put_coord(text, excluded)?;
        text.push_str("</exclusion></exclusions>")?;
    }
    text.push_str("</dependency>")
}

/// A plain POM of a coordinate and its dependencies.
fn pom_text(alloc: Global, coord: &str, dependencies: &[&str]) -> Result<String, AllocError> {
    let mut text = String::from_str(alloc, "<project><modelVersion>4.0.0</modelVersion>")?;
    put_coord(&mut text, coord)?;
    text.push_str("<dependencies>")?;
    for word in dependencies {
        put_dependency(&mut text, word)?;
    }
    text.push_str("</dependencies></project>")?;
    Ok(text)
}

/// A listing of versions.
fn listing_text(alloc: Global, versions: &[&str]) -> Result<String, AllocError> {
    let mut text = String::from_str(alloc, "<metadata><versioning><versions>")?;
    for version in versions {
        text.push_str("<version>")?;
        text.push_str(version)?;
        text.push_str("</version>")?;
    }
    text.push_str("</versions></versioning></metadata>")?;
    Ok(text)
}

/// A text in which a coordinate between two `@` stands for its elements.
fn filled(alloc: Global, text: &str) -> Result<String, AllocError> {
    let mut made = String::new(alloc);
    for (place, piece) in pieces_of(alloc, text, '@')?.iter().enumerate() {
        if place % 2 == 0 {
            made.push_str(piece)?;
        } else {
            put_coord(&mut made, piece)?;
        }
    }
    Ok(made)
}

/// What stands before the first space, and what stands behind it.
fn first_word(text: &str) -> (&str, &str) {
    text.split_once(' ').unwrap_or((text, ""))
}

/// The words of a text, between which stands one space. No text has no words.
pub(crate) fn words_in(alloc: Global, text: &str) -> Result<Vec<&str>, AllocError> {
    if text.is_empty() {
        return Ok(Vec::new(alloc));
    }
    pieces_of(alloc, text, ' ')
}

/// Adds the POM or the listing that the words of a row describe.
fn add_described(
    alloc: Global,
    world: &mut World,
    repository: &str,
    text: &str,
) -> Result<(), Fail> {
    let (coord, others) = first_word(text);
    let others = words_in(alloc, others)?;
    let (org, name, version) = parts_of(coord);
    let folder = org.replace(alloc, ".", "/")?;
    if version.is_empty() {
        let url = format!(in alloc; "http://{repository}/{folder}/{name}/maven-metadata.xml")?;
        let text = listing_text(alloc, others.as_slice())?;
        world.add(alloc, &url, text.as_bytes())?;
        return Ok(());
    }
    let url = format!(in alloc;
        "http://{repository}/{folder}/{name}/{version}/{name}-{version}.pom"
    )?;
    let text = pom_text(alloc, coord, others.as_slice())?;
    world.add(alloc, &url, text.as_bytes())?;
    Ok(())
}

/// A world of these rows. A row is one of these, each of words with one space between two:
///
/// - the host of a repository, a coordinate, and its dependencies: a plain POM;
/// - the host of a repository, a module, and versions: its listing;
/// - a whole URL, and behind one space the bytes, in which coordinates between two `@` are filled.
pub(crate) fn world(alloc: Global, rows: &[&str]) -> Result<World, Fail> {
    let mut world = World::new(alloc);
    for row in rows {
        let (place, rest) = first_word(row);
        if place.contains(':') {
            world.add(alloc, place, filled(alloc, rest)?.as_bytes())?;
        } else {
            add_described(alloc, &mut world, place, rest)?;
        }
    }
    Ok(world)
}
