//! Coordinates, paths and worlds, and each call once with ample memory.
use super::*;
use std::alloc::Global;

fn refused_at(alloc: Global, text: &str) -> Option<usize> {
    match parse_coord(alloc, text) {
        Err(CoordErr::BadCoord(place)) => Some(place),
        Err(CoordErr::NoMemory) | Ok(_) => None,
    }
}

fn is_text(made: Result<Text, NoMemory>, wanted: &str) -> bool {
    match made {
        Ok(text) => text.as_str() == wanted,
        Err(NoMemory) => false,
    }
}

#[test]
fn texts_that_are_no_coordinate(rt: HostRuntime) {
    for (text, place) in [
        ("", 0),
        ("org.a:a+b:", 10),
        (".x:a:1", 0),
        ("x..y:a:1", 2),
        ("x.:a:1", 2),
        ("x:..:1", 4),
        ("x:é:1", 2),
        ("x:a:1:2", 5),
    ] {
        assert!(rt; refused_at(rt.alloc(), text) == Some(place), "{text}");
    }
}

#[test]
fn paths_of_a_coordinate(rt: HostRuntime) {
    let alloc = rt.alloc();
    let read = parse_coord(alloc, "org.a.b:c.d:1.0").expect(&rt, "a coordinate");
    assert!(rt; is_plain(&read));
    assert!(rt; is_text(pom_path(alloc, &read), "org/a/b/c.d/1.0/c.d-1.0.pom"));
    assert!(rt;
        is_text(
            file_path(alloc, &read, "jar", ""),
            "org/a/b/c.d/1.0/c.d-1.0.jar"
        )
    );
    let sources = file_path(alloc, &read, "tar.gz", "sources");
    assert!(rt; is_text(sources, "org/a/b/c.d/1.0/c.d-1.0-sources.tar.gz"));
    assert!(rt;
        is_text(
            listing_path(alloc, &read.module),
            "org/a/b/c.d/maven-metadata.xml"
        )
    );
}

#[test]
fn first_row_of_a_url(rt: HostRuntime) {
    let alloc = rt.alloc();
    let mut world = World::new(alloc);
    world
        .add(alloc, "http://r1/x/a", b"first")
        .expect(&rt, "room");
    world
        .add(alloc, "http://r1/x/a", b"second")
        .expect(&rt, "room");
    assert!(rt; matches!(world.at("http://r1/x/a"), Some(b"first")));
    assert!(rt; world.at("http://r1/x").is_none());
    assert!(rt; is_text(url_of(alloc, "http://r1", "x/a"), "http://r1/x/a"));
}
