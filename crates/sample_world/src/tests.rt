//! A small world, and its first file to the byte.
use super::*;
use res_base::NoMemory;

#[test]
fn one_module(rt: HostRuntime) -> Result<(), NoMemory> {
    let world = make_world(rt.alloc(), 0, 1)?;
    let text =
        b"<project><modelVersion>4.0.0</modelVersion><groupId>s.m</groupId><artifactId>m0</artifactId><version>1.2</version><dependencies></dependencies></project>";
    assert_eq!(rt; world.rows.len(), 3);
    assert!(rt; world.at("http://sample/s/m/m0/1.2/m0-1.2.pom") == Some(text.as_slice()));
    Ok(())
}
