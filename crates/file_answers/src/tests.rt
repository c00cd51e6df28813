//! What no clause says: that answers come where memory is there.
use crate::{Demand, ask_checks, ask_file, ask_key};
use link_base::MemLink;
use res_base::{Answer, Check, FileKey, List, Role, Text, World};
use std::test::Fail;

#[test]
fn files_are_answered(rt: HostRuntime) -> Result<(), Fail> {
    let alloc = rt.alloc();
    let mut world = World::new(alloc);
    world.add(alloc, "http://r/a.pom", b"abc")?;
    world.add(
        alloc,
        "http://r/a.pom.md5",
        b"900150983cd24fb0d6963f7d28e17f72  a.pom",
    )?;
    world.add(alloc, "http://r/b.pom", b"abd")?;
    world.add(
        alloc,
        "http://r/b.pom.md5",
        b"900150983cd24fb0d6963f7d28e17f72",
    )?;
    let mut link = MemLink::new(alloc, world, List::new(alloc));
    let checks = [Check::Sha1, Check::Md5];
    for (path, wanted) in [("a.pom", 0u8), ("b.pom", 1), ("c.pom", 2)] {
        let answer = ask_file(alloc, &mut link, "http://r", path, &checks, 3)?;
        let got = match answer {
            Answer::Bytes(_) => 0u8,
            Answer::Damaged(_) => 1,
            Answer::Absent => 2,
            _ => 3,
        };
        assert_eq!(rt; got, wanted);
    }
    assert_eq!(rt; link.asked(), 7);
    let mut addresses = List::new(alloc);
    addresses.push(Text::of(alloc, "http://r")?)?;
    let key = FileKey {
        repo: 0,
        role: Role::Listing,
        path: Text::of(alloc, "a.pom")?,
    };
    let answer = ask_key(alloc, &mut link, &addresses, &[Check::Md5], 0, &key)?;
    assert!(rt; matches!(answer, Answer::Bytes(_)));
    let demand = ask_checks(alloc, &mut link, "http://r", "a.pom", &[Check::NoCheck])?;
    assert!(rt; matches!(demand, Demand::AnyBytes));
    Ok(())
}
