use std::alloc::Global;
use std::cmp::Ordering;
use std::test::Fail;
use version_order::{Constraint, ConstraintErr, Version, read_constraint};

#[test]
fn pairs_that_tend_to_go_wrong(rt: HostRuntime) -> Result<(), Fail> {
    use Ordering::{Equal, Greater, Less};
    let rows = [
        ("1.0", "1", Equal, Greater),
        ("1-ga", "1", Equal, Greater),
        ("1.", "1", Equal, Greater),
        ("", "0", Equal, Less),
        ("1-RC", "1-rc", Equal, Less),
        ("01", "1", Equal, Less),
        ("1.1", "1.01", Equal, Greater),
        ("1-sp", "1", Greater, Greater),
        ("1.9", "1.10", Less, Less),
        ("1-x", "1.0.0", Greater, Greater),
        ("1-SNAPSHOT", "1.0", Less, Less),
        ("1a1", "1-a-1", Equal, Greater),
        (
            "1234567890123456789012345",
            "1234567890123456789012346",
            Less,
            Less,
        ),
        (
            "999999999999999999999999",
            "1000000000000000000000000",
            Less,
            Less,
        ),
        ("1-é", "1-z", Greater, Greater),
        ("1-É", "1-é", Less, Less),
    ];
    for (left, right, by_items, full) in &rows {
        let a = Version::read(rt.alloc(), left)?;
        let b = Version::read(rt.alloc(), right)?;
        assert_eq!(rt; a.cmp_items(&b), *by_items, "{left} {right}");
        assert_eq!(rt; a.cmp_full(&b), *full, "{left} {right}");
        assert_eq!(rt; b.cmp_full(&a), full.reverse(), "{left} {right}");
    }
    Ok(())
}

#[test]
fn refused_constraints(rt: HostRuntime) -> Result<(), Fail> {
    let rows = [
        ("[1,2),[3,4)", 5),
        ("${v}", 0),
        (" 1.2.+\n", 5),
        ("(1.0)", 4),
        ("[ ,1]", 2),
        ("[1", 2),
        ("RELEASE", 7),
        ("1 2", 1),
    ];
    for (text, place) in &rows {
        let answer = read_constraint(rt.alloc(), text).err();
        assert_eq!(rt;
            answer,
            Some(ConstraintErr::BadConstraint(*place)),
            "{text}"
        );
    }
    Ok(())
}

fn holds(alloc: Global, text: &str, version: &str) -> Result<Option<bool>, ConstraintErr> {
    let version = Version::read(alloc, version)?;
    match read_constraint(alloc, text)? {
        Constraint::Within(interval) => Ok(Some(interval.holds(&version))),
        _ => Ok(None),
    }
}

#[test]
fn intervals_hold_versions(rt: HostRuntime) -> Result<(), Fail> {
    let rows = [
        ("(,1.0]", "0.9", Some(true)),
        ("(,1.0]", "1.0", Some(true)),
        ("(,1.0)", "1", Some(false)),
        ("[2,1]", "2", Some(false)),
        ("[ 1.0 ]", "1", Some(true)),
        ("1.0", "1.0", None),
        (" ", "1.0", None),
    ];
    for (text, version, wanted) in &rows {
        assert_eq!(rt;
            holds(rt.alloc(), text, version)?,
            *wanted,
            "{text} {version}"
        );
    }
    Ok(())
}
