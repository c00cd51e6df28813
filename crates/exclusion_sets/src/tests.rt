//! The calls, with ample memory.
use super::*;
use res_base::{Exclusion, List, Module, NoMemory, Text};
use std::alloc::Global;
use std::test::Fail;

/// A set of rules, each `ORG:NAME`.
fn set(alloc: Global, rules: &[(&str, &str)]) -> Result<ExclSet, NoMemory> {
    let mut made: List<Exclusion> = List::new(alloc);
    for (org, name) in rules {
        made.push(Exclusion {
            org: Text::of(alloc, org)?,
            name: Text::of(alloc, name)?,
        })?;
    }
    Ok(ExclSet { rules: made })
}

#[test]
fn excludes_by_stars(rt: HostRuntime) -> Result<(), Fail> {
    let alloc = rt.alloc();
    let rules = set(alloc, [("x", "s"), ("y", "*"), ("*", "t")].as_slice())?;
    for (org, name, excluded) in [
        ("x", "s", true),
        ("x", "u", false),
        ("y", "u", true),
        ("z", "t", true),
        ("z", "s", false),
        ("*", "s", false),
    ] {
        let module = Module {
            org: Text::of(alloc, org)?,
            name: Text::of(alloc, name)?,
        };
        assert_eq!(rt; rules.excludes(&module), excluded, "{org}:{name}");
    }
    Ok(())
}

#[test]
fn keeps_the_least_sets(rt: HostRuntime) -> Result<(), Fail> {
    let alloc = rt.alloc();
    let one = set(alloc, [("x", "s")].as_slice())?;
    let other = set(alloc, [("x", "t")].as_slice())?;
    let both = one.join(alloc, &other)?;
    let all = set(alloc, [("*", "*")].as_slice())?;
    assert!(rt;
        one.within(&both) && other.within(&both) && both.within(&all) && !all.within(&both)
    );
    assert_eq!(rt; both.join(alloc, &one)?.rules.len(), 2);
    let mut kept = Antichain::new(alloc);
    for (set, answer, count) in [
        (all, Added::Added, 1),
        (other, Added::Added, 1),
        (both, Added::Covered(0), 1),
        (one, Added::Added, 2),
    ] {
        kept.add_room()?;
        assert_eq!(rt; kept.add(set), answer);
        assert_eq!(rt; kept.sets.len(), count);
    }
    Ok(())
}
