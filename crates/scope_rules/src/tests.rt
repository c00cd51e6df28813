//! Each scope in each configuration, and `optional`.
use super::*;
use res_base::{DepRecord, List, Module, NoMemory, Text};
use std::alloc::Global;

fn dep(alloc: Global, scope: &str, optional: &str) -> Result<DepRecord, NoMemory> {
    Ok(DepRecord {
        module: Module {
            org: Text::of(alloc, "x")?,
            name: Text::of(alloc, "a")?,
        },
        version: Text::new(alloc),
        kind: Text::new(alloc),
        classifier: Text::new(alloc),
        scope: Text::of(alloc, scope)?,
        optional: Text::of(alloc, optional)?,
        exclusions: List::new(alloc),
    })
}

#[test]
fn scopes(rt: HostRuntime) -> Result<(), NoMemory> {
    for (scope, optional, compile, run) in [
        ("compile", "", true, true),
        ("compile", "false", true, true),
        ("compile", "TRUE", true, true),
        ("compile", "true", false, false),
        ("runtime", "", false, true),
        ("runtime", "true", false, false),
        ("test", "", false, false),
        ("provided", "", false, false),
        ("Compile", "", false, false),
        ("", "", false, false),
    ] {
        let dep = dep(rt.alloc(), scope, optional)?;
        assert_eq!(rt; kept(Configuration::Compile, &dep), compile, "{scope}");
        assert_eq!(rt; kept(Configuration::Runtime, &dep), run, "{scope}");
        assert_eq!(rt; kept(Configuration::Default, &dep), run, "{scope}");
    }
    Ok(())
}
