//! Listings and refusals by their texts.
ghost use Rattle.std.specs.Prelude.{◌≡◌, ◌<◌};

use meta_record::{ListingErr, read_listing};
use res_base::{List, Steps, Text};
use std::alloc::Global;
use std::marker::Brand;
use std::sync::ledger::{Blank, Ledger};

fn counted<L: Ledger>(alloc: Global, bytes: &[u8], blank: Blank) -> Result<List<Text>, ListingErr>
    requires name { blank.name ≡ L.name }
    requires parts { blank.parts ≡ L.parts }
    requires some { 0 < blank.parts }
{
    let mut steps: Steps<L> = Steps::new(blank);
    read_listing(alloc, bytes, &mut steps)
}

fn read(alloc: Global, text: &str) -> Result<List<Text>, ListingErr> {
    counted::<Brand>(alloc, text.as_bytes(), Blank::new(1))
}

/// Whether a text lists exactly these versions.
fn lists(alloc: Global, text: &str, versions: &[&str]) -> bool {
    match read(alloc, text) {
        Ok(listed) => listed.len() == versions.len()
            && versions.iter().enumerate().all(|(at, version)| listed
                .get(at)
                .is_some_and(|text| text.as_str() == *version)),
        Err(_) => false,
    }
}

#[test]
fn versions_that_are_listed(rt: HostRuntime) {
    for (text, versions) in [
        ("<metadata/>", [].as_slice()),
        (
            "<metadata><versions><version>1</version></versions></metadata>",
            &[],
        ),
        (
            "<metadata><versioning/><versioning><versions><version>1</version></versions></versioning></metadata>",
            &[],
        ),
        (
            "<metadata><versioning><latest>9</latest><versions><version> 1.0 </version><v>2</v><version/><version>1.0</version></versions></versioning></metadata>",
            &["1.0", "1.0"],
        ),
    ] {
        assert!(rt; lists(rt.alloc(), text, versions), "{text}");
    }
}

#[test]
fn texts_that_are_no_listing(rt: HostRuntime) {
    assert!(rt; matches!(read(rt.alloc(), "<project/>"), Err(ListingErr::NotMetadata)));
    assert!(rt; matches!(read(rt.alloc(), "<metadata>"), Err(ListingErr::BadText(10))));
}
