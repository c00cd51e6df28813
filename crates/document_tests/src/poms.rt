//! Refusals by their texts, and one record whole.
ghost use Rattle.std.specs.Prelude.{◌≡◌, ◌<◌};

use pom_record::{PomErr, read_pom};
use res_base::{DepRecord, Field, PomRecord, Steps};
use std::alloc::Global;
use std::marker::Brand;
use std::sync::ledger::{Blank, Ledger};
use std::test::Fail;

fn counted<L: Ledger>(alloc: Global, bytes: &[u8], blank: Blank) -> Result<PomRecord, PomErr>
    requires name { blank.name ≡ L.name }
    requires parts { blank.parts ≡ L.parts }
    requires some { 0 < blank.parts }
{
    let mut steps: Steps<L> = Steps::new(blank);
    read_pom(alloc, bytes, &mut steps)
}

fn read(alloc: Global, text: &str) -> Result<PomRecord, PomErr> {
    counted::<Brand>(alloc, text.as_bytes(), Blank::new(1))
}

/// The coordinate that a text lacks, if that is why it is refused.
fn lacking(alloc: Global, text: &str) -> Option<Field> {
    match read(alloc, text) {
        Err(PomErr::NoCoordinates(field)) => Some(field),
        _ => None,
    }
}

#[test]
fn coordinates_that_are_absent(rt: HostRuntime) {
    for (text, field) in [
        ("<project></project>", Field::Org),
        (
            "<project><artifactId>a</artifactId><groupId> </groupId></project>",
            Field::Org,
        ),
        (
            "<project><parent/><artifactId>a</artifactId></project>",
            Field::ParentOrg,
        ),
        (
            "<project><parent><groupId>x</groupId><artifactId>p</artifactId></parent></project>",
            Field::ParentVersion,
        ),
        (
            "<project><parent><groupId>x</groupId><artifactId>p</artifactId><version>1</version></parent></project>",
            Field::Name,
        ),
    ] {
        assert!(rt; lacking(rt.alloc(), text) == Some(field), "{text}");
    }
    assert!(rt; matches!(read(rt.alloc(), "<metadata/>"), Err(PomErr::NotProject)));
    assert!(rt; matches!(read(rt.alloc(), "<project>"), Err(PomErr::BadText(9))));
}

const WHOLE: &str =
    "<p:project xmlns:p='u'><parent><groupId>x</groupId><artifactId>p</artifactId><version>1</version></parent>\
<artifactId>a</artifactId><artifactId>b</artifactId><packaging/><packaging>war</packaging>\
<properties><v>1</v><w/><v>2</v></properties>\
<dependencies><dependency><groupId>y</groupId><type>zip</type><classifier>c</classifier><scope>test</scope><optional>true</optional>\
<exclusions><exclusion><groupId>*</groupId><artifactId>e</artifactId></exclusion><other/></exclusions></dependency><other/><dependency/></dependencies>\
<dependencies><dependency/></dependencies>\
<dependencyManagement><dependencies><dependency><version>${v}</version></dependency></dependencies></dependencyManagement>\
<distributionManagement><relocation><groupId>z</groupId></relocation></distributionManagement></p:project>";

/// Whether a row has these texts: org, name, version, type, classifier, scope, optional.
fn has_texts(row: &DepRecord, texts: [&str; 7]) -> bool {
    row.module.org.as_str() == texts[0]
        && row.module.name.as_str() == texts[1]
        && row.version.as_str() == texts[2]
        && row.kind.as_str() == texts[3]
        && row.classifier.as_str() == texts[4]
        && row.scope.as_str() == texts[5]
        && row.optional.as_str() == texts[6]
}

#[test]
fn fields_of_a_project(rt: HostRuntime) -> Result<(), Fail> {
    let pom = read(rt.alloc(), WHOLE).expect(&rt, "a project");
    assert!(rt;
        pom.parent
            .is_some_and(|parent| parent.module.name.as_str() == "p")
    );
    assert!(rt; pom.org.is_empty() && pom.name.as_str() == "a" && pom.packaging.as_str() == "jar");
    let [first, second] = [0, 1].map(|at| pom.properties.get(at).expect(&rt, "a property"));
    assert!(rt;
        pom.properties.len() == 2 && first.value.as_str() == "1" && second.value.is_empty()
    );
    let [row, bare] = [0, 1].map(|at| pom.deps.get(at).expect(&rt, "a dependency"));
    assert!(rt; pom.deps.len() == 2 && has_texts(row, ["y", "", "", "zip", "c", "test", "true"]));
    assert!(rt; has_texts(bare, [""; 7]) && row.exclusions.len() == 1);
    let managed = pom.managed.get(0).expect(&rt, "a managed row");
    assert!(rt; managed.version.as_str() == "${v}" && managed.kind.is_empty());
    assert!(rt;
        pom.moved
            .is_some_and(|moved| moved.org.as_str() == "z" && moved.name.is_empty())
    );
    Ok(())
}
