//! Each kind of answer, with ample memory.
ghost use Rattle.std.specs.Prelude.{◌≡◌, ◌<◌, true};
ghost use Rattle.answer_reading.specs.Readings.{may_answer};

use super::*;
use res_base::{Answer, Check, Damage, List, NoMemory, ReadFault, Reading, Role, Steps};
use std::alloc::Global;
use std::marker::Brand;
use std::sync::ledger::{Blank, Ledger};
use std::test::Fail;

fn counted<L: Ledger>(
    alloc: Global,
    role: Role,
    answer: Answer,
    blank: Blank,
) -> Result<Reading, NoMemory>
    requires may { may_answer answer role ≡ true }
    requires name { blank.name ≡ L.name }
    requires parts { blank.parts ≡ L.parts }
    requires some { 0 < blank.parts }
{
    let mut steps: Steps<L> = Steps::new(blank);
    read_answer(alloc, role, answer, &mut steps)
}

fn read(alloc: Global, role: Role, answer: Answer) -> Result<Reading, NoMemory>
    requires { may_answer answer role ≡ true }
{
    counted::<Brand>(alloc, role, answer, Blank::new(1))
}

/// The letter of a reading, and a number that it has.
fn letter(reading: &Reading) -> (char, u64) {
    match reading {
        Reading::Pom(pom) => ('P', pom.deps.len() as u64),
        Reading::Listing(versions) => ('L', versions.len() as u64),
        Reading::Stored(length) => ('S', *length),
        Reading::NotReadable(ReadFault::BadText(place)) => ('B', *place),
        Reading::NotReadable(_) => ('N', 0),
        Reading::Absent => ('A', 0),
        Reading::Damaged(_) => ('D', 0),
        Reading::TooLarge => ('T', 0),
    }
}

/// The letter of what is read of a text.
fn letter_of(alloc: Global, role: Role, text: &str) -> Result<(char, u64), NoMemory> {
    let bytes = List::from_slice(alloc, text.as_bytes())?;
    Ok(letter(&read(alloc, role, Answer::Bytes(bytes))?))
}

#[test]
fn answers_are_read(rt: HostRuntime) -> Result<(), Fail> {
    let alloc = rt.alloc();
    let pom =
        "<project><groupId>x</groupId><artifactId>a</artifactId><version>1</version></project>";
    let listing =
        "<metadata><versioning><versions><version>1</version></versions></versioning></metadata>";
    for (role, text, wanted) in [
        (Role::Pom, pom, ('P', 0)),
        (Role::Pom, listing, ('N', 0)),
        (Role::Pom, "<project>", ('B', 9)),
        (Role::Listing, listing, ('L', 1)),
        (Role::Listing, pom, ('N', 0)),
        (Role::Artifact, "abc", ('S', 3)),
    ] {
        assert_eq!(rt; letter_of(alloc, role, text)?, wanted);
    }
    let damage = Damage {
        check: Check::NoCheck,
        wanted: None,
        got: None,
    };
    for (answer, wanted) in [
        (Answer::Absent, 'A'),
        (Answer::Damaged(damage), 'D'),
        (Answer::TooLarge, 'T'),
    ] {
        let reading = read(alloc, Role::Pom, answer)?;
        assert_eq!(rt; letter(&reading).0, wanted);
    }
    Ok(())
}
