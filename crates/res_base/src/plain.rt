//! Which texts may stand in a path of a repository.
ghost use Rattle.std.specs.Prelude.{◌≡◌};
ghost use Rattle.std.specs.List.{list_all};
ghost use Rattle.ascii_bytes.specs.Classes.{is_plain_byte};
ghost use Rattle.res_base.specs.Plain.{is_at_most_two_dots, is_plain_coord, is_plain_name, is_plain_org};

use crate::Coord;
use ascii_bytes::{is_plain_byte, is_word_byte};

fn has_plain_bytes(text: &[u8]) -> bool
    ensures { result ≡ list_all is_plain_byte text.now }
{
    text.iter().all(|byte| is_plain_byte(*byte))
}

fn is_dots(text: &[u8]) -> bool
    ensures { result ≡ is_at_most_two_dots text.now }
{
    text.iter().all(|byte| *byte == b'.') && text.len() <= 2
}

/// One or more of `A-Z a-z 0-9 . _ - +`, and neither `.` nor `..`.
pub(crate) fn is_plain_name(text: &[u8]) -> bool
    ensures { result ≡ is_plain_name text.now }
{
    has_plain_bytes(text) && !is_dots(text)
}

/// One or more parts with a dot between two, each of one or more of `A-Z a-z 0-9 _ -`.
pub(crate) fn is_plain_org(text: &[u8]) -> bool
    ensures { result ≡ is_plain_org text.now }
{
    let mut in_part = false;
    for byte in text {
        if is_word_byte(*byte) {
            in_part = true;
        } else if *byte == b'.' && in_part {
            in_part = false;
        } else {
            return false;
        }
    }
    in_part
}

/// Whether the org, the name and the version may all stand in a path of a repository.
pub fn is_plain(coord: &Coord) -> bool
    ensures { result ≡ is_plain_coord coord.now }
{
    is_plain_org(coord.module.org.as_bytes())
        && is_plain_name(coord.module.name.as_bytes())
        && is_plain_name(coord.version.as_bytes())
}
