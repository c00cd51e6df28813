//! The addresses of repositories.
ghost use Rattle.std.specs.Prelude.{◌≡◌, ◌≤◌, IfOk, length};
ghost use Rattle.std.specs.Option.{option_map};
ghost use Rattle.word_values.specs.Addresses.{address_of, addresses_given, repository_in, without_slashes};
ghost use Rattle.word_values.specs.Refusals.{Answers};

use crate::given::Given;
use crate::members::{Members, read_members};
use crate::refusals::{WordKind, WordsErr};
use crate::split::members_of;
use cache_layout::is_address;
use res_base::{List, NoMemory, Text};
use std::alloc::Global;

// The text without the slashes at its end.
fn without_slashes(text: &str) -> &str
    ensures { result.now ≡ without_slashes text.now }
{
    let mut shorter = text;
    while let Some(front) = shorter.strip_suffix('/') {
        shorter = front;
    }
    shorter
}

/// The address that a word gives: the word without the slashes at its end, where that is an address.
fn read_address(word: &str) -> Option<&str>
    ensures { option_map (λ address. address.now) result ≡ address_of word.now }
{
    let address = without_slashes(word);
    if is_address(address) {
        Some(address)
    } else {
        None
    }
}

/// Repositories: addresses, at most 16.
pub(crate) struct Repositories;

impl Members for Repositories {
    type Item = Text;

    ghost reads = { repository_in };

    fn read(
        alloc: Global,
        before: &List<Text>,
        text: &str,
        _is_last: bool,
    ) -> Result<Option<Text>, NoMemory> {
        if before.len() == 16 {
            return Ok(None);
        }
        let Some(address) = read_address(text) else {
            return Ok(None);
        };
        Ok(Some(Text::of(alloc, address)?))
    }
}

/// The addresses of the repositories, in order.
pub(crate) fn addresses_given<G: Given>(alloc: Global, given: &G) -> Result<List<Text>, WordsErr>
    ensures value { Answers (addresses_given (G.texts given.now)) result }
    ensures few { IfOk result (λ addresses. length addresses ≤ 16) }
{
    let Some(text) = given.text("repositories") else {
        return Err(WordsErr::BadWords(WordKind::Usage, 0));
    };
    let members = members_of(alloc, text)?;
    read_members::<Repositories>(alloc, WordKind::Repositories, members.as_slice())
}
