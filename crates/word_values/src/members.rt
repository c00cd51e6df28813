//! Lists whose members are read one after another.
ghost use Rattle.std.specs.Prelude.{◌≡◌, ℕ, Bool, List, Option, IfOk};
ghost use Rattle.word_values.specs.Members.{list_given, members_in};
ghost use Rattle.word_values.specs.Refusals.{Answers};
ghost use Rattle.word_values.specs.Split.{texts_of};

use crate::given::Given;
use crate::refusals::{WordKind, WordsErr};
use crate::split::members_of;
use res_base::{List, NoMemory};
use std::alloc::Global;

/// How a member of a list is read.
pub(crate) trait Members {
    type Item: Drop;

    ghost reads: { List Self.Item → List ℕ → Bool → Option Self.Item };

    /// Reads a member that stands after those `before`, and maybe last.
    fn read(
        alloc: Global,
        before: &List<Self::Item>,
        text: &str,
        is_last: bool,
    ) -> Result<Option<Self::Item>, NoMemory>
        ensures { IfOk result (λ read. read ≡ reads before.now text.now is_last) };
}

/// Reads the members in order. The first that does not read is refused by its number.
#[tactic(auto, using(crate::proofs::Turns::is_last))]
pub(crate) fn read_members<M: Members>(
    alloc: Global,
    kind: WordKind,
    texts: &[&str],
) -> Result<List<M::Item>, WordsErr>
    ensures { Answers (members_in kind M.reads (texts_of texts.now)) result }
{
    let mut made: List<M::Item> = List::new(alloc);
    for text in texts {
        let is_last = made.len() + 1 == texts.len();
        let Some(member) = M::read(alloc, &made, text, is_last)? else {
            return Err(WordsErr::BadWords(kind, made.len() as u64));
        };
        made.push(member)?;
    }
    Ok(made)
}

/// The list that is given for an option, or no members where none is.
pub(crate) fn list_given<M: Members, G: Given>(
    alloc: Global,
    kind: WordKind,
    given: &G,
    name: &str,
) -> Result<List<M::Item>, WordsErr>
    ensures { Answers (list_given kind M.reads (G.texts given.now name.now)) result }
{
    let Some(text) = given.text(name) else {
        return Ok(List::new(alloc));
    };
    let members = members_of(alloc, text)?;
    read_members::<M>(alloc, kind, members.as_slice())
}
