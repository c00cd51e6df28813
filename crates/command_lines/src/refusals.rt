//! Why a command gives no answer.
ghost use Rattle.std.specs.Prelude.{◌≡◌, ◌++◌, IfOk, codes};
ghost use Rattle.std.specs.Fmt.{decimal};
ghost use Rattle.command_lines.specs.Refusals.{call_text, err_line, said_of, status_of, words_text};
ghost use Rattle.command_lines.specs.Refusals.{line_of, simple_line};
ghost use Rattle.word_values.specs.Refusals.{kind_text};

use disk_base::DiskCall;
use line_streams::Said;
use res_base::{NoMemory, Text};
use std::alloc::Global;
use word_values::WordKind;

/// Why a command gives no answer. Each has a line for `err` and a status of its own.
#[derive(Drop)]
pub enum Refusal {
    /// What is wrong with the words, and the number of the member of a list that is; 0 where there
    /// is no list. Status 2.
    Words(WordKind, u64),
    /// A repository failed, and this is the URL that was asked. Status 3.
    Repository(Text),
    /// The disk of the cache failed in a call of this kind. Status 4.
    Disk(DiskCall),
    /// The file of this URL is needed and not in the cache, and nobody may be asked. Status 7.
    NotCached(Text),
    /// More files are needed than one session asks for. Status 8.
    TooManyFiles,
}

/// The printed name of a kind of disk calls.
fn call_text(call: DiskCall) -> &'static str
    ensures { result.now ≡ call_text call }
{
    match call {
        DiskCall::Read => "read",
        DiskCall::Start => "start",
        DiskCall::Append => "append",
        DiskCall::Sync => "sync",
        DiskCall::Rename => "rename",
        DiskCall::Remove => "remove",
        DiskCall::SyncNames => "sync-names",
        DiskCall::List => "list",
    }
}

/// A line for `err` that says of what kind a refusal is, and what is refused.
fn err_line(alloc: Global, kind: &str, what: &str) -> Result<Text, NoMemory>
    ensures { IfOk result (λ line. line ≡ err_line kind.now what.now) }
{
    let mut line = Text::of(alloc, "coursier: ")?;
    line.push_str(kind)?;
    line.push_str(": ")?;
    line.push_str(what)?;
    line.push_str("\n")?;
    Ok(line)
}

/// A line for `err` that says of what kind a refusal is, and no more.
fn simple_line(alloc: Global, kind: &str) -> Result<Text, NoMemory>
    ensures { IfOk result (λ line. line ≡ simple_line kind.now) }
{
    let mut line = Text::of(alloc, "coursier: ")?;
    line.push_str(kind)?;
    line.push_str("\n")?;
    Ok(line)
}

fn words_text(alloc: Global, kind: WordKind, place: u64) -> Result<Text, NoMemory>
    ensures { IfOk result (λ text. text ≡ words_text kind place) }
{
    let mut text = Text::of(alloc, kind.text())?;
    let place = format!(in alloc; " {place}")?;
    text.push_str(place.as_str())?;
    Ok(text)
}

fn words_line(alloc: Global, kind: WordKind, place: u64) -> Result<Text, NoMemory>
    ensures { IfOk result (λ line. line ≡ err_line (codes "words") (words_text kind place)) }
{
    let text = words_text(alloc, kind, place)?;
    err_line(alloc, "words", text.as_str())
}

impl Refusal {
    /// The status of the command.
    pub fn status(&self) -> u8
        ensures { result ≡ status_of self.now }
    {
        match self {
            Refusal::Words(_, _) => 2,
            Refusal::Repository(_) => 3,
            Refusal::Disk(_) => 4,
            Refusal::NotCached(_) => 7,
            Refusal::TooManyFiles => 8,
        }
    }

    /// The line for `err`, with its line feed.
    pub fn line(&self, alloc: Global) -> Result<Text, NoMemory>
        ensures { IfOk result (λ line. line ≡ line_of self.now) }
    {
        match self {
            Refusal::Words(kind, place) => words_line(alloc, *kind, *place),
            Refusal::Repository(url) => err_line(alloc, "repository", url.as_str()),
            Refusal::Disk(call) => err_line(alloc, "disk", call_text(*call)),
            Refusal::NotCached(url) => err_line(alloc, "not cached", url.as_str()),
            Refusal::TooManyFiles => simple_line(alloc, "too many files"),
        }
    }

    /// What is to be said of it.
    pub fn said(&self, alloc: Global) -> Result<Said, NoMemory>
        ensures { IfOk result (λ said. said ≡ said_of self.now) }
    {
        Ok(Said::Tells(self.status(), self.line(alloc)?))
    }
}
