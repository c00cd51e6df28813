//! How words are refused.
ghost use Rattle.std.specs.Prelude.{◌≡◌};
ghost use Rattle.word_values.specs.Refusals.{kind_text};

use res_base::NoMemory;
use std::alloc::AllocError;

/// What is wrong with words.
#[derive(Clone, Copy, Debug, PartialEq, Eq, Drop)]
pub enum WordKind {
    /// There are more than 4,096.
    TooMany,
    /// There are none.
    NoCommand,
    /// The first is no command.
    UnknownCommand,
    /// They do not fit the options of the command.
    Usage,
    /// A repository is no address, or there are more than 16.
    Repositories,
    Configuration,
    Rule,
    /// A forced version is no coordinate, is an interval or any version, or its module has one.
    Force,
    /// A BOM is no plain coordinate, or is there twice.
    Bom,
    Exclude,
    Rounds,
    Parallel,
    Retries,
    Checks,
    Mode,
    Ttl,
    Pool,
    Eager,
    Limit,
    /// The command does not print this.
    Output,
    Prefix,
    /// A root is no coordinate, or its constraint does not read.
    Roots,
    Seed,
    Count,
}

impl WordKind {
    /// Its printed name.
    pub fn text(self) -> &'static str
        ensures { result.now ≡ kind_text self }
    {
        match self {
            WordKind::TooMany => "too-many",
            WordKind::NoCommand => "no-command",
            WordKind::UnknownCommand => "unknown-command",
            WordKind::Usage => "usage",
            WordKind::Repositories => "repositories",
            WordKind::Configuration => "configuration",
            WordKind::Rule => "rule",
            WordKind::Force => "force",
            WordKind::Bom => "bom",
            WordKind::Exclude => "exclude",
            WordKind::Rounds => "rounds",
            WordKind::Parallel => "parallel",
            WordKind::Retries => "retries",
            WordKind::Checks => "checks",
            WordKind::Mode => "mode",
            WordKind::Ttl => "ttl",
            WordKind::Pool => "pool",
            WordKind::Eager => "eager",
            WordKind::Limit => "limit",
            WordKind::Output => "output",
            WordKind::Prefix => "prefix",
            WordKind::Roots => "roots",
            WordKind::Seed => "seed",
            WordKind::Count => "count",
        }
    }
}

/// Why words give no job.
#[derive(Clone, Copy, Debug, PartialEq, Eq, Drop)]
pub enum WordsErr {
    /// What is wrong, and the number of the member of a list that is; 0 where there is no list.
    BadWords(WordKind, u64),
    NoMemory,
}

impl From<NoMemory> for WordsErr {
    ghost use Rattle.word_values.specs.declared.refusals.WordsErr.TheVariants.{NoMemory as OutOfMemory};

    ghost from_gives = { λ _ e. e ≡ OutOfMemory };

    fn from(_: NoMemory) -> WordsErr {
        WordsErr::NoMemory
    }
}

impl From<AllocError> for WordsErr {
    ghost use Rattle.word_values.specs.declared.refusals.WordsErr.TheVariants.{NoMemory as OutOfMemory};

    ghost from_gives = { λ _ e. e ≡ OutOfMemory };

    fn from(_: AllocError) -> WordsErr {
        WordsErr::NoMemory
    }
}
