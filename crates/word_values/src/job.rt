//! Jobs.
use cache_policy::Mode;
use res_base::{Check, List, Text};
use resolution::Ask;

/// What is to be done.
#[derive(Clone, Copy, Debug, PartialEq, Eq, Drop)]
pub enum Command {
    /// Choose versions, and print them.
    Resolve,
    /// Choose versions, and fetch their files.
    Fetch,
    /// Choose versions in a repository that is made up from a seed.
    Sample,
}

/// How several links are used.
#[derive(Clone, Copy, Debug, PartialEq, Eq, Drop)]
pub enum Pool {
    /// Each as soon as it is free.
    Board,
    /// All together, wave after wave.
    Wave,
}

/// What is printed.
#[derive(Clone, Copy, Debug, PartialEq, Eq, Drop)]
pub enum Output {
    /// A line for each coordinate.
    Plain,
    /// A tree.
    Tree,
    /// A report in JSON.
    Json,
    /// The class path.
    Classpath,
}

/// What the words of a command ask for.
#[derive(Drop)]
pub struct Job {
    pub command: Command,
    pub ask: Ask,
    /// The repositories, 1 to 16, in the order of the words.
    pub addresses: List<Text>,
    /// The greatest number of links in use, 1 to 16.
    pub parallel: u32,
    /// How often a file is asked for again after a failure, 0 to 3.
    pub retries: u32,
    /// How files are checked: the first that decides counts.
    pub checks: List<Check>,
    pub mode: Mode,
    /// For how many seconds a cached file that may change counts as new, 0 to 31,536,000.
    pub ttl: u64,
    pub pool: Pool,
    /// Whether files are claimed before it is sure that they are needed.
    pub eager: bool,
    /// The greatest number of bytes of an artifact, 1 to 4,294,967,296.
    pub limit: u64,
    pub output: Output,
    /// What stands before each path that is printed.
    pub prefix: Text,
    /// For `Sample`, the seed and the number of modules, 1 to 10,000.
    pub sample: Option<(u64, u32)>,
}
