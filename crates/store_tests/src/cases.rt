//! What is done with a store, each time over other files, with the calls of the disk that it makes
//! and what a crash may then show.
use crate::runs::{NAME, RECORD};
use disk_base::DiskCall;

/// What is done with a store once it is open.
#[derive(Clone, Copy)]
pub(crate) enum Act {
    /// Nothing else.
    Open,
    /// `abd` is put at the moment 1500.
    Put,
    /// `abc` is put at 1000, then `abd` at 1500, and then the absence at 2000.
    PutTwo,
    /// The absence is put at 2000.
    PutGone,
    TakeAway,
    Upgrade,
    /// A part is begun and dropped.
    Drop,
    /// A part is sealed for the file's name and dropped.
    DropSealed,
    /// The file is read whole.
    Read,
}

/// A run: the files that stand before it, synced; what is done; the calls by which the disk is
/// changed or listed, in order; what the file's names show in the end; and what else they may show
/// if the run is cut short.
pub(crate) struct Case {
    pub(crate) before: &'static [(&'static str, &'static str)],
    pub(crate) act: Act,
    pub(crate) calls: &'static [DiskCall],
    pub(crate) shown: &'static [&'static str],
    pub(crate) end: &'static str,
}

/// The name of the file's absence record.
pub(crate) const GONE: &str = "gone/http/r1/x";

/// The record of `abc` at the moment 1000, in each format.
const FIRST_FORMAT: &str =
    "coursier-cache 1 sha1|none a9993e364706816aba3e25717850c26c9cd0d89d 3 1000\n";

const SECOND_FORMAT: &str =
    "coursier-cache 2 sha1|none a9993e364706816aba3e25717850c26c9cd0d89d ba7816bf8f01cfea414140de5dae2223b00361a396177a9cb410ff61f20015ad 3 1000\n";

const GONE_BEFORE: &str = "coursier-gone 1 1000\n";

/// What the names show: the file and its record, its absence record, or nothing.
const NONE: &str = "";

const OLD_FIRST: &str =
    "abc coursier-cache 1 sha1|none a9993e364706816aba3e25717850c26c9cd0d89d 3 1000\n";

const OLD: &str =
    "abc coursier-cache 2 sha1|none a9993e364706816aba3e25717850c26c9cd0d89d ba7816bf8f01cfea414140de5dae2223b00361a396177a9cb410ff61f20015ad 3 1000\n";

const NEW: &str =
    "abd coursier-cache 2 sha1|none cb4cc28df0fdbe0ecf9d9662e294b118092a5735 a52d159f262b2c6ddb724a61840befc36eb30c88877a4030b65cbe86298449c9 3 1500\n";

const GONE_AFTER: &str = "coursier-gone 1 2000\n";

/// Files that stand before a run.
pub(crate) const FILE_FIRST: &[(&str, &str)] = &[(RECORD, FIRST_FORMAT), (NAME, "abc")];

const FILE: &[(&str, &str)] = &[(RECORD, SECOND_FORMAT), (NAME, "abc")];

const ABSENCE: &[(&str, &str)] = &[(GONE, GONE_BEFORE)];

const PARTS: &[(&str, &str)] = &[
    (RECORD, SECOND_FORMAT),
    (NAME, "abc"),
    ("parts/0.part", "ab"),
    ("parts/0.rec", SECOND_FORMAT),
    ("parts/4095.part", ""),
];

/// The calls of a run that opens the store and does nothing else.
const OPENS: &[DiskCall] = &[DiskCall::List, DiskCall::SyncNames];

/// The part is written and synced; the record is written as a part, synced, renamed and the names
/// synced; then the part is renamed and the names synced.
const PUTS: &[DiskCall] = &[
    DiskCall::List,
    DiskCall::SyncNames,
    DiskCall::Start,
    DiskCall::Append,
    DiskCall::Sync,
    DiskCall::Start,
    DiskCall::Append,
    DiskCall::Sync,
    DiskCall::Rename,
    DiskCall::SyncNames,
    DiskCall::Rename,
    DiskCall::SyncNames,
];

/// The same, where old data or an absence record is removed and the names synced before the record
/// is written.
const REPLACES: &[DiskCall] = &[
    DiskCall::List,
    DiskCall::SyncNames,
    DiskCall::Start,
    DiskCall::Append,
    DiskCall::Sync,
    DiskCall::Remove,
    DiskCall::Remove,
    DiskCall::SyncNames,
    DiskCall::Start,
    DiskCall::Append,
    DiskCall::Sync,
    DiskCall::Rename,
    DiskCall::SyncNames,
    DiskCall::Rename,
    DiskCall::SyncNames,
];

/// A file, another one in its place, and its absence.
const PUTS_TWO: &[DiskCall] = &[
    DiskCall::List,
    DiskCall::SyncNames,
    DiskCall::Start,
    DiskCall::Append,
    DiskCall::Sync,
    DiskCall::Start,
    DiskCall::Append,
    DiskCall::Sync,
    DiskCall::Rename,
    DiskCall::SyncNames,
    DiskCall::Rename,
    DiskCall::SyncNames,
    DiskCall::Start,
    DiskCall::Append,
    DiskCall::Sync,
    DiskCall::Remove,
    DiskCall::Remove,
    DiskCall::SyncNames,
    DiskCall::Start,
    DiskCall::Append,
    DiskCall::Sync,
    DiskCall::Rename,
    DiskCall::SyncNames,
    DiskCall::Rename,
    DiskCall::SyncNames,
    DiskCall::Remove,
    DiskCall::Remove,
    DiskCall::SyncNames,
    DiskCall::Start,
    DiskCall::Append,
    DiskCall::Sync,
    DiskCall::Rename,
    DiskCall::SyncNames,
];

/// The absence record is written where nothing stands.
const PUTS_GONE: &[DiskCall] = &[
    DiskCall::List,
    DiskCall::SyncNames,
    DiskCall::Start,
    DiskCall::Append,
    DiskCall::Sync,
    DiskCall::Rename,
    DiskCall::SyncNames,
];

/// The same once what stands is removed and the names are synced.
const REPLACES_GONE: &[DiskCall] = &[
    DiskCall::List,
    DiskCall::SyncNames,
    DiskCall::Remove,
    DiskCall::Remove,
    DiskCall::SyncNames,
    DiskCall::Start,
    DiskCall::Append,
    DiskCall::Sync,
    DiskCall::Rename,
    DiskCall::SyncNames,
];

const TAKES: &[DiskCall] = &[
    DiskCall::List,
    DiskCall::SyncNames,
    DiskCall::Remove,
    DiskCall::Remove,
    DiskCall::SyncNames,
];

/// The names are synced, and the new record is written, synced, renamed over the old one and the
/// names synced.
const UPGRADES: &[DiskCall] = &[
    DiskCall::List,
    DiskCall::SyncNames,
    DiskCall::SyncNames,
    DiskCall::Start,
    DiskCall::Append,
    DiskCall::Sync,
    DiskCall::Rename,
    DiskCall::SyncNames,
];

const DROPS: &[DiskCall] = &[
    DiskCall::List,
    DiskCall::SyncNames,
    DiskCall::Start,
    DiskCall::Append,
    DiskCall::Remove,
];

const DROPS_SEALED: &[DiskCall] = &[
    DiskCall::List,
    DiskCall::SyncNames,
    DiskCall::Start,
    DiskCall::Append,
    DiskCall::Sync,
    DiskCall::Remove,
    DiskCall::Remove,
    DiskCall::SyncNames,
    DiskCall::Start,
    DiskCall::Append,
    DiskCall::Sync,
    DiskCall::Rename,
    DiskCall::SyncNames,
    DiskCall::Remove,
];

/// Three parts are there to be removed.
const CLEARS: &[DiskCall] = &[
    DiskCall::List,
    DiskCall::Remove,
    DiskCall::Remove,
    DiskCall::Remove,
    DiskCall::SyncNames,
];

pub(crate) const CASES: &[Case] = &[
    Case {
        before: PARTS,
        act: Act::Open,
        calls: CLEARS,
        shown: &[],
        end: OLD,
    },
    Case {
        before: &[],
        act: Act::Put,
        calls: PUTS,
        shown: &[NONE],
        end: NEW,
    },
    Case {
        before: FILE,
        act: Act::Put,
        calls: REPLACES,
        shown: &[OLD, NONE],
        end: NEW,
    },
    Case {
        before: ABSENCE,
        act: Act::Put,
        calls: REPLACES,
        shown: &[GONE_BEFORE, NONE],
        end: NEW,
    },
    Case {
        before: &[],
        act: Act::PutTwo,
        calls: PUTS_TWO,
        shown: &[NONE, OLD, NEW],
        end: GONE_AFTER,
    },
    Case {
        before: &[],
        act: Act::PutGone,
        calls: PUTS_GONE,
        shown: &[NONE],
        end: GONE_AFTER,
    },
    Case {
        before: FILE,
        act: Act::PutGone,
        calls: REPLACES_GONE,
        shown: &[OLD, NONE],
        end: GONE_AFTER,
    },
    Case {
        before: ABSENCE,
        act: Act::PutGone,
        calls: REPLACES_GONE,
        shown: &[GONE_BEFORE, NONE],
        end: GONE_AFTER,
    },
    Case {
        before: &[],
        act: Act::TakeAway,
        calls: OPENS,
        shown: &[],
        end: NONE,
    },
    Case {
        before: FILE,
        act: Act::TakeAway,
        calls: TAKES,
        shown: &[OLD],
        end: NONE,
    },
    Case {
        before: ABSENCE,
        act: Act::TakeAway,
        calls: TAKES,
        shown: &[GONE_BEFORE],
        end: NONE,
    },
    Case {
        before: FILE_FIRST,
        act: Act::Upgrade,
        calls: UPGRADES,
        shown: &[OLD_FIRST],
        end: OLD,
    },
    Case {
        before: FILE,
        act: Act::Upgrade,
        calls: OPENS,
        shown: &[],
        end: OLD,
    },
    Case {
        before: FILE,
        act: Act::Drop,
        calls: DROPS,
        shown: &[],
        end: OLD,
    },
    Case {
        before: FILE,
        act: Act::DropSealed,
        calls: DROPS_SEALED,
        shown: &[OLD],
        end: NONE,
    },
    Case {
        before: FILE,
        act: Act::Read,
        calls: OPENS,
        shown: &[],
        end: OLD,
    },
];
