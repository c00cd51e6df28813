//! What may stand in the words of each command.
ghost use Rattle.std.specs.Prelude.{◌≡◌, IfOk};
ghost use Rattle.clap.specs.Words.{app_of};
ghost use Rattle.cli_words.specs.Tables.{resolve_app, sample_app};

use crate::forms::Form::{Optional, Place, Places, Required};
use crate::forms::{Form, command_with};
use clap::Command;
use std::alloc::{AllocError, Global};

static RESOLVE: [Form<'static>; 18] = [
    Required("repositories"),
    Optional("configuration"),
    Optional("rule"),
    Optional("force"),
    Optional("bom"),
    Optional("exclude"),
    Optional("rounds"),
    Optional("parallel"),
    Optional("retries"),
    Optional("checks"),
    Optional("mode"),
    Optional("ttl"),
    Optional("pool"),
    Optional("eager"),
    Optional("limit"),
    Optional("output"),
    Optional("prefix"),
    Places("roots"),
];

static SAMPLE: [Form<'static>; 2] = [Place("seed"), Place("count")];

/// The command of `resolve` and `fetch`.
pub(crate) fn resolve_command<'a>(alloc: Global) -> Result<Command<'a>, AllocError>
    ensures { IfOk result (λ made. app_of made ≡ resolve_app) }
{
    command_with(alloc, RESOLVE.as_slice())
}

/// The command of `sample`.
pub(crate) fn sample_command<'a>(alloc: Global) -> Result<Command<'a>, AllocError>
    ensures { IfOk result (λ made. app_of made ≡ sample_app) }
{
    command_with(alloc, SAMPLE.as_slice())
}
