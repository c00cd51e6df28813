//! What may stand in the words of a command, as `clap` takes it.
ghost use Rattle.std.specs.Prelude.{◌≡◌, false, IfOk, codes};
ghost use Rattle.clap.specs.Words.{app_of, rule_of};
ghost use Rattle.cli_words.specs.Forms.{app_with, rule_of_form, rules_of_forms, with_rules};

use clap::{Arg, ArgAction, Command};
use std::alloc::{AllocError, Global};

/// One thing that may stand in the words of a command, by its name.
pub(crate) enum Form<'a> {
    /// `--NAME VALUE` or `--NAME=VALUE`, at most once.
    Optional(&'a str),
    /// The same, once.
    Required(&'a str),
    /// One word at a place of its own.
    Place(&'a str),
    /// One or more words, the last of the places.
    Places(&'a str),
}

fn arg_of<'a>(alloc: Global, form: &Form<'a>) -> Arg<'a>
    ensures rule { rule_of result ≡ rule_of_form form.now }
    ensures local { result.global ≡ false }
{
    match *form {
        Form::Optional(name) => Arg::new(alloc, name).long(name),
        Form::Required(name) => Arg::new(alloc, name).long(name).required(true),
        Form::Place(name) => Arg::new(alloc, name).required(true),
        Form::Places(name) => Arg::new(alloc, name)
            .required(true)
            .action(ArgAction::Append),
    }
}

/// The command in whose words these may stand.
pub(crate) fn command_with<'a>(alloc: Global, forms: &[Form<'a>]) -> Result<Command<'a>, AllocError>
    ensures { IfOk result (λ made. app_of made ≡ app_with (rules_of_forms forms.now)) }
{
    let mut command = Command::new(alloc, "coursier");
    for form in forms {
        command = command.arg(arg_of(alloc, form))?;
    }
    Ok(command)
}
