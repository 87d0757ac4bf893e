//! The words as `clap` matches them.

ghost use Rattle.std.specs.Prelude.{◌≡◌, ◌⊎◌, [], IfOk, IfErr, None, false, codes, slice_get, option_map};
ghost use Rattle.clap.specs.Matches.{first_value, found_of, matched_of, raw_values};
ghost use Rattle.clap.specs.Simple.{app_of};
ghost use Rattle.clap.specs.Values.{kind_of};
ghost use Rattle.clap.specs.Walk.{rule_of};
ghost use Rattle.nys_words.specs.CommandLine.{command_rule, line, values_after, values_rule};
ghost use Rattle.nys_words.specs.Words.{first_dashed};

use crate::fault::WordsFault;
use clap::error::ErrorKind;
use clap::{Arg, ArgAction, ArgMatches, Command};
use nys_bytes::Text;
use std::alloc::{AllocError, Global};

/// The word that names the command.
fn command_word<'a>(alloc: Global) -> Arg<'a>
    ensures rule { rule_of result ≡ command_rule }
    ensures local { result.global ≡ false }
{
    Arg::new(alloc, "command")
        .required(true)
        .action(ArgAction::Set)
}

/// The words after it.
fn value_words<'a>(alloc: Global) -> Arg<'a>
    ensures rule { rule_of result ≡ values_rule }
    ensures local { result.global ≡ false }
{
    Arg::new(alloc, "values")
        .action(ArgAction::Append)
        .num_args(0..)
}

/// One required command, then any number of values.
fn command_line<'a>(alloc: Global) -> Result<Command<'a>, AllocError>
    ensures { IfOk result (λ command. app_of command ≡ line) }
{
    let command = Command::new(alloc, "nysiad")
        .no_binary_name(true)
        .disable_help_flag(true);
    command.arg(command_word(alloc))?.arg(value_words(alloc))
}

/// The matches of words of which none begins with a dash.
pub(crate) fn matched<'a>(alloc: Global, words: &'a [Text]) -> Result<ArgMatches<'a>, WordsFault>
    requires { first_dashed words.now ≡ None }
    ensures command { IfOk result (λ matches. first_value (found_of matches) (codes "command")
        ≡ slice_get words.entry.now 0) }
    ensures values { IfOk result (λ matches.
        option_map raw_values (matched_of (found_of matches) (codes "values"))
        ≡ values_after words.entry.now) }
    ensures missing { IfErr result (λ fault. (fault ≡ WordsFault.NoMemory)
        ⊎ ((fault ≡ WordsFault.At 0) × (words.entry.now ≡ []))) }
{
    let _count = words.len();
    let command = command_line(alloc)?;
    match command.try_get_matches_from(words) {
        Ok(matches) => Ok(matches),
        Err(error) => Err(refusal(&error)),
    }
}

/// Want of memory, or else the one word that is required is missing.
fn refusal(error: &clap::Error) -> WordsFault
    ensures memory { kind_of error.now ≡ ErrorKind.OutOfMemory → result ≡ WordsFault.NoMemory }
    ensures missing { (result ≡ WordsFault.NoMemory) ⊎ (result ≡ WordsFault.At 0) }
{
    if error.kind() == ErrorKind::OutOfMemory {
        WordsFault::NoMemory
    } else {
        WordsFault::At(0)
    }
}
