// The command of `clap`, which says what each word belongs to and takes each value as a text.
ghost use Rattle.std.specs.Prelude.{◌≡◌, false, IfOk, IfErr, None, Some, List, map};
ghost use Rattle.std.specs.String.{string_bytes};
ghost use Rattle.clap.specs.Words.{app_of, found_of, rows_of, rule_of};
ghost use Rattle.tib_command.specs.declared.job.CommandError.TheVariants.{Usage};
ghost use Rattle.tib_command.specs.Words.{Item, Part, values_of};
ghost use Rattle.tib_command.specs.Command.{all_values, app, id_of, letter_rule, long_rule, place_rule, takes};
ghost use Rattle.tib_command.specs.Jobs.{job_of};

use crate::CommandError;
use clap::error::ErrorKind;
use clap::{Arg, ArgAction, ArgMatches, Command};
use std::alloc::{AllocError, Global};

// An option of one letter, which keeps each value that it is given.
fn letter<'a>(alloc: Global, id: &'a str, letter: char) -> Arg<'a>
    ensures rule { rule_of result ≡ letter_rule id.now letter }
    ensures local { result.global ≡ false }
{
    Arg::new(alloc, id).short(letter).action(ArgAction::Append)
}

// An option of a whole word, which keeps each value that it is given.
fn long<'a>(alloc: Global, name: &'a str) -> Arg<'a>
    ensures rule { rule_of result ≡ long_rule name.now }
    ensures local { result.global ≡ false }
{
    Arg::new(alloc, name).long(name).action(ArgAction::Append)
}

// The positional words: the operation and its files.
fn places<'a>(alloc: Global) -> Arg<'a>
    ensures rule { rule_of result ≡ place_rule }
    ensures local { result.global ≡ false }
{
    Arg::new(alloc, "places").action(ArgAction::Append)
}

// The command, whose arguments are taken as texts.
fn command<'a>(alloc: Global) -> Result<Command<'a>, AllocError>
    ensures { IfOk result (λ c. app_of c ≡ app) }
{
    Command::new(alloc, "tiburon")
        .no_binary_name(true)
        .disable_help_flag(true)
        .disable_version_flag(true)
        .arg(letter(alloc, "m", 'm'))?
        .arg(letter(alloc, "k", 'k'))?
        .arg(letter(alloc, "w", 'w'))?
        .arg(long(alloc, "limit"))?
        .arg(long(alloc, "beam"))?
        .arg(places(alloc))
}

/// The values that the words give.
pub(crate) fn matches_of<'a>(
    alloc: Global,
    words: &'a [String],
) -> Result<ArgMatches<'a>, CommandError>
    ensures ok { IfOk result (λ m. (items : List Item) × (takes
        (map (λ s. string_bytes s) words.now) None ≡ Some items)
        × ((p : Part) → all_values (id_of p) (rows_of (found_of m)) ≡ values_of p items)) }
    ensures err { IfErr result (λ e. e ≡ Usage →
        job_of (map (λ s. string_bytes s) words.now) ≡ None) }
{
    let command = command(alloc)?;
    match command.try_get_matches_from(words) {
        Ok(matches) => Ok(matches),
        Err(error) => match error.kind() {
            ErrorKind::OutOfMemory => Err(CommandError::OutOfMemory),
            _ => Err(CommandError::Usage),
        },
    }
}
