//! The parser's arguments, each made from its entry in the table of options.
ghost use Rattle.vault_request.specs.Built.{IsArg};
ghost use Rattle.vault_request.specs.CommandLine.{flag, name_rule, option};
ghost use Rattle.vault_request.specs.CommandLine.{positional, repeated};

use crate::option_table::{self, OptionEntry};
use clap::{Arg, ArgAction};
use std::alloc::Global;

/// An option with a value, given at most once.
pub(crate) fn option<'a>(alloc: Global, entry: OptionEntry) -> Arg<'a>
    ensures { IsArg result (option entry.name.now) }
{
    Arg::new(alloc, entry.name)
        .long(entry.name)
        .value_name(entry.value_name)
        .action(ArgAction::Set)
        .help(entry.help)
}

/// An option with a value that may be repeated.
pub(crate) fn repeated<'a>(alloc: Global, entry: OptionEntry) -> Arg<'a>
    ensures { IsArg result (repeated entry.name.now) }
{
    option(alloc, entry).action(ArgAction::Append)
}

/// An option without a value.
pub(crate) fn flag<'a>(alloc: Global, entry: OptionEntry) -> Arg<'a>
    ensures { IsArg result (flag entry.name.now) }
{
    Arg::new(alloc, entry.name)
        .long(entry.name)
        .action(ArgAction::SetTrue)
        .help(entry.help)
}

/// A positional argument.
pub(crate) fn positional<'a>(alloc: Global, entry: OptionEntry) -> Arg<'a>
    ensures { IsArg result (positional entry.name.now) }
{
    Arg::new(alloc, entry.name)
        .action(ArgAction::Set)
        .help(entry.help)
}

/// The option `--name`, which has a short form.
pub(crate) fn name<'a>(alloc: Global) -> Arg<'a>
    ensures { IsArg result name_rule }
{
    option(alloc, option_table::NAME).short('n')
}
