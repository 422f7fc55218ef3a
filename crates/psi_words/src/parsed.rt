//! Parses words with `clap`: options with one value each, and one positional argument.
//!
//! The meaning of each option is in `tables`.
ghost use Rattle.std.specs.Prelude.{◌≡◌, IfOk, map, false, [], string_bytes, option_copied};
ghost use Rattle.std.specs.Str.{bytes_eq};
ghost use Rattle.clap.specs.Words.{app_of, rule_of};
ghost use Rattle.psi_words.specs.Clap.{option_rule, positional_rule, plain_app, plain_shape};
ghost use Rattle.psi_words.specs.Clap.{positional_id};
ghost use Rattle.psi_words.specs.Reads.{names_in, ReadsWord};
ghost use Rattle.run_spec.specs.Words.{at_word, is_among, parsed_from, option_value};

use crate::words::BadWords;
use clap::error::ErrorKind;
use clap::{Arg, ArgMatches, Command};
use psi_base::Fault;
use std::alloc::{AllocError, Global};
use std::marker::Model;

/// The identifier of the positional argument in `clap`. No option has this name.
const POSITIONAL: &str = "TRACE";

// Returns the `clap` argument for an option `--name` with one value.
fn option<'a>(alloc: Global, name: &'a str) -> Arg<'a>
    ensures rule { rule_of result ≡ option_rule name.entry.now }
    ensures local { result.global ≡ false }
{
    Arg::new(alloc, name).long(name)
}

// Returns the `clap` argument for the positional argument.
fn positional<'a>(alloc: Global) -> Arg<'a>
    ensures rule { rule_of result ≡ positional_rule }
    ensures local { result.global ≡ false }
{
    Arg::new(alloc, POSITIONAL)
}

// Returns a `clap` command without arguments and without a help option.
fn empty<'a>(alloc: Global) -> Command<'a>
    ensures { app_of result ≡ record { top = plain_shape []; subs = [] } }
{
    Command::new(alloc, "words")
        .no_binary_name(true)
        .disable_help_flag(true)
}

// Returns a `clap` command with options of these names, and a positional argument.
fn command<'a>(alloc: Global, names: &[&'a str]) -> Result<Command<'a>, AllocError>
    ensures { IfOk result (λ command. app_of command ≡ plain_app (names_in names.now)) }
{
    let mut command = empty(alloc);
    'options: for name in names {
        command = command.arg(option(alloc, name))?;
    }
    command.arg(positional(alloc))
}

/// The parsed words: the options with their values, and the positional argument or `None`.
#[derive(Drop)]
pub(crate) struct Parsed<'a> {
    found: ArgMatches<'a>,
}

impl<'a> Model for Parsed<'a> {
    ghost use Rattle.clap.specs.Words.{found_of, rows_of};
    ghost use Rattle.psi_words.specs.Clap.{words_in, AreValued};
    ghost use Rattle.run_spec.specs.Words.{ParsedWords};

    ghost Value = { ParsedWords };

    ghost view = { λ p. words_in (rows_of (found_of p.found)) };

    ghost invariant = { λ p. AreValued (rows_of (found_of p.found)) };
}

impl<'a> Parsed<'a> {
    /// Parses words with `clap`. `names` are the names of the allowed options. Fails if the words
    /// have another option, an option without a value, or more than one positional argument.
    pub(crate) fn read(
        alloc: Global,
        names: &[&'a str],
        words: &'a [String],
    ) -> Result<Parsed<'a>, Fault<BadWords>>
        requires { is_among positional_id (names_in names.now) ≡ false }
        ensures { let texts = map string_bytes words.entry.now in
            ReadsWord result (parsed_from (names_in names.now) at_word texts) }
    {
        let command = command(alloc, names)?;
        match command.try_get_matches_from(words) {
            Ok(found) => Ok(Parsed { found }),
            Err(error) => {
                if error.kind() == ErrorKind::OutOfMemory {
                    Err(AllocError.into())
                } else {
                    Err(Fault::Refused(BadWords))
                }
            }
        }
    }

    /// Returns the value of the option `name`, or `None` if the words don't contain the option.
    pub(crate) fn value(&self, name: &str) -> Option<&'a str>
        requires { bytes_eq name.now positional_id ≡ false }
        ensures { option_copied result ≡ option_value name.now self.now }
    {
        self.found.get_str(name)
    }

    /// Returns the positional argument, or `None` if the words don't contain it.
    pub(crate) fn positional(&self) -> Option<&'a str>
        ensures { option_copied result ≡ self.now.positional }
    {
        self.found.get_str(POSITIONAL)
    }
}
