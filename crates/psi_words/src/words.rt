//! Parses a whole command line: the first word names the command, and selects the table of its
//! arguments.
//!
//! The tables are in `tables`.
ghost use Rattle.std.specs.Prelude.{IfOk, map, string_bytes, ◌∷◌};
ghost use Rattle.psi_words.specs.Reads.{HasTextNames, ReadsWord};
ghost use Rattle.run_spec.specs.Words.{command_of};
ghost use Rattle.run_spec.specs.LegalCommand.{IsCommand};

use crate::tables::{
    read_check, read_gen, read_import, read_replay, read_rules, read_stall, read_stress,
    read_whatif,
};
use psi_base::Fault;
use run_spec::Command;
use std::alloc::Global;

/// The error if the words aren't a valid command line.
#[derive(Clone, Copy, Debug, PartialEq, Eq)]
pub struct BadWords;

impl From<BadWords> for Fault<BadWords> {
    ghost use Rattle.std.specs.Prelude.{◌≡◌};
    ghost use Rattle.psi_base.specs.declared.event.Fault.TheVariants as fault;

    ghost from_gives = { λ why e. e ≡ fault.Refused why };

    fn from(why: BadWords) -> Self {
        Fault::Refused(why)
    }
}

// Parses a command: `first` is its name, and `words` are the words after the name.
#[tactic(auto, unfolding(run_spec::specs::Words::command_of))]
fn read_named(alloc: Global, first: &str, words: &[String]) -> Result<Command, Fault<BadWords>>
    ensures exact { ReadsWord result (command_of (first.now ∷ map string_bytes words.now)) }
    ensures ranges { IfOk result IsCommand }
    ensures texts { IfOk result HasTextNames }
{
    if first == "stall" {
        read_stall(alloc, words)
    } else if first == "check" {
        read_check(alloc, words)
    } else if first == "replay" {
        read_replay(alloc, words)
    } else if first == "gen" {
        read_gen(alloc, words)
    } else if first == "stress" {
        read_stress(alloc, words)
    } else if first == "import" {
        read_import(alloc, words)
    } else if first == "rules" {
        read_rules(alloc, words)
    } else if first == "whatif" {
        read_whatif(alloc, words)
    } else {
        Err(Fault::Refused(BadWords))
    }
}

/// Parses the words of a command line, without the program's name, into a command. Fails with
/// `BadWords` if they aren't a valid command line.
#[tactic(auto, unfolding(run_spec::specs::Words::command_of))]
pub fn read_words(alloc: Global, words: &[String]) -> Result<Command, Fault<BadWords>>
    ensures exact { ReadsWord result (command_of (map string_bytes words.now)) }
    ensures ranges { IfOk result IsCommand }
    ensures texts { IfOk result HasTextNames }
{
    let [first, words @ ..] = words else {
        return Err(Fault::Refused(BadWords));
    };
    read_named(alloc, first.as_str(), words)
}
