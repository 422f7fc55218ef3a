//! Parses the values of options: numbers in a range, file names, and paths.
//!
//! The range and the default of each option are in `tables`.
ghost use Rattle.std.specs.Prelude.{◌≤◌, IfOk, IfSome, IsUtf8, option_copied};
ghost use Rattle.psi_words.specs.Reads.{Finds, ReadsWord};
ghost use Rattle.run_spec.specs.Words as spec;

use crate::words::BadWords;
use psi_base::{Fault, Path, Text, read_number};
use std::alloc::Global;

/// Parses a number, and checks that it is between `least` and `most`, both included.
pub(crate) fn number_within(least: u64, most: u64, text: &str) -> Result<u64, BadWords>
    ensures exact { Finds result (spec.number_within least most text.now) }
    ensures most { IfOk result (λ number. number ≤ most) }
{
    match read_number(text.as_bytes()) {
        Some(number) if least <= number && number <= most => Ok(number),
        _ => Err(BadWords),
    }
}

/// Parses the value of a required option, as a number between `least` and `most`, both included.
/// Fails if the option is missing.
pub(crate) fn needed(least: u64, most: u64, parsed: Option<&str>) -> Result<u64, BadWords>
    ensures exact { Finds result (spec.needed least most (option_copied parsed.entry)) }
    ensures most { IfOk result (λ number. number ≤ most) }
{
    match parsed {
        None => Err(BadWords),
        Some(text) => number_within(least, most, text),
    }
}

/// Parses the value of an option that may be missing, as a number between `least` and `most`, both
/// included. Returns `default` if the option is missing.
pub(crate) fn number_or(
    default: u32,
    least: u32,
    most: u32,
    parsed: Option<&str>,
) -> Result<u32, BadWords>
    ensures { Finds result (spec.number_or default least most (option_copied parsed.entry)) }
{
    match parsed {
        None => Ok(default),
        Some(text) => {
            let number = number_within(u64::from(least), u64::from(most), text)?;
            Ok(number as u32)
        }
    }
}

/// Returns the name of a rules file or a drop-in file, or `None` if the option is missing. Fails
/// for an empty name, and for `-`, because these files can't be standard input.
pub(crate) fn rules(alloc: Global, parsed: Option<&str>) -> Result<Option<Text>, Fault<BadWords>>
    ensures exact { ReadsWord result (spec.rules_option (option_copied parsed.entry)) }
    ensures text { IfOk result (λ name. IfSome name IsUtf8) }
{
    match parsed {
        None => Ok(None),
        Some(name) => {
            if name.is_empty() || name == "-" {
                return Err(Fault::Refused(BadWords));
            }
            Ok(Some(Text::make(alloc, name.as_bytes())?))
        }
    }
}

/// Returns the name of the drop-in file, or `None` if the option is missing. Fails if there is a
/// drop-in file but no rules file.
pub(crate) fn drop_in(
    alloc: Global,
    rules_named: &Option<Text>,
    parsed: Option<&str>,
) -> Result<Option<Text>, Fault<BadWords>>
    ensures exact { ReadsWord result
        (spec.drop_in_option rules_named.now (option_copied parsed.entry)) }
    ensures text { IfOk result (λ name. IfSome name IsUtf8) }
{
    if parsed.is_some() && rules_named.is_none() {
        return Err(Fault::Refused(BadWords));
    }
    rules(alloc, parsed)
}

/// Parses the path of a group. Returns `None` if the option is missing.
pub(crate) fn live(alloc: Global, parsed: Option<&str>) -> Result<Option<Path>, Fault<BadWords>>
    ensures { ReadsWord result (spec.live_option (option_copied parsed.entry)) }
{
    match parsed {
        None => Ok(None),
        Some(text) => match Path::read(alloc, text.as_bytes())? {
            Some(path) => Ok(Some(path)),
            None => Err(Fault::Refused(BadWords)),
        },
    }
}
