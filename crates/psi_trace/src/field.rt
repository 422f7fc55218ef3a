//! Parses the fields of an event line. Each function takes the next word of the line and parses it
//! as one kind of value, such as a pid or a path. `index` is the number of the field, from 1. The
//! functions fail with `BadField(index)` if the word is missing or malformed.
//!
//! The functions don't depend on the verb of the line: `read` calls the functions that fit each
//! verb.
ghost use Rattle.std.specs.Prelude.{◌≡◌, ◌^◌, ◌≢◌, [], ◌∷◌, nat_lt, true, false, MatchResult};
ghost use Rattle.psi_base.specs.declared.event.Cause.TheVariants as cause;
ghost use Rattle.psi_spec.specs.Fields as kind;
ghost use Rattle.psi_spec.specs.Fields.{number_in, value_of};
ghost use Rattle.psi_spec.specs.Grammar.{field};
ghost use Rattle.psi_trace.specs.Taking.{TakesAny, TakesWords};

use psi_base::{Cause, Cpu, Fault, How, Level, Parts, Path, Pid, Preference, Res, read_number};
use std::alloc::Global;

/// The words of a line that aren't parsed yet, separated by spaces.
pub type Words<'a> = Parts<'a, b' '>;

/// The greatest size (bytes) or quantity (pages) in a `mem` or `host` line.
const LARGEST_AMOUNT: u64 = 1 << 60;

// Removes and returns the next word. Fails with `BadField(index)` if no word is left.
fn next_word<'a>(words: &mut Words<'a>, index: u8) -> Result<&'a [u8], Cause>
    ensures { MatchResult result (λ text. words.old ≡ text.now ∷ words.new)
        (λ e. (e ≡ cause.BadField index) × (words.old ≡ [])) }
{
    words.next_part().ok_or(Cause::BadField(index))
}

// Parses a number below 2^32. Returns `None` if `word` isn't such a number.
fn small_number(word: &[u8]) -> Option<u32>
    ensures { result ≡ number_in (λ n. nat_lt n (2 ^ 32)) word.now }
{
    match read_number(word) {
        Some(n) if n <= u32::MAX as u64 => Some(n as u32),
        _ => None,
    }
}

#[tactic(auto, unfolding(psi_spec::specs::Fields::value_of))]
fn pid_in(word: &[u8]) -> Option<Pid>
    ensures { result ≡ value_of kind.pid word.now }
{
    match small_number(word) {
        Some(n) if n > 0 => Some(Pid(n)),
        _ => None,
    }
}

#[tactic(auto, unfolding(psi_spec::specs::Fields::value_of))]
fn next_in(word: &[u8]) -> Option<Option<Pid>>
    ensures { result ≡ value_of kind.next word.now }
{
    match small_number(word) {
        Some(0) => Some(None),
        Some(n) => Some(Some(Pid(n))),
        None => None,
    }
}

#[tactic(auto, unfolding(psi_spec::specs::Fields::value_of))]
fn cpu_in(word: &[u8]) -> Option<Cpu>
    ensures { result ≡ value_of kind.cpu word.now }
{
    match small_number(word) {
        Some(n) => Some(Cpu(n)),
        None => None,
    }
}

#[tactic(auto, unfolding(psi_spec::specs::Fields::value_of))]
fn amount_in(word: &[u8]) -> Option<u64>
    ensures { result ≡ value_of kind.amount word.now }
{
    match read_number(word) {
        Some(n) if n <= LARGEST_AMOUNT => Some(n),
        _ => None,
    }
}

#[tactic(auto, unfolding(psi_spec::specs::Fields::value_of))]
fn account_in(word: &[u8]) -> Option<bool>
    ensures { result ≡ value_of kind.account word.now }
{
    if word == b"on".as_slice() {
        Some(true)
    } else if word == b"off".as_slice() {
        Some(false)
    } else {
        None
    }
}

/// Parses field number `index` as a pid.
pub fn pid_field(words: &mut Words, index: u8) -> Result<Pid, Cause>
    ensures { TakesWords result words.new (field index kind.pid words.old) }
{
    pid_in(next_word(words, index)?).ok_or(Cause::BadField(index))
}

/// Parses field number `index` as the next task of a switch: a pid, or 0 for no task (`None`).
pub fn next_field(words: &mut Words, index: u8) -> Result<Option<Pid>, Cause>
    ensures { TakesWords result words.new (field index kind.next words.old) }
{
    next_in(next_word(words, index)?).ok_or(Cause::BadField(index))
}

/// Parses field number `index` as the number of a processor.
pub fn cpu_field(words: &mut Words, index: u8) -> Result<Cpu, Cause>
    ensures { TakesWords result words.new (field index kind.cpu words.old) }
{
    cpu_in(next_word(words, index)?).ok_or(Cause::BadField(index))
}

/// Parses field number `index` as a size (bytes) or quantity (pages), which is at most 2^60.
pub fn amount_field(words: &mut Words, index: u8) -> Result<u64, Cause>
    ensures { TakesWords result words.new (field index kind.amount words.old) }
{
    amount_in(next_word(words, index)?).ok_or(Cause::BadField(index))
}

/// Parses field number `index` as a number below 2^64.
#[tactic(auto, unfolding(psi_spec::specs::Fields::value_of))]
pub fn number_field(words: &mut Words, index: u8) -> Result<u64, Cause>
    ensures { TakesWords result words.new (field index kind.number words.old) }
{
    read_number(next_word(words, index)?).ok_or(Cause::BadField(index))
}

/// Parses field number `index` as the way in which a task leaves its processor.
#[tactic(auto, unfolding(psi_spec::specs::Fields::value_of))]
pub fn how_field(words: &mut Words, index: u8) -> Result<How, Cause>
    ensures { TakesWords result words.new (field index kind.how words.old) }
{
    How::of(next_word(words, index)?).ok_or(Cause::BadField(index))
}

/// Parses field number `index` as the kill preference of a group.
#[tactic(auto, unfolding(psi_spec::specs::Fields::value_of))]
pub fn preference_field(words: &mut Words, index: u8) -> Result<Preference, Cause>
    ensures { TakesWords result words.new (field index kind.preference words.old) }
{
    Preference::of(next_word(words, index)?).ok_or(Cause::BadField(index))
}

/// Parses field number `index` as the name of a resource.
#[tactic(auto, unfolding(psi_spec::specs::Fields::value_of))]
pub fn resource_field(words: &mut Words, index: u8) -> Result<Res, Cause>
    ensures { TakesWords result words.new (field index kind.resource words.old) }
{
    Res::of(next_word(words, index)?).ok_or(Cause::BadField(index))
}

/// Parses field number `index` as `some` or `full`.
#[tactic(auto, unfolding(psi_spec::specs::Fields::value_of))]
pub fn level_field(words: &mut Words, index: u8) -> Result<Level, Cause>
    ensures { TakesWords result words.new (field index kind.level words.old) }
{
    Level::of(next_word(words, index)?).ok_or(Cause::BadField(index))
}

/// Parses field number `index` as `on` or `off`.
pub fn account_field(words: &mut Words, index: u8) -> Result<bool, Cause>
    ensures { TakesWords result words.new (field index kind.account words.old) }
{
    account_in(next_word(words, index)?).ok_or(Cause::BadField(index))
}

/// Parses field number `index` as the path of a group. Allocates memory for the path.
#[tactic(auto, unfolding(psi_spec::specs::Fields::value_of))]
pub fn path_field(alloc: Global, words: &mut Words, index: u8) -> Result<Path, Fault<Cause>>
    ensures { TakesAny result words.new (field index kind.path words.old) }
{
    let word = next_word(words, index)?;
    match Path::read(alloc, word)? {
        Some(path) => Ok(path),
        None => Err(Fault::Refused(Cause::BadField(index))),
    }
}

/// Checks that no word is left. Fails with `BadField(index)` if there is one more word.
pub fn end_of(words: &mut Words, index: u8) -> Result<(), Cause>
    ensures { MatchResult result (λ _. words.old ≡ [])
        (λ e. (e ≡ cause.BadField index) × (words.old ≢ [])) }
{
    match words.next_part() {
        Some(_) => Err(Cause::BadField(index)),
        None => Ok(()),
    }
}
