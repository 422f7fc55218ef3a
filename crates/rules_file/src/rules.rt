//! Reads the rules of a command from a shelf, the trait for access to files.
//!
//! If the command names a drop-in file, it is applied to the rules of the rules file.
ghost use Rattle.std.specs.Prelude.{◌≡◌, ◌+◌, ◌≤◌, None, Some, IfSome, IsUtf8, MatchResult, ⊤};
ghost use Rattle.psi_base.specs.Gives.{Gives};
ghost use Rattle.outside.specs.Outside.{counts_of};
ghost use Rattle.outside.specs.Reads.{ReadsFile, ReadsEach};
ghost use Rattle.dropin_rules.specs.Joined.{dropped_in};
ghost use Rattle.ruleset_json.specs.RuleRanges.{FitsRules};
ghost use Rattle.run_spec.specs.MostRead.{most_if_named, most_of_rules};
ghost use Rattle.run_spec.specs.ReadOrder.{names_of_rules};
ghost use Rattle.run_spec.specs.Stops.{read_of_rules};
ghost use Rattle.rules_file.specs.Files.{BaseFails, BaseOption, EndsRun, IsPrefixOf, OrdersRun, OverFails, OverOption, Stays, StopsRun, Unread, status_fault_in};
ghost use Rattle.run_outcomes.specs.Rules.{RulesOption};
ghost use Rattle.replay_rules.specs.Judged.{rules_of_options};

use crate::name::name_of;
use dropin_rules::{DropFault, join};
use file_reader::{FileFault, read_prefix};
use outside::Shelf;
use psi_base::{Fault, Text};
use ruleset_json::{RuleList, Rules, read, read_parts};
use run_spec::{Options, Status, Which};
use std::alloc::Global;

/// The greatest number of bytes that are read from a rules file or a drop-in file: one more than
/// the limit, so that a longer file is detected.
const MOST: usize = 1_048_577;

// Returns the rules unchanged. The contract adds that each ruleset is in range, which the type
// `RuleList` ensures.
fn in_ranges(rules: Rules) -> Rules
    ensures same { result ≡ rules }
    ensures fit { FitsRules result.rules }
{
    Rules {
        rules: RuleList::new(rules.rules.into_items()),
    }
}

// Returns the bytes of a rules file or a drop-in file. If the file is longer than the limit,
// returns a prefix that is longer than the limit.
fn read_bytes<S: Shelf>(
    alloc: Global,
    name: &str,
    which: Which,
    shelf: &mut S,
) -> Result<Vec<u8>, Status>
    ensures unchanged { S.holds shelf.new ≡ S.holds shelf.old }
    ensures answer { let before = counts_of (S.faults shelf.old) (S.absent shelf.old) in
        let now = counts_of (S.faults shelf.new) (S.absent shelf.new) in
        MatchResult result
        (λ bytes. IsPrefixOf bytes.items name.now (S.holds shelf.old) before now)
        (λ status. Unread which name.now (S.holds shelf.old) before now status) }
    ensures bytes_read { S.bytes_read shelf.new ≤ S.bytes_read shelf.old + most_of_rules }
    ensures within { S.bytes_read shelf.new
        ≤ S.bytes_read shelf.old + read_of_rules (S.holds shelf.old) (Some name.now) }
    ensures order { ReadsFile name.now 0 (S.reads shelf.old) (S.reads shelf.new)
        (status_fault_in result) }
{
    match read_prefix(alloc, shelf, name, MOST) {
        Ok(bytes) => Ok(bytes),
        Err(FileFault::NoFile) => Err(Status::NoFile { which }),
        Err(FileFault::ReadFault) => Err(Status::ReadFault),
        Err(FileFault::NoMemory(none)) => Err(Status::NoMemory(none)),
    }
}

fn read_base<S: Shelf>(alloc: Global, name: &str, shelf: &mut S) -> Result<Rules, Status>
    ensures unchanged { S.holds shelf.new ≡ S.holds shelf.old }
    ensures answer { let before = counts_of (S.faults shelf.old) (S.absent shelf.old) in
        let now = counts_of (S.faults shelf.new) (S.absent shelf.new) in
        MatchResult result
        (λ rules. BaseOption name.now (S.holds shelf.old) before now rules)
        (λ status. BaseFails name.now (S.holds shelf.old) before now status) }
    ensures bytes_read { S.bytes_read shelf.new ≤ S.bytes_read shelf.old + most_of_rules }
    ensures within { S.bytes_read shelf.new
        ≤ S.bytes_read shelf.old + read_of_rules (S.holds shelf.old) (Some name.now) }
    ensures order { ReadsFile name.now 0 (S.reads shelf.old) (S.reads shelf.new)
        (status_fault_in result) }
{
    let bytes = match read_bytes(alloc, name, Which::RulesFile, shelf) {
        Ok(bytes) => bytes,
        Err(status) => return Err(status),
    };
    match read(alloc, &bytes) {
        Ok(rules) => Ok(in_ranges(rules)),
        Err(Fault::Refused(fault)) => Err(Status::Rules { fault }),
        Err(Fault::NoMemory(none)) => Err(Status::NoMemory(none)),
    }
}

// Applies the drop-in file with these bytes to the rules `base`.
#[tactic(auto, unfolding(dropin_rules::specs::Joined::dropped_in))]
fn dropped(alloc: Global, base: Rules, bytes: &[u8]) -> Result<Rules, Fault<DropFault>>
    ensures { Gives result (dropped_in base bytes.now) }
{
    match read_parts(alloc, bytes) {
        Ok(parts) => join(base, parts),
        Err(Fault::Refused(fault)) => Err(Fault::Refused(DropFault::from(fault))),
        Err(Fault::NoMemory(none)) => Err(Fault::NoMemory(none)),
    }
}

// Reads the drop-in file `name`, and applies it to the rules `base`.
fn read_over<S: Shelf>(
    alloc: Global,
    base: Rules,
    name: &str,
    shelf: &mut S,
) -> Result<Rules, Status>
    ensures unchanged { S.holds shelf.new ≡ S.holds shelf.old }
    ensures answer { let before = counts_of (S.faults shelf.old) (S.absent shelf.old) in
        let now = counts_of (S.faults shelf.new) (S.absent shelf.new) in
        MatchResult result
        (λ rules. OverOption base name.now (S.holds shelf.old) before now rules)
        (λ status. OverFails base name.now (S.holds shelf.old) before now status) }
    ensures bytes_read { S.bytes_read shelf.new ≤ S.bytes_read shelf.old + most_of_rules }
    ensures within { S.bytes_read shelf.new
        ≤ S.bytes_read shelf.old + read_of_rules (S.holds shelf.old) (Some name.now) }
    ensures order { ReadsFile name.now 0 (S.reads shelf.old) (S.reads shelf.new)
        (status_fault_in result) }
{
    let bytes = match read_bytes(alloc, name, Which::DropInFile, shelf) {
        Ok(bytes) => bytes,
        Err(status) => return Err(status),
    };
    match dropped(alloc, base, &bytes) {
        Ok(rules) => Ok(in_ranges(rules)),
        Err(Fault::Refused(fault)) => Err(Status::DropIn { fault }),
        Err(Fault::NoMemory(none)) => Err(Status::NoMemory(none)),
    }
}

/// Reads the rules file `name`, and applies the drop-in file `drop_in` if it isn't `None`. Reads
/// the drop-in file only if the rules file is accepted. On failure, returns the status that reports
/// the cause.
pub fn read_joined<S: Shelf>(
    alloc: Global,
    name: &str,
    drop_in: &Option<Text>,
    shelf: &mut S,
) -> Result<Rules, Status>
    requires text { IfSome drop_in.now IsUtf8 }
    ensures unchanged { S.holds shelf.new ≡ S.holds shelf.old }
    ensures answer { let before = counts_of (S.faults shelf.old) (S.absent shelf.old) in
        let now = counts_of (S.faults shelf.new) (S.absent shelf.new) in
        MatchResult result
        (λ rules. RulesOption (Some name.now) drop_in.now (S.holds shelf.old) rules.rules
        × Stays before now)
        (λ status. EndsRun (Some name.now) drop_in.now (S.holds shelf.old) before now status) }
    ensures bytes_read { S.bytes_read shelf.new ≤ S.bytes_read shelf.old + (most_of_rules
        + most_if_named most_of_rules drop_in.now) }
    ensures within { S.bytes_read shelf.new ≤ S.bytes_read shelf.old
        + (read_of_rules (S.holds shelf.old) (Some name.now)
        + read_of_rules (S.holds shelf.old) drop_in.now) }
    ensures stops { MatchResult result (λ rules. ⊤)
        (λ status. StopsRun (Some name.now) drop_in.now (S.holds shelf.old)
        (S.bytes_read shelf.old) (S.bytes_read shelf.new) status) }
    ensures order { MatchResult result
        (λ rules. ReadsEach (names_of_rules (Some name.now) drop_in.now)
        (S.reads shelf.old) (S.reads shelf.new))
        (λ status. OrdersRun (Some name.now) drop_in.now (S.holds shelf.old)
        (S.reads shelf.old) (S.reads shelf.new) status) }
{
    let base = match read_base(alloc, name, shelf) {
        Ok(base) => base,
        Err(status) => return Err(status),
    };
    match drop_in {
        Some(drop_in) => read_over(alloc, base, name_of(drop_in), shelf),
        None => Ok(base),
    }
}

/// Reads the rules that the options of a replay name. Returns `None` if the options name no rules
/// file. On failure, returns the status that reports the cause.
pub fn read_rules<S: Shelf>(
    alloc: Global,
    options: &Options,
    shelf: &mut S,
) -> Result<Option<Rules>, Status>
    requires text { IfSome options.now.rules IsUtf8 }
    requires drop_in { IfSome options.now.drop_in IsUtf8 }
    requires over { options.now.rules ≡ None → options.now.drop_in ≡ None }
    ensures unchanged { S.holds shelf.new ≡ S.holds shelf.old }
    ensures answer { let before = counts_of (S.faults shelf.old) (S.absent shelf.old) in
        let now = counts_of (S.faults shelf.new) (S.absent shelf.new) in
        MatchResult result
        (λ rules. RulesOption options.now.rules options.now.drop_in (S.holds shelf.old)
        (rules_of_options rules) × Stays before now)
        (λ status. EndsRun options.now.rules options.now.drop_in (S.holds shelf.old)
        before now status) }
    ensures bytes_read { S.bytes_read shelf.new
        ≤ S.bytes_read shelf.old + (most_if_named most_of_rules options.now.rules
        + most_if_named most_of_rules options.now.drop_in) }
    ensures within { S.bytes_read shelf.new ≤ S.bytes_read shelf.old
        + (read_of_rules (S.holds shelf.old) options.now.rules
        + read_of_rules (S.holds shelf.old) options.now.drop_in) }
    ensures stops { MatchResult result (λ rules. ⊤)
        (λ status. StopsRun options.now.rules options.now.drop_in (S.holds shelf.old)
        (S.bytes_read shelf.old) (S.bytes_read shelf.new) status) }
    ensures order { MatchResult result
        (λ rules. ReadsEach (names_of_rules options.now.rules options.now.drop_in)
        (S.reads shelf.old) (S.reads shelf.new))
        (λ status. OrdersRun options.now.rules options.now.drop_in (S.holds shelf.old)
        (S.reads shelf.old) (S.reads shelf.new) status) }
{
    match &options.rules {
        Some(name) => match read_joined(alloc, name_of(name), &options.drop_in, shelf) {
            Ok(rules) => Ok(Some(rules)),
            Err(status) => Err(status),
        },
        None => Ok(None),
    }
}
