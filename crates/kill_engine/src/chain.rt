//! Runs the actions of a ruleset in order, as a *chain*: the first kill by an action without
//! `always_continue` ends the chain.
//!
//! The crate victim_rank chooses the victims.
ghost use Rattle.std.specs.Prelude.{◌≡◌, ◌≤◌, ◌+◌, ◌++◌, ◌∷◌, [], length, vec_capacity, vec_len};
ghost use Rattle.kill_spec.specs.Detectors.{of_seconds};
ghost use Rattle.kill_spec.specs.Victims as victims;
ghost use Rattle.detectors.specs.Tables.{match_table};
ghost use Rattle.kill_engine.specs.Rulesets.{HasChain, IsKillBy, IsRestOf, match_tables};
ghost use Rattle.ruleset_json.specs.Ranges.{FitsAction, FitsActions};

use detectors::Reading;
use kill_spec::Kill;
use psi_base::Ns;
use ruleset_json::Action;
use victim_rank::{MatchTable, Past, after_of, victim};

/// Returns the end (ns) of a delay of `delay_s` seconds that begins at time `at` (ns). The end may
/// exceed 64 bits.
fn end_of_rest(at: Ns, delay_s: u32) -> u128
    ensures { result ≡ at + of_seconds delay_s }
{
    u128::from(at) + u128::from(delay_s) * 1_000_000_000
}

/// Returns the kill of an action, or `None` if the action has no victim. `number` is the index of
/// the ruleset, and `act` is the index of the action in the ruleset.
fn kill_by(
    number: u32,
    act: u32,
    action: &Action,
    table: &MatchTable,
    reading: &Reading,
    past: &Past,
) -> Option<Kill>
    requires fits { FitsAction action.now }
    requires table { table.now
        ≡ match_table reading.now.lives (victims.action_patterns action.now) }
    requires slots { length past.now.sizes ≡ length reading.now.lives }
    ensures { IsKillBy number act action.now reading.now past.now result }
{
    let victim = victim(action, table, reading, past, reading.lives())?;
    Some(Kill {
        at: reading.at(),
        rule: number,
        action: act,
        victim,
    })
}

/// Appends a kill. Precondition: the list isn't full.
fn put(found: &mut Vec<Kill>, kill: Kill)
    requires { vec_len found.old + 1 ≤ vec_capacity found.old }
    ensures items { found.new.items ≡ found.old.items ++ kill ∷ [] }
    ensures len { vec_len found.new ≡ vec_len found.old + 1 }
    ensures room { vec_capacity found.old ≤ vec_capacity found.new }
{
    if found.push(kill).is_err() {
        unreachable!()
    }
}

/// Runs the actions of a ruleset in order, and appends their kills to `found`. The first kill by an
/// action without `always_continue` ends the chain. Returns the end (ns) of the delay that the last
/// kill starts, or `None` if no kill ends the chain. Doesn't allocate.
pub(crate) fn take_chain(
    actions: &[Action],
    tables: &[MatchTable],
    number: u32,
    reading: &Reading,
    past: &Past,
    found: &mut Vec<Kill>,
) -> Option<u128>
    requires fits { FitsActions actions.now }
    requires tables { tables.now ≡ match_tables reading.now.lives actions.now }
    requires slots { length past.now.sizes ≡ length reading.now.lives }
    requires room { vec_len found.old + 16 ≤ vec_capacity found.old }
    ensures kills { HasChain number 0 actions.now reading.now past.now
        found.old.items found.new.items }
    ensures rest { IsRestOf number actions.now reading.now past.now result }
    ensures few { vec_len found.new ≤ vec_len found.old + 16 }
    ensures room { vec_capacity found.old ≤ vec_capacity found.new }
{
    'actions: for (act, action) in actions.iter().enumerate() {
        let table = &tables[act];
        let Some(kill) = kill_by(number, act as u32, action, table, reading, past) else {
            continue;
        };
        put(found, kill);
        let after = after_of(action);
        if !after.always_continue {
            return Some(end_of_rest(kill.at, after.delay_s));
        }
    }
    None
}
