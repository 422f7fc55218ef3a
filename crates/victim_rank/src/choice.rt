//! Chooses the victim of an action: the group whose tasks are killed.
//!
//! This module doesn't decide whether the action runs.
ghost use Rattle.std.specs.Prelude.{◌≡◌, length};
ghost use Rattle.detectors.specs.Tables.{match_table};
ghost use Rattle.kill_spec.specs.Victims.{action_patterns};
ghost use Rattle.ruleset_json.specs.Ranges.{FitsAction, IsPercent, IsRatio};
ghost use Rattle.victim_rank.specs.Choosing.{Chooses, Descends, IsVictim, size_choice};
ghost use Rattle.victim_rank.specs.Growth.{sizes_from};
ghost use Rattle.victim_rank.specs.Scopes.{IsSizes, IsUse, among};

use crate::foremost::foremost;
use crate::growth::grown_most;
use crate::measure::rank;
use crate::past::Past;
use crate::scope::{Scope, after_of};
use crate::size::{count_above, count_in_rank, is_large, total_size};
use crate::table::MatchTable;
use detectors::Reading;
use kill_spec::GroupReading;
use psi_base::Slot;
use psi_spec::GroupLife;
use ruleset_json::Action;

// Chooses by size or growth, among the groups of the best preference in the scope. Returns the
// largest group if its share of the memory of all groups in the scope is large enough. If it isn't,
// returns the group that has grown most. If no group is growing, returns the largest group.
fn by_size_or_growth(
    scope: &Scope<'_>,
    reading: &Reading,
    past: &Past,
    size_threshold: u32,
    percentile: u32,
    ratio: u32,
) -> Option<GroupReading>
    requires used { IsUse scope.now reading.now past.now }
    requires sizes { IsSizes scope.now.act }
    requires size_threshold { IsPercent size_threshold }
    requires percentile { IsPercent percentile }
    requires ratio { IsRatio ratio }
    ensures { result
        ≡ size_choice (sizes_from past.now) scope.now.lives size_threshold percentile ratio
        (among scope.now.lives scope.now.act scope.now.above reading.now.seen) }
{
    let Some(largest) = foremost(scope, reading, past) else {
        return None;
    };
    if is_large(size_threshold, total_size(scope, reading), &largest) {
        return Some(largest);
    }
    let best_rank = rank(&largest);
    let few = count_above(percentile, count_in_rank(scope, best_rank, reading));
    grown_most(scope, best_rank, reading, past, ratio, few).or(Some(largest))
}

fn choose(scope: &Scope<'_>, reading: &Reading, past: &Past) -> Option<GroupReading>
    requires { IsUse scope.now reading.now past.now }
    ensures { Chooses scope.now reading.now.seen past.now result }
{
    match scope.action() {
        Action::SizeOrGrowth {
            size_threshold,
            percentile,
            ratio,
            ..
        } => by_size_or_growth(scope, reading, past, *size_threshold, *percentile, *ratio),
        Action::SwapUsage { .. } => foremost(scope, reading, past),
        Action::Pressure { .. } => foremost(scope, reading, past),
        Action::PgScan { .. } => foremost(scope, reading, past),
    }
}

// Chooses again among the children of the chosen group, until no child can be chosen. Returns the
// group chosen last.
fn descend(scope: &Scope<'_>, reading: &Reading, past: &Past, chosen: GroupReading) -> GroupReading
    requires { IsUse scope.now reading.now past.now }
    ensures { Descends scope.now reading.now.seen past.now (length scope.now.lives) chosen result }
{
    let mut last = chosen;
    'levels: for _ in 0..scope.lives().len() {
        match choose(&scope.below(last.slot), reading, past) {
            Some(child) => last = child,
            None => return last,
        }
    }
    last
}

/// Returns the slot of the group that an action kills at a reading, or `None` if there is no
/// victim. `past` has what was stored of the earlier readings. The first choice is among the
/// populated groups that match according to `table`. A recursive action then chooses among the
/// children of the chosen group, level by level. Doesn't allocate.
///
/// Cost: a choice by swap, pressure or page scans visits each group of its scope once. A choice by
/// size or growth visits each group up to four times, plus the visits of `grown_most`. A recursive
/// action makes one choice per level, and each choice below the first visits only children.
pub fn victim(
    action: &Action,
    table: &MatchTable,
    reading: &Reading,
    past: &Past,
    lives: &[GroupLife],
) -> Option<Slot>
    requires fits { FitsAction action.now }
    requires table { table.now ≡ match_table lives.now (action_patterns action.now) }
    requires lives { reading.now.lives ≡ lives.now }
    requires slots { length past.now.sizes ≡ length lives.now }
    ensures { IsVictim lives.now action.now reading.now.seen past.now result }
{
    let scope = Scope::candidates(lives, action, table.slots());
    let Some(chosen) = choose(&scope, reading, past) else {
        return None;
    };
    if after_of(action).recursive {
        Some(descend(&scope, reading, past, chosen).slot)
    } else {
        Some(chosen.slot)
    }
}
