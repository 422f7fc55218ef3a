//! Tests of whole rules: each test passes several readings to the rules, and compares the kills
//! after each reading with the expected kills. The expected kills follow from the order of actions
//! and from the delays after kills.

use crate::readings::{NO_HOST, life, using};
use crate::rig::Rig;
use crate::rules::shown::{put, quoted};
use detectors::GroupReading;
use kill_engine::{Kill, Killer};
use psi_base::Ns;
use psi_spec::GroupLife;
use ruleset_json::{Rules, read};
use std::alloc::Global;
use std::process::Abort;
use test_support::{SECOND, assert_equal};

/// A reading, five seconds after the previous one, and the expected kills. The reading has the
/// memory (bytes) of the group `/a`, or `None` if the group isn't live. The kills are a text with
/// the time (s), ruleset, action and slot of each kill.
type Case = (Option<u64>, &'static str);

/// Makes the groups `/` and `/a`, in the order of slots. The tests don't need their parents.
fn groups(rt: &impl Abort, alloc: Global) -> [GroupLife; 2] {
    [life(rt, alloc, "/", None), life(rt, alloc, "/a", None)]
}

/// Parses a rules file, in which `'` replaces each double quote.
fn rules(rt: &impl Abort, alloc: Global, text: &str) -> Rules {
    let text = quoted(rt, alloc, text);
    read(alloc, text.as_bytes()).expect(rt, "rules")
}

/// Makes the group `/a` with `current` bytes of memory, or `None` if it isn't live.
fn group(current: &Option<u64>) -> Option<GroupReading> {
    match current {
        Some(current) => using(1, *current),
        None => None,
    }
}

/// Formats kills as a text: the time (s), ruleset, action and slot of each kill.
fn shown(rt: &impl Abort, alloc: Global, kills: &[Kill]) -> String {
    let mut text = String::new(alloc);
    for kill in kills {
        let (at, slot) = (kill.at / SECOND, kill.victim.0);
        let (rule, action) = (kill.rule, kill.action);
        put(rt, &mut text, format_args!("{at}: {rule} {action} {slot};"));
    }
    text
}

/// Checks the kills after each reading, in order.
fn assert_kills(rt: &impl Abort, alloc: Global, text: &str, rows: &[Case]) {
    let mut rig = Rig::make(rt, alloc, &groups(rt, alloc));
    let killer = Killer::make(alloc, rules(rt, alloc, text), rig.reading.lives());
    let mut killer = killer.expect(rt, "memory");
    let mut now: Ns = 0;
    'rows: for (current, wanted) in rows {
        now = now.saturating_add(5 * SECOND);
        rig.read(rt, now, NO_HOST, &[group(current)]);
        killer.evaluate(&rig.reading);
        let kills = shown(rt, alloc, killer.kills());
        assert_equal!(rt; kills.as_str(), *wanted, now);
    }
}

const CHAIN: &str =
    "{'rulesets':[{'name':'r','detectors':[['g',{'name':'exists','args':{'cgroup':'a'}}]],
'actions':[{'name':'kill_by_memory_size_or_growth','args':{'cgroup':'a','always_continue':true,'post_action_delay':60}},
{'name':'kill_by_memory_size_or_growth','args':{'cgroup':'a','post_action_delay':15}},
{'name':'kill_by_memory_size_or_growth','args':{'cgroup':'a','post_action_delay':60}}]}]}";

#[test]
fn chain_goes_on_and_ends(rt: HostRuntime) {
    assert_kills(
        &rt,
        rt.alloc(),
        CHAIN,
        &[
            (Some(100), "5: 0 0 1;5: 0 1 1;"),
            (Some(100), ""),
            (Some(100), ""),
            (Some(100), "20: 0 0 1;20: 0 1 1;"),
        ],
    );
}

const RESTS: &str = "{'rulesets':[{'name':'r','post_action_delay':15,
'detectors':[['g',{'name':'exists','args':{'cgroup':'a'}}]],
'actions':[{'name':'kill_by_memory_size_or_growth','args':{'cgroup':'a'}}]},
{'name':'s','post_action_delay':0,'detectors':[['g',{'name':'exists','args':{'cgroup':'a'}}]],
'actions':[{'name':'kill_by_memory_size_or_growth','args':{'cgroup':'a'}}]},
{'name':'t','post_action_delay':60,'detectors':[['g',{'name':'exists','args':{'cgroup':'a'}}]],
'actions':[{'name':'kill_by_memory_size_or_growth','args':{'cgroup':'a','always_continue':true}}]}]}";

#[test]
fn rulesets_rest_for_their_delays(rt: HostRuntime) {
    assert_kills(
        &rt,
        rt.alloc(),
        RESTS,
        &[
            (Some(100), "5: 0 0 1;5: 1 0 1;5: 2 0 1;"),
            (Some(100), "10: 1 0 1;10: 2 0 1;"),
            (Some(100), "15: 1 0 1;15: 2 0 1;"),
            (Some(100), "20: 0 0 1;20: 1 0 1;20: 2 0 1;"),
            (Some(100), "25: 1 0 1;25: 2 0 1;"),
            (Some(100), "30: 1 0 1;30: 2 0 1;"),
            (Some(100), "35: 0 0 1;35: 1 0 1;35: 2 0 1;"),
        ],
    );
}

const SECOND_KILLS: &str =
    "{'rulesets':[{'name':'r','detectors':[['g',{'name':'exists','args':{'cgroup':'a'}}]],
'actions':[{'name':'kill_by_swap_usage','args':{'cgroup':'a','post_action_delay':60}},
{'name':'kill_by_memory_size_or_growth','args':{'cgroup':'a','post_action_delay':10}}]}]}";

#[test]
fn delay_is_of_the_action_that_killed(rt: HostRuntime) {
    assert_kills(
        &rt,
        rt.alloc(),
        SECOND_KILLS,
        &[
            (Some(100), "5: 0 1 1;"),
            (Some(100), ""),
            (Some(100), "15: 0 1 1;"),
        ],
    );
}

const SEES_ALL: &str = "{'rulesets':[{'name':'r','post_action_delay':15,'detectors':[['g',
{'name':'memory_above','args':{'cgroup':'a','threshold':100,'duration':10}}]],
'actions':[{'name':'kill_by_memory_size_or_growth','args':{'cgroup':'a'}}]}]}";

#[test]
fn resting_ruleset_sees_readings(rt: HostRuntime) {
    assert_kills(
        &rt,
        rt.alloc(),
        SEES_ALL,
        &[
            (Some(200), ""),
            (Some(200), ""),
            (Some(200), "15: 0 0 1;"),
            (Some(50), ""),
            (Some(200), ""),
            (Some(200), ""),
            (Some(200), "35: 0 0 1;"),
        ],
    );
}

const AFTER_FALSE: &str = "{'rulesets':[{'name':'r','detectors':[['g',
{'name':'memory_above','args':{'cgroup':'a','threshold':150,'duration':0}},
{'name':'memory_above','args':{'cgroup':'a','threshold':100,'duration':10}}]],
'actions':[{'name':'kill_by_memory_size_or_growth','args':{'cgroup':'a'}}]}]}";

#[test]
fn detector_after_a_false_one_sees_readings(rt: HostRuntime) {
    assert_kills(
        &rt,
        rt.alloc(),
        AFTER_FALSE,
        &[(Some(120), ""), (Some(120), ""), (Some(200), "15: 0 0 1;")],
    );
}

const NO_DETECTORS: &str = "{'rulesets':[{'name':'r','detectors':[],
'actions':[{'name':'kill_by_memory_size_or_growth','args':{'cgroup':'a'}}]},
{'name':'s','post_action_delay':10,'detectors':[['g']],
'actions':[{'name':'kill_by_memory_size_or_growth','args':{'cgroup':'a'}}]}]}";

#[test]
fn empty_group_always_holds(rt: HostRuntime) {
    assert_kills(
        &rt,
        rt.alloc(),
        NO_DETECTORS,
        &[
            (None, ""),
            (Some(100), "10: 1 0 1;"),
            (None, ""),
            (Some(100), "20: 1 0 1;"),
        ],
    );
}
