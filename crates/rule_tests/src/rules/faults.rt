//! Tests of faulty rules files: each place in a file with each cause, and which of two errors is
//! reported.
use crate::rules::shown::assert_rows_read;

const WHOLE: &str = "{!BadJson
{}!MissingKey
{'Rulesets':[]}!MissingKey
{'rulesets':{}}!WrongKind
{'rulesets':null}!WrongKind
{'rulesets':'[]'}!WrongKind
[]!WrongKind
'rulesets'!WrongKind
5!WrongKind
null!WrongKind";

#[test]
fn whole_file(rt: HostRuntime) {
    assert_rows_read(&rt, rt.alloc(), "@", "@", "rules: @", WHOLE);
}

const OF_RULE: &str = "{'rulesets':[{'name':'q','detectors':[],'actions':[]},@]}";

const RULES: &str = "{}!MissingKey
{'detectors':[],'actions':[]}!MissingKey
{'name':'r','actions':[]}!MissingKey
{'name':'r','detectors':[]}!MissingKey
[]!WrongKind
null!WrongKind
{'name':5,'detectors':[],'actions':[]}!WrongKind
{'name':'r','detectors':{},'actions':[]}!WrongKind
{'name':'r','detectors':[],'actions':null}!WrongKind
{'name':'r','post_action_delay':null,'detectors':[],'actions':[]}!WrongKind
{'name':'r','post_action_delay':'x','detectors':[],'actions':[]}!BadArg
{'name':'r','detectors':[0,0,0,0,0,0,0,0,0,0,0,0,0,0,0,0,0],'actions':[]}!TooMany
{'name':'r','detectors':[],'actions':[0,0,0,0,0,0,0,0,0,0,0,0,0,0,0,0,0]}!TooMany";

#[test]
fn rulesets(rt: HostRuntime) {
    assert_rows_read(&rt, rt.alloc(), OF_RULE, "@", "rules ruleset 1: @", RULES);
}

const OF_GROUP: &str = "{'rulesets':[{'name':'r','detectors':[['f'],['f'],@],'actions':[]}]}";

const GROUPS: &str = "[]!MissingKey
{}!WrongKind
'g'!WrongKind
null!WrongKind
[5]!WrongKind
[{'name':'exists','args':{'cgroup':'g0'}}]!WrongKind
['g',0,0,0,0,0,0,0,0,0,0,0,0,0,0,0,0,0]!TooMany";

#[test]
fn groups(rt: HostRuntime) {
    assert_rows_read(
        &rt,
        rt.alloc(),
        OF_GROUP,
        "@",
        "rules ruleset 0 group 2: @",
        GROUPS,
    );
}

const OF_DETECTOR: &str =
    "{'rulesets':[{'name':'r','detectors':[['g',{'name':'swap_free','args':{'threshold_pct':1}},@]],'actions':[]}]}";

const OF_ACTION: &str =
    "{'rulesets':[{'name':'r','detectors':[],'actions':[{'name':'kill_by_pg_scan','args':{'cgroup':'g0'}},@]}]}";

const PLUGINS: &str = "{}!MissingKey
{'args':{'cgroup':'g0'}}!MissingKey
[]!WrongKind
'exists'!WrongKind
null!WrongKind
{'name':null}!WrongKind
{'name':['exists']}!WrongKind
{'name':''}!UnknownPlugin
{'name':'nope'}!UnknownPlugin
{'name':'Exists'}!UnknownPlugin
{'name':'kill'}!UnknownPlugin";

const AS_DETECTORS: &str = "{'name':'kill_by_pg_scan','args':{'cgroup':'g0'}}!UnknownPlugin
{'name':'exists'}!MissingKey
{'name':'exists','args':{}}!MissingKey
{'name':'exists','args':{'Cgroup':'g0'}}!MissingKey
{'name':'exists','args':[]}!WrongKind
{'name':'exists','args':null}!WrongKind
{'name':'exists','args':'cgroup'}!WrongKind
{'name':'exists','args':{'cgroup':null}}!WrongKind
{'name':'exists','args':{'cgroup':['g0']}}!WrongKind
{'name':'exists','args':{'cgroup':'s/?'}}!BadArg
{'name':'exists','args':{'cgroup':'x,x,x,x,x,x,x,x,x,x,x,x,x,x,x,x,x'}}!TooMany";

const AS_ACTIONS: &str = "{'name':'exists','args':{'cgroup':'g0'}}!UnknownPlugin
{'name':'kill_by_pg_scan'}!MissingKey
{'name':'kill_by_pg_scan','args':{}}!MissingKey
{'name':'kill_by_pg_scan','args':[]}!WrongKind
{'name':'kill_by_pg_scan','args':null}!WrongKind
{'name':'kill_by_pg_scan','args':{'cgroup':null}}!WrongKind
{'name':'kill_by_pg_scan','args':{'cgroup':'s/?'}}!BadArg
{'name':'kill_by_pg_scan','args':{'cgroup':'x,x,x,x,x,x,x,x,x,x,x,x,x,x,x,x,x'}}!TooMany";

// The message for an error in the second detector of the only group.
const AT_DETECTOR: &str = "rules ruleset 0 group 0 item 1: @";

// The message for an error in the second action.
const AT_ACTION: &str = "rules ruleset 0 action 1: @";

#[test]
fn plugins(rt: HostRuntime) {
    for rows in &[PLUGINS, AS_DETECTORS] {
        assert_rows_read(&rt, rt.alloc(), OF_DETECTOR, "@", AT_DETECTOR, rows);
    }
    for rows in &[PLUGINS, AS_ACTIONS] {
        assert_rows_read(&rt, rt.alloc(), OF_ACTION, "@", AT_ACTION, rows);
    }
}

// Detectors with missing or faulty arguments, one detector per row. The arguments are checked in
// the order of the plugin's definition, and the first fault in this order is reported.
const DETECTOR_ARGUMENTS: &str =
    "{'name':'pressure_above','args':{'resource':'io','threshold':1,'duration':1}}!MissingKey
{'name':'pressure_above','args':{'cgroup':'g0','threshold':1,'duration':1}}!MissingKey
{'name':'pressure_above','args':{'cgroup':'g0','resource':'io','duration':1}}!MissingKey
{'name':'pressure_above','args':{'cgroup':'g0','resource':'io','threshold':1}}!MissingKey
{'name':'pressure_rising_beyond','args':{'resource':'io','threshold':1,'duration':1}}!MissingKey
{'name':'pressure_rising_beyond','args':{'cgroup':'g0','threshold':1,'duration':1}}!MissingKey
{'name':'pressure_rising_beyond','args':{'cgroup':'g0','resource':'io','duration':1}}!MissingKey
{'name':'pressure_rising_beyond','args':{'cgroup':'g0','resource':'io','threshold':1}}!MissingKey
{'name':'memory_above','args':{'threshold':1,'duration':1}}!MissingKey
{'name':'memory_above','args':{'cgroup':'g0','duration':1}}!MissingKey
{'name':'memory_above','args':{'cgroup':'g0','threshold':1}}!MissingKey
{'name':'memory_reclaim','args':{'duration':1}}!MissingKey
{'name':'memory_reclaim','args':{'cgroup':'g0'}}!MissingKey
{'name':'swap_free','args':{'cgroup':'g0','threshold':1}}!MissingKey
{'name':'exists','args':{'negate':true}}!MissingKey
{'name':'pressure_above','args':{'resource':5,'threshold':null}}!MissingKey
{'name':'pressure_above','args':{'resource':null,'cgroup':'?'}}!BadArg
{'name':'pressure_above','args':{'threshold':null,'resource':'x','cgroup':'g'}}!BadArg
{'name':'pressure_above','args':{'duration':null,'threshold':'x','resource':'io','cgroup':'g'}}!BadArg
{'name':'pressure_above','args':{'cgroup':'g','resource':'io','threshold':null,'duration':'x'}}!WrongKind
{'name':'pressure_rising_beyond','args':{'fast_fall_ratio':null,'cgroup':'g','resource':'io','threshold':1}}!MissingKey
{'name':'memory_above','args':{'cgroup':'g','threshold':null,'duration':'x'}}!WrongKind
{'name':'exists','args':{'negate':null}}!MissingKey";

const ACTION_ARGUMENTS: &str = "{'name':'kill_by_memory_size_or_growth'}!MissingKey
{'name':'kill_by_swap_usage','args':{'threshold':1}}!MissingKey
{'name':'kill_by_pressure','args':{'resource':'io'}}!MissingKey
{'name':'kill_by_pressure','args':{'cgroup':'g0'}}!MissingKey
{'name':'kill_by_pressure','args':{'recursive':null,'cgroup':'g'}}!MissingKey
{'name':'kill_by_memory_size_or_growth','args':{'cgroup':'g','size_threshold':null,'growing_size_percentile':'x'}}!WrongKind
{'name':'kill_by_memory_size_or_growth','args':{'cgroup':'g','growing_size_percentile':'x','min_growth_ratio':null}}!BadArg
{'name':'kill_by_memory_size_or_growth','args':{'cgroup':'g','min_growth_ratio':'x','recursive':null}}!BadArg
{'name':'kill_by_swap_usage','args':{'cgroup':'g','threshold':'x','recursive':null}}!BadArg
{'name':'kill_by_pg_scan','args':{'cgroup':'g','recursive':'x','always_continue':null}}!BadArg
{'name':'kill_by_pg_scan','args':{'cgroup':'g','recursive':null,'always_continue':'x'}}!WrongKind
{'name':'kill_by_pg_scan','args':{'cgroup':'g','always_continue':null,'post_action_delay':'x'}}!WrongKind
{'name':'kill_by_pg_scan','args':{'cgroup':'g','post_action_delay':'x'}}!BadArg";

#[test]
fn arguments_in_order(rt: HostRuntime) {
    assert_rows_read(
        &rt,
        rt.alloc(),
        OF_DETECTOR,
        "@",
        AT_DETECTOR,
        DETECTOR_ARGUMENTS,
    );
    assert_rows_read(&rt, rt.alloc(), OF_ACTION, "@", AT_ACTION, ACTION_ARGUMENTS);
}

// A ruleset with two errors, followed by another faulty ruleset. Each part is checked with its
// children before the next part. A ruleset is checked in the order name, delay, detectors, actions.
// A list is checked before its items, a group's name before its detectors, and a plugin's name
// before its arguments.
const OF_TWO: &str = "{'rulesets':[{@},5]}";

const TWO: &str = "'post_action_delay':'x'!: MissingKey
'name':'r','post_action_delay':'x'!: BadArg
'name':'r','actions':[0]!: MissingKey
'name':'r','detectors':[['g',{'name':'nope'}]]! group 0 item 0: UnknownPlugin
'name':'r','detectors':[[]],'actions':5! group 0: MissingKey
'name':'r','detectors':[['g',5],5],'actions':[]! group 0 item 0: WrongKind
'name':'r','detectors':[['g',{'name':'exists'},5]],'actions':[]! group 0 item 0: MissingKey
'name':'r','detectors':[],'actions':[{'name':'kill_by_pg_scan'},5]! action 0: MissingKey
'name':'r','detectors':[],'actions':[5,0,0,0,0,0,0,0,0,0,0,0,0,0,0,0,0]!: TooMany
'name':'r','detectors':[5,0,0,0,0,0,0,0,0,0,0,0,0,0,0,0,0],'actions':[]!: TooMany
'name':'r','detectors':[[5,0,0,0,0,0,0,0,0,0,0,0,0,0,0,0,0,0]],'actions':[]! group 0: TooMany
'name':'r','detectors':[[5,5]],'actions':[]! group 0: WrongKind
'name':'r','detectors':[['g',{'name':'nope','args':5}]],'actions':[]! group 0 item 0: UnknownPlugin
'name':'r','detectors':[['g',{'args':5}]],'actions':[]! group 0 item 0: MissingKey";

#[test]
fn first_of_two(rt: HostRuntime) {
    assert_rows_read(&rt, rt.alloc(), OF_TWO, "@", "rules ruleset 0@", TWO);
}
