//! Tests of the arguments of plugins in rules files: each kind of value at its limits, and each
//! default.
use crate::rules::shown::assert_rows_read;

/// The message for an error in the only detector.
const AT_ITEM: &str = "rules ruleset 0 group 0 item 0: @";

/// The message for an error in the only action.
const AT_ACTION: &str = "rules ruleset 0 action 0: @";

const OF_NUMBER: &str =
    "{'rulesets':[{'name':'r','detectors':[['g',{'name':'swap_free','args':{'threshold_pct':@}}]],'actions':[]}]}";

const NUMBERS: &str = "'0'~0
'100'~100
0~0
15~15
100~100
'101'!BadArg
101!BadArg
'015'!BadArg
'00'!BadArg
''!BadArg
' 1'!BadArg
'1 '!BadArg
'+1'!BadArg
'-0'!BadArg
'1.0'!BadArg
'1%'!BadArg
'18446744073709551616'!BadArg
18446744073709551615!BadArg
true!BadArg
18446744073709551616!WrongKind
-0!WrongKind
-1!WrongKind
1.0!WrongKind
1e2!WrongKind
null!WrongKind
[]!WrongKind
{}!WrongKind";

#[test]
fn numbers(rt: HostRuntime) {
    assert_rows_read(
        &rt,
        rt.alloc(),
        OF_NUMBER,
        "r: [g; swap_free @]\n",
        AT_ITEM,
        NUMBERS,
    );
}

const OF_TIME: &str =
    "{'rulesets':[{'name':'r','detectors':[['g',{'name':'memory_reclaim','args':{'cgroup':'g0','duration':@}}]],'actions':[]}]}";

const TIMES: &str = "'0'~0
'1000000'~1000000
'1000001'!BadArg
1000001!BadArg";

#[test]
fn times(rt: HostRuntime) {
    assert_rows_read(
        &rt,
        rt.alloc(),
        OF_TIME,
        "r: [g; memory_reclaim /g0 @]\n",
        AT_ITEM,
        TIMES,
    );
}

const OF_RATIO: &str =
    "{'rulesets':[{'name':'r','detectors':[['g',{'name':'pressure_rising_beyond','args':{'cgroup':'g0','resource':'io','threshold':1,'duration':2,'fast_fall_ratio':@}}]],'actions':[]}]}";

const RATIOS: &str = "'0'~0
'0.001'~1
'0.85'~850
'1.5'~1500
'1.05'~1050
'1.000'~1000
'1000'~1000000
'1000.999'~1000999
3~3000
'1001'!BadArg
'1000.9999'!BadArg
'1.0000'!BadArg
'1.'!BadArg
'.5'!BadArg
'.'!BadArg
''!BadArg
'01.5'!BadArg
'1.5.5'!BadArg
'1,5'!BadArg
'1.+5'!BadArg
'1.5K'!BadArg
true!BadArg
1.5!WrongKind
null!WrongKind";

#[test]
fn ratios(rt: HostRuntime) {
    let rules = "r: [g; pressure_rising_beyond /g0 Io 1 2 @]\n";
    assert_rows_read(&rt, rt.alloc(), OF_RATIO, rules, AT_ITEM, RATIOS);
}

const OF_SIZE: &str =
    "{'rulesets':[{'name':'r','detectors':[['g',{'name':'memory_above','args':{'cgroup':'g0','threshold':@,'duration':1}}]],'actions':[]}]}";

const SIZES: &str = "'0'~Bytes(0)
'5'~Bytes(5)
7~Bytes(7)
'1.5K'~Bytes(1536)
'1.5k'~Bytes(1536)
'0.001K'~Bytes(1)
'0.999K'~Bytes(1022)
'1.999K'~Bytes(2046)
'3M'~Bytes(3145728)
'2m'~Bytes(2097152)
'0.001M'~Bytes(1048)
'1G'~Bytes(1073741824)
'1.25g'~Bytes(1342177280)
'1t'~Bytes(1099511627776)
'1048576T'~Bytes(1152921504606846976)
'1073741824G'~Bytes(1152921504606846976)
'1152921504606846976'~Bytes(1152921504606846976)
1152921504606846976~Bytes(1152921504606846976)
'1125899906842624.000K'~Bytes(1152921504606846976)
'0%'~Percent(0)
'100%'~Percent(100)
'1152921504606846977'!BadArg
1152921504606846977!BadArg
'1048576.001T'!BadArg
'1048577T'!BadArg
'1125899906842624.001K'!BadArg
'18446744073709551615T'!BadArg
'18446744073709551616K'!BadArg
'101%'!BadArg
'5.5%'!BadArg
'05%'!BadArg
'%'!BadArg
'K'!BadArg
''!BadArg
'5.5'!BadArg
'.5K'!BadArg
'5.K'!BadArg
'1.0005K'!BadArg
'5KB'!BadArg
'5P'!BadArg
'5 K'!BadArg
'5K%'!BadArg
true!BadArg
1.5!WrongKind
null!WrongKind";

#[test]
fn sizes(rt: HostRuntime) {
    assert_rows_read(
        &rt,
        rt.alloc(),
        OF_SIZE,
        "r: [g; memory_above /g0 @ 1]\n",
        AT_ITEM,
        SIZES,
    );
}

const OF_CGROUP: &str =
    "{'rulesets':[{'name':'r','detectors':[['g',{'name':'exists','args':{'cgroup':@}}]],'actions':[]}]}";

const TRUTHS: &str = "'g0','negate':'true'~/g0 true
'g0','negate':'True'~/g0 true
'g0','negate':'1'~/g0 true
'g0','negate':true~/g0 true
'g0','negate':1~/g0 true
'g0','negate':'false'~/g0 false
'g0','negate':'False'~/g0 false
'g0','negate':'0'~/g0 false
'g0','negate':false~/g0 false
'g0','negate':0~/g0 false
'g0','negate':'TRUE'!BadArg
'g0','negate':'yes'!BadArg
'g0','negate':''!BadArg
'g0','negate':2!BadArg
'g0','negate':null!WrongKind
'g0','negate':1.0!WrongKind";

const PATTERNS: &str = "'g0'~/g0 false
'/g0'~/g0 false
'/,g1'~/ /g1 false
'*'~/g0 /g1 /g2 /5 /true false
's/*'~/s/a false
'x,x,x,x,x,x,x,x,x,x,x,x,x,x,x,g2'~/g2 false
'x'~false
5~/5 false
true~/true false
''!BadArg
's/?'!BadArg
'g0,'!BadArg
'..'!BadArg
'x,x,x,x,x,x,x,x,x,x,x,x,x,x,x,x,x'!TooMany
'x,x,x,x,x,x,x,x,x,x,x,x,x,x,x,x,?'!BadArg
null!WrongKind";

// Unknown arguments, and arguments of other plugins, are accepted with any value.
const UNKNOWN: &str =
    "'g0','dry':'true','duration':null,'recursive':'no','post_action_delay':[{}]~/g0 false
'g0'},'kind':[],'Args':{~/g0 false";

#[test]
fn truths_and_patterns(rt: HostRuntime) {
    for rows in &[TRUTHS, PATTERNS, UNKNOWN] {
        assert_rows_read(
            &rt,
            rt.alloc(),
            OF_CGROUP,
            "r: [g; exists @]\n",
            AT_ITEM,
            rows,
        );
    }
}

const OF_RESOURCE: &str =
    "{'rulesets':[{'name':'r','detectors':[['g',{'name':'pressure_above','args':{'cgroup':'g0','resource':@,'threshold':1,'duration':1}}]],'actions':[]}]}";

const RESOURCES: &str = "'io'~Io
'memory'~Memory
'cpu'!BadArg
'IO'!BadArg
''!BadArg
5!BadArg
[]!WrongKind";

#[test]
fn resources(rt: HostRuntime) {
    let rules = "r: [g; pressure_above /g0 @ 1 1]\n";
    assert_rows_read(&rt, rt.alloc(), OF_RESOURCE, rules, AT_ITEM, RESOURCES);
}

// A file with one detector. The rows show the defaults of detectors.
const OF_DETECTOR: &str =
    "{'rulesets':[{'name':'r','detectors':[['g',{'name':@}}]],'actions':[]}]}";

const DETECTORS: &str = "'exists','args':{'cgroup':'g0'~exists /g0 false
'pressure_rising_beyond','args':{'cgroup':'g0','resource':'memory','threshold':1,'duration':2~pressure_rising_beyond /g0 Memory 1 2 850";

// A file with one action. The rows show the defaults of actions, and other values of their
// arguments.
const OF_ACTION: &str = "{'rulesets':[{'name':'r','detectors':[],'actions':[{'name':@}}]}]}";

const ACTIONS: &str =
    "'kill_by_memory_size_or_growth','args':{'cgroup':'g0'~size_or_growth /g0 50 80 1250 false false 15
'kill_by_memory_size_or_growth','args':{'cgroup':'g0','size_threshold':'0','growing_size_percentile':100,'min_growth_ratio':'2.5','recursive':1,'always_continue':'True','post_action_delay':1000000~size_or_growth /g0 0 100 2500 true true 1000000
'kill_by_swap_usage','args':{'cgroup':'g0'~swap_usage /g0 Bytes(1) false false 15
'kill_by_swap_usage','args':{'cgroup':'g0','threshold':'5%','post_action_delay':'0'~swap_usage /g0 Percent(5) false false 0
'kill_by_pressure','args':{'cgroup':'g0','resource':'io'~pressure /g0 Io false false 15
'kill_by_pg_scan','args':{'cgroup':'g0','always_continue':true~pg_scan /g0 false true 15
'kill_by_pg_scan','args':{'cgroup':'g0','dry':true,'resource':5.5,'negate':{'a':[]}~pg_scan /g0 false false 15
'kill_by_memory_size_or_growth','args':{'cgroup':'g0','size_threshold':101!BadArg
'kill_by_memory_size_or_growth','args':{'cgroup':'g0','growing_size_percentile':101!BadArg
'kill_by_memory_size_or_growth','args':{'cgroup':'g0','min_growth_ratio':1001!BadArg
'kill_by_pg_scan','args':{'cgroup':'g0','post_action_delay':1000001!BadArg
'kill_by_pg_scan','args':{'cgroup':'g0','recursive':'yes'!BadArg
'kill_by_pg_scan','args':{'cgroup':'g0','always_continue':null!WrongKind";

#[test]
fn defaults(rt: HostRuntime) {
    assert_rows_read(
        &rt,
        rt.alloc(),
        OF_DETECTOR,
        "r: [g; @]\n",
        AT_ITEM,
        DETECTORS,
    );
    assert_rows_read(&rt, rt.alloc(), OF_ACTION, "r: @;\n", AT_ACTION, ACTIONS);
}

// A file with one action. An action without a delay of its own has the ruleset's delay.
const OF_DELAY: &str =
    "{'rulesets':[{'silence-logs':null,'name':'r','detectors':[],'post_action_delay':@}}]}],'version':1.5}";

const DELAYS: &str = "'7','actions':[{'name':'kill_by_pg_scan','args':{'cgroup':'g0'~7
7,'actions':[{'name':'kill_by_pg_scan','args':{'cgroup':'g0'~7
7,'actions':[{'name':'kill_by_pg_scan','args':{'cgroup':'g0','post_action_delay':9~9
0,'actions':[{'name':'kill_by_pg_scan','args':{'cgroup':'g0'~0
'1000000','actions':[{'name':'kill_by_pg_scan','args':{'cgroup':'g0'~1000000
'015','actions':[{'name':'kill_by_pg_scan','args':{'cgroup':'g0'!BadArg
1000001,'actions':[{'name':'kill_by_pg_scan','args':{'cgroup':'g0'!BadArg
true,'actions':[{'name':'kill_by_pg_scan','args':{'cgroup':'g0'!BadArg
null,'actions':[{'name':'kill_by_pg_scan','args':{'cgroup':'g0'!WrongKind
1.0,'actions':[{'name':'kill_by_pg_scan','args':{'cgroup':'g0'!WrongKind
[],'actions':[{'name':'kill_by_pg_scan','args':{'cgroup':'g0'!WrongKind";

#[test]
fn delays(rt: HostRuntime) {
    let rules = "r: pg_scan /g0 false false @;\n";
    assert_rows_read(
        &rt,
        rt.alloc(),
        OF_DELAY,
        rules,
        "rules ruleset 0: @",
        DELAYS,
    );
}
