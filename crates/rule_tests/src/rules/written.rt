//! Tests of rules printed as text. The rules of a file are printed. Parsing the printed text and
//! printing it again gives the same text (a round trip).
use crate::rules::shown::{quoted, with};
use dropin_rules::write_rules;
use ruleset_json::read;
use std::alloc::Global;
use std::process::Abort;
use test_support::{as_text, assert_equal};

// Parses the rules in `bytes`, and appends their printed text to a vector with the mark `>`.
// Returns the vector.
fn written(rt: &impl Abort, alloc: Global, bytes: &[u8]) -> Vec<u8> {
    let rules = read(alloc, bytes).expect(rt, "rules");
    let mut text = Vec::from_slice(alloc, b">".as_slice()).expect(rt, "memory");
    write_rules(&rules, &mut text).expect(rt, "memory");
    text
}

// Checks that the rules in `bytes` are printed as `text`. The printer must append to its vector, so
// the mark `>` must be unchanged.
fn assert_written_once(rt: &impl Abort, alloc: Global, bytes: &[u8], text: &[u8]) {
    let written = written(rt, alloc, bytes);
    let suffix = written.strip_prefix(b">").expect(rt, "no mark");
    assert_equal!(rt; as_text(suffix), as_text(text), as_text(bytes));
}

// Checks that the rules in `bytes` are printed as `text`, and that the rules in `text` are printed
// as `text` again.
fn assert_bytes_written(rt: &impl Abort, alloc: Global, bytes: &[u8], text: &[u8]) {
    assert_written_once(rt, alloc, bytes, text);
    assert_written_once(rt, alloc, text, text);
}

// Checks that the rules in `file` are printed as `text`, and that printing `text` again gives the
// same text. In both, `'` replaces each double quote.
fn assert_written(rt: &impl Abort, alloc: Global, file: &str, text: &str) {
    let (file, text) = (quoted(rt, alloc, file), quoted(rt, alloc, text));
    assert_bytes_written(rt, alloc, file.as_bytes(), text.as_bytes());
}

#[test]
fn file_of_one(rt: HostRuntime) {
    assert_written(
        &rt,
        rt.alloc(),
        "{ 'rulesets': [{'name':'r','detectors':[['g',{'name':'exists','args':{'cgroup':'/s/*'}}]],
          'actions':[{'name':'kill_by_memory_size_or_growth','args':{'cgroup':'s/*','size_threshold':50}}]}]}",
        "{'rulesets':[{'actions':[{'args':{'always_continue':'false','cgroup':'s/*','growing_size_percentile':'80','min_growth_ratio':'1.250','post_action_delay':'15','recursive':'false','size_threshold':'50'},'name':'kill_by_memory_size_or_growth'}],'detectors':[['g',{'args':{'cgroup':'s/*','negate':'false'},'name':'exists'}]],'name':'r'}]}",
    );
}

// Splits a text at a mark.
fn halves<'a>(rt: &impl Abort, text: &'a str, mark: char) -> (&'a str, &'a str) {
    text.split_once(mark).expect(rt, text)
}

// Replaces the first `@` in a text by `first`, and the second `@` by `next`.
fn with_both(rt: &impl Abort, alloc: Global, text: &str, first: &str, next: &str) -> String {
    with(rt, alloc, &with(rt, alloc, text, first), next)
}

// Checks the printed text of a plugin. In the file, its name and its arguments `input` replace the
// first and the second `@`. In the expected text, the arguments `shown` and the name replace them.
fn assert_plugin_written(
    rt: &impl Abort,
    alloc: Global,
    (file, text): (&str, &str),
    name: &str,
    (input, shown): (&str, &str),
) {
    let file = with_both(rt, alloc, file, name, input);
    let text = with_both(rt, alloc, text, shown, name);
    assert_written(rt, alloc, &file, &text);
}

// Checks the printed texts of plugins, one per row: a name, `|`, its arguments, `~`, and the
// printed arguments.
fn assert_rows_written(rt: &impl Abort, alloc: Global, file: &str, text: &str, rows: &str) {
    for row in rows.split('\n') {
        let (name, args) = halves(rt, row, '|');
        let args = halves(rt, args, '~');
        assert_plugin_written(rt, alloc, (file, text), name, args);
    }
}

const OF_DETECTOR: &str =
    "{'rulesets':[{'name':'r','detectors':[['g',{'name':'@','args':{@}}]],'actions':[]}]}";

const DETECTOR: &str =
    "{'rulesets':[{'actions':[],'detectors':[['g',{'args':{@},'name':'@'}]],'name':'r'}]}";

const DETECTORS: &str =
    "pressure_above|'cgroup':'/a,b','resource':'io','threshold':60,'duration':'30'~'cgroup':'a,b','duration':'30','resource':'io','threshold':'60'
pressure_rising_beyond|'cgroup':'/','resource':'memory','threshold':0,'duration':1000000~'cgroup':'/','duration':'1000000','fast_fall_ratio':'0.850','resource':'memory','threshold':'0'
pressure_rising_beyond|'cgroup':'/a/*','resource':'memory','threshold':100,'duration':0,'fast_fall_ratio':'1000.999'~'cgroup':'a/*','duration':'0','fast_fall_ratio':'1000.999','resource':'memory','threshold':'100'
pressure_rising_beyond|'cgroup':'a','resource':'io','threshold':1,'duration':2,'fast_fall_ratio':'3.07'~'cgroup':'a','duration':'2','fast_fall_ratio':'3.070','resource':'io','threshold':'1'
memory_above|'cgroup':'a','threshold':'5%','duration':1~'cgroup':'a','duration':'1','threshold':'5%'
memory_above|'cgroup':'a','threshold':'1.5K','duration':1~'cgroup':'a','duration':'1','threshold':'1536'
memory_above|'cgroup':'a','threshold':'2m','duration':1~'cgroup':'a','duration':'1','threshold':'2097152'
memory_above|'cgroup':'a','threshold':'1G','duration':1~'cgroup':'a','duration':'1','threshold':'1073741824'
memory_above|'cgroup':'a','threshold':'1048576T','duration':1~'cgroup':'a','duration':'1','threshold':'1152921504606846976'
memory_reclaim|'duration':'10','cgroup':'/b,/,*'~'cgroup':'b,/,*','duration':'10'
swap_free|'threshold_pct':15~'threshold_pct':'15'
exists|'cgroup':'a'~'cgroup':'a','negate':'false'
exists|'cgroup':'a','negate':'True'~'cgroup':'a','negate':'true'";

#[test]
fn detectors(rt: HostRuntime) {
    assert_rows_written(&rt, rt.alloc(), OF_DETECTOR, DETECTOR, DETECTORS);
}

const OF_ACTION: &str =
    "{'rulesets':[{'name':'r','post_action_delay':7,'detectors':[],'actions':[{'name':'@','args':{@}}]}]}";

const ACTION: &str =
    "{'rulesets':[{'actions':[{'args':{@},'name':'@'}],'detectors':[],'name':'r'}]}";

const ACTIONS: &str =
    "kill_by_memory_size_or_growth|'cgroup':'a'~'always_continue':'false','cgroup':'a','growing_size_percentile':'80','min_growth_ratio':'1.250','post_action_delay':'7','recursive':'false','size_threshold':'50'
kill_by_memory_size_or_growth|'cgroup':'a','size_threshold':1,'growing_size_percentile':2,'min_growth_ratio':'3','recursive':1,'always_continue':true,'post_action_delay':4~'always_continue':'true','cgroup':'a','growing_size_percentile':'2','min_growth_ratio':'3.000','post_action_delay':'4','recursive':'true','size_threshold':'1'
kill_by_swap_usage|'cgroup':'a'~'always_continue':'false','cgroup':'a','post_action_delay':'7','recursive':'false','threshold':'1'
kill_by_swap_usage|'cgroup':'a','threshold':'0%','recursive':'1'~'always_continue':'false','cgroup':'a','post_action_delay':'7','recursive':'true','threshold':'0%'
kill_by_pressure|'cgroup':'a','resource':'io','always_continue':'1'~'always_continue':'true','cgroup':'a','post_action_delay':'7','recursive':'false','resource':'io'
kill_by_pg_scan|'cgroup':'a','post_action_delay':0~'always_continue':'false','cgroup':'a','post_action_delay':'0','recursive':'false'";

#[test]
fn actions(rt: HostRuntime) {
    assert_rows_written(&rt, rt.alloc(), OF_ACTION, ACTION, ACTIONS);
}

// Names of a ruleset and a group in a file, each with its printed text.
const NAMES: [(&str, &str); 7] = [
    ("", ""),
    ("a\\\"b\\\\c\\/d", "a\\\"b\\\\c/d"),
    ("\\b\\t\\n\\f\\r", "\\b\\t\\n\\f\\r"),
    (
        "\\u0000\\u0001\\u000B\\u001F",
        "\\u0000\\u0001\\u000b\\u001f",
    ),
    ("\\u0008\\u0009\\u000a\\u000c\\u000d", "\\b\\t\\n\\f\\r"),
    ("\\u007f\u{80}\\u00e9", "\u{7f}\u{80}\u{e9}"),
    ("\u{20ac}\\ud83d\\ude00", "\u{20ac}\u{1f600}"),
];

const OF_NAMES: &str = "{\"rulesets\":[{\"name\":\"@\",\"detectors\":[[\"@\"]],\"actions\":[]}]}";

const WRITTEN_NAMES: &str =
    "{\"rulesets\":[{\"actions\":[],\"detectors\":[[\"@\"]],\"name\":\"@\"}]}";

fn assert_name_written(rt: &impl Abort, alloc: Global, input: &str, shown: &str) {
    let file = with_both(rt, alloc, OF_NAMES, input, "g");
    let text = with_both(rt, alloc, WRITTEN_NAMES, "g", shown);
    assert_bytes_written(rt, alloc, file.as_bytes(), text.as_bytes());
}

#[test]
fn names(rt: HostRuntime) {
    for (input, shown) in &NAMES {
        assert_name_written(&rt, rt.alloc(), input, shown);
    }
}
