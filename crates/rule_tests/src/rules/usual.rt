//! Tests of whole rules files: a typical file, whose fields are all compared, and files whose lists
//! have the largest allowed length or one item more.
use crate::rules::shown::{assert_read, assert_rows_read, with};
use ruleset_json::{ActionList, GroupList, Rule, RuleList, Rules, read};
use std::alloc::Global;
use std::process::Abort;
use test_support::assert_equal;

const USUAL: &str = "{'rulesets':[
 {'name':'memory pressure','detectors':[['slow',
   {'name':'pressure_above','args':{'cgroup':'g0,g1','resource':'memory','threshold':'60','duration':'30'}},
   {'name':'memory_reclaim','args':{'cgroup':'g0,g1','duration':'10'}}]],
  'actions':[{'name':'kill_by_memory_size_or_growth','args':{'cgroup':'g*'}}]},
 {'name':'rising io','detectors':[['io',
   {'name':'pressure_rising_beyond','args':{'cgroup':'g2','resource':'io','threshold':'40','duration':'10','fast_fall_ratio':'0.85'}}]],
  'actions':[{'name':'kill_by_pressure','args':{'cgroup':'g*','resource':'io','post_action_delay':'30'}}]},
 {'name':'low swap','silence-logs':'engine','detectors':[['swap',
   {'name':'swap_free','args':{'threshold_pct':'15'}},
   {'name':'exists','args':{'cgroup':'g*'}}]],
  'actions':[{'name':'kill_by_swap_usage','args':{'cgroup':'g*','threshold':'5%'}},
   {'name':'kill_by_pg_scan','args':{'cgroup':'g*','recursive':'true'}}]}]}";

const SHOWN: &str =
    "memory pressure: [slow; pressure_above /g0 /g1 Memory 60 30; memory_reclaim /g0 /g1 10] size_or_growth /g0 /g1 /g2 50 80 1250 false false 15;
rising io: [io; pressure_rising_beyond /g2 Io 40 10 850] pressure /g0 /g1 /g2 Io false false 30;
low swap: [swap; swap_free 15; exists /g0 /g1 /g2 false] swap_usage /g0 /g1 /g2 Percent(5) false false 15; pg_scan /g0 /g1 /g2 true false 15;
";

#[test]
fn usual_file(rt: HostRuntime) {
    assert_read(&rt, rt.alloc(), USUAL, SHOWN);
}

// A file with one ruleset. The pattern of its action is `s/`, followed by the replacement for the
// `@`.
const ONE: &str =
    "{'rulesets':[{'name':'r','detectors':[['g',{'name':'exists','args':{'cgroup':'s/*'}}]],'actions':[{'name':'kill_by_memory_size_or_growth','args':{'cgroup':'s/@'}}]}]}";

#[test]
fn file_of_one(rt: HostRuntime) {
    let rules = "r: [g; exists /s/a false] size_or_growth /s/a 50 80 1250 false false 15;\n";
    let fault = "rules ruleset 0 action 0: BadArg";
    assert_rows_read(&rt, rt.alloc(), ONE, rules, fault, "*~\n?!");
}

// A list in a file, and its limit. `file` has `@` in place of the list, which repeats `piece` with
// `between` as separator. A list of `most` pieces is accepted. The text `rules` is then expected,
// with `shown` repeated in place of its `@`. A longer list gives the error `fault`.
struct Lists {
    file: &'static str,
    piece: &'static str,
    between: &'static str,
    most: usize,
    rules: &'static str,
    shown: &'static str,
    fault: &'static str,
}

// Checks the result of reading a file whose list has `times` pieces.
fn assert_list_read(rt: &impl Abort, alloc: Global, lists: &Lists, times: usize, text: &str) {
    let pieces = vec![in alloc; lists.piece; times].expect(rt, "memory");
    let pieces = pieces.join(alloc, lists.between).expect(rt, "memory");
    assert_read(rt, alloc, &with(rt, alloc, lists.file, &pieces), text);
}

// Checks that a file with the largest number of pieces is accepted, and that one more piece is an
// error.
fn assert_limit(rt: &impl Abort, alloc: Global, lists: &Lists) {
    let shown = lists.shown.repeat(alloc, lists.most).expect(rt, "memory");
    let rules = with(rt, alloc, lists.rules, &shown);
    assert_list_read(rt, alloc, lists, lists.most, &rules);
    assert_list_read(rt, alloc, lists, lists.most.wrapping_add(1), lists.fault);
}

const RULESETS: Lists = Lists {
    file: "{'rulesets':[@]}",
    piece: "{'name':'r','detectors':[],'actions':[]}",
    between: ",",
    most: 64,
    rules: "@",
    shown: "r:\n",
    fault: "rules: TooMany",
};

const GROUPS: Lists = Lists {
    file: "{'rulesets':[{'name':'r','detectors':[@],'actions':[]}]}",
    piece: "['g']",
    between: ",",
    most: 16,
    rules: "r:@\n",
    shown: " [g]",
    fault: "rules ruleset 0: TooMany",
};

const DETECTORS: Lists = Lists {
    file: "{'rulesets':[{'name':'r','detectors':[['g'@]],'actions':[]}]}",
    piece: ",{'name':'swap_free','args':{'threshold_pct':1}}",
    between: "",
    most: 16,
    rules: "r: [g@]\n",
    shown: "; swap_free 1",
    fault: "rules ruleset 0 group 0: TooMany",
};

const ACTIONS: Lists = Lists {
    file: "{'rulesets':[{'name':'r','detectors':[],'actions':[@]}]}",
    piece: "{'name':'kill_by_pg_scan','args':{'cgroup':'g0'}}",
    between: ",",
    most: 16,
    rules: "r:@\n",
    shown: " pg_scan /g0 false false 15;",
    fault: "rules ruleset 0: TooMany",
};

#[test]
fn lists_at_their_limits(rt: HostRuntime) {
    assert_read(&rt, rt.alloc(), "{'rulesets':[]}", "");
    for lists in &[RULESETS, GROUPS, DETECTORS, ACTIONS] {
        assert_limit(&rt, rt.alloc(), lists);
    }
}

const ALL: &[u8] =
    b"{\"rulesets\":[{\"name\":\"r\",\"detectors\":[[\"g\"],[\"h\"]],\"actions\":[{\"name\":\"kill_by_pg_scan\",\"args\":{\"cgroup\":\"g0\"}}]}]}";

// Returns whether the rule has the name `r`, one action and two groups. Also checks that one group
// remains if the last group is removed from the list.
fn is_the_rule(rule: Rule) -> bool {
    let Rule {
        name,
        groups,
        actions,
    } = rule;
    let mut groups = groups.into_items();
    let had = groups.len();
    let is_taken = groups.pop().is_some();
    let groups = GroupList::new(groups);
    let actions = ActionList::new(actions.into_items());
    let lengths = (had, groups.items().len(), actions.items().len());
    is_taken && lengths == (2, 1, 1) && name.bytes() == b"r".as_slice()
}

// Takes the items out of each list, and builds lists from them again.
#[test]
fn lists_again(rt: HostRuntime) {
    let Rules { rules } = read(rt.alloc(), ALL).expect(&rt, "rules");
    assert_equal!(rt; rules.items().len(), 1, "rulesets");
    let mut rules = rules.into_items();
    let is_the_rule = rules.pop().is_some_and(is_the_rule);
    assert!(rt; is_the_rule, "the ruleset has another name, or other lists");
    assert_equal!(rt; RuleList::new(rules).items().len(), 0, "rulesets left");
}
