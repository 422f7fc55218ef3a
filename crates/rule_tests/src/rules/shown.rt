//! Helpers that format the result of parsing a rules file as one text, which tests compare with the
//! expected text. The text is the rules, or the printed error.
use path_match::Patterns;
use psi_base::{Fault, Res, Text};
use ruleset_json::{
    Action, After, DetectorGroup, DetectorSpec, Place, Rule, Rules, RulesFault, read,
};
use std::alloc::Global;
use std::fmt::Display;
use std::process::Abort;
use test_support::{assert_equal, path_of};

// The paths that are matched against each pattern. The formatted text lists those that match.
const SAMPLE: [&str; 7] = ["/", "/g0", "/g1", "/g2", "/5", "/true", "/s/a"];

/// Appends a value to a text.
pub fn put(rt: &impl Abort, to: &mut String, text: impl Display + Drop) {
    to.write(text).expect(rt, "memory");
}

// Appends the name of a plugin and the sample paths that its patterns match, each with a space
// after it.
fn put_plugin(rt: &impl Abort, alloc: Global, to: &mut String, name: &str, patterns: &Patterns) {
    put(rt, to, name);
    put(rt, to, " ");
    for sample in &SAMPLE {
        let path = path_of(alloc, sample).expect(rt, sample);
        if patterns.matches(&path) {
            put(rt, to, *sample);
            put(rt, to, " ");
        }
    }
}

fn put_pressure(rt: &impl Abort, to: &mut String, resource: Res, threshold: u32, duration_s: u32) {
    put(
        rt,
        to,
        format_args!("{resource:?} {threshold} {duration_s}"),
    );
}

fn put_detector(rt: &impl Abort, alloc: Global, to: &mut String, spec: &DetectorSpec) {
    match spec {
        DetectorSpec::PressureAbove {
            cgroup,
            resource,
            threshold,
            duration_s,
        } => {
            put_plugin(rt, alloc, to, "pressure_above", cgroup);
            put_pressure(rt, to, *resource, *threshold, *duration_s);
        }
        DetectorSpec::PressureRisingBeyond {
            cgroup,
            resource,
            threshold,
            duration_s,
            ratio,
        } => {
            put_plugin(rt, alloc, to, "pressure_rising_beyond", cgroup);
            put_pressure(rt, to, *resource, *threshold, *duration_s);
            put(rt, to, format_args!(" {ratio}"));
        }
        DetectorSpec::MemoryAbove {
            cgroup,
            threshold,
            duration_s,
        } => {
            put_plugin(rt, alloc, to, "memory_above", cgroup);
            put(rt, to, format_args!("{threshold:?} {duration_s}"));
        }
        DetectorSpec::MemoryReclaim { cgroup, duration_s } => {
            put_plugin(rt, alloc, to, "memory_reclaim", cgroup);
            put(rt, to, *duration_s);
        }
        DetectorSpec::SwapFree { threshold_pct } => {
            put(rt, to, format_args!("swap_free {threshold_pct}"));
        }
        DetectorSpec::Exists { cgroup, negate } => {
            put_plugin(rt, alloc, to, "exists", cgroup);
            put(rt, to, *negate);
        }
    }
}

fn put_after(rt: &impl Abort, to: &mut String, after: &After) {
    let After {
        recursive,
        always_continue,
        delay_s,
    } = *after;
    put(
        rt,
        to,
        format_args!("{recursive} {always_continue} {delay_s}"),
    );
}

// Appends the fields of an action, followed by the fields that all actions share.
fn put_action(rt: &impl Abort, alloc: Global, to: &mut String, action: &Action) {
    let after = match action {
        Action::SizeOrGrowth {
            cgroup,
            size_threshold,
            percentile,
            ratio,
            after,
        } => {
            put_plugin(rt, alloc, to, "size_or_growth", cgroup);
            put(
                rt,
                to,
                format_args!("{size_threshold} {percentile} {ratio} "),
            );
            after
        }
        Action::SwapUsage {
            cgroup,
            threshold,
            after,
        } => {
            put_plugin(rt, alloc, to, "swap_usage", cgroup);
            put(rt, to, format_args!("{threshold:?} "));
            after
        }
        Action::Pressure {
            cgroup,
            resource,
            after,
        } => {
            put_plugin(rt, alloc, to, "pressure", cgroup);
            put(rt, to, format_args!("{resource:?} "));
            after
        }
        Action::PgScan { cgroup, after } => {
            put_plugin(rt, alloc, to, "pg_scan", cgroup);
            after
        }
    };
    put_after(rt, to, after);
}

fn put_name(rt: &impl Abort, to: &mut String, name: &Text) {
    for byte in name.bytes() {
        put(rt, to, char::from(*byte));
    }
}

fn put_group(rt: &impl Abort, alloc: Global, to: &mut String, group: &DetectorGroup) {
    put(rt, to, " [");
    put_name(rt, to, &group.name);
    for spec in group.detectors.items() {
        put(rt, to, "; ");
        put_detector(rt, alloc, to, spec);
    }
    put(rt, to, "]");
}

fn put_actions(rt: &impl Abort, alloc: Global, to: &mut String, actions: &[Action]) {
    for action in actions {
        put(rt, to, " ");
        put_action(rt, alloc, to, action);
        put(rt, to, ";");
    }
}

// Appends a ruleset: its name and a colon, each group in brackets with a semicolon before each
// detector, and each action with a semicolon after it.
fn put_rule(rt: &impl Abort, alloc: Global, to: &mut String, rule: &Rule) {
    put_name(rt, to, &rule.name);
    put(rt, to, ":");
    for group in rule.groups.items() {
        put_group(rt, alloc, to, group);
    }
    put_actions(rt, alloc, to, rule.actions.items());
    put(rt, to, "\n");
}

fn put_rules(rt: &impl Abort, alloc: Global, to: &mut String, rules: &Rules) {
    for rule in rules.rules.items() {
        put_rule(rt, alloc, to, rule);
    }
}

fn put_number(rt: &impl Abort, to: &mut String, word: &str, number: u32) {
    put(rt, to, format_args!(" {word} {number}"));
}

// Appends the place of an error, with a space before each word.
fn put_place(rt: &impl Abort, to: &mut String, place: Place) {
    match place {
        Place::Whole => {}
        Place::Rule(rule) => put_number(rt, to, "ruleset", rule),
        Place::Group(rule, group) => {
            put_number(rt, to, "ruleset", rule);
            put_number(rt, to, "group", group);
        }
        Place::Detector(rule, group, item) => {
            put_number(rt, to, "ruleset", rule);
            put_number(rt, to, "group", group);
            put_number(rt, to, "item", item);
        }
        Place::Action(rule, action) => {
            put_number(rt, to, "ruleset", rule);
            put_number(rt, to, "action", action);
        }
    }
}

fn put_fault(rt: &impl Abort, to: &mut String, fault: RulesFault) {
    put(rt, to, "rules");
    put_place(rt, to, fault.place);
    put(rt, to, format_args!(": {:?}", fault.what));
}

fn put_read(rt: &impl Abort, alloc: Global, to: &mut String, bytes: &[u8]) {
    match read(alloc, bytes) {
        Ok(rules) => put_rules(rt, alloc, to, &rules),
        Err(Fault::Refused(fault)) => put_fault(rt, to, fault),
        Err(Fault::NoMemory(_)) => panic!(rt; "memory"),
    }
}

// Checks that parsing the rules file `bytes` gives the result `text`. `file` names the case in the
// message.
fn assert_file_read(rt: &impl Abort, alloc: Global, bytes: &[u8], text: &str, file: &str) {
    let mut shown = String::new(alloc);
    put_read(rt, alloc, &mut shown, bytes);
    assert_equal!(rt; shown.as_str(), text, file);
}

/// Checks that parsing these bytes as a rules file gives the result `text`.
pub fn assert_bytes_read(rt: &impl Abort, alloc: Global, bytes: &[u8], text: &str) {
    assert_file_read(rt, alloc, bytes, text, "bytes");
}

/// Replaces each `'` in a text by a double quote.
pub fn quoted(rt: &impl Abort, alloc: Global, text: &str) -> String {
    text.replace(alloc, "'", "\"").expect(rt, "memory")
}

/// Checks that parsing a rules file, in which `'` replaces each double quote, gives the result
/// `text`.
pub fn assert_read(rt: &impl Abort, alloc: Global, file: &str, text: &str) {
    let quoted = quoted(rt, alloc, file);
    assert_file_read(rt, alloc, quoted.as_bytes(), text, file);
}

/// Replaces the first `@` in a text by `value`. A text without `@` is unchanged.
pub fn with(rt: &impl Abort, alloc: Global, text: &str, value: &str) -> String {
    text.replacen(alloc, "@", value, 1).expect(rt, "memory")
}

// Checks the result of parsing a rules file. `value` replaces the `@` of the file, and `shown`
// replaces the `@` of the expected text.
fn assert_read_with(
    rt: &impl Abort,
    alloc: Global,
    (file, value): (&str, &str),
    (text, shown): (&str, &str),
) {
    let file = with(rt, alloc, file, value);
    let text = with(rt, alloc, text, shown);
    assert_read(rt, alloc, &file, &text);
}

// Splits a row into the replacement for the `@` of the file, the expected text, and the replacement
// for the `@` of that text. The expected text is `rules` if the row has a `~`, and `fault` if it
// has a `!`.
fn parted<'a>(
    rt: &impl Abort,
    row: &'a str,
    rules: &'a str,
    fault: &'a str,
) -> (&'a str, &'a str, &'a str) {
    if let Some((value, shown)) = row.split_once('~') {
        return (value, rules, shown);
    }
    let (value, cause) = row.split_once('!').expect(rt, row);
    (value, fault, cause)
}

/// Checks the results of parsing rules files, one per row. A row has the replacement for the `@` of
/// the file, a mark, and the replacement for the `@` of the expected text. The expected text is
/// `rules` if the mark is `~`, and `fault` if it is `!`.
pub fn assert_rows_read(
    rt: &impl Abort,
    alloc: Global,
    file: &str,
    rules: &str,
    fault: &str,
    rows: &str,
) {
    for row in rows.split('\n') {
        let (value, text, shown) = parted(rt, row, rules, fault);
        assert_read_with(rt, alloc, (file, value), (text, shown));
    }
}
