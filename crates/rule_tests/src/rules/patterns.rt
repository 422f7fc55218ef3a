//! Tests of path patterns: which paths they match, which texts are malformed, and texts and paths
//! at their limits.
use path_match::{PatternFault, Patterns};
use psi_base::Fault;
use std::alloc::Global;
use std::process::Abort;
use test_support::{assert_equal, path_of};

// Checks whether the patterns in a text match a path, and that a copy of the patterns gives the
// same result.
fn assert_match(rt: &impl Abort, alloc: Global, text: &str, path: &str, wanted: bool) {
    let patterns = Patterns::read(alloc, text).expect(rt, text);
    let copy = patterns.copy(alloc).expect(rt, "memory");
    let read = path_of(alloc, path).expect(rt, path);
    let found = (patterns.matches(&read), copy.matches(&read));
    assert_equal!(rt; found, (wanted, wanted), (text, path));
}

// Calls `assert_match` for each row, which has the text of patterns, a space, and a path.
fn assert_matches(rt: &impl Abort, alloc: Global, rows: &str, wanted: bool) {
    for row in rows.split('\n') {
        let (text, path) = row.split_once(' ').expect(rt, row);
        assert_match(rt, alloc, text, path, wanted);
    }
}

// Patterns, each with a path that they match.
const MATCHING: &str = "system.slice/*,web /system.slice/a.service\n\
    system.slice/*,web /web\n\
    / /\n\
    a,/ /\n\
    /web /web\n\
    web /web\n\
    * /web\n\
    /* /a.b.c\n\
    a* /a\n\
    *a /a\n\
    a*b /ab\n\
    a*b /a.service.b\n\
    a**b /ab\n\
    a**b /axyb\n\
    ** /a\n\
    */b /a/b\n\
    */* /a/b\n\
    a*/*c /ab/bc\n\
    .* /.a\n\
    .* /...\n\
    *..* /a..b\n\
    *ab /aab\n\
    *ab /abab\n\
    *a*b* /xaxxbx\n\
    a*a /aa\n\
    *aba* /ababa\n\
    *abc /ababc\n\
    *a*abc /abacabc\n\
    Az09_.@:-\\ /Az09_.@:-\\\n\
    x,y,*.scope /b.scope\n\
    5 /5";

// Patterns, each with a path that they don't match.
const OTHERS: &str = "system.slice/*,web /system.slice\n\
    system.slice/*,web /system.slice/a/b\n\
    system.slice/*,web /\n\
    / /a\n\
    * /\n\
    ** /\n\
    * /a/b\n\
    a*b /a/b\n\
    */* /a\n\
    */* /a/b/c\n\
    *b /a/b\n\
    a* /a/b\n\
    a /b\n\
    a /ab\n\
    ab /a\n\
    a /A\n\
    a*b /ba\n\
    a*b /abc\n\
    *ab /aba\n\
    a*a /a\n\
    *abc* /ababab\n\
    *a*abc /abc\n\
    a.b /axb";

#[test]
fn patterns_match(rt: HostRuntime) {
    assert_matches(&rt, rt.alloc(), MATCHING, true);
    assert_matches(&rt, rt.alloc(), OTHERS, false);
}

// Returns the reason why a text is rejected, or `None` if it is accepted.
fn fault_of(rt: &impl Abort, alloc: Global, text: &str) -> Option<PatternFault> {
    match Patterns::read(alloc, text) {
        Ok(_) => None,
        Err(Fault::Refused(fault)) => Some(fault),
        Err(Fault::NoMemory(_)) => panic!(rt; "memory"),
    }
}

// Checks that a text is rejected for this reason, or accepted if `fault` is `None`.
fn assert_read(rt: &impl Abort, alloc: Global, text: &str, fault: Option<PatternFault>) {
    assert_equal!(rt; fault_of(rt, alloc, text), fault, text);
}

// Calls `assert_read` for each text that consists of `prefix` and one of the ends. The ends are
// separated by `|`.
fn assert_all_read(
    rt: &impl Abort,
    alloc: Global,
    prefix: &str,
    ends: &str,
    fault: Option<PatternFault>,
) {
    for end in ends.split('|') {
        let text = [prefix, end].concat(alloc).expect(rt, "memory");
        assert_read(rt, alloc, &text, fault);
    }
}

const BAD: &str =
    "|,|a,|,a|a,,b|.|..|/.|/..|a/.|a/../b|//|//a|a/|/a/|a//b|a b| a|a?|a\n|a\0|é|a/é|[a]|a, b|a;b";

const GOOD: &str = "/|a|/a|*|**|.*|*.|*..|...|a/.b/..c";

#[test]
fn bad_patterns(rt: HostRuntime) {
    assert_all_read(&rt, rt.alloc(), "", BAD, Some(PatternFault::BadPattern));
    assert_all_read(&rt, rt.alloc(), "", GOOD, None);
}

const FIFTEEN: &str = "a,a,a,a,a,a,a,a,a,a,a,a,a,a,a,";

#[test]
fn limits(rt: HostRuntime) {
    let alloc = rt.alloc();
    let bad = Some(PatternFault::BadPattern);
    let many = Some(PatternFault::TooMany);
    assert_all_read(&rt, alloc, FIFTEEN, "a", None);
    assert_all_read(&rt, alloc, FIFTEEN, "a,a|a,a,/", many);
    assert_all_read(&rt, alloc, FIFTEEN, "..|a,..|a,|a,a,a,a b", bad);
    let last = "a,a,a,a,a,a,a,a,a,a,a,a,a,a,a,*/b";
    assert_match(&rt, alloc, last, "/a/b", true);
    assert_match(&rt, alloc, last, "/a/b/c", false);
}

// Returns `times` copies of `piece`.
fn repeated(rt: &impl Abort, alloc: Global, piece: &str, times: usize) -> String {
    piece.repeat(alloc, times).expect(rt, "memory")
}

#[test]
fn long_texts(rt: HostRuntime) {
    let alloc = rt.alloc();
    let bad = Some(PatternFault::BadPattern);
    assert_read(&rt, alloc, &repeated(&rt, alloc, ",", 99), bad);
    assert_read(&rt, alloc, &repeated(&rt, alloc, "a", 300), None);
    assert_read(&rt, alloc, &repeated(&rt, alloc, "/a", 33), None);
}

// Checks whether `times` copies of `piece`, followed by an end, match the path of the root's child
// whose name is 254 letters `a`.
fn assert_match_of_long(
    rt: &impl Abort,
    alloc: Global,
    piece: &str,
    times: usize,
    end: &str,
    wanted: bool,
) {
    let mut text = repeated(rt, alloc, piece, times);
    text.push_str(end).expect(rt, "memory");
    let mut path = repeated(rt, alloc, "a", 254);
    path.insert_str(0, "/").expect(rt, "memory");
    assert_match(rt, alloc, &text, &path, wanted);
}

#[test]
fn long_patterns(rt: HostRuntime) {
    let alloc = rt.alloc();
    assert_match_of_long(&rt, alloc, "*a", 16, "", true);
    assert_match_of_long(&rt, alloc, "*a", 16, "*b", false);
    assert_match_of_long(&rt, alloc, "*", 300, "", true);
    assert_match_of_long(&rt, alloc, "*a", 254, "", true);
    assert_match_of_long(&rt, alloc, "*a", 255, "", false);
    assert_match_of_long(&rt, alloc, "a", 300, "", false);
}

// Checks whether a pattern of `levels` levels matches a path of 32 levels.
fn assert_match_of_deep(rt: &impl Abort, alloc: Global, levels: usize, wanted: bool) {
    let text = repeated(rt, alloc, "/*", levels);
    let path = repeated(rt, alloc, "/a", 32);
    assert_match(rt, alloc, &text, &path, wanted);
}

#[test]
fn deep_patterns(rt: HostRuntime) {
    assert_match_of_deep(&rt, rt.alloc(), 32, true);
    assert_match_of_deep(&rt, rt.alloc(), 33, false);
}
