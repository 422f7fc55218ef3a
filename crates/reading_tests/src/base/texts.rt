//! Tests of parsing numbers and paths: values and lengths at their limits, and malformed texts.
//! Nothing is read from a file.
use psi_base::{Parts, Path, Text, read_number};
use std::alloc::Global;
use std::process::Abort;
use test_support::assert_equal;

/// Each row has a text, and the number that it spells, or `None` if it isn't a number.
const NUMBERS: [(&str, Option<u64>); 11] = [
    ("0", Some(0)),
    ("7", Some(7)),
    ("18446744073709551615", Some(u64::MAX)),
    ("18446744073709551616", None),
    ("99999999999999999999", None),
    ("", None),
    ("00", None),
    ("007", None),
    ("1a", None),
    ("+1", None),
    (" 1", None),
];

#[test]
fn numbers(rt: HostRuntime) {
    for (text, number) in &NUMBERS {
        assert_equal!(rt; read_number(text.as_bytes()), *number, text);
    }
}

// Checks that `text` is parsed unchanged as a path if `is_path` is true, and rejected if it is
// false.
fn assert_path(rt: &impl Abort, alloc: Global, text: &str, is_path: bool) {
    let path = Path::read(alloc, text.as_bytes()).expect(rt, "memory");
    let kept = match &path {
        Some(path) => Some(path.bytes()),
        None => None,
    };
    assert_equal!(rt; kept, is_path.then_some(text.as_bytes()), text);
}

/// Each row has a text, and whether it is a valid path.
const PATHS: [(&str, bool); 17] = [
    ("/", true),
    ("/a", true),
    ("/a/b", true),
    ("/Az09_.@:-\\", true),
    ("/...", true),
    ("/.a", true),
    ("", false),
    ("a", false),
    ("//", false),
    ("/.", false),
    ("/..", false),
    ("/a/", false),
    ("/a//b", false),
    ("/a/../b", false),
    ("/a b", false),
    ("/a\n", false),
    ("/é", false),
];

#[test]
fn paths(rt: HostRuntime) {
    for (text, is_path) in &PATHS {
        assert_path(&rt, rt.alloc(), text, *is_path);
    }
}

#[test]
fn root_is_a_path(rt: HostRuntime) {
    let root = Path::root(rt.alloc()).expect(&rt, "memory");
    assert_equal!(rt; root.bytes(), b"/".as_slice(), "the root");
}

// Checks whether `count` copies of `component` are a valid path.
fn assert_repeated_path(
    rt: &impl Abort,
    alloc: Global,
    component: &str,
    count: usize,
    is_path: bool,
) {
    let text = component.repeat(alloc, count).expect(rt, "memory");
    assert_path(rt, alloc, text.as_str(), is_path);
}

#[test]
fn long_paths(rt: HostRuntime) {
    assert_repeated_path(&rt, rt.alloc(), "/a", 32, true);
    assert_repeated_path(&rt, rt.alloc(), "/a", 33, false);
    assert_repeated_path(&rt, rt.alloc(), "/abcdefghijklmn", 17, true);
    assert_repeated_path(&rt, rt.alloc(), "/abcdefghijklmno", 16, false);
}

#[test]
fn texts_and_parts(rt: HostRuntime) {
    let text = Text::make(rt.alloc(), b"a  b ").expect(&rt, "memory");
    assert_equal!(rt; text.bytes(), b"a  b ".as_slice(), "a text");
    let mut words: Parts<'_, b' '> = Parts::new(text.bytes());
    for word in &["a", "", "b", ""] {
        assert_equal!(rt; words.next_part(), Some(word.as_bytes()), word);
    }
    assert_equal!(rt; words.next_part(), None, "no word is left");
}
