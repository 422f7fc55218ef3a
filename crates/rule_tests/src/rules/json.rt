//! Tests of the JSON syntax of rules files, of their nesting, and of their length limit. The rules
//! in the files are trivial.
use crate::rules::shown::{assert_bytes_read, assert_read, assert_rows_read};
use std::alloc::Global;
use std::process::Abort;

const LARGEST: usize = 1_048_576;

// Texts with white space, escapes and repeated keys (the last one counts). Further rows have
// numbers under an unknown key (any number is accepted unless it overflows a float), half a
// surrogate pair, comments, trailing commas, and text after the value.
const TEXTS: &str = " \t\r{'rulesets':[]} \t\r~
{'\\u0072ulesets':[]}~
{'rulesets':5,'rulesets':[]}~
{'rulesets':[],'rulesets':5}!WrongKind
{'rulesets':[],'\\u0072ulesets':5}!WrongKind
{'a':-0,'b':1.0,'c':1e300,'d':18446744073709551616,'rulesets':[]}~
{'a':1e999,'rulesets':[]}!BadJson
{'a':-1e999,'rulesets':[]}!BadJson
{'rulesets':1e999}!BadJson
{'a':007,'rulesets':[]}!BadJson
{'a':+1,'rulesets':[]}!BadJson
{'a':.5,'rulesets':[]}!BadJson
{'a':NaN,'rulesets':[]}!BadJson
{'a':Infinity,'rulesets':[]}!BadJson
{'a':0x10,'rulesets':[]}!BadJson
{'a':'\\ud83d\\ude00','rulesets':[]}~
{'a':'\\ud800','rulesets':[]}!BadJson
{'a':'\\udc00','rulesets':[]}!BadJson
{'a':'\\x41','rulesets':[]}!BadJson
!BadJson
 !BadJson
{'rulesets':[],}!BadJson
{'rulesets':[5,]}!BadJson
{'rulesets':[]} // none!BadJson
/* none */{'rulesets':[]}!BadJson
{'rulesets':[]}{}!BadJson
{rulesets:[]}!BadJson
{'rulesets':[]!BadJson
{'rulesets':True}!BadJson
{'a':'\t','rulesets':[]}!BadJson";

#[test]
fn texts(rt: HostRuntime) {
    assert_rows_read(&rt, rt.alloc(), "@", "@", "rules: @", TEXTS);
}

#[test]
fn bytes_that_are_no_text(rt: HostRuntime) {
    let alloc = rt.alloc();
    let bad = "rules: BadJson";
    assert_bytes_read(&rt, alloc, b"{\"a\":\"\xc3\xa9\",\"rulesets\":[]}", "");
    assert_bytes_read(&rt, alloc, b"{\"a\":\"\xff\",\"rulesets\":[]}", bad);
    assert_bytes_read(&rt, alloc, b"{\"a\":\"\xc3\",\"rulesets\":[]}", bad);
    assert_bytes_read(&rt, alloc, b"{\"a\":\"\xed\xa0\x80\",\"rulesets\":[]}", bad);
    assert_bytes_read(&rt, alloc, b"{\"a\":\"\xc0\x80\",\"rulesets\":[]}", bad);
    assert_bytes_read(&rt, alloc, b"\xef\xbb\xbf{\"rulesets\":[]}", bad);
}

// Checks the result of parsing an object with lists nested to depth `depth`.
fn assert_read_nested(rt: &impl Abort, alloc: Global, depth: usize, text: &str) {
    let lists = depth.saturating_sub(1);
    let open = "[".repeat(alloc, lists).expect(rt, "memory");
    let close = "]".repeat(alloc, lists).expect(rt, "memory");
    let file = format!(in alloc; "{{'a':{open}{close},'rulesets':[]}}").expect(rt, "memory");
    assert_read(rt, alloc, &file, text);
}

#[test]
fn nesting(rt: HostRuntime) {
    assert_read_nested(&rt, rt.alloc(), 2, "");
    assert_read_nested(&rt, rt.alloc(), 127, "");
    assert_read_nested(&rt, rt.alloc(), 128, "rules: BadJson");
}

// Checks the result of parsing the bytes, padded with spaces to `length` bytes.
fn assert_read_padded(rt: &impl Abort, alloc: Global, bytes: &[u8], length: usize, text: &str) {
    let mut long = Vec::from_slice(alloc, bytes).expect(rt, "memory");
    long.resize(length, b' ').expect(rt, "memory");
    assert_bytes_read(rt, alloc, &long, text);
}

#[test]
fn lengths(rt: HostRuntime) {
    let alloc = rt.alloc();
    let whole = b"{\"rulesets\":[]}".as_slice();
    assert_read_padded(&rt, alloc, whole, LARGEST, "");
    assert_read_padded(&rt, alloc, whole, LARGEST + 1, "rules: TooLong");
    assert_read_padded(&rt, alloc, b"{", LARGEST, "rules: BadJson");
    assert_read_padded(&rt, alloc, b"{", LARGEST + 1, "rules: TooLong");
}
