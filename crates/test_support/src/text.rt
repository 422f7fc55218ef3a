//! Texts and bytes in tests: command words, parts of an output, paths, and an error of the
//! allocator.
ghost use Rattle.std.specs.Prelude.{◌≡◌, ◌==◌, ◌-◌, ◌<◌, None, [], ◌∷◌, IfOk, IfSome, IsUtf8, map, string_bytes, length, take, drop, false};
ghost use Rattle.std.specs.List.{slice_split};
ghost use Rattle.psi_base.specs.Path.{is_path};
ghost use Rattle.test_support.specs.Text.{line_number};

use psi_base::{NoMemory, Parts, Path};
use std::alloc::Global;

// Copies each text.
fn copies_of(alloc: Global, texts: &[&str]) -> Result<Vec<String>, NoMemory>
    ensures { IfOk result (λ copies. map string_bytes copies.items
        ≡ map (λ text. text.now) texts.now) }
{
    let mut copies = Vec::new(alloc);
    'texts: for text in texts {
        copies.push(String::from_str(alloc, text)?)?;
    }
    Ok(copies)
}

/// Splits a command line into words at each `separator`, which must be ASCII.
pub fn words_of(alloc: Global, line: &str, separator: char) -> Result<Vec<String>, NoMemory>
    requires { separator < 128 }
    ensures { IfOk result (λ words. map string_bytes words.items
        ≡ slice_split (λ byte. byte == separator) line.now) }
{
    let parts: Vec<&str> = line.split(separator).collect(alloc)?;
    copies_of(alloc, &parts)
}

/// Returns bytes as text, or `?` if they aren't UTF-8.
pub fn as_text(bytes: &[u8]) -> &str
    ensures text { IsUtf8 bytes.now → result.now ≡ bytes.now }
    ensures other { ¬ IsUtf8 bytes.now → result.now ≡ 63 ∷ [] }
{
    str::from_utf8(bytes).unwrap_or("?")
}

/// Returns the first `count` bytes, or all bytes if there are fewer.
pub fn first_bytes(bytes: &[u8], count: usize) -> &[u8]
    ensures { result.now ≡ take count bytes.now }
{
    &bytes[..count.min(bytes.len())]
}

/// Returns the last `count` bytes, or all bytes if there are fewer.
pub fn last_bytes(bytes: &[u8], count: usize) -> &[u8]
    ensures { result.now ≡ drop (length bytes.now - count) bytes.now }
{
    &bytes[bytes.len().saturating_sub(count)..]
}

/// Returns line `number` of a text, counted from 0, without its newline. Returns no bytes if the
/// text has fewer lines.
pub fn line_of(text: &[u8], number: usize) -> &[u8]
    ensures { result.now ≡ line_number number text.now }
{
    let mut lines: Parts<'_, b'\n'> = Parts::new(text);
    'skips: for _ in 0..number {
        lines.next_part();
    }
    match lines.next_part() {
        Some(line) => line,
        None => b"".as_slice(),
    }
}

/// Parses a path. Returns `None` if the text isn't a path, or if memory runs out.
pub fn path_of(alloc: Global, text: &str) -> Option<Path>
    ensures path { IfSome result (λ path. path ≡ text.now) }
    ensures other { is_path text.now ≡ false → result ≡ None }
{
    match Path::read(alloc, text.as_bytes()) {
        Ok(path) => path,
        Err(_) => None,
    }
}

/// Returns an out-of-memory error. It is the error of an allocation of more bytes than can be
/// addressed, which always fails.
pub fn no_memory(alloc: Global) -> NoMemory {
    match Vec::<u8>::with_capacity(alloc, usize::MAX) {
        Ok(_) => unreachable!(),
        Err(refused) => NoMemory::from(refused),
    }
}
