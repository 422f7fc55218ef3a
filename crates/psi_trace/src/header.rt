//! Parses the header of a trace, which is the first line. The header contains the version of the
//! trace format and the number of processors. The module `write` writes headers.
ghost use Rattle.std.specs.Prelude.{◌≡◌, ◌≢◌, ℕ, ◌≤◌, ◌++◌, None, Some, IfSome, MatchOption, MatchResult, option_map};
ghost use Rattle.psi_base.specs.declared.event.Cause.TheVariants as cause;
ghost use Rattle.psi_spec.specs.Grammar.{header, header_of, versions};
ghost use Rattle.psi_spec.specs.Header.{IsVersion, header_with};
ghost use Rattle.psi_trace.specs.Heads.{before_cpus};

use psi_base::{Cause, read_number};

/// The contents of a trace's header.
#[derive(Clone, Copy, Debug, PartialEq, Eq)]
pub struct Header {
    /// The version of the trace format, 1 or 2.
    pub version: u32,
    /// The number of processors, 1 to 64.
    pub cpus: u32,
}

// Returns the version in a header, and the bytes after `cpus=`. Returns `None` if the line doesn't
// begin like a header of version 1 or 2.
fn version_in(line: &[u8]) -> Option<(u32, &[u8])>
    ensures { MatchOption result
        ((version n : ℕ) → IsVersion version → line.now ≢ header version n)
        (λ found. IsVersion found.0 × (line.now ≡ before_cpus found.0 ++ found.1.now)) }
{
    if let Some(number) = line.strip_prefix(b"psitrace 1 cpus=".as_slice()) {
        return Some((1, number));
    }
    if let Some(number) = line.strip_prefix(b"psitrace 2 cpus=".as_slice()) {
        return Some((2, number));
    }
    None
}

fn header_in(line: &[u8]) -> Option<Header>
    ensures version { IfSome result (λ head. IsVersion head.version) }
    ensures exact { header_of versions line.now
        ≡ option_map (λ head. header_with head.version head.cpus) result }
{
    let (version, number) = version_in(line)?;
    let cpus = read_number(number)?;
    if cpus < 1 || cpus > 64 {
        return None;
    }
    Some(Header {
        version,
        cpus: cpus as u32,
    })
}

/// Parses a header line, given without its newline. Fails with `BadHeader` if the line isn't a
/// header of version 1 or 2 with 1 to 64 processors.
pub fn read_header(line: &[u8]) -> Result<Header, Cause>
    ensures spelled { MatchResult result
        (λ head. IsVersion head.version × (1 ≤ head.cpus) × (head.cpus ≤ 64)
        × (line.now ≡ header head.version head.cpus))
        (λ e. (e ≡ cause.BadHeader)
        × ((version n : ℕ) → IsVersion version → 1 ≤ n → n ≤ 64 →
        line.now ≢ header version n)) }
    ensures exact { MatchResult result
        (λ head. header_of versions line.now ≡ Some (header_with head.version head.cpus))
        (λ _. header_of versions line.now ≡ None) }
{
    match header_in(line) {
        Some(head) => Ok(head),
        None => Err(Cause::BadHeader),
    }
}
