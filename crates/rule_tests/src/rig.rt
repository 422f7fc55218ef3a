//! A rig for the tests: a reading that a test fills several times, at increasing times. The rig
//! checks that the values are in range.
ghost use Rattle.std.specs.Prelude.{◌≡◌, None, Some};
ghost use Rattle.detectors.specs.Views.{IsAfter};

use crate::checks::{comes_last, is_group, is_host};
use detectors::{GroupReading, HostReading, Reading};
use psi_base::Ns;
use psi_spec::GroupLife;
use std::alloc::Global;
use std::process::Abort;

/// A reading, and the time (ns) at which it was last filled, or `None` if it wasn't filled yet.
#[derive(Drop)]
pub struct Rig {
    pub reading: Reading,
    last: Option<Ns>,
}

/// Adds groups to a reading. Checks that each is in range, and that its path comes after the
/// previous paths.
fn put_groups(rt: &impl Abort, reading: &mut Reading, groups: &[Option<GroupReading>])
    ensures lives { reading.new.lives ≡ reading.old.lives }
    ensures at { reading.new.seen.at ≡ reading.old.seen.at }
{
    'groups: for group in groups {
        if let Some(group) = group {
            assert!(rt;
                is_group(group, reading.lives().len()),
                "a group is out of range"
            );
            assert!(rt; comes_last(reading, group), "a group is out of order");
            reading.push(*group);
        }
    }
}

impl Rig {
    /// Makes a rig for the groups `lives`, indexed by slot. Its reading isn't filled yet.
    pub fn make(rt: &impl Abort, alloc: Global, lives: &[GroupLife]) -> Rig
        ensures lives { result.reading.lives ≡ lives.now }
        ensures last { result.last ≡ None }
    {
        assert!(rt; lives.len() <= 1024, "there are too many groups");
        Rig {
            reading: Reading::make(alloc, lives).expect(rt, "memory"),
            last: None,
        }
    }

    /// Fills the reading at a later time `at` (ns) with the host and the groups. The groups are in
    /// the byte order of their paths; `None` is a group that isn't live.
    pub fn read(
        &mut self,
        rt: &impl Abort,
        at: Ns,
        host: HostReading,
        groups: &[Option<GroupReading>],
    )
        ensures lives { self.new.reading.lives ≡ self.old.reading.lives }
        ensures later { IsAfter self.old.last self.new.reading.seen.at }
        ensures last { self.new.last ≡ Some self.new.reading.seen.at }
    {
        assert!(rt; is_host(&host), "the host is out of range");
        if self.last.is_some_and(|last| at <= last) {
            panic!(rt; "the moment isn't later");
        }
        self.reading.start(at, host);
        self.last = Some(at);
        put_groups(rt, &mut self.reading, groups);
    }
}
