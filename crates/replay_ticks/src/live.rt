//! Live samples: finds the slot of the watched path, and writes the lines of the samples.
//!
//! The worker pool (`Crew`) takes the samples.
ghost use Rattle.std.specs.Prelude.{◌≡◌, ◌<◌, ◌^◌, length, IfSome};
ghost use Rattle.std.specs.List.{All};
ghost use Rattle.outside.specs.Outside.{HasCause, SameInner};
ghost use Rattle.outside.specs.Calls.{PutsAll};
ghost use Rattle.psi_base.specs.declared.event.Slot.{Slot};
ghost use Rattle.psi_spec.specs.Stall.{number_of_slot};
ghost use Rattle.psi_counts.specs.Clock.{IsInTime};
ghost use Rattle.run_laws.specs.Live.{live_slot};
ghost use Rattle.clock_row.specs.declared.reader.Sample.{Sample};
ghost use Rattle.replay_ticks.specs.Replays.{AreInTime, samples_text, watches_text};

use outside::{Sink, WriteFailed};
use pressure_text::write_live;
use psi_base::{Cpu, Ns, Path, Slot};
use psi_spec::GroupLife;
use replay_workers::{Crew, Sample};
use tick_engine::is_live_at;

/// Returns the slot of the group that has the path `path` and is live at time `at` (ns), or `None`
/// if there is no such group.
pub(crate) fn watched_slot(lives: &[GroupLife], path: &Path, at: Ns) -> Option<Slot>
    requires few { length lives.now < 2 ^ 32 }
    ensures slot { number_of_slot result ≡ live_slot 0 lives.now path.now at }
    ensures made { IfSome result (λ (slot : Slot). slot.0 < length lives.now) }
{
    'lives: for slot in 0..lives.len() {
        let life = &lives[slot];
        if is_live_at(life, at) && life.path == *path {
            return Some(Slot(slot as u32));
        }
    }
    None
}

// Writes the lines of the live samples of one processor, at the tick at time `at` (ns).
#[tactic(auto, using(outside::proofs::Grows::growth))]
fn put_samples<K: Sink>(
    out: &mut K,
    at: Ns,
    cpu: Cpu,
    samples: &[Sample],
) -> Result<(), WriteFailed>
    requires { All (λ (sample : Sample). IsInTime sample.clock at) samples.now }
    ensures bytes { PutsAll (K.has out.old) (K.has out.new) result
        (samples_text at cpu.0 samples.now) }
    ensures cause { HasCause (K.faults out.old) (K.faults out.new) result }
    ensures below { SameInner (K.below out.old) (K.below out.new) }
{
    'samples: for sample in samples {
        let seven = sample.clock.opened(at);
        write_live(out, at, cpu, sample.count, seven)?;
    }
    Ok(())
}

/// Writes the lines of all live samples that the worker pool took in the last interval, for the
/// first `cpus` processors. `at` is the time (ns) of the tick.
#[tactic(auto, using(outside::proofs::Grows::growth))]
pub(crate) fn put_live<K: Sink>(
    out: &mut K,
    at: Ns,
    crew: &Crew<'_>,
    cpus: u32,
) -> Result<(), WriteFailed>
    requires { AreInTime cpus crew.now.watches at }
    ensures bytes { PutsAll (K.has out.old) (K.has out.new) result
        (watches_text at cpus crew.now.watches) }
    ensures cause { HasCause (K.faults out.old) (K.faults out.new) result }
    ensures below { SameInner (K.below out.old) (K.below out.new) }
{
    'cpus: for cpu in 0..cpus {
        put_samples(out, at, Cpu(cpu), crew.live(Cpu(cpu)))?;
    }
    Ok(())
}
