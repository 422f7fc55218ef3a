//! Parses an event line of a trace. The module doesn't check whether the event is legal after the
//! earlier events: task_table does.
ghost use Rattle.std.specs.Prelude.{◌≡◌, ◌≢◌, IfOk, Err, drop, true};
ghost use Rattle.psi_base.specs.Path.{parts_at};
ghost use Rattle.psi_base.specs.declared.event.Cause.{Cause};
ghost use Rattle.psi_base.specs.declared.event.Event.{Event};
ghost use Rattle.psi_spec.specs.Grammar as verb;
ghost use Rattle.psi_spec.specs.Grammar.{Fits, IsKnown, act_at, act_from, act_in, event_of, spelling, verb_of, verbs_of};
ghost use Rattle.psi_spec.specs.Header.{IsVersion, version_of};
ghost use Rattle.psi_spec.specs.LineLaws.{IsCause};
ghost use Rattle.psi_base.specs.declared.event.Fault.TheVariants as fault;
ghost use Rattle.psi_base.specs.Gives.{Gives, out_of_memory};
ghost use Rattle.psi_trace.specs.Taking.{dated, names_path, takes_path};

use crate::field::{
    Words, account_field, amount_field, cpu_field, end_of, how_field, level_field, next_field,
    number_field, path_field, pid_field, preference_field, resource_field,
};
use psi_base::{Act, Cause, Event, Fault, Ns, Parts, read_number};
use std::alloc::Global;

// Each function from here to `end_of_trace` parses the fields of one verb, and returns the event at
// the time `at` (ns). The functions build their result in place, so that nothing is copied. They
// are inlined, because otherwise the memory for their results would be cleared for every line,
// regardless of the line's verb.

#[tactic(auto, unfolding(psi_spec::specs::Grammar::act_from))]
#[inline(always)]
fn switch_of(at: Ns, mut words: Words) -> Result<Event, Fault<Cause>>
    ensures exact { Gives result (dated at (act_from verb.Switch words.entry)) }
    ensures memory { result ≢ Err out_of_memory }
{
    let cpu = cpu_field(&mut words, 1)?;
    let next = next_field(&mut words, 2)?;
    let how = how_field(&mut words, 3)?;
    end_of(&mut words, 4)?;
    let act = Act::Switch { cpu, next, how };
    Ok(Event { at, act })
}

#[tactic(auto, unfolding(psi_spec::specs::Grammar::act_from))]
#[inline(always)]
fn wake_of(at: Ns, mut words: Words) -> Result<Event, Fault<Cause>>
    ensures exact { Gives result (dated at (act_from verb.Wake words.entry)) }
    ensures memory { result ≢ Err out_of_memory }
{
    let pid = pid_field(&mut words, 1)?;
    let cpu = cpu_field(&mut words, 2)?;
    end_of(&mut words, 3)?;
    let act = Act::Wake { pid, cpu };
    Ok(Event { at, act })
}

#[tactic(auto, unfolding(psi_spec::specs::Grammar::act_from))]
#[inline(always)]
fn stall_of(at: Ns, mut words: Words) -> Result<Event, Fault<Cause>>
    ensures exact { Gives result (dated at (act_from verb.Stall words.entry)) }
    ensures memory { result ≢ Err out_of_memory }
{
    let pid = pid_field(&mut words, 1)?;
    end_of(&mut words, 2)?;
    let act = Act::Stall { pid };
    Ok(Event { at, act })
}

#[tactic(auto, unfolding(psi_spec::specs::Grammar::act_from))]
#[inline(always)]
fn unstall_of(at: Ns, mut words: Words) -> Result<Event, Fault<Cause>>
    ensures exact { Gives result (dated at (act_from verb.Unstall words.entry)) }
    ensures memory { result ≢ Err out_of_memory }
{
    let pid = pid_field(&mut words, 1)?;
    end_of(&mut words, 2)?;
    let act = Act::Unstall { pid };
    Ok(Event { at, act })
}

#[tactic(auto, unfolding(psi_spec::specs::Grammar::act_from))]
#[inline(always)]
fn migrate_of(at: Ns, mut words: Words) -> Result<Event, Fault<Cause>>
    ensures exact { Gives result (dated at (act_from verb.Migrate words.entry)) }
    ensures memory { result ≢ Err out_of_memory }
{
    let pid = pid_field(&mut words, 1)?;
    let cpu = cpu_field(&mut words, 2)?;
    end_of(&mut words, 3)?;
    let act = Act::Migrate { pid, cpu };
    Ok(Event { at, act })
}

#[tactic(auto, unfolding(psi_spec::specs::Grammar::act_from))]
#[inline(always)]
fn move_of(alloc: Global, at: Ns, mut words: Words) -> Result<Event, Fault<Cause>>
    ensures { Gives result (dated at (act_from verb.Move words.entry)) }
{
    let pid = pid_field(&mut words, 1)?;
    let path = path_field(alloc, &mut words, 2)?;
    end_of(&mut words, 3)?;
    let act = Act::Move { pid, path };
    Ok(Event { at, act })
}

#[tactic(auto, unfolding(psi_spec::specs::Grammar::act_from))]
#[inline(always)]
fn fork_of(alloc: Global, at: Ns, mut words: Words) -> Result<Event, Fault<Cause>>
    ensures { Gives result (dated at (act_from verb.Fork words.entry)) }
{
    let pid = pid_field(&mut words, 1)?;
    let path = path_field(alloc, &mut words, 2)?;
    let cpu = cpu_field(&mut words, 3)?;
    end_of(&mut words, 4)?;
    let act = Act::Fork { pid, path, cpu };
    Ok(Event { at, act })
}

#[tactic(auto, unfolding(psi_spec::specs::Grammar::act_from))]
#[inline(always)]
fn mem_of(alloc: Global, at: Ns, mut words: Words) -> Result<Event, Fault<Cause>>
    ensures { Gives result (dated at (act_from verb.Mem words.entry)) }
{
    let path = path_field(alloc, &mut words, 1)?;
    let current = amount_field(&mut words, 2)?;
    let swap = amount_field(&mut words, 3)?;
    let scan = amount_field(&mut words, 4)?;
    end_of(&mut words, 5)?;
    let act = Act::Mem {
        path,
        current,
        swap,
        scan,
    };
    Ok(Event { at, act })
}

#[tactic(auto, unfolding(psi_spec::specs::Grammar::act_from))]
#[inline(always)]
fn host_of(at: Ns, mut words: Words) -> Result<Event, Fault<Cause>>
    ensures exact { Gives result (dated at (act_from verb.Host words.entry)) }
    ensures memory { result ≢ Err out_of_memory }
{
    let mem_total = amount_field(&mut words, 1)?;
    let swap_total = amount_field(&mut words, 2)?;
    let swap_free = amount_field(&mut words, 3)?;
    end_of(&mut words, 4)?;
    let act = Act::Host {
        mem_total,
        swap_total,
        swap_free,
    };
    Ok(Event { at, act })
}

#[tactic(auto, unfolding(psi_spec::specs::Grammar::act_from))]
#[inline(always)]
fn group_of(alloc: Global, at: Ns, mut words: Words) -> Result<Event, Fault<Cause>>
    ensures { Gives result (dated at (act_from verb.Group words.entry)) }
{
    let path = path_field(alloc, &mut words, 1)?;
    end_of(&mut words, 2)?;
    let act = Act::Group { path };
    Ok(Event { at, act })
}

#[tactic(auto, unfolding(psi_spec::specs::Grammar::act_from))]
#[inline(always)]
fn rmgroup_of(alloc: Global, at: Ns, mut words: Words) -> Result<Event, Fault<Cause>>
    ensures { Gives result (dated at (act_from verb.Remove words.entry)) }
{
    let path = path_field(alloc, &mut words, 1)?;
    end_of(&mut words, 2)?;
    let act = Act::Remove { path };
    Ok(Event { at, act })
}

#[tactic(auto, unfolding(psi_spec::specs::Grammar::act_from))]
#[inline(always)]
fn prefer_of(alloc: Global, at: Ns, mut words: Words) -> Result<Event, Fault<Cause>>
    ensures { Gives result (dated at (act_from verb.Prefer words.entry)) }
{
    let path = path_field(alloc, &mut words, 1)?;
    let preference = preference_field(&mut words, 2)?;
    end_of(&mut words, 3)?;
    let act = Act::Prefer { path, preference };
    Ok(Event { at, act })
}

#[tactic(auto, unfolding(psi_spec::specs::Grammar::act_from))]
#[inline(always)]
fn trigger_of(alloc: Global, at: Ns, mut words: Words) -> Result<Event, Fault<Cause>>
    ensures { Gives result (dated at (act_from verb.Trigger words.entry)) }
{
    let path = path_field(alloc, &mut words, 1)?;
    let res = resource_field(&mut words, 2)?;
    let level = level_field(&mut words, 3)?;
    let threshold_us = number_field(&mut words, 4)?;
    let window_us = number_field(&mut words, 5)?;
    end_of(&mut words, 6)?;
    let act = Act::Trigger {
        path,
        res,
        level,
        threshold_us,
        window_us,
    };
    Ok(Event { at, act })
}

#[tactic(auto, unfolding(psi_spec::specs::Grammar::act_from))]
#[inline(always)]
fn irq_of(at: Ns, mut words: Words) -> Result<Event, Fault<Cause>>
    ensures exact { Gives result (dated at (act_from verb.Irq words.entry)) }
    ensures memory { result ≢ Err out_of_memory }
{
    let cpu = cpu_field(&mut words, 1)?;
    let ns = number_field(&mut words, 2)?;
    end_of(&mut words, 3)?;
    let act = Act::Irq { cpu, ns };
    Ok(Event { at, act })
}

#[tactic(auto, unfolding(psi_spec::specs::Grammar::act_from))]
#[inline(always)]
fn pressure_of(alloc: Global, at: Ns, mut words: Words) -> Result<Event, Fault<Cause>>
    ensures { Gives result (dated at (act_from verb.Pressure words.entry)) }
{
    let path = path_field(alloc, &mut words, 1)?;
    let on = account_field(&mut words, 2)?;
    end_of(&mut words, 3)?;
    let act = Act::Pressure { path, on };
    Ok(Event { at, act })
}

#[tactic(auto, unfolding(psi_spec::specs::Grammar::act_from))]
#[inline(always)]
fn end_of_trace(at: Ns, mut words: Words) -> Result<Event, Fault<Cause>>
    ensures exact { Gives result (dated at (act_from verb.End words.entry)) }
    ensures memory { result ≢ Err out_of_memory }
{
    end_of(&mut words, 1)?;
    let act = Act::End;
    Ok(Event { at, act })
}

// Parses the next word as the verb, and then the verb's fields. Returns the event at the time `at`
// (ns). The most frequent verbs are tested first. The tests are split over three functions, because
// the proof of each test repeats all earlier tests of the same function.
#[tactic(auto, unfolding(psi_spec::specs::Grammar::act_at, psi_spec::specs::Grammar::verb_of))]
fn event_at(alloc: Global, version: u32, at: Ns, mut words: Words) -> Result<Event, Fault<Cause>>
    ensures exact { Gives result (dated at (act_at (verbs_of (version_of version)) words.entry)) }
    ensures memory { result ≡ Err out_of_memory →
        names_path (verbs_of (version_of version)) words.entry ≡ true }
{
    let Some(verb) = words.next_part() else {
        return Err(Fault::Refused(Cause::BadVerb));
    };
    if verb == b"switch".as_slice() {
        switch_of(at, words)
    } else if verb == b"wake".as_slice() {
        wake_of(at, words)
    } else if verb == b"stall".as_slice() {
        stall_of(at, words)
    } else if verb == b"unstall".as_slice() {
        unstall_of(at, words)
    } else if verb == b"migrate".as_slice() {
        migrate_of(at, words)
    } else {
        rarer_event_at(alloc, version, at, verb, words)
    }
}

// Parses the fields of a verb that isn't one of the five most frequent verbs, and returns the event
// at the time `at` (ns). The function is inlined for the same reason as the functions of single
// verbs.
#[tactic(auto, unfolding(psi_spec::specs::Grammar::verb_of))]
#[inline(always)]
fn rarer_event_at(
    alloc: Global,
    version: u32,
    at: Ns,
    verb: &[u8],
    words: Words,
) -> Result<Event, Fault<Cause>>
    ensures exact { Gives result (dated at
        (act_in (verb_of (drop 5 (verbs_of (version_of version))) verb.now) words.entry)) }
    ensures memory { result ≡ Err out_of_memory →
        takes_path (verb_of (drop 5 (verbs_of (version_of version))) verb.now) ≡ true }
{
    if verb == b"move".as_slice() {
        move_of(alloc, at, words)
    } else if verb == b"fork".as_slice() {
        fork_of(alloc, at, words)
    } else if verb == b"mem".as_slice() {
        mem_of(alloc, at, words)
    } else if verb == b"host".as_slice() {
        host_of(at, words)
    } else if verb == b"group".as_slice() {
        group_of(alloc, at, words)
    } else {
        rarest_event_at(alloc, version, at, verb, words)
    }
}

// Parses the fields of a verb that isn't one of the ten most frequent verbs, and returns the event
// at the time `at` (ns). The function is inlined for the same reason as the functions of single
// verbs.
#[tactic(auto, unfolding(psi_spec::specs::Grammar::verb_of))]
#[inline(always)]
fn rarest_event_at(
    alloc: Global,
    version: u32,
    at: Ns,
    verb: &[u8],
    words: Words,
) -> Result<Event, Fault<Cause>>
    ensures exact { Gives result (dated at
        (act_in (verb_of (drop 10 (verbs_of (version_of version))) verb.now) words.entry)) }
    ensures memory { result ≡ Err out_of_memory →
        takes_path (verb_of (drop 10 (verbs_of (version_of version))) verb.now) ≡ true }
{
    if verb == b"rmgroup".as_slice() {
        rmgroup_of(alloc, at, words)
    } else if verb == b"prefer".as_slice() {
        prefer_of(alloc, at, words)
    } else if verb == b"trigger".as_slice() {
        trigger_of(alloc, at, words)
    } else if verb == b"end".as_slice() {
        end_of_trace(at, words)
    } else if version == 2 && verb == b"irq".as_slice() {
        irq_of(at, words)
    } else if version == 2 && verb == b"pressure".as_slice() {
        pressure_of(alloc, at, words)
    } else {
        Err(Fault::Refused(Cause::BadVerb))
    }
}

// Parses a line of a trace of this version: a time (ns), a verb, and the verb's fields.
#[tactic(auto, unfolding(psi_spec::specs::Grammar::event_of, psi_spec::specs::Grammar::event_at))]
fn event_in(alloc: Global, version: u32, line: &[u8]) -> Result<Event, Fault<Cause>>
    ensures exact { Gives result (event_of (verbs_of (version_of version)) line.now) }
    ensures memory { result ≡ Err out_of_memory →
        names_path (verbs_of (version_of version)) (drop 1 (parts_at 32 line.now)) ≡ true }
{
    let mut words: Words = Parts::new(line);
    let Some(time) = words.next_part() else {
        return Err(Fault::Refused(Cause::BadTime));
    };
    let Some(at) = read_number(time) else {
        return Err(Fault::Refused(Cause::BadTime));
    };
    event_at(alloc, version, at, words)
}

/// Parses the line of an event, given without its newline, in a trace of version 1 or 2. Fails with
/// the first cause from the left: `BadTime`, `BadVerb`, or `BadField` with the number of the
/// leftmost field that is missing, malformed or surplus. Only paths are allocated, so `NoMemory` is
/// possible only for a verb with a path among its fields.
pub fn read_event(alloc: Global, version: u32, line: &[u8]) -> Result<Event, Fault<Cause>>
    requires version { IsVersion version }
    ensures exact { Gives result (event_of (verbs_of (version_of version)) line.now) }
    ensures found { IfOk result (λ event. Fits event
        × IsKnown (verbs_of (version_of version)) event × (line.now ≡ spelling event)) }
    ensures none { (why : Cause) → result ≡ Err (fault.Refused why) → (event : Event) →
        Fits event →
        IsKnown (verbs_of (version_of version)) event →
        line.now ≢ spelling event }
    ensures memory { result ≡ Err out_of_memory →
        names_path (verbs_of (version_of version)) (drop 1 (parts_at 32 line.now)) ≡ true }
    ensures cause { (why : Cause) → result ≡ Err (fault.Refused why) →
        IsCause (verbs_of (version_of version)) (parts_at 32 line.now) why }
{
    event_in(alloc, version, line)
}
