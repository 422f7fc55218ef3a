//! The command `rules`, which prints rules as one line of text.
//!
//! The line is built in memory before the output begins. Therefore nothing is written if memory
//! runs out.
ghost use Rattle.std.specs.Prelude.{◌≡◌, ◌+◌, ◌≤◌, ◌++◌, IfOk, IfSome, IsUtf8, codes};
ghost use Rattle.outside.specs.Outside.{SameInner};
ghost use Rattle.dropin_rules.specs.RulesText.{rules_text};
ghost use Rattle.run_spec.specs.MostRead.{most_read};
ghost use Rattle.run_spec.specs.Run.{Runs, run_counts};
ghost use Rattle.run_spec.specs.ReadOrder.{ReadsInOrder};
ghost use Rattle.run_spec.specs.Stops.{StopsAtRefusal};
ghost use Rattle.run_outcomes.specs.Writes.{WritesText};

use crate::rules::read_joined;
use dropin_rules::write_rules;
use outside::{Shelf, Sink, WriteFailed, put_all};
use psi_base::{NoMemory, Text};
use ruleset_json::Rules;
use run_spec::{Command, Status};
use std::alloc::Global;

// Returns the printed line of the rules, with its newline.
fn rules_line(alloc: Global, rules: &Rules) -> Result<Vec<u8>, NoMemory>
    ensures { IfOk result (λ line. line.items ≡ rules_text rules.now.rules ++ codes "\n") }
{
    let mut line = Vec::new(alloc);
    write_rules(rules, &mut line)?;
    line.push(b'\n')?;
    Ok(line)
}

fn put_line<K: Sink>(line: &[u8], out: &mut K) -> Status
    ensures writes { WritesText line.now (K.faults out.old) (K.faults out.new)
        (K.has out.old) (K.has out.new) result }
    ensures below { SameInner (K.below out.old) (K.below out.new) }
{
    match put_all(out, line) {
        Ok(()) => Status::Done,
        Err(WriteFailed) => Status::WriteFault,
    }
}

// Writes the rules as one line. Writes nothing if memory runs out.
fn print_rules<K: Sink>(alloc: Global, rules: &Rules, out: &mut K) -> Status
    ensures writes { WritesText (rules_text rules.now.rules ++ codes "\n")
        (K.faults out.old) (K.faults out.new) (K.has out.old) (K.has out.new) result }
    ensures below { SameInner (K.below out.old) (K.below out.new) }
{
    match rules_line(alloc, rules) {
        Ok(line) => put_line(&line, out),
        Err(none) => Status::NoMemory(none),
    }
}

/// Runs the command `rules` for the rules file `name`, with the drop-in file `drop_in` if it isn't
/// `None`. Returns the status of the run.
pub fn run_rules<S: Shelf, K: Sink>(
    alloc: Global,
    name: &str,
    drop_in: &Option<Text>,
    shelf: &mut S,
    out: &mut K,
) -> Status
    requires text { IfSome drop_in.now IsUtf8 }
    ensures unchanged { S.holds shelf.new ≡ S.holds shelf.old }
    ensures runs { Runs (Command.Rules name.now drop_in.now) (S.holds shelf.old)
        (run_counts (S.faults shelf.old) (S.absent shelf.old) (K.faults out.old))
        (run_counts (S.faults shelf.new) (S.absent shelf.new) (K.faults out.new))
        (K.has out.old) (K.has out.new) result }
    ensures reads { S.bytes_read shelf.new
        ≤ S.bytes_read shelf.old + most_read (Command.Rules name.now drop_in.now) }
    ensures stops { StopsAtRefusal (Command.Rules name.now drop_in.now) (S.holds shelf.old)
        (S.bytes_read shelf.old) (S.bytes_read shelf.new) result }
    ensures below { SameInner (K.below out.old) (K.below out.new) }
    ensures order { ReadsInOrder (Command.Rules name.now drop_in.now) (S.holds shelf.old)
        (S.reads shelf.old) (S.reads shelf.new) result }
{
    match read_joined(alloc, name, drop_in, shelf) {
        Ok(rules) => print_rules(alloc, &rules, out),
        Err(status) => status,
    }
}
