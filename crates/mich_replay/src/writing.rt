// Lines that are written, each by one call of the sink's.
ghost use Rattle.std.specs.Prelude.{◌<◌, [], ◌∷◌, OnOk, OnErr, IsErrOf};
ghost use Rattle.rules_text.specs.streams.Causes.{HasCause};
ghost use Rattle.rules_world.specs.lines.Nodes.{line, group_node};
ghost use Rattle.rules_world.specs.world.Receipts.{Receipt};
ghost use Rattle.mich_replay.specs.Coming.{Grows};
ghost use Rattle.mich_replay.specs.Output.{Writes, WritesFront, output};
ghost use Rattle.mich_replay.specs.Steps.{Tells, groups_of};

use crate::steps::last_number;
use mich_base::Texts;
use mich_group::course::Course;
use mich_io::{Sink, SinkFault, Stop, write_all};
use mich_ops::GroupReceipt;
use mich_report::receipt_text;
use std::alloc::Global;

/// Writes a line.
pub(crate) fn write_line<K: Sink>(out: &mut K, line: &[u8]) -> Result<(), Stop>
    ensures ok { OnOk result (Writes (output (K.written out.old) (K.handed out.old)) (output (K.written out.new) (K.handed out.new)) (line.now ∷ [])) }
    ensures err { OnErr result (WritesFront (output (K.written out.old) (K.handed out.old)) (output (K.written out.new) (K.handed out.new)) (line.now ∷ [])) }
    ensures no_read { IsErrOf result Stop.Read → ⊥ }
    ensures cause { HasCause Stop.Write (K.faults out.old) (K.faults out.new) result }
{
    match write_all(out, line) {
        Ok(()) => Ok(()),
        Err(SinkFault::Failed) => Err(Stop::Write),
        Err(SinkFault::Memory) => Err(Stop::Memory),
    }
}

/// Writes lines, one after another.
pub(crate) fn write_lines<K: Sink>(out: &mut K, lines: &Texts) -> Result<(), Stop>
    ensures ok { OnOk result (Writes (output (K.written out.old) (K.handed out.old)) (output (K.written out.new) (K.handed out.new)) lines.now) }
    ensures err { OnErr result (WritesFront (output (K.written out.old) (K.handed out.old)) (output (K.written out.new) (K.handed out.new)) lines.now) }
    ensures no_read { IsErrOf result Stop.Read → ⊥ }
    ensures cause { HasCause Stop.Write (K.faults out.old) (K.faults out.new) result }
{
    'lines: for line in lines.as_slice() {
        write_line(out, line.as_slice())?;
    }
    Ok(())
}

/// Writes the line of the group that was the last.
pub(crate) fn write_group<K: Sink>(
    alloc: Global,
    course: &Option<Course>,
    told: &GroupReceipt,
    out: &mut K,
) -> Result<(), Stop>
    ensures ok { (found : Receipt) → Tells told.now found → OnOk result (Writes (output (K.written out.old) (K.handed out.old)) (output (K.written out.new) (K.handed out.new)) (line (group_node (groups_of course.now) found) ∷ [])) }
    ensures err { (found : Receipt) → Tells told.now found → OnErr result (WritesFront (output (K.written out.old) (K.handed out.old)) (output (K.written out.new) (K.handed out.new)) (line (group_node (groups_of course.now) found) ∷ [])) }
    ensures grows { Grows (K.written out.old) (K.written out.new) }
    ensures no_read { IsErrOf result Stop.Read → ⊥ }
    ensures cause { HasCause Stop.Write (K.faults out.old) (K.faults out.new) result }
{
    let line = receipt_text(alloc, last_number(course), told)?;
    write_line(out, line.as_slice())
}
