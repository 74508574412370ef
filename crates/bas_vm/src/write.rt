ghost use Rattle.std.specs.Prelude.{◌≡◌, ◌++◌, OnOk, Option};
ghost use Rattle.std.specs.Option.{option_map};
ghost use Rattle.bas_world.specs.Count.{CountMoves};
ghost use Rattle.bas_world.specs.Faults.{sink_failed};
ghost use Rattle.bas_vm.specs.Took.{TookPrefix, TookAll};

use bas_world::{Sink, SinkFail};

/// Writes all the bytes, however few of them the sink takes at a time. After a failure it took some
/// of them, from the front.
pub fn write_all<O: Sink>(out: &mut O, bytes: &[u8]) -> Result<(), SinkFail>
    ensures all { OnOk result (TookAll (O.taken out.old) (O.taken out.new) bytes.now) }
    ensures prefix { TookPrefix (O.taken out.old) (O.taken out.new) bytes.now }
    ensures counted { CountMoves (sink_failed result) (O.faults out.old) (O.faults out.new) }
{
    let mut rest = bytes;
    while !rest.is_empty() {
        let count = out.write(rest)?;
        rest = &rest[count..];
    }
    Ok(())
}
