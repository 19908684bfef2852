//! Handing a text to a sink.
ghost use Rattle.std.specs.Prelude.{◌≡◌, ◌≢◌, ◌≤◌, length, Err};
ghost use Rattle.occam_base.specs.Counts.{Rose};
ghost use Rattle.occam_tool.specs.Printing.{PrintOf};

use occam_base::{Fault, Sink};

/// Hands over the text until all of it is taken. `Failed` comes only where the sink's count of faults rose.
pub fn print_text<O: Sink>(out: &mut O, text: &[u8]) -> Result<(), Fault>
    ensures gives { PrintOf (O.taken out.old) (O.taken out.new) text.now result }
    ensures failed { result ≡ Err Fault.Failed → Rose (O.faults out.old) (O.faults out.new) }
    ensures quiet { result ≢ Err Fault.Failed → O.faults out.new ≡ O.faults out.old }
    ensures never_falls { O.faults out.old ≤ O.faults out.new }
{
    let mut rest = text;
    while !rest.is_empty() {
        match out.write(rest) {
            Err(fault) => return Err(fault),
            Ok(0) => return Err(Fault::Failed),
            Ok(count) => rest = &rest[count..],
        }
    }
    Ok(())
}
