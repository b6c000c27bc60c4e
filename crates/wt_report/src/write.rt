ghost use Rattle.wt_outside.specs.Writes.{Writes};

use wt_outside::{Sink, WriteFault};
use wt_text::Line;

/// Writes a line by one call of the sink.
pub(crate) fn write_line<K: Sink>(line: &Line, out: &mut K) -> Result<(), WriteFault>
    ensures { Writes line.now result K.view out.old out.new }
{
    match out.write(line.as_bytes()) {
        Ok(()) => Ok(()),
        Err(_) => Err(WriteFault::Failed),
    }
}
