ghost use Rattle.std.specs.Prelude.{◌≡◌, ◌≢◌, ℕ, ◌≤◌, [], None, take, OnOk, OnErr};
ghost use Rattle.std.specs.Io.KnownBytes.{Appends};
ghost use Rattle.wt_outside.specs.Faults.{Rose};

use std::io::Write;
use wt_outside::{Failed, Sink};

/// The sink of the program's output, over its standard output.
pub type OutSink<W> = StreamSink<W>;

/// The sink of the program's error line, over its standard error.
pub type ErrSink<W> = StreamSink<W>;

/// A sink over a writer of std.
#[derive(Drop)]
pub struct StreamSink<W: Drop> {
    writer: W,
    faults: u64,
}

impl<W: Write + Drop> StreamSink<W> {
    /// A sink over this writer.
    pub fn new(writer: W) -> StreamSink<W>
        ensures { ⟦<StreamSink<W> as Sink>⟧.view.faults result ≡ 0 }
    {
        StreamSink { writer, faults: 0 }
    }
}

impl<W: Write + Drop> Sink for StreamSink<W> {
    ghost view = { record { written = λ s. None; faults = λ s. s.faults } };

    fn write(&mut self, bytes: &[u8]) -> Result<(), Failed> {
        write_whole(&mut self.writer, bytes, &mut self.faults)
    }
}

/// Writes all of the bytes. An `Err` of the writer is one more fault, and so is a write that takes none of them.
fn write_whole<W: Write>(writer: &mut W, bytes: &[u8], faults: &mut u64) -> Result<(), Failed>
    // What a writer holds, where that is known.
    ensures ok { OnOk result (Appends (W.contents writer.old) (W.contents writer.new) bytes.now) }
    ensures err { OnErr result ((count : ℕ) × Appends (W.contents writer.old) (W.contents writer.new) (take count bytes.now)) }

    ensures steady { OnOk result (faults.new ≡ faults.old) }
    ensures failed { OnErr result (Rose faults.old faults.new) }
    ensures later { faults.old ≤ faults.new }
{
    let mut rest = bytes;
    while !rest.is_empty() {
        match writer.write(rest) {
            Ok(0) | Err(_) => {
                *faults = faults.saturating_add(1);
                return Err(Failed);
            }
            Ok(count) => rest = &rest[count..],
        }
    }
    Ok(())
}
