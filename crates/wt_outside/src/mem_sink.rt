ghost use Rattle.std.specs.Prelude.{◌≡◌, ◌<◌, ◌≤◌, [], Some, length, IfOk, OnOk, OnErr, is_ok};
ghost use Rattle.wt_outside.specs.Faults.{Rose};
ghost use Rattle.wt_outside.specs.Growth.{Grows, GrowsByPrefix};
ghost use Rattle.wt_outside.specs.MemBytes.{is_done, after_write};

use crate::sink::{Failed, Sink};
use std::alloc::Global;
use std::marker::Model;
use wt_params::NoMemory;

/// A sink in memory, with room for so many bytes. Its writes are numbered from 0, and those with the numbers it
/// was given fail.
#[derive(Drop)]
pub struct MemSink {
    bytes: Vec<u8>,
    room: u64,
    failing: Vec<u64>,
    kept: u64,
    writes: u64,
    faults: u64,
}

impl Model for MemSink {
    ghost use Rattle.std.specs.Prelude.{◌≤◌, vec_len};
    ghost use Rattle.std.specs.Vec.{vec_capacity};
    ghost use Rattle.wt_outside.specs.MemBytes.{MemBytes};

    ghost Value = { MemBytes };

    ghost view = { λ s. record { bytes = s.bytes.items; room = s.room; failing = s.failing.items; kept = s.kept; writes = s.writes; faults = s.faults } };

    ghost invariant = { λ s. (vec_len s.bytes ≤ s.room) × (s.room ≤ vec_capacity s.bytes) };
}

impl MemSink {
    /// An empty sink with room for `room` bytes, which it takes at once. The writes with the numbers in `failing`
    /// fail, each with its first `kept` bytes written.
    pub fn new(alloc: Global, room: u64, failing: Vec<u64>, kept: u64) -> Result<MemSink, NoMemory>
        ensures { IfOk result (λ sink. sink ≡ record { bytes = []; room = room; failing = failing.items; kept = kept; writes = 0; faults = 0 }) }
    {
        let bytes = Vec::with_capacity(alloc, room as usize)?;
        Ok(MemSink {
            bytes,
            room,
            failing,
            kept,
            writes: 0,
            faults: 0,
        })
    }

    /// What was written.
    pub fn bytes(&self) -> &[u8]
        ensures { result.now ≡ self.now.bytes }
    {
        &self.bytes
    }
}

impl Sink for MemSink {
    ghost view = { record { written = λ s. Some s.bytes; faults = λ s. s.faults } };

    fn write(&mut self, bytes: &[u8]) -> Result<(), Failed>
        requires { 0 < length bytes.now }

        // Which write fails, and what each adds.
        ensures done { is_ok result ≡ is_done self.old bytes.now }
        ensures next { self.new ≡ after_write self.old bytes.now }

        ensures ok { OnOk result (Grows (Some self.old.bytes) (Some self.new.bytes) bytes.now) }
        ensures err { OnErr result (GrowsByPrefix (Some self.old.bytes) (Some self.new.bytes) bytes.now) }
        ensures steady { OnOk result (self.new.faults ≡ self.old.faults) }
        ensures failed { OnErr result (Rose self.old.faults self.new.faults) }
        ensures later { self.old.faults ≤ self.new.faults }
    {
        let due = self.failing.contains(&self.writes);
        self.writes = self.writes.saturating_add(1);
        let space = self.room - self.bytes.len() as u64;
        let wanted = if due { self.kept } else { bytes.len() as u64 };
        let count = wanted.min(space).min(bytes.len() as u64) as usize;
        self.bytes.extend_from_slice(&bytes[..count]).unwrap();
        if due || count < bytes.len() {
            self.faults = self.faults.saturating_add(1);
            return Err(Failed);
        }
        Ok(())
    }
}
