ghost use Rattle.std.specs.Prelude.{◌≡◌, ℕ, ◌+◌, ◌<◌, ◌≤◌, None, length, IfOk, IfSome, IsErrOf, vec_len};
ghost use Rattle.wt_outside.specs.Answers.{UnlessFailed};
ghost use Rattle.wt_outside.specs.Faults.{Rose, one_more};
ghost use Rattle.wt_real.specs.Takes.{TakesAtMost};

use std::alloc::Global;
use std::fs;
use std::io::Read;
use std::rt::Files;
use wt_outside::{Store, StoreFail};

/// How many bytes are asked for at once.
const CHUNK: u64 = 4096;

/// The host's files by their paths, and its standard input by the name `-`. It counts its reads.
#[derive(Drop)]
pub struct FileStore<R: Drop> {
    rt: R,
    reads: u64,
    faults: u64,
}

impl<R: Files + Input + AllocGlobal + Clone + Drop> FileStore<R> {
    /// The files that this runtime reaches.
    pub fn new(rt: R) -> FileStore<R>
        ensures { ⟦<FileStore<R> as Store>⟧.view.faults result ≡ 0 }
    {
        FileStore {
            rt,
            reads: 0,
            faults: 0,
        }
    }
}

impl<R: Files + Input + AllocGlobal + Clone + Drop> Store for FileStore<R> {
    ghost view = { record { files = λ s. None; faults = λ s. s.faults; asked = λ old name limit new. new.reads ≡ one_more old.reads } };

    fn read(&mut self, name: &str, limit: u64) -> Result<Vec<u8>, StoreFail> {
        let alloc = self.rt.alloc();
        self.reads = self.reads.saturating_add(1);
        if name == "-" {
            let mut input = self.rt.reader();
            return read_whole(alloc, &mut input, limit, &mut self.faults);
        }
        match fs::open(&self.rt, name) {
            Ok(mut file) => read_whole(alloc, &mut file, limit, &mut self.faults),
            Err(_) => {
                self.faults = self.faults.saturating_add(1);
                Err(StoreFail::Failed)
            }
        }
    }
}

/// Reads to the end, or one byte past the limit. An `Err` of the reader is one more fault.
fn read_whole<I: Read>(
    alloc: Global,
    input: &mut I,
    limit: u64,
    faults: &mut u64,
) -> Result<Vec<u8>, StoreFail>
    ensures within { IfOk result (λ bytes. vec_len bytes ≤ limit) }

    // All that a reader had left, where that is known.
    ensures whole { IfOk result (λ bytes. IfSome (I.remaining input.old) (λ left. left ≡ bytes.items)) }
    ensures longer { IsErrOf result StoreFail.TooLong → IfSome (I.remaining input.old) (λ left. limit < length left) }

    // Reading stops one byte past the limit.
    ensures stops { TakesAtMost (I.remaining input.old) (I.remaining input.new) (limit + 1) }

    ensures failed { IsErrOf result StoreFail.Failed → Rose faults.old faults.new }
    ensures steady { UnlessFailed result (faults.new ≡ faults.old) }
    ensures later { faults.old ≤ faults.new }
{
    let mut bytes = Vec::new(alloc);
    let mut chunk = [0u8; CHUNK as usize];
    while bytes.len() as u64 <= limit {
        let room = (limit - bytes.len() as u64).saturating_add(1).min(CHUNK) as usize;
        match input.read(&mut chunk[..room]) {
            Ok(0) => return Ok(bytes),
            Ok(count) => {
                if bytes.extend_from_slice(&chunk[..count]).is_err() {
                    return Err(StoreFail::NoMemory);
                }
            }
            Err(_) => {
                *faults = faults.saturating_add(1);
                return Err(StoreFail::Failed);
            }
        }
    }
    Err(StoreFail::TooLong)
}
