ghost use Rattle.std.specs.Prelude.{◌≡◌, ◌≤◌, ◌⊎◌, [], Some, IfOk, IsSome, IsErrOf, vec_len};
ghost use Rattle.std.specs.Option.{option_map};
ghost use Rattle.std.specs.FinMap.{get};
ghost use Rattle.wt_outside.specs.Answers.{UnlessFailed};
ghost use Rattle.wt_outside.specs.Faults.{Rose, Stood};
ghost use Rattle.wt_outside.specs.Files.{IsMissing, HoldsThere, IsLonger};
ghost use Rattle.wt_outside.specs.MemFiles.{AreNamedApart, IsGiven, files_of, given, after_read};

use crate::store::{Store, StoreFail};
use std::alloc::Global;
use std::marker::Model;

/// A store in memory. Its reads are numbered from 0, and those with the numbers it was given fail.
#[derive(Drop)]
pub struct MemStore {
    alloc: Global,
    files: Vec<(String, Vec<u8>)>,
    failing: Vec<u64>,
    reads: u64,
    faults: u64,
}

impl Model for MemStore {
    ghost use Rattle.wt_outside.specs.MemFiles.{MemFiles, coded_files, files_of};

    ghost Value = { MemFiles };

    ghost coded = { coded_files };

    ghost view = { λ s. record { files = files_of s.files.items; failing = s.failing.items; reads = s.reads; faults = s.faults } };
}

impl MemStore {
    /// A store of these files, each a name and its bytes, of which the reads with the numbers in `failing` fail.
    pub fn new(alloc: Global, files: Vec<(String, Vec<u8>)>, failing: Vec<u64>) -> MemStore
        requires { AreNamedApart files.items }
        ensures { result ≡ record { files = files_of files.items; failing = failing.items; reads = 0; faults = 0 } }
    {
        MemStore {
            alloc,
            files,
            failing,
            reads: 0,
            faults: 0,
        }
    }
}

/// The bytes of the first file of that name.
fn find<'a>(files: &'a [(String, Vec<u8>)], name: &str) -> Option<&'a [u8]>
    ensures { option_map (λ bytes. bytes.now) result ≡ get (files_of files.now) name.now }
{
    for (file, bytes) in files {
        if name == file.as_str() {
            return Some(bytes.as_slice());
        }
    }
    None
}

impl Store for MemStore {
    ghost view = { record { files = λ s. Some s.files; faults = λ s. s.faults; asked = λ old name limit new. new ≡ after_read old } };

    fn read(&mut self, name: &str, limit: u64) -> Result<Vec<u8>, StoreFail>
        // Which read fails, and what the others give.
        ensures given { IsGiven result (given self.old name.now limit) }
        ensures next { self.new ≡ after_read self.old }

        ensures files { self.new.files ≡ self.old.files }
        ensures within { IfOk result (λ bytes. vec_len bytes ≤ limit) }
        ensures content { IfOk result (λ bytes. HoldsThere (Some self.old.files) name.now bytes.items) }
        ensures failed { IsErrOf result StoreFail.Failed → Rose self.old.faults self.new.faults ⊎ IsMissing (Some self.old.files) name.now }
        ensures missing { IsMissing (Some self.old.files) name.now → Stood self.old.faults self.new.faults → IsErrOf result StoreFail.Failed }
        ensures too_long { IsErrOf result StoreFail.TooLong → Stood self.old.faults self.new.faults × IsLonger (Some self.old.files) name.now limit }
        ensures longer { IsLonger (Some self.old.files) name.now limit → Stood self.old.faults self.new.faults → IsErrOf result StoreFail.TooLong }
        ensures steady { UnlessFailed result (self.new.faults ≡ self.old.faults) }
        ensures later { self.old.faults ≤ self.new.faults }
    {
        let due = self.failing.contains(&self.reads);
        self.reads = self.reads.saturating_add(1);
        if due {
            self.faults = self.faults.saturating_add(1);
            return Err(StoreFail::Failed);
        }
        let Some(bytes) = find(&self.files, name) else {
            return Err(StoreFail::Failed);
        };
        if bytes.len() as u64 <= limit {
            return match bytes.to_vec(self.alloc) {
                Ok(copy) => Ok(copy),
                Err(_) => Err(StoreFail::NoMemory),
            };
        }
        if self.faults == u64::MAX {
            return Err(StoreFail::Failed);
        }
        Err(StoreFail::TooLong)
    }
}
