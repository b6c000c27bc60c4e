//! The program `wwt`: its command line over the host's files and streams.
#![tactic(auto)]

use gate::OpenGate;
use std::process::ExitCode;
use std::rt::Env;
use std::{env, io};
use wt_real::{ErrSink, FileStore, OutSink};
use wwt_run::{out_of_memory, wwt};

fn main(rt: HostRuntime) -> ExitCode {
    let mut store = FileStore::new(rt);
    let mut out = OutSink::new(rt.stdout());
    let mut err = ErrSink::new(rt.stderr());
    let (alloc, mut ran) = (rt.alloc(), None);
    let status = match words(&rt) {
        Ok(words) => wwt(
            &rt, alloc, &words, &mut store, &mut out, &mut err, &OpenGate, &mut ran,
        ),
        Err(error) if error.kind() == io::ErrorKind::OutOfMemory => out_of_memory(&mut err),
        // A word that isn't text is refused as no words are.
        Err(_) => wwt(
            &rt,
            alloc,
            &[],
            &mut store,
            &mut out,
            &mut err,
            &OpenGate,
            &mut ran,
        ),
    };
    ExitCode::from(status.code())
}

/// The words of the command line after the program's own name.
fn words(rt: &(impl Env + AllocGlobal)) -> io::Result<Vec<String>> {
    let words = env::args(rt)?.skip(1).collect(rt.alloc())?;
    Ok(words)
}
