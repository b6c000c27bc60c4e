use gate::OpenGate;
use std::test::Fail;
use wt_outside::{MemSink, MemStore};
use wwt_run::{out_of_memory, wwt, wwt_plain};

/// No words are refused. What each command writes is told by the worked commands of `wwt_rows`.
#[test]
fn a_call_answers_its_status(rt: HostRuntime) -> Result<(), Fail> {
    let alloc = rt.alloc();
    let mut store = MemStore::new(alloc, Vec::new(alloc), Vec::new(alloc));
    let mut out = MemSink::new(alloc, 4096, Vec::new(alloc), 0)?;
    let mut err = MemSink::new(alloc, 4096, Vec::new(alloc), 0)?;
    let status = wwt_plain(alloc, &[], &mut store, &mut out, &mut err);
    assert_eq!(rt; status.map(|status| status.code()), Some(2));
    assert_eq!(rt; out.bytes(), b"".as_slice());
    let mut full = MemSink::new(alloc, 4096, Vec::new(alloc), 0)?;
    assert_eq!(rt; out_of_memory(&mut full).code(), 10);
    assert_eq!(rt; full.bytes(), b"wwt: out of memory\n".as_slice());
    Ok(())
}

/// A run by two workers is left to threads. Here they find no machine.
#[test]
fn two_workers_are_left_to_threads(rt: HostRuntime) -> Result<(), Fail> {
    let alloc = rt.alloc();
    let mut words = Vec::new(alloc);
    for word in ["run", "--workers=02", "--", "m"] {
        words.push(String::from_str(alloc, word)?)?;
    }
    let mut store = MemStore::new(alloc, Vec::new(alloc), Vec::new(alloc));
    let mut out = MemSink::new(alloc, 4096, Vec::new(alloc), 0)?;
    let mut err = MemSink::new(alloc, 4096, Vec::new(alloc), 0)?;
    assert!(rt; wwt_plain(alloc, &words, &mut store, &mut out, &mut err).is_none());
    assert_eq!(rt; err.bytes(), b"".as_slice());
    let mut ran = None;
    let status = wwt(
        &rt, alloc, &words, &mut store, &mut out, &mut err, &OpenGate, &mut ran,
    );
    assert_eq!(rt; status.code(), 8);
    assert_eq!(rt; err.bytes(), b"wwt: cannot read m\n".as_slice());
    assert!(rt; ran.is_none());
    Ok(())
}
