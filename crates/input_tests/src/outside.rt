use std::test::Fail;
use wt_outside::{Failed, MemSink, MemStore, Sink, Store, StoreFail};

/// One read, and then one write, of any store and any sink.
fn copy<S: Store, K: Sink>(
    store: &mut S,
    sink: &mut K,
    name: &str,
    limit: u64,
) -> Result<Result<(), Failed>, StoreFail> {
    let bytes = store.read(name, limit)?;
    if bytes.is_empty() {
        return Ok(Ok(()));
    }
    Ok(sink.write(&bytes))
}

#[test]
fn the_fakes_answer_as_they_are_told(rt: HostRuntime) -> Result<(), Fail> {
    let alloc = rt.alloc();
    let mut files = Vec::new(alloc);
    files.push((String::from_str(alloc, "a")?, b"seven b".to_vec(alloc)?))?;
    files.push((String::from_str(alloc, "-")?, Vec::new(alloc)))?;
    let mut store = MemStore::new(alloc, files, [2].to_vec(alloc)?);
    let mut sink = MemSink::new(alloc, 16, [1].to_vec(alloc)?, 3)?;
    // The name, the limit, the answer, and what stands in the sink then.
    let rows: [(&str, u64, Result<Result<(), Failed>, StoreFail>, &[u8]); 8] = [
        ("a", 7, Ok(Ok(())), b"seven b"),
        ("a", 6, Err(StoreFail::TooLong), b"seven b"),
        ("a", 9, Err(StoreFail::Failed), b"seven b"),
        ("a", 9, Ok(Err(Failed)), b"seven bsev"),
        ("b", 9, Err(StoreFail::Failed), b"seven bsev"),
        ("-", 0, Ok(Ok(())), b"seven bsev"),
        ("a", 9, Ok(Err(Failed)), b"seven bsevseven "),
        ("a", 7, Ok(Err(Failed)), b"seven bsevseven "),
    ];
    for (name, limit, wanted, written) in rows {
        assert_eq!(rt;
            copy(&mut store, &mut sink, name, limit),
            wanted,
            "{name} {limit}"
        );
        assert_eq!(rt; sink.bytes(), written);
    }
    Ok(())
}
