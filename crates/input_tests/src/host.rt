use std::test::Fail;
use wt_outside::{Failed, Sink, Store, StoreFail};
use wt_real::{ErrSink, FileStore, OutSink};

#[test]
fn a_missing_file_cannot_be_read(rt: HostRuntime) {
    let mut store = FileStore::new(rt);
    assert_eq!(rt;
        store.read("no such folder/file", 10).err(),
        Some(StoreFail::Failed)
    );
}

#[test]
fn all_bytes_reach_the_writer(rt: HostRuntime) -> Result<(), Fail> {
    let mut written: Vec<u8> = Vec::new(rt.alloc());
    let mut sink = OutSink::new(&mut written);
    assert_eq!(rt; sink.write(b"two"), Ok(()));
    assert_eq!(rt; sink.write(b" lines"), Ok(()));
    drop(sink);
    assert_eq!(rt; written.as_slice(), b"two lines".as_slice());
    Ok(())
}

#[test]
fn a_full_writer_is_a_fault(rt: HostRuntime) {
    let mut room = [0u8; 3];
    let mut sink = ErrSink::new(room.as_mut_slice());
    assert_eq!(rt; sink.write(b"four"), Err(Failed));
}
