use priv_mem::{MemFault, PrivMem};
use std::test::Fail;

#[test]
fn the_end_of_a_page(rt: HostRuntime) -> Result<(), Fail> {
    let mut memory = PrivMem::new(rt.alloc(), 4096)?;
    assert!(rt; memory.store(4092, 4, 0x0102_0304) == Ok(()));
    assert!(rt; memory.load(4094, 2) == Ok(0x0102));
    assert!(rt; memory.load(4093, 2) == Err(MemFault::Misaligned));
    assert!(rt; memory.load(4096, 1) == Err(MemFault::Outside));
    assert!(rt; memory.load(4097, 2) == Err(MemFault::Misaligned));
    assert!(rt; memory.store(4094, 4, 0) == Err(MemFault::Misaligned));
    assert!(rt; memory.load(4092, 4) == Ok(0x0102_0304));

    assert!(rt; memory.fill(4093, [0xaa, 0xbb].as_slice()) == Ok(()));
    assert!(rt; memory.fill(4093, [0, 0, 0, 0].as_slice()) == Err(MemFault::Outside));
    assert!(rt; memory.fill(5000, [].as_slice()) == Ok(()));
    assert!(rt; memory.bytes().len() == 4096);
    assert!(rt; memory.load(4092, 4) == Ok(0x01bb_aa04));
    assert!(rt; memory.load(4088, 4) == Ok(0));
    Ok(())
}
