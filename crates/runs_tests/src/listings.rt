use elf_image::read_flat;
use std::test::Fail;
use test_machines::one_node;
use test_programs::program;
use wt_listing::{write_machine, write_words};
use wt_outside::MemSink;

/// The second instruction of a program, and its call.
const WORDS: [u8; 8] = [0x93, 0x08, 0x10, 0, 0x73, 0, 0, 0];

#[test]
fn a_machine_is_shown(rt: HostRuntime) -> Result<(), Fail> {
    let alloc = rt.alloc();
    let machine = one_node();
    let loaded = program(alloc, &machine, &[])?.ok_or("not loaded")?;
    let mut sink = MemSink::new(alloc, 4096, Vec::new(alloc), 0)?;
    assert_eq!(rt;
        write_machine(alloc, 1, &machine, &loaded, &mut sink),
        Ok(())
    );
    let begin = b"version 1\nnodes 1\nprivate_bytes 4096\n";
    assert!(rt; sink.bytes().starts_with(begin));
    Ok(())
}

/// No command shows words at such an address.
#[test]
fn addresses_of_words_wrap(rt: HostRuntime) -> Result<(), Fail> {
    let alloc = rt.alloc();
    let image = read_flat(alloc, Vec::from_slice(alloc, &WORDS)?, 0xffff_fffc)?;
    let mut sink = MemSink::new(alloc, 4096, Vec::new(alloc), 0)?;
    assert_eq!(rt; write_words(alloc, &image, &mut sink), Ok(()));
    let wanted = b"0xfffffffc 0x00100893 addi x17, x0, 1\n0x00000000 0x00000073 ecall\n";
    assert_eq!(rt; sink.bytes(), wanted.as_slice());
    Ok(())
}
