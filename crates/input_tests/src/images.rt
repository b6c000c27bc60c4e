use elf_image::{Bytes, Image, Segment, Segments, read_elf, read_flat};
use std::alloc::Global;
use std::test::Fail;

/// A file as the usual linker writes it: two program headers at 52 and 84, of which the second is to be loaded, and
/// from 116 on six instructions.
const FILE: &[u8; 140] =
    b"\x7fELF\x01\x01\x01\0\0\0\0\0\0\0\0\0\x02\0\xf3\0\x01\0\0\0\x74\0\x01\0\x34\0\0\0\0\0\0\0\0\0\0\0\x34\0\x20\0\x02\0\x28\0\0\0\0\0\x03\0\0\x70\0\0\0\0\0\0\0\0\0\0\0\0\0\0\0\0\0\0\0\0\x04\0\0\0\x01\0\0\0\x01\0\0\0\0\0\0\0\0\0\x01\0\0\0\x01\0\x8c\0\0\0\x8c\0\0\0\x05\0\0\0\0\x10\0\0\x13\x05\x10\x04\x93\x08\x10\0\x73\0\0\0\x93\x08\xd0\x05\x13\x05\0\0\x73\0\0\0";

/// Changes of bytes of the file, and the length at which it is cut, and what reading it answers.
const ROWS: &str = "0 => Short
51 => Short
52 => TableOutside
115 => TableOutside
116 => SegmentOutside
139 => SegmentOutside
140 => ok
0=126 => Magic
3=71 => Magic
4=2 => Class
5=2 => Order
6=9 => ok
16=3 => NotExec
17=1 => NotExec
18=242 => Machine
42=33 => Entries
28=76 => NoLoad
28=77 => TableOutside
44=3 => TableOutside
44=255 45=255 => TableOutside
28=224 29=255 30=255 31=255 => TableOutside
52=2 55=0 => Dynamic
52=3 55=0 => Dynamic
52=4 55=0 => ok
84=2 => Dynamic
100=139 88=1 => ok
88=1 => SegmentOutside
88=255 89=255 90=255 91=255 => SegmentOutside
104=139 => SizeLess
104=141 => ok
107=255 => ok
84=0 => NoLoad
44=1 => NoLoad
44=0 => NoLoad
84=3 52=1 55=0 68=1 => Dynamic
88=1 52=1 55=0 68=1 => SegmentOutside";

/// What reading the file with these changes answers.
fn answer(alloc: Global, changes: &str) -> Result<String, Fail> {
    let mut file = FILE.to_vec(alloc)?;
    for change in changes.split(' ') {
        match change.split_once('=') {
            Some((place, byte)) => {
                let place: usize = place.parse()?;
                if let Some(cell) = file.get_mut(place) {
                    *cell = byte.parse()?;
                }
            }
            None => file.truncate(change.parse()?),
        }
    }
    match read_elf(alloc, &file) {
        Ok(_) => Ok(String::from_str(alloc, "ok")?),
        Err(fault) => Ok(format!(in alloc; "{fault:?}")?),
    }
}

#[test]
fn each_fault_and_its_good_side(rt: HostRuntime) -> Result<(), Fail> {
    for row in ROWS.split('\n') {
        let (changes, wanted) = row.split_once(" => ").ok_or("no answer in a row")?;
        assert!(rt; answer(rt.alloc(), changes)?.as_str() == wanted, "{row}");
    }
    Ok(())
}

#[test]
fn an_executable_and_flat_bytes(rt: HostRuntime) -> Result<(), Fail> {
    let alloc = rt.alloc();
    let image = read_elf(alloc, FILE)?;
    let segments = image.segments.into_inner();
    assert!(rt; image.entry == 0x10074 && segments.len() == 1);
    let segment = &segments[0];
    assert!(rt; segment.at == 0x10000 && segment.size == 140);
    assert!(rt; segment.bytes.get() == FILE.as_slice());

    let flat = read_flat(alloc, [0x13, 0, 0].to_vec(alloc)?, 8)?;
    let told = format!(in alloc; "{flat:?}")?;
    let wanted = "Image { entry: 8, segments: Segments { inner: \
[Segment { at: 8, bytes: Bytes { inner: [19, 0, 0] }, size: 3 }] } }";
    assert!(rt; told.as_str() == wanted, "{told}");
    Ok(())
}
