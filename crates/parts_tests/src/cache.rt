ghost use Rattle.std.specs.Prelude.{◌≡◌, ◌+◌, ◌<◌, ◌≤◌, length};
ghost use Rattle.test_machines.specs.Small.{small_machine};
ghost use Rattle.target_cache.specs.Cached.{IsAccess};

use block_tags::Tag;
use std::process::Abort;
use std::test::Fail;
use target_cache::{Cache, Line, WriteHit};
use test_machines::{machine_with, small_parts};
use wt_params::{Machine, MachineParts};
use wt_proto::Block;

/// A machine of one set of two ways, with eight blocks.
fn one_set() -> Machine
    ensures { result ≡ record (small_machine 1) { blocks = 8; sets = 1; ways = 2 } }
{
    machine_with(MachineParts {
        blocks: 8,
        sets: 1,
        ways: 2,
        ..small_parts(1)
    })
}

/// A line whose bytes all are this one.
fn line(block: u32, writable: bool, byte: u8) -> Line
    ensures block { result.block ≡ block }
    ensures size { length result.bytes ≡ 16 }
{
    Line {
        block,
        writable,
        bytes: Block::new([byte; 16].as_slice()),
    }
}

/// Installs a line of a block that isn't there.
fn install(rt: &impl Abort, cache: &mut Cache, line: Line) -> Option<Line>
    requires exists { line.block < cache.old.machine.blocks }
    requires size { length line.bytes ≡ cache.old.machine.block_bytes }
    ensures { cache.new.machine ≡ cache.old.machine }
{
    assert!(rt; cache.tag(line.block) == Tag::Invalid);
    cache.install(line)
}

#[test]
fn a_set_of_two_ways(rt: HostRuntime) -> Result<(), Fail> {
    let machine = one_set();
    let mut cache = Cache::new(rt.alloc(), &machine)?;

    assert!(rt; install(&rt, &mut cache, line(0, false, 0x10)) == None);
    assert!(rt; install(&rt, &mut cache, line(1, true, 0x11)) == None);
    assert!(rt; cache.write(0, 0, 4, 1) == WriteHit::ReadOnly);
    assert!(rt; cache.write(1, 14, 2, 0xaabb_ccdd) == WriteHit::Hit);
    assert!(rt; cache.read(1, 12, 4) == Some(0xccdd_1111));
    assert!(rt; install(&rt, &mut cache, line(2, true, 0x12)) == Some(line(0, false, 0x10)));
    assert!(rt; cache.line(2) == Some(line(2, true, 0x12)));
    assert!(rt; cache.drop_block(1).is_some());
    assert!(rt; (cache.tag(1), cache.tag(2)) == (Tag::Invalid, Tag::Writable));
    Ok(())
}
