use std::test::Fail;
use test_machines::small_parts;
use wt_network::{lookahead, stamp};
use wt_params::Machine;
use wt_topology::{distance, latency, least_latency};

/// Four nodes in two rows of two.
#[test]
fn a_mesh_of_two_by_two(rt: HostRuntime) -> Result<(), Fail> {
    let mut parts = small_parts(4);
    parts.hop = 5;
    parts.width = 2;
    let machine = Machine::new(parts).ok().ok_or("refused")?;
    assert!(rt; machine.nodes() == 4);
    assert!(rt; machine.hop() == 5 && machine.width() == 2 && machine.pointers() == 0);
    for (from, to, apart) in [(0, 3, 2), (1, 2, 2), (0, 1, 1), (2, 0, 1), (1, 1, 0)] {
        assert!(rt; from < 4 && to < 4);
        assert!(rt;
            distance(&machine, from, to) == apart,
            "from {from} to {to}"
        );
    }
    assert!(rt; latency(&machine, 0, 3) == 110 && latency(&machine, 1, 1) == 10);
    assert!(rt; least_latency(&machine) == 105);
    assert!(rt; stamp(&machine, 0, 3, 7) == 117 && stamp(&machine, 1, 1, 7) == 17);
    assert!(rt; lookahead(&machine) == 105);
    Ok(())
}

/// 256 nodes, of which the last stands at the other corner; and a node alone.
#[test]
fn the_widest_mesh_and_none(rt: HostRuntime) -> Result<(), Fail> {
    let mut parts = small_parts(256);
    parts.hop = 100;
    parts.width = 16;
    let machine = Machine::new(parts).ok().ok_or("refused")?;
    assert!(rt; machine.nodes() == 256);
    assert!(rt; distance(&machine, 0, 255) == 30 && latency(&machine, 255, 0) == 3100);
    assert!(rt; least_latency(&machine) == 200);
    let mut parts = small_parts(1);
    parts.hop = 100;
    let machine = Machine::new(parts).ok().ok_or("refused")?;
    assert!(rt; least_latency(&machine) == 100);
    Ok(())
}
