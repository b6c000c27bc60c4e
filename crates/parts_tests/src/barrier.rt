use std::process::Abort;
use target_barrier::{BarrierUnit, Release};

/// What a row is to bring.
#[derive(Clone, Copy)]
enum Want {
    Hold,
    Go(&'static [u32]),
    Stray,
}

#[derive(Clone, Copy)]
struct Row {
    arrives: bool,
    node: u32,
    want: Want,
}

const fn arrives(node: u32, want: Want) -> Row {
    Row {
        arrives: true,
        node,
        want,
    }
}

const fn leaves(node: u32, want: Want) -> Row {
    Row {
        arrives: false,
        node,
        want,
    }
}

fn assert_release(rt: &impl Abort, release: &Release, want: Want, node: u32) {
    match release {
        Release::Hold => assert!(rt; matches!(want, Want::Hold), "at {node}"),
        Release::Stray => assert!(rt; matches!(want, Want::Stray), "at {node}"),
        Release::Go { nodes } => {
            let Want::Go(list) = want else {
                assert!(rt; false, "at {node}");
                return;
            };
            let mut i = 0u32;
            for wanted in list {
                assert!(rt; nodes.get(i) == Some(*wanted), "at {node}");
                i = i.saturating_add(1);
            }
            assert!(rt; nodes.get(i) == None, "at {node}");
        }
    }
}

#[test]
fn four_nodes_come_and_leave(rt: HostRuntime) {
    let rows = [
        arrives(0, Want::Hold),
        arrives(0, Want::Stray),
        arrives(2, Want::Hold),
        arrives(1, Want::Hold),
        leaves(3, Want::Go(&[0, 1, 2])),
        leaves(3, Want::Stray),
        arrives(3, Want::Stray),
        arrives(1, Want::Hold),
        leaves(1, Want::Stray),
        leaves(0, Want::Hold),
        arrives(2, Want::Go(&[1, 2])),
        leaves(1, Want::Hold),
        leaves(2, Want::Hold),
    ];
    let mut unit = BarrierUnit::new(4);
    for row in rows {
        assert!(rt; row.node < 4);
        let release = if row.arrives {
            unit.arrive(row.node)
        } else {
            unit.leave(row.node)
        };
        assert_release(&rt, &release, row.want, row.node);
    }
    let mut alone = BarrierUnit::new(1);
    assert_release(&rt, &alone.arrive(0), Want::Go(&[0]), 0);
}
