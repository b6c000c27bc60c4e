use std::test::Fail;
use test_machines::four_nodes;
use trap_handler::run_trap;
use wt_proto::{Body, Msg, Outgoing, Sends, Targets, TrapPlan};

#[test]
fn traps_cost_and_invalidate(rt: HostRuntime) -> Result<(), Fail> {
    let machine = four_nodes();
    let others = [0u32, 1, 3];
    for (targets, busy, until, wanted) in [
        (Targets::AllBut { node: 2 }, 0, 365, others.as_slice()),
        (Targets::AllBut { node: 2 }, 400, 665, others.as_slice()),
        (Targets::One { node: 2 }, 0, 355, [2u32].as_slice()),
    ] {
        assert!(rt; busy < 1000);
        let plan = TrapPlan { block: 3, targets };
        let mut out = Sends::new(rt.alloc());
        assert!(rt; run_trap(&plan, 100, busy, &machine, &mut out)? == until);
        for to in wanted {
            let msg = Msg {
                block: 3,
                body: Body::Inv,
            };
            assert!(rt; out.pop_first() == Some(Outgoing { to: *to, msg }));
        }
        assert!(rt; out.pop_first() == None);
    }
    Ok(())
}
