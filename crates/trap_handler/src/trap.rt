ghost use Rattle.std.specs.Prelude.{◌≡◌, ◌+◌, ◌^◌, ◌<◌, ◌≤◌, [], ◌∷◌, ◌++◌, map, length, IfOk, OnOk, OnErr};
ghost use Rattle.wt_proto.specs.declared.directory.Targets.TheVariants.{AllBut};
ghost use Rattle.trap_handler.specs.Trap.{targets_of, invalidation, busy_after};

use wt_params::{Machine, NoMemory};
use wt_proto::{Body, Msg, Outgoing, Sends, Targets, TrapPlan};

/// Runs a directory trap at time `now` on a node that earlier traps keep busy until `busy`. It adds one Inv for each
/// target to `out`, in rising order, and answers until when the node is busy now. After want of memory `out` may
/// hold some of them.
pub fn run_trap(
    plan: &TrapPlan,
    now: u64,
    busy: u64,
    machine: &Machine,
    out: &mut Sends,
) -> Result<u64, NoMemory>
    requires now_fits { now < 2 ^ 62 }
    requires busy_fits { busy < 2 ^ 62 }
    ensures busy { IfOk result (λ until. until ≡ busy_after machine.now plan.now now busy) }
    ensures sends { OnOk result (out.new ≡
        out.old ++ map (invalidation plan.now.block) (targets_of machine.now.nodes plan.now.targets)) }
{
    let targets = invalidate(plan, machine.nodes() as u32, out)?;
    let costs = machine.costs();
    Ok(busy.max(now) + costs.trap + costs.trap_each * targets)
}

/// One Inv to each target of a plan, of so many nodes. The answer is how many.
fn invalidate(plan: &TrapPlan, nodes: u32, out: &mut Sends) -> Result<u64, NoMemory>
    ensures sends { OnOk result (out.new ≡
        out.old ++ map (invalidation plan.now.block) (targets_of nodes plan.now.targets)) }
    ensures count { IfOk result (λ count. count ≡ length (targets_of nodes plan.now.targets)) }
    ensures few { IfOk result (λ count. count ≤ nodes + 1) }
{
    match plan.targets {
        Targets::AllBut { node } => invalidate_others(plan.block, node, nodes, out),
        Targets::One { node } => {
            invalidate_one(plan.block, node, out)?;
            Ok(1)
        }
    }
}

/// One Inv to each of so many nodes but one. The answer is how many.
fn invalidate_others(block: u32, spared: u32, nodes: u32, out: &mut Sends) -> Result<u64, NoMemory>
    ensures sends { OnOk result (out.new ≡
        out.old ++ map (invalidation block) (targets_of nodes (AllBut spared))) }
    ensures count { IfOk result (λ count. count ≡ length (targets_of nodes (AllBut spared))) }
    ensures few { IfOk result (λ count. count ≤ nodes) }
{
    let mut count = 0;
    for node in 0..nodes {
        if node == spared {
            continue;
        }
        invalidate_one(block, node, out)?;
        count += 1;
    }
    Ok(count)
}

/// One Inv to a node.
#[inline(always)]
fn invalidate_one(block: u32, node: u32, out: &mut Sends) -> Result<(), NoMemory>
    ensures ok { OnOk result (out.new ≡ out.old ++ invalidation block node ∷ []) }
{
    out.push(Outgoing {
        to: node,
        msg: Msg {
            block,
            body: Body::Inv,
        },
    })
}
