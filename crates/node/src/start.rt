ghost use Rattle.std.specs.Prelude.{◌≡◌, ◌<◌, All, length, IfOk, IsSomeAnd};
ghost use Rattle.wt_params.specs.Machine.{IsMachine};
ghost use Rattle.dir1sw.specs.Fits.{HomeFits};
ghost use Rattle.image_loader.specs.Images.{IsFor, image_of};
ghost use Rattle.image_loader.specs.Loading.{IsProgram, shared_bytes};
ghost use Rattle.node.specs.Start.{start_node, start_registers};

use crate::output::Output;
use crate::state::NodeState;
use image_loader::Loaded;
use rv_exec::Regs;
use start_memories::{directory_at_start, private_at_start};
use std::alloc::Global;
use target_barrier::BarrierUnit;
use target_cache::Cache;
use wt_params::{Machine, NoMemory};
use wt_proto::Mode;
use wt_stats::Counters;
use wt_trace::NodeLog;

impl NodeState {
    /// A node at the start, with the images in its memories.
    #[tactic(auto, unfolding(crate::specs::Start::start_node))]
    pub fn new(
        alloc: Global,
        machine: &Machine,
        number: u32,
        loaded: &Loaded,
        traced: bool,
    ) -> Result<NodeState, NoMemory>
        requires number { number < machine.now.nodes }
        requires images { IsFor machine.now loaded.now }
        ensures start { IfOk result (λ node. node ≡ start_node machine.now loaded.now traced number) }
        ensures numbers { IsMachine machine.now }
        ensures program { IsSomeAnd (image_of loaded.now number) (IsProgram loaded.now.private_bytes (shared_bytes loaded.now)) }
        ensures size { IfOk result (λ node. length node.private ≡ machine.now.private_bytes) }
        ensures homes { IfOk result (λ node. All (HomeFits machine.now) node.directory.blocks) }
    {
        let parts = machine.parts();
        let image = loaded.image(number);
        let private = private_at_start(alloc, machine, loaded, number)?;
        let directory = directory_at_start(alloc, machine, loaded, number)?;
        let cache = Cache::new(alloc, machine)?;
        Ok(NodeState {
            number,
            registers: start_registers(machine, number),
            pc: image.entry,
            mode: Mode::Running,
            ready: 0,
            busy: 0,
            private,
            cache,
            directory,
            barrier: BarrierUnit::new(parts.nodes as u32),
            counters: Counters::default(),
            output: Output::new(alloc),
            last: None,
            traced,
            log: NodeLog::new(alloc),
        })
    }
}

/// The registers at the start: x2, x10 and x11 are set.
fn start_registers(machine: &Machine, number: u32) -> Regs
    ensures { result ≡ start_registers machine.now number }
{
    let mut registers = Regs::new();
    registers.set(2, machine.private_bytes() as u32);
    registers.set(10, number);
    registers.set(11, machine.nodes() as u32);
    registers
}
