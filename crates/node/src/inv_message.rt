ghost use Rattle.std.specs.Prelude.{◌≡◌, ◌<◌, [], ◌∷◌, ◌++◌, None, IfOk, OnOk};
ghost use Rattle.wt_proto.specs.declared.message.Body.TheVariants.{InvAck};
ghost use Rattle.node.specs.Handled.{IsHandled, to_home};
ghost use Rattle.node.specs.InvMessage.{inv_message_of, dirty_bytes};
ghost use Rattle.node.specs.Sound.{IsNode};

use crate::send_list::SendList;
use crate::state::{Course, NodeState, send_home};
use target_cache::Line;
use wt_params::{Machine, NoMemory};
use wt_proto::{Block, Body};
use wt_trace::Deed;

impl NodeState {
    /// A copy is called back.
    #[tactic(auto, unfolding(crate::specs::InvMessage::inv_message_of))]
    pub fn inv_message(
        &mut self,
        machine: &Machine,
        time: u64,
        block: u32,
        sends: &mut SendList,
    ) -> Result<Course, NoMemory>
        requires node { IsNode machine.now self.old }
        requires exists { block < machine.now.blocks }
        ensures { IfOk result (λ course. IsHandled (inv_message_of machine.now time block self.old) self.new sends.old sends.new course) }
    {
        match self.cache.drop_block(block) {
            Some(line) => {
                self.counters.invs += 1;
                acknowledge(machine, time, block, dirty(line), sends)
            }
            None => acknowledge(machine, time, block, None, sends),
        }
    }
}

/// Tells the home that the node has no copy any more.
fn acknowledge(
    machine: &Machine,
    time: u64,
    block: u32,
    bytes: Option<Block>,
    sends: &mut SendList,
) -> Result<Course, NoMemory>
    ensures sends { OnOk result (sends.new ≡ sends.old ++ to_home machine.now time block (InvAck bytes) ∷ []) }
    ensures course { IfOk result (λ course. (course.deed ≡ Deed.Plain) × (course.trap ≡ None)) }
{
    send_home(machine, time, block, Body::InvAck { bytes }, sends)?;
    Ok(Course {
        deed: Deed::Plain,
        trap: None,
    })
}

/// The bytes of a line that its home doesn't have.
fn dirty(line: Line) -> Option<Block>
    ensures { result ≡ dirty_bytes line }
{
    if !line.writable {
        return None;
    }
    Some(line.bytes)
}
