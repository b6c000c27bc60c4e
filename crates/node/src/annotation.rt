ghost use Rattle.std.specs.Prelude.{◌≡◌, ◌^◌, ◌<◌, [], ◌∷◌, ◌++◌, IfOk, OnOk};
ghost use Rattle.node.specs.Handled.{IsStepped, give_back_of, gives_back};
ghost use Rattle.node.specs.Annotation.{annotated, checked_in, annotate_of};
ghost use Rattle.node.specs.Sound.{IsNode};

use crate::send_list::SendList;
use crate::state::{NodeState, send_home};
use cico_ops::{CicoAction, action};
use rv_decode::CicoOp;
use target_cache::Line;
use wt_params::{Machine, NoMemory};
use wt_proto::Body;
use wt_trace::Deed;

impl NodeState {
    /// Does an annotation.
    #[tactic(auto, unfolding(crate::specs::Annotation::annotate_of))]
    pub fn annotate(
        &mut self,
        machine: &Machine,
        time: u64,
        op: CicoOp,
        address: u32,
        sends: &mut SendList,
    ) -> Result<Deed, NoMemory>
        requires node { IsNode machine.now self.old }
        requires time { time < 2 ^ 40 }
        ensures { IfOk result (λ deed. IsStepped (annotate_of machine.now time op address self.old) self.new sends.old sends.new deed) }
    {
        let Some(block) = machine.block_at(address) else {
            return Ok(self.pass_annotation(machine, time));
        };
        match action(op, self.cache.tag(block)) {
            CicoAction::Nothing => Ok(self.pass_annotation(machine, time)),
            CicoAction::GetS => self.miss(machine, time, block, false, sends),
            CicoAction::GetX { had: false } => self.miss(machine, time, block, true, sends),
            CicoAction::GetX { had: true } => self.upgrade(machine, time, block, sends),
            CicoAction::PutS | CicoAction::PutX => self.check_in(machine, time, block, sends),
        }
    }

    /// Goes on after an annotation that doesn't wait.
    fn pass_annotation(&mut self, machine: &Machine, time: u64) -> Deed
        requires time { time < 2 ^ 40 }
        requires room { self.old.counters.done < 2 ^ 62 }
        ensures node { self.new ≡ annotated machine.now time self.old }
        ensures deed { result ≡ Deed.Plain }
    {
        let ready = time + machine.costs().cico;
        self.go_on(ready);
        Deed::Plain
    }

    /// Drops a copy and gives it back.
    fn check_in(
        &mut self,
        machine: &Machine,
        time: u64,
        block: u32,
        sends: &mut SendList,
    ) -> Result<Deed, NoMemory>
        requires node { IsNode machine.now self.old }
        requires exists { block < machine.now.blocks }
        requires time { time < 2 ^ 40 }
        ensures { IfOk result (λ deed. IsStepped (checked_in machine.now time block self.old) self.new sends.old sends.new deed) }
    {
        let line = self.cache.drop_block(block);
        give_back(machine, time, line, sends)?;
        self.counters.checkins += 1;
        Ok(self.pass_annotation(machine, time))
    }
}

/// Sends a line, where there is one, back to its home.
pub fn give_back(
    machine: &Machine,
    at: u64,
    line: Option<Line>,
    sends: &mut SendList,
) -> Result<(), NoMemory>
    ensures { OnOk result (sends.new ≡ sends.old ++ gives_back machine.now at line) }
{
    match line {
        Some(line) => give_line_back(machine, at, line, sends),
        None => Ok(()),
    }
}

/// Sends a line back to its home.
pub fn give_line_back(
    machine: &Machine,
    at: u64,
    line: Line,
    sends: &mut SendList,
) -> Result<(), NoMemory>
    ensures { OnOk result (sends.new ≡ sends.old ++ give_back_of machine.now at line ∷ []) }
{
    let block = line.block;
    if line.writable {
        return send_home(machine, at, block, Body::PutX { bytes: line.bytes }, sends);
    }
    send_home(machine, at, block, Body::PutS, sends)
}
