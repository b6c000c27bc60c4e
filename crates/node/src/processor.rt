ghost use Rattle.std.specs.Prelude.{◌≡◌, ◌^◌, ◌<◌, IfOk};
ghost use Rattle.node.specs.Handled.{IsStepped};
ghost use Rattle.node.specs.Processor.{fetch_of, execute_of, step_by};
ghost use Rattle.node.specs.Sound.{IsNode};

use crate::send_list::SendList;
use crate::state::NodeState;
use rv_decode::decode;
use rv_exec::{Effect, execute};
use wt_params::{Machine, NoMemory};
use wt_proto::Cause;
use wt_trace::Deed;

impl NodeState {
    /// The word at the pc. None exactly where the pc lies outside private memory.
    pub fn fetch(&self, machine: &Machine) -> Option<u32>
        requires { IsNode machine.now self.now }
        ensures { result ≡ fetch_of machine.now self.now }
    {
        self.private.load(self.pc, 4).ok()
    }

    /// Does the word that was fetched, or stops where none could be.
    #[inline(always)]
    pub fn step(
        &mut self,
        machine: &Machine,
        time: u64,
        word: Option<u32>,
        sends: &mut SendList,
    ) -> Result<Deed, NoMemory>
        requires node { IsNode machine.now self.old }
        requires time { time < 2 ^ 40 }
        ensures { IfOk result (λ deed. IsStepped (step_by machine.now time self.old word) self.new sends.old sends.new deed) }
    {
        match word {
            Some(word) => self.execute(machine, time, word, sends),
            None => {
                let address = self.pc;
                Ok(self.stop(Cause::Fetch { address }))
            }
        }
    }

    /// Does the instruction of a word. (Answers of calls that aren't inlined are copied, so that the others stay in
    /// registers. The same for loads and stores.)
    #[tactic(auto, unfolding(crate::specs::Processor::execute_of))]
    #[inline(always)]
    fn execute(
        &mut self,
        machine: &Machine,
        time: u64,
        word: u32,
        sends: &mut SendList,
    ) -> Result<Deed, NoMemory>
        requires node { IsNode machine.now self.old }
        requires time { time < 2 ^ 40 }
        ensures { IfOk result (λ deed. IsStepped (execute_of machine.now time word self.old) self.new sends.old sends.new deed) }
    {
        let pc = self.pc;
        match execute(&mut self.registers, pc, &decode(word), &machine.costs()) {
            Effect::Next { pc, cost } => {
                self.move_on(pc, time + cost);
                Ok(Deed::Plain)
            }
            Effect::Load { op, rd, address } => self.load(machine, time, op, rd, address, sends),
            Effect::Store { op, address, value } => {
                self.store(machine, time, op, address, value, sends)
            }
            Effect::Cico { op, address } => {
                let deed = self.annotate(machine, time, op, address, sends)?;
                Ok(deed)
            }
            Effect::Call => {
                let deed = self.call(machine, time, sends)?;
                Ok(deed)
            }
            Effect::Break => Ok(self.stop(Cause::Break)),
            Effect::BadTarget { target } => Ok(self.stop(Cause::Target { address: target })),
            Effect::Illegal => Ok(self.stop(Cause::Illegal { word })),
        }
    }
}
