ghost use Rattle.std.specs.Prelude.{◌≡◌, ◌^◌, ◌<◌, ◌≤◌, ◌++◌, true, false, map, IfOk, OnOk};
ghost use Rattle.dir1sw.specs.Table.{IsSound, copies_of, IsRow, is_busy_state, grant_body, granted_to, answer_of, call_back_of, invalidation_to, invalidate_of, serve_of, request_of, put_s_of, put_x_of, wake_after, inv_ack_of, wake_of, arrive_of};

use crate::memory::BlockMemory;
use dir_list::{Few, Readers, Removed};
use wt_params::NoMemory;
use wt_proto::{Block, Body, DirEntry, DirState, Msg, Outgoing, Request, Sends, Targets, TrapPlan};

/// What a message to the directory brings, beside the messages that are sent.
#[derive(Clone, Copy, Debug, PartialEq, Eq)]
pub enum DirAct {
    /// All is done.
    Done,
    /// Software has to call copies back.
    Trap(TrapPlan),
    /// Nobody asked for the message.
    Stray,
}

/// Where a message has come: to which block, of a machine of how many nodes, with how many pointers, and from whom.
#[derive(Clone, Copy, Debug)]
pub struct Place {
    pub nodes: u32,
    pub pointers: u32,
    pub block: u32,
    pub from: u32,
}

/// What a home keeps of one block.
#[derive(Debug, Drop)]
pub struct HomeBlock {
    pub entry: DirEntry,
    pub memory: BlockMemory,
}

impl HomeBlock {
    /// Handles a message.
    pub(crate) fn arrive(
        &mut self,
        place: Place,
        body: &Body,
        out: &mut Sends,
    ) -> Result<DirAct, NoMemory>
        requires nodes { 1 ≤ place.nodes }
        requires pointers { place.pointers ≤ 4 }
        requires sound { IsSound place.pointers self.old.entry.state }
        requires count { copies_of self.old.entry.state < 2 ^ 63 }
        ensures row { IfOk result (IsRow (arrive_of place body.now self.old) self.new out.old out.new) }
        ensures sound { IsSound place.pointers self.new.entry.state }
    {
        match body {
            Body::GetS => self.request(place, false, out),
            Body::GetX { had } => {
                if *had {
                    let _ = self.put_s(place);
                }
                self.request(place, true, out)
            }
            Body::PutS => Ok(self.put_s(place)),
            Body::PutX { bytes } => self.put_x(place, bytes),
            Body::InvAck { bytes } => self.inv_ack(place, bytes, out),
            Body::Wake => self.wake(place, out),
            _ => Ok(DirAct::Stray),
        }
    }

    /// A request: it waits where the entry is busy or others wait, and is served otherwise.
    fn request(
        &mut self,
        place: Place,
        exclusive: bool,
        out: &mut Sends,
    ) -> Result<DirAct, NoMemory>
        requires pointers { place.pointers ≤ 4 }
        requires nodes { 1 ≤ place.nodes }
        requires sound { IsSound place.pointers self.old.entry.state }
        requires count { copies_of self.old.entry.state < 2 ^ 63 }
        ensures row { IfOk result (IsRow (request_of place exclusive self.old) self.new out.old out.new) }
        ensures sound { IsSound place.pointers self.new.entry.state }
    {
        let request = Request {
            node: place.from,
            exclusive,
        };
        if self.is_busy() || !self.entry.waiting.is_empty() {
            self.entry.waiting.push(request)?;
            return Ok(DirAct::Done);
        }
        self.serve(place, request, out)
    }

    /// Serves a request at an entry that isn't busy.
    fn serve(&mut self, place: Place, request: Request, out: &mut Sends) -> Result<DirAct, NoMemory>
        requires pointers { place.pointers ≤ 4 }
        requires nodes { 1 ≤ place.nodes }
        requires sound { IsSound place.pointers self.old.entry.state }
        requires count { copies_of self.old.entry.state < 2 ^ 63 }
        ensures row { IfOk result (IsRow (serve_of place request self.old) self.new out.old out.new) }
        ensures sound { IsSound place.pointers self.new.entry.state }
    {
        if request.exclusive {
            self.serve_to_write(place, request, out)
        } else {
            self.serve_to_read(place, request, out)
        }
    }

    fn serve_to_read(
        &mut self,
        place: Place,
        request: Request,
        out: &mut Sends,
    ) -> Result<DirAct, NoMemory>
        requires pointers { place.pointers ≤ 4 }
        requires kind { request.exclusive ≡ false }
        requires sound { IsSound place.pointers self.old.entry.state }
        requires count { copies_of self.old.entry.state < 2 ^ 63 }
        ensures row { IfOk result (IsRow (serve_of place request self.old) self.new out.old out.new) }
        ensures sound { IsSound place.pointers self.new.entry.state }
    {
        let readers = match &self.entry.state {
            DirState::Idle => Readers::first(request.node, place.pointers),
            DirState::Shared { readers } => readers.add(request.node, place.pointers),
            DirState::Exclusive { owner } => {
                let targets = Targets::One { node: *owner };
                return Ok(self.call_back(place, request, targets, 1));
            }
            DirState::Busy { .. } => return Ok(DirAct::Stray),
        };
        self.answer(place, request, DirState::Shared { readers }, out)
    }

    fn serve_to_write(
        &mut self,
        place: Place,
        request: Request,
        out: &mut Sends,
    ) -> Result<DirAct, NoMemory>
        requires nodes { 1 ≤ place.nodes }
        requires kind { request.exclusive ≡ true }
        requires sound { IsSound place.pointers self.old.entry.state }
        ensures row { IfOk result (IsRow (serve_of place request self.old) self.new out.old out.new) }
        ensures sound { IsSound place.pointers self.new.entry.state }
    {
        let others = match &self.entry.state {
            DirState::Idle => Some(Few::new()),
            DirState::Shared { readers } => readers.others(request.node),
            DirState::Exclusive { owner } => {
                let targets = Targets::One { node: *owner };
                return Ok(self.call_back(place, request, targets, 1));
            }
            DirState::Busy { .. } => return Ok(DirAct::Stray),
        };
        match others {
            Some(others) => self.invalidate(place, request, &others, out),
            None if place.nodes == 1 => self.grant(place, request, out),
            None => {
                let targets = Targets::AllBut { node: request.node };
                Ok(self.call_back(place, request, targets, place.nodes - 1))
            }
        }
    }

    /// Calls the copies of a few nodes back at once. With none the block is granted.
    fn invalidate(
        &mut self,
        place: Place,
        request: Request,
        others: &Few,
        out: &mut Sends,
    ) -> Result<DirAct, NoMemory>
        requires kind { request.exclusive ≡ true }
        requires sound { IsSound place.pointers self.old.entry.state }
        ensures row { IfOk result (IsRow (invalidate_of place request others.now self.old) self.new out.old out.new) }
        ensures sound { IsSound place.pointers self.new.entry.state }
    {
        let nodes = others.nodes();
        if nodes.is_empty() {
            return self.grant(place, request, out);
        }
        send_invalidations(place, nodes, out)?;
        self.entry.state = DirState::Busy {
            from: request.node,
            exclusive: request.exclusive,
            left: nodes.len() as u32,
        };
        Ok(DirAct::Done)
    }

    /// Grants the block to who asked for it and nobody else.
    fn grant(&mut self, place: Place, request: Request, out: &mut Sends) -> Result<DirAct, NoMemory>
        requires { IsSound place.pointers self.old.entry.state }
        ensures row { IfOk result (IsRow (answer_of place request (granted_to place request) self.old) self.new out.old out.new) }
        ensures sound { IsSound place.pointers self.new.entry.state }
    {
        let state = if request.exclusive {
            DirState::Exclusive {
                owner: request.node,
            }
        } else {
            let readers = Readers::first(request.node, place.pointers);
            DirState::Shared { readers }
        };
        self.answer(place, request, state, out)
    }

    /// Sends the memory to who asked for it, and goes over to a state.
    fn answer(
        &mut self,
        place: Place,
        request: Request,
        state: DirState,
        out: &mut Sends,
    ) -> Result<DirAct, NoMemory>
        requires old_sound { IsSound place.pointers self.old.entry.state }
        requires new_sound { IsSound place.pointers state }
        ensures row { IfOk result (IsRow (answer_of place request state self.old) self.new out.old out.new) }
        ensures sound { IsSound place.pointers self.new.entry.state }
    {
        let msg = Msg {
            block: place.block,
            body: data(request.exclusive, self.memory.block()),
        };
        out.push(Outgoing {
            to: request.node,
            msg,
        })?;
        self.entry.state = state;
        Ok(DirAct::Done)
    }

    /// Goes over to waiting for so many copies to come back for a request.
    fn call_back(&mut self, place: Place, request: Request, targets: Targets, left: u32) -> DirAct
        requires { 1 ≤ left }
        ensures home { self.new ≡ (call_back_of place request targets left self.old).home }
        ensures act { result ≡ (call_back_of place request targets left self.old).act }
        ensures sound { IsSound place.pointers self.new.entry.state }
    {
        self.entry.state = DirState::Busy {
            from: request.node,
            exclusive: request.exclusive,
            left,
        };
        DirAct::Trap(TrapPlan {
            block: place.block,
            targets,
        })
    }

    /// A copy to read comes back.
    fn put_s(&mut self, place: Place) -> DirAct
        requires { IsSound place.pointers self.old.entry.state }
        ensures home { self.new ≡ (put_s_of place.from self.old).home }
        ensures act { result ≡ (put_s_of place.from self.old).act }
        ensures sound { IsSound place.pointers self.new.entry.state }
        ensures count { copies_of self.new.entry.state ≤ copies_of self.old.entry.state }
    {
        let left = match &self.entry.state {
            DirState::Shared { readers } => readers.remove(place.from),
            DirState::Busy { .. } => return DirAct::Done,
            DirState::Idle | DirState::Exclusive { .. } => return DirAct::Stray,
        };
        self.entry.state = match left {
            Removed::Left { readers } => DirState::Shared { readers },
            Removed::Empty => DirState::Idle,
            Removed::Absent => return DirAct::Stray,
        };
        DirAct::Done
    }

    /// A block that could be written comes back.
    fn put_x(&mut self, place: Place, bytes: &Block) -> Result<DirAct, NoMemory>
        requires { IsSound place.pointers self.old.entry.state }
        ensures home { OnOk result (self.new ≡ (put_x_of place.from bytes.now self.old).home) }
        ensures act { IfOk result (λ act. act ≡ (put_x_of place.from bytes.now self.old).act) }
        ensures sound { IsSound place.pointers self.new.entry.state }
    {
        match self.entry.state {
            DirState::Exclusive { owner } if owner == place.from => {
                self.memory.replace(bytes)?;
                self.entry.state = DirState::Idle;
                Ok(DirAct::Done)
            }
            DirState::Busy { .. } => {
                self.memory.replace(bytes)?;
                Ok(DirAct::Done)
            }
            _ => Ok(DirAct::Stray),
        }
    }

    /// An invalidation is answered, with the bytes where the copy could be written.
    fn inv_ack(
        &mut self,
        place: Place,
        bytes: &Option<Block>,
        out: &mut Sends,
    ) -> Result<DirAct, NoMemory>
        requires nodes { 1 ≤ place.nodes }
        requires sound { IsSound place.pointers self.old.entry.state }
        ensures row { IfOk result (IsRow (inv_ack_of place bytes.now self.old) self.new out.old out.new) }
        ensures sound { IsSound place.pointers self.new.entry.state }
    {
        let DirState::Busy {
            from,
            exclusive,
            left,
        } = self.entry.state
        else {
            return Ok(DirAct::Stray);
        };
        if let Some(bytes) = bytes {
            self.memory.replace(bytes)?;
        }
        if left > 1 {
            self.entry.state = DirState::Busy {
                from,
                exclusive,
                left: left - 1,
            };
            return Ok(DirAct::Done);
        }
        let request = Request {
            node: from,
            exclusive,
        };
        let act = self.grant(place, request, out)?;
        self.wake_next(place, out)?;
        Ok(act)
    }

    /// The first request that waits is served.
    fn wake(&mut self, place: Place, out: &mut Sends) -> Result<DirAct, NoMemory>
        requires pointers { place.pointers ≤ 4 }
        requires nodes { 1 ≤ place.nodes }
        requires sound { IsSound place.pointers self.old.entry.state }
        requires count { copies_of self.old.entry.state < 2 ^ 63 }
        ensures row { IfOk result (IsRow (wake_of place self.old) self.new out.old out.new) }
        ensures sound { IsSound place.pointers self.new.entry.state }
    {
        if self.is_busy() {
            return Ok(DirAct::Stray);
        }
        let Some(request) = self.entry.waiting.pop_first() else {
            return Ok(DirAct::Stray);
        };
        let act = self.serve(place, request, out)?;
        self.wake_next(place, out)?;
        Ok(act)
    }

    /// Sends a Wake to the home itself, where the entry isn't busy and somebody waits.
    fn wake_next(&self, place: Place, out: &mut Sends) -> Result<(), NoMemory>
        requires { 1 ≤ place.nodes }
        ensures { OnOk result (out.new ≡ out.old ++ wake_after place self.now) }
    {
        if !self.is_busy() && !self.entry.waiting.is_empty() {
            let msg = Msg {
                block: place.block,
                body: Body::Wake,
            };
            out.push(Outgoing {
                to: place.block % place.nodes,
                msg,
            })?;
        }
        Ok(())
    }

    /// Whether copies are being called back.
    fn is_busy(&self) -> bool
        ensures { result ≡ is_busy_state self.now.entry.state }
    {
        matches!(self.entry.state, DirState::Busy { .. })
    }
}

/// Calls the copies of a block back from a few nodes.
fn send_invalidations(place: Place, nodes: &[u32], out: &mut Sends) -> Result<(), NoMemory>
    ensures { OnOk result (out.new ≡ out.old ++ map (invalidation_to place) nodes.now) }
{
    for node in nodes {
        let msg = Msg {
            block: place.block,
            body: Body::Inv,
        };
        out.push(Outgoing { to: *node, msg })?;
    }
    Ok(())
}

/// The message that grants a block.
fn data(exclusive: bool, bytes: Block) -> Body
    ensures { result ≡ grant_body exclusive bytes }
{
    if exclusive {
        return Body::DataX { bytes };
    }
    Body::DataS { bytes }
}
