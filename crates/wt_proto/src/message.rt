ghost use Rattle.std.specs.Prelude.{◌≡◌};
ghost use Rattle.wt_proto.specs.Messages.{key_of};

use crate::block::Block;
use crate::key::Key;

/// What a message says. The first six and the grants speak of a block, the last three of the barrier.
#[derive(Debug, Drop, PartialEq, Eq)]
pub enum Body {
    /// Asks a home for a copy to read.
    GetS,
    /// Asks a home for the block alone. `had` tells that the asking node has just dropped a copy to read.
    GetX { had: bool },
    /// Gives a copy to read back to the home.
    PutS,
    /// Gives a block that could be written back to the home.
    PutX { bytes: Block },
    /// Grants a copy to read.
    DataS { bytes: Block },
    /// Grants the block alone.
    DataX { bytes: Block },
    /// Tells a node to drop its copy.
    Inv,
    /// Answers an Inv, with the bytes where the copy could be written.
    InvAck { bytes: Option<Block> },
    /// Tells a home to go on with the requests that wait for a block.
    Wake,
    /// A processor has come to the barrier.
    Arrive,
    /// A program has ended, so nobody has to wait for it any more.
    Leave,
    /// The barrier is open.
    Go,
}

impl Body {
    /// The same once more.
    pub fn copy(&self) -> Body
        ensures { result ≡ self.now }
    {
        match self {
            Body::GetS => Body::GetS,
            Body::GetX { had } => Body::GetX { had: *had },
            Body::PutS => Body::PutS,
            Body::PutX { bytes } => Body::PutX {
                bytes: bytes.copy(),
            },
            Body::DataS { bytes } => Body::DataS {
                bytes: bytes.copy(),
            },
            Body::DataX { bytes } => Body::DataX {
                bytes: bytes.copy(),
            },
            Body::Inv => Body::Inv,
            Body::InvAck { bytes: None } => Body::InvAck { bytes: None },
            Body::InvAck { bytes: Some(bytes) } => Body::InvAck {
                bytes: Some(bytes.copy()),
            },
            Body::Wake => Body::Wake,
            Body::Arrive => Body::Arrive,
            Body::Leave => Body::Leave,
            Body::Go => Body::Go,
        }
    }
}

/// A message, without its way. `block` is 0 for Arrive, Leave and Go.
#[derive(Debug, Drop, PartialEq, Eq)]
pub struct Msg {
    pub block: u32,
    pub body: Body,
}

impl Msg {
    /// The same once more.
    pub fn copy(&self) -> Msg
        ensures { result ≡ self.now }
    {
        Msg {
            block: self.block,
            body: self.body.copy(),
        }
    }
}

/// A message that a node is about to send.
#[derive(Debug, Drop, PartialEq, Eq)]
pub struct Outgoing {
    pub to: u32,
    pub msg: Msg,
}

/// A message under way: when it arrives, where, from whom, and which of its source's sends it is.
#[derive(Debug, Drop, PartialEq, Eq)]
pub struct Stamped {
    pub time: u64,
    pub to: u32,
    pub from: u32,
    pub sequence: u64,
    pub msg: Msg,
}

impl Stamped {
    /// The key of its arrival.
    pub fn key(&self) -> Key
        ensures { result ≡ key_of self.now }
    {
        Key {
            time: self.time,
            to: self.to,
            from: self.from,
            sequence: self.sequence,
        }
    }

    /// The same once more.
    pub fn copy(&self) -> Stamped
        ensures { result ≡ self.now }
    {
        Stamped {
            time: self.time,
            to: self.to,
            from: self.from,
            sequence: self.sequence,
            msg: self.msg.copy(),
        }
    }
}

/// A message that couldn't be taken for want of memory.
#[derive(Debug, Drop, PartialEq, Eq)]
pub struct Back {
    pub message: Stamped,
}
