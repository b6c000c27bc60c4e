//! Worked rows: what one node does at events that no run of a whole machine shows, and one run that is recorded.

/// What a message says. The bytes of a block are told by its first four as a number; the others are zero.
#[derive(Clone, Copy)]
pub enum Says {
    GetS,
    /// GetX by a node that had a copy.
    Upgrade,
    PutS,
    PutX(u32),
    DataS(u32),
    DataX(u32),
    Inv,
    Ack,
    AckWith(u32),
    Arrive,
    Leave,
    Go,
}

/// A message that comes or goes: its time, the other node, its sequence, its block, and what it says.
pub type Mail = (u64, u32, u64, u32, Says);

/// An event of the node.
#[derive(Clone, Copy)]
pub enum Act {
    Step,
    Hear(Mail),
}

/// A node of a machine of so many, its program, its events, the messages that it sends, and how many came that nobody
/// asked for.
#[derive(Clone, Copy)]
pub struct Case {
    pub nodes: u64,
    pub number: u32,
    pub words: &'static [u32],
    pub acts: &'static [Act],
    pub sends: &'static [Mail],
    pub stray: u64,
}

/// x5 becomes the begin of shared memory.
const SHARED: u32 = 0x8000_02b7;
/// x10 becomes the first word of block 0.
pub const LOAD: u32 = 0x0002_a503;
/// x10 is stored as the first word of block 0.
const STORE: u32 = 0x00a2_a023;
/// The number of the call that ends a program, and the call.
const EXIT: u32 = 0x05d0_0893;

pub const CALL: u32 = 0x0000_0073;
/// A jump to itself.
const JUMP: u32 = 0x0000_006f;

/// Node 1 of two after the block that it asked for has come.
pub const READS: Case = Case {
    nodes: 2,
    number: 1,
    words: &[SHARED, LOAD, EXIT, CALL],
    acts: &[
        Act::Step,
        Act::Step,
        Act::Hear((201, 0, 1, 0, Says::DataS(0))),
    ],
    sends: &[(101, 0, 0, 0, Says::GetS)],
    stray: 0,
};

/// Messages that no machine sends, or not then.
pub const STRAYS: [Case; 6] = [
    // Nobody is at the barrier, and block 1 has another home.
    Case {
        nodes: 2,
        number: 0,
        words: &[EXIT, CALL],
        acts: &[
            Act::Step,
            Act::Step,
            Act::Hear((3, 0, 1, 0, Says::Go)),
            Act::Hear((4, 1, 0, 1, Says::GetS)),
        ],
        sends: &[(11, 0, 0, 0, Says::Leave)],
        stray: 2,
    },
    // Node 1 has no barrier unit.
    Case {
        nodes: 4,
        number: 1,
        words: &[JUMP],
        acts: &[
            Act::Hear((0, 0, 0, 0, Says::Arrive)),
            Act::Hear((0, 0, 1, 0, Says::Leave)),
        ],
        sends: &[],
        stray: 2,
    },
    // A block of the other kind is given back, and the processor still waits.
    Case {
        nodes: 2,
        number: 1,
        words: &[SHARED, LOAD],
        acts: &[
            Act::Step,
            Act::Step,
            Act::Hear((201, 0, 1, 0, Says::DataX(7))),
        ],
        sends: &[(101, 0, 0, 0, Says::GetS), (301, 0, 1, 0, Says::PutX(7))],
        stray: 1,
    },
    // So is a block of a node that doesn't wait.
    Case {
        nodes: 2,
        number: 1,
        words: &[SHARED, LOAD],
        acts: &[Act::Step, Act::Hear((1, 0, 0, 2, Says::DataS(9)))],
        sends: &[(101, 0, 0, 2, Says::PutS)],
        stray: 1,
    },
    // Inv of an absent block.
    Case {
        nodes: 2,
        number: 1,
        words: &[SHARED, LOAD],
        acts: &[Act::Step, Act::Hear((1, 0, 0, 0, Says::Inv))],
        sends: &[(101, 0, 0, 0, Says::Ack)],
        stray: 0,
    },
    // An upgrade: the copy is gone at once, and a written one comes back with its bytes.
    Case {
        nodes: 2,
        number: 1,
        words: &[SHARED, LOAD, STORE],
        acts: &[
            Act::Step,
            Act::Step,
            Act::Hear((201, 0, 1, 0, Says::DataS(0))),
            Act::Step,
            Act::Hear((300, 0, 2, 0, Says::Inv)),
            Act::Hear((405, 0, 3, 0, Says::DataX(6))),
            Act::Hear((409, 0, 4, 0, Says::Inv)),
        ],
        sends: &[
            (101, 0, 0, 0, Says::GetS),
            (305, 0, 1, 0, Says::Upgrade),
            (400, 0, 2, 0, Says::Ack),
            (509, 0, 3, 0, Says::AckWith(0)),
        ],
        stray: 0,
    },
];
