use wt_proto::Block;

/// A copy of a block, to read or also to write.
#[derive(Debug, Drop, PartialEq, Eq)]
pub struct Line {
    pub block: u32,
    pub writable: bool,
    pub bytes: Block,
}

/// A line without its bytes.
#[derive(Clone, Copy, Debug, PartialEq, Eq)]
pub(crate) struct Head {
    pub block: u32,
    pub writable: bool,
}
