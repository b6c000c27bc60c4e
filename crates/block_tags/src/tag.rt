/// What a node may do with a block by the copy that it holds.
#[derive(Clone, Copy, Debug, PartialEq, Eq)]
pub enum Tag {
    /// It holds no copy.
    Invalid,
    /// It may read its copy.
    ReadOnly,
    /// It may read and write its copy.
    Writable,
}
